// The currency of a session or a file.
ghost use Rattle.terms.specs.Numbers.{currency_number, currency_of};
ghost use Rattle.terms.specs.Unknown.{named};
ghost use Rattle.std.specs.Prelude.{◌≡◌};

use crate::unknown::UnknownNumber;
use std::fmt;

#[derive(Clone, Copy, Debug, PartialEq, Eq)]
pub enum Currency {
    Soles = 1,
    Dollars = 2,
}

// The number that files and results carry for it.
impl From<Currency> for u8 {
    ghost from_gives = { λ currency number. number ≡ currency_number currency };

    fn from(currency: Currency) -> u8 {
        currency as u8
    }
}

// The currency with that number.
impl TryFrom<u8> for Currency {
    type Error = UnknownNumber;

    ghost try_from_gives = { λ number answer. answer ≡ named (currency_of number) number };

    fn try_from(number: u8) -> Result<Currency, UnknownNumber> {
        match number {
            1 => Ok(Currency::Soles),
            2 => Ok(Currency::Dollars),
            _ => Err(UnknownNumber(number)),
        }
    }
}

impl fmt::Display for Currency {
    fn fmt<W: fmt::Write>(&self, f: &mut fmt::Formatter<W>) -> fmt::Result {
        f.pad(match self {
            Currency::Soles => "soles",
            Currency::Dollars => "dollars",
        })
    }
}
