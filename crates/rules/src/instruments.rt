// The shipped instruments, and either of them as one type.
ghost use Rattle.rules.specs.Instruments.{any_instrument, limit_of};
ghost use Rattle.std.specs.Prelude.{◌≡◌};
ghost use Rattle.std.proofs.Common.{rules};
ghost use Rattle.rules.specs.declared.instruments.AnyInstrument.TheVariants.{Transfers, Debits};

pub mod debits;
pub mod transfers;

use crate::instrument::{Denial, Instrument};
use crate::instruments::debits::ChargedDebits;
use crate::instruments::transfers::CreditTransfers;
use std::fmt;
use terms::currency::Currency;

// The highest commission of every instrument.
pub const COMMISSION_LIMIT: u16 = 10_000;

// The highest amount of an instrument in each currency.
#[derive(Clone, Copy)]
pub(crate) struct AmountLimits {
    pub(crate) soles: u32,
    pub(crate) dollars: u32,
}

impl AmountLimits {
    pub(crate) fn of(self, currency: Currency) -> u32
        ensures { result ≡ limit_of self currency }
    {
        match currency {
            Currency::Soles => self.soles,
            Currency::Dollars => self.dollars,
        }
    }
}

// Either instrument, so that one list of calls can mix them. Not one `Either` for instruments, rankings and sources, whose cases would say Left and Right.
#[derive(Clone, Copy)]
pub enum AnyInstrument {
    Transfers,
    Debits,
}

impl Instrument for AnyInstrument {
    ghost meaning = { any_instrument };

    ghost limited = { elim [ Transfers ↦ Prim.search rules | Debits ↦ Prim.search rules ] };

    fn admit(
        &self,
        record_type: u8,
        currency: Currency,
        amount: u32,
        commission: u16,
    ) -> Result<u32, Denial> {
        match *self {
            AnyInstrument::Transfers => CreditTransfers.admit(
                record_type,
                currency,
                amount,
                commission,
            ),
            AnyInstrument::Debits => ChargedDebits.admit(record_type, currency, amount, commission),
        }
    }

    fn origin_pays(&self) -> bool {
        match *self {
            AnyInstrument::Transfers => CreditTransfers.origin_pays(),
            AnyInstrument::Debits => ChargedDebits.origin_pays(),
        }
    }

    fn takes_returns(&self) -> bool {
        match *self {
            AnyInstrument::Transfers => CreditTransfers.takes_returns(),
            AnyInstrument::Debits => ChargedDebits.takes_returns(),
        }
    }
}

impl fmt::Display for AnyInstrument {
    fn fmt<W: fmt::Write>(&self, f: &mut fmt::Formatter<W>) -> fmt::Result {
        f.pad(match self {
            AnyInstrument::Transfers => "transfers",
            AnyInstrument::Debits => "debits",
        })
    }
}
