// The cycle of the day in which a session runs.
ghost use Rattle.terms.specs.Numbers.{cycle_number, cycle_of};
ghost use Rattle.terms.specs.Unknown.{named};
ghost use Rattle.std.specs.Prelude.{◌≡◌};

use crate::unknown::UnknownNumber;
use std::fmt;

#[derive(Clone, Copy, Debug, PartialEq, Eq)]
pub enum Cycle {
    Morning = 1,
    Intermediate = 2,
    Afternoon = 3,
}

// The number that files and results carry for it.
impl From<Cycle> for u8 {
    ghost from_gives = { λ cycle number. number ≡ cycle_number cycle };

    fn from(cycle: Cycle) -> u8 {
        cycle as u8
    }
}

// The cycle with that number.
impl TryFrom<u8> for Cycle {
    type Error = UnknownNumber;

    ghost try_from_gives = { λ number answer. answer ≡ named (cycle_of number) number };

    fn try_from(number: u8) -> Result<Cycle, UnknownNumber> {
        match number {
            1 => Ok(Cycle::Morning),
            2 => Ok(Cycle::Intermediate),
            3 => Ok(Cycle::Afternoon),
            _ => Err(UnknownNumber(number)),
        }
    }
}

impl fmt::Display for Cycle {
    fn fmt<W: fmt::Write>(&self, f: &mut fmt::Formatter<W>) -> fmt::Result {
        f.pad(match self {
            Cycle::Morning => "morning",
            Cycle::Intermediate => "intermediate",
            Cycle::Afternoon => "afternoon",
        })
    }
}
