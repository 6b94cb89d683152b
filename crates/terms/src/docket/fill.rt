// Filling a docket anew, and what it says.
ghost use Rattle.std.specs.Prelude.{◌≡◌, ℕ, ◌≤◌, true, length, take};
ghost use Rattle.terms.specs.Dockets.{Left, answer_of, built_in, day_of, filled, roll_of, said_by};
ghost use Rattle.terms.specs.Rolls.{is_roll, place_in};

use crate::currency::Currency;
use crate::cycle::Cycle;
use crate::date::is_day;
use crate::docket::roll::{is_roll, place_in};
use crate::docket::{Docket, HINTS, ROLL_MOST};
use crate::refusal::Refusal;

// The codes at the front of a full array.
fn padded(roll: &[u16]) -> [u16; ROLL_MOST]
    requires { length roll.now ≤ 64 }
    ensures { take (length roll.now) result ≡ roll.now }
{
    let mut codes = [0; ROLL_MOST];
    codes[0..roll.len()].copy_from_slice(roll);
    codes
}

// For each code of the roll its place, as a hint: nothing is promised of it, since whoever follows a hint tests it.
fn hints_of(roll: &[u16]) -> [u8; HINTS]
    requires { is_roll roll.now ≡ true }
{
    let mut hints = [0; HINTS];
    for (place, code) in roll.iter().enumerate() {
        hints[usize::from(*code)] = place as u8;
    }
    hints
}

impl Docket {
    // The docket that is built in, until it is filled.
    pub fn built_in() -> Docket
        ensures { day_of result ≡ built_in }
    {
        let mut codes = [0; ROLL_MOST];
        codes[0] = 1;
        codes[1] = 2;
        Docket {
            date: 20_000_103,
            cycle: Cycle::Morning,
            currency: Currency::Soles,
            codes,
            members: 2,
            hints: hints_of(&codes[0..2]),
        }
    }

    // A docket of these, or why there is none.
    fn of(date: u32, cycle: u8, currency: u8, roll: &[u16]) -> Result<Docket, Refusal>
        ensures { said_by result ≡ filled date cycle currency roll.now }
    {
        if !is_roll(roll) {
            return Err(Refusal::RollRule);
        }
        let cycle = Cycle::try_from(cycle).map_err(|_| Refusal::DocketValue)?;
        let currency = Currency::try_from(currency).map_err(|_| Refusal::DocketValue)?;
        if !is_day(date) {
            return Err(Refusal::DocketValue);
        }
        Ok(Docket {
            date,
            cycle,
            currency,
            codes: padded(roll),
            members: roll.len(),
            hints: hints_of(roll),
        })
    }

    // Fills the docket anew; where it is refused it stays as it was.
    pub fn fill(&mut self, date: u32, cycle: u8, currency: u8, roll: &[u16]) -> Result<(), Refusal>
        ensures answer { result ≡ answer_of (filled date cycle currency roll.now) }
        ensures left { Left (filled date cycle currency roll.now) self.old self.new }
    {
        *self = Docket::of(date, cycle, currency, roll)?;
        Ok(())
    }

    pub fn date(&self) -> u32
        ensures { result ≡ (day_of self.now).date }
    {
        self.date
    }

    pub fn cycle(&self) -> Cycle
        ensures { result ≡ (day_of self.now).cycle }
    {
        self.cycle
    }

    pub fn currency(&self) -> Currency
        ensures { result ≡ (day_of self.now).currency }
    {
        self.currency
    }

    // The member codes, rising.
    pub fn roll(&self) -> &[u16]
        ensures codes { result.now ≡ roll_of self.now }
        ensures few { length result.now ≤ 64 }
    {
        &self.codes[0..self.members]
    }

    // Where on the roll to look first for a code; 0 serves for a number that is no code.
    fn hint(&self, code: u16) -> usize {
        self.hints
            .get(usize::from(code))
            .map_or(0, |hint| usize::from(*hint))
    }

    // The place of a member on the roll, from 0. A code stands on it once, so where the hint finds it is its place.
    // Each row of a file asks this, nearly always for a member, so the search is seldom made.
    pub fn place_of(&self, code: u16) -> Option<usize>
        ensures { result ≡ place_in (roll_of self.now) code }
    {
        let place = self.hint(code);
        if place < self.members && self.codes[place] == code {
            return Some(place);
        }
        place_in(self.roll(), code)
    }
}
