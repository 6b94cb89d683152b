// The docket of a session: its date, cycle and currency, and the roll of its members.
ghost use Rattle.std.specs.Prelude.{◌≡◌, ℕ, ◌+◌, ◌<◌, ◌≤◌, true, slice_index};
ghost use Rattle.terms.specs.Dates.{is_day};

use crate::currency::Currency;
use crate::cycle::Cycle;
use crate::docket::roll::CODE_MOST;

pub mod fill;
pub mod roll;

// The most members that a roll may have.
pub const ROLL_MOST: usize = 64;

// A hint for each member code, and one for 0.
const HINTS: usize = CODE_MOST as usize + 1;

// A lawful docket: whatever fills it, the roll rises and everything is in range.
#[derive(Clone, Copy)]
pub struct Docket {
    date: u32,
    cycle: Cycle,
    currency: Currency,
    // An array with its length and no `Vec`: a docket is copied, and made without asking for memory.
    codes: [u16; ROLL_MOST],
    members: usize,
    // By code, where on the roll to look for it first. A wrong hint costs a search and never a wrong answer, so no ghost field speaks of the hints.
    hints: [u8; HINTS],
    ghost dated: { is_day date ≡ true },
    ghost least: { 2 ≤ members },
    ghost most: { members ≤ 64 },
    ghost first: { 1 ≤ slice_index codes 0 },
    ghost rising: { (i : ℕ) → i + 1 < members → slice_index codes i < slice_index codes (i + 1) },
    ghost last: { (i : ℕ) → i < members → slice_index codes i ≤ 999 },
}
