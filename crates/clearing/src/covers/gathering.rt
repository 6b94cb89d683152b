// Covers as a source gives them for the members on a roll.
ghost use Rattle.std.specs.Prelude.{◌≡◌, ◌<◌, ℕ};
ghost use Rattle.clearing.specs.Table.{cover_on_roll, cover_of};

use crate::covers::Covers;
use crate::place::MEMBERS;
use rules::cover::CoverSource;
use std::array;

// What the source gives the member at one of the 64 places; a place past the end of the roll has no member.
fn cover_at<C: CoverSource>(source: &C, roll: &[u16], place: usize) -> u64
    requires { place < 64 }
    ensures { result ≡ cover_on_roll (C.CoverSource.covers source.now) roll.now place }
{
    roll.get(place).map_or(0, |code| source.cover(*code))
}

impl Covers {
    // No cover for any member.
    pub fn none() -> Covers
        ensures { (m : ℕ) → cover_of result m ≡ 0 }
    {
        Covers {
            amounts: [0; MEMBERS],
        }
    }

    // Asks the source for each member on the roll; a place with no member has no cover.
    pub fn gather<C: CoverSource>(source: &C, roll: &[u16]) -> Covers
        ensures { (m : ℕ) → cover_of result m ≡ cover_on_roll (C.CoverSource.covers source.now) roll.now m }
    {
        Covers {
            amounts: array::from_fn(|place| cover_at(source, roll, place)),
        }
    }

    // The cover of the member at that place on the roll.
    pub fn amount(&self, place: u8) -> u64
        ensures { result ≡ cover_of self.now place }
    {
        self.amounts.get(usize::from(place)).copied().unwrap_or(0)
    }
}
