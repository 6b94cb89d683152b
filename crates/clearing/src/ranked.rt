// The entries of a table by what a ranking rule sees of them, and the last of a member's among all.
ghost use Rattle.std.specs.Prelude.{◌≡◌, ◌<◌, ◌≤◌, length};
ghost use Rattle.clearing.specs.Balances.{LastKept};
ghost use Rattle.clearing.specs.Choices.{key_at};
ghost use Rattle.clearing.specs.Lanes.{comes_after};
ghost use Rattle.clearing.specs.Table.{entries};

use crate::place::Place;
use rules::ranking::{Key, Ranking};

// The places of a table, at most 4,096, and the rule that ranks their entries.
#[derive(Drop)]
pub(crate) struct Ranked<'a, R> {
    pub(crate) rule: &'a R,
    pub(crate) places: &'a [Place],
    ghost few: { length places.now ≤ 4096 },
}

impl<R: Ranking> Ranked<'_, R> {
    // What the rule may look at of the entry at a place.
    fn key_at(&self, at: usize) -> Key
        requires { at < length self.now.places.now }
        ensures { result ≡ key_at (entries self.now.places.now) at }
    {
        let entry = self.places[at].entry;
        Key {
            record_type: entry.record_type,
            worth: entry.worth,
            number: at + 1,
        }
    }

    // Whether the entry at the first place stands before that at the second.
    fn stands_before(&self, a: usize, b: usize) -> bool
        requires { (a < length self.now.places.now) × (b < length self.now.places.now) }
        ensures { result ≡ R.Ranking.ahead self.now.rule.now (key_at (entries self.now.places.now) a) (key_at (entries self.now.places.now) b) }
    {
        self.rule.before(self.key_at(a), self.key_at(b))
    }

    // Whether the entry of the second number stands behind that of the first, or there is none of the first.
    pub(crate) fn comes_after(&self, a: u16, b: u16) -> bool
        requires { (a ≤ length self.now.places.now) × (b ≤ length self.now.places.now) }
        ensures { result ≡ comes_after (R.Ranking.ahead self.now.rule.now) (entries self.now.places.now) a b }
    {
        b != 0 && (a == 0 || self.stands_before(usize::from(a) - 1, usize::from(b) - 1))
    }

    // The place of the member's last kept entry.
    pub(crate) fn last_of(&self, member: usize) -> Option<usize>
        ensures { LastKept (R.Ranking.ahead self.now.rule.now) self.now.places.now member result }
    {
        let mut last = None;
        for (at, place) in self.places.iter().enumerate() {
            if place.is_kept_of(member) {
                last = match last {
                    Some(so_far) if !self.stands_before(so_far, at) => last,
                    _ => Some(at),
                };
            }
        }
        last
    }
}
