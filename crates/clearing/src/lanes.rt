// The kept entries of each payer by rank. An entry is put on top of the first lane of its payer whose top stands before it, so each lane
// rises by rank and the payer's last entry is one of its tops. A rule that goes by number within groups fills one lane for each group; where
// an entry finds no lane, there are no lanes, and the table is searched instead.
ghost use Rattle.std.specs.Prelude.{◌≡◌, ℕ, ◌+◌, ◌*◌, ◌%◌, ◌<◌, ◌≤◌, true, length, IfSome, slice_index, slice_set};
ghost use Rattle.clearing.specs.Balances.{LastKept, Without};
ghost use Rattle.clearing.specs.Choices.{Choice, entry_at};
ghost use Rattle.clearing.specs.Lanes.{AllLaned, LaneOf, Laned, Narrow, Topmost, comes_after};
ghost use Rattle.clearing.specs.Table.{entries, kept};

use crate::place::CAPACITY;
use crate::ranked::Ranked;
use rules::ranking::Ranking;

// How many lanes a member has.
const LANES: usize = 4;

const ALL_LANES: usize = 256;

// A top or what lies below an entry is a session number, and 0 where there is none: half the memory of an `Option`.
#[derive(Drop)]
pub(crate) struct Lanes {
    tops: [u16; ALL_LANES],
    below: [u16; CAPACITY],
    // How many of its lanes any member uses at most, so that the others need not be looked at.
    widest: usize,
    ghost long: { (length tops ≡ 256) × (length below ≡ 4096) },
    ghost few: { widest ≤ 4 },
    ghost narrow: { Narrow tops widest },
}

impl Lanes {
    // Lanes with no entry.
    fn empty() -> Lanes
        ensures { (l : ℕ) → slice_index result.tops l ≡ 0 }
    {
        Lanes {
            tops: [0; ALL_LANES],
            below: [0; CAPACITY],
            widest: 0,
        }
    }

    // The first lane of its payer on which the entry at a place can be put.
    fn lane_for<R: Ranking>(&self, ranked: &Ranked<'_, R>, at: usize) -> Option<usize>
        requires within { at < length ranked.now.places.now }
        requires laned { Laned (R.Ranking.ahead ranked.now.rule.now) (entries ranked.now.places.now) (kept ranked.now.places.now) at self.now.tops self.now.below }
        ensures { IfSome result (λ l. LaneOf (entry_at (entries ranked.now.places.now) at).payer l × (comes_after (R.Ranking.ahead ranked.now.rule.now) (entries ranked.now.places.now) (slice_index self.now.tops l) (at + 1) ≡ true)) }
    {
        let first = usize::from(ranked.places[at].entry.payer) * LANES;
        // A loop: with `find` and a closure a clearing that withdraws all is slower.
        for lane in first..first + LANES {
            if ranked.comes_after(self.tops[lane], at as u16 + 1) {
                return Some(lane);
            }
        }
        None
    }

    // Puts the entry at a place on top of a lane.
    fn put(&mut self, at: usize, lane: usize)
        requires { (at < 4096) × (lane < 256) }
        ensures tops { self.new.tops ≡ slice_set self.old.tops lane (at + 1) }
        ensures below { self.new.below ≡ slice_set self.old.below at (slice_index self.old.tops lane) }
    {
        self.below[at] = self.tops[lane];
        self.tops[lane] = at as u16 + 1;
        // Written only where it grows: with `max` a clearing that withdraws all is slower.
        if self.widest <= lane % LANES {
            self.widest = lane % LANES + 1;
        }
    }

    // The lane of the member whose top is the last by rank; the top is 0 where the member has no entry. A loop over a range of lanes, since
    // a fold would carry lane and top along and say the same in more words.
    fn last_lane<R: Ranking>(&self, ranked: &Ranked<'_, R>, member: usize) -> usize
        requires member { member < 64 }
        requires laned { AllLaned (R.Ranking.ahead ranked.now.rule.now) ranked.now.places.now (kept ranked.now.places.now) self.now.tops self.now.below }
        ensures { Topmost (R.Ranking.ahead ranked.now.rule.now) (entries ranked.now.places.now) self.now.tops member (member * 4 + 4) result }
    {
        let first = member * LANES;
        let mut last = first;
        for lane in first + 1..first + self.widest {
            if ranked.comes_after(self.tops[last], self.tops[lane]) {
                last = lane;
            }
        }
        last
    }

    // The kept entries in lanes, or none where one of them finds no lane.
    pub(crate) fn filled<R: Ranking>(ranked: &Ranked<'_, R>) -> Option<Lanes>
        ensures { IfSome result (λ lanes. AllLaned (R.Ranking.ahead ranked.now.rule.now) ranked.now.places.now (kept ranked.now.places.now) lanes.tops lanes.below) }
    {
        let mut lanes = Lanes::empty();
        for (at, place) in ranked.places.iter().enumerate() {
            if place.kept {
                let lane = lanes.lane_for(ranked, at)?;
                lanes.put(at, lane);
            }
        }
        Some(lanes)
    }

    // Takes the member's last kept entry off, and gives its place.
    pub(crate) fn take_last<R: Ranking>(
        &mut self,
        ranked: &Ranked<'_, R>,
        member: usize,
    ) -> Option<usize>
        requires member { member < 64 }
        requires laned { AllLaned (R.Ranking.ahead ranked.now.rule.now) ranked.now.places.now (kept ranked.now.places.now) self.old.tops self.old.below }
        ensures last { LastKept (R.Ranking.ahead ranked.now.rule.now) ranked.now.places.now member result }
        ensures laned { IfSome result (λ r. (D : Choice) → Without (kept ranked.now.places.now) D r → AllLaned (R.Ranking.ahead ranked.now.rule.now) ranked.now.places.now D self.new.tops self.new.below) }
    {
        let lane = self.last_lane(ranked, member);
        let at = usize::from(self.tops[lane]).checked_sub(1)?;
        self.tops[lane] = self.below[at];
        Some(at)
    }
}
