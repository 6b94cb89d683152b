// The clearing of the table, and what it leaves.
ghost use Rattle.clearing.specs.Positions.{bilateral as bilateral_of, position as position_of};
ghost use Rattle.clearing.specs.Sheets.{SheetOf};
ghost use Rattle.clearing.specs.Table.{Cleared, cover_of};
ghost use Rattle.table.specs.Entries.{capacity_of, entries_of, held_places, kept_of};
ghost use Rattle.std.specs.Prelude.{◌≡◌};

use crate::table::Table;
use clearing::covers::Covers;
use clearing::sheet::Sheet;
use clearing::{netting, positions};
use rules::ranking::Ranking;

impl Table {
    // Keeps the greatest lawful covered choice, and answers how many live entries it withdrew.
    pub fn clear<R: Ranking>(&mut self, rule: &R, covers: &Covers) -> usize
        ensures cleared { Cleared (R.Ranking.ahead rule.now) (cover_of covers.now) (held_places self.old) (held_places self.new) result }
        ensures capacity { capacity_of self.new ≡ capacity_of self.old }
    {
        let held = self.held;
        netting::clear(rule, covers, &mut self.places, held)
    }

    // What each member has paid and received over the kept entries, and how many live entries are withdrawn, from one pass.
    pub fn sheet(&self) -> Sheet
        ensures { SheetOf (entries_of self.now) (kept_of self.now) result }
    {
        Sheet::add_up(&self.places, self.held)
    }

    // The position of the member at a place on the roll, over the kept entries.
    pub fn position(&self, member: u8) -> i64
        ensures { result ≡ position_of (entries_of self.now) (kept_of self.now) member }
    {
        positions::position(&self.places, self.held, member)
    }

    // The position of one member towards another, over the kept entries.
    pub fn bilateral(&self, a: u8, b: u8) -> i64
        ensures { result ≡ bilateral_of (entries_of self.now) (kept_of self.now) a b }
    {
        positions::bilateral(&self.places, self.held, a, b)
    }

    // Whether the last clearing kept the entry at a place; false where none stands.
    pub fn is_kept(&self, at: usize) -> bool
        ensures { result ≡ kept_of self.now at }
    {
        at < self.held && self.places[at].kept
    }
}
