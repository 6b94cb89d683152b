// What stands at the places of a session: entries by their place in the table, members by their place on the roll.
ghost use Rattle.clearing.specs.Table.{cover_of};
ghost use Rattle.session.specs.Parts.{covers_of, stands_cleared, table_of};
ghost use Rattle.session.specs.Questions.{SheetIn, position_at};
ghost use Rattle.table.specs.Entries.{entries_of, entry_in, kept_of};
ghost use Rattle.std.specs.Prelude.{◌≡◌};

use crate::session::Session;
use clearing::entry::Entry;
use clearing::sheet::Sheet;

impl Session {
    // Whether the session stands cleared.
    pub fn is_cleared(&self) -> bool
        ensures { result ≡ stands_cleared self.now }
    {
        self.cleared
    }

    // The entry at a place, from 0.
    pub fn entry_at(&self, at: usize) -> Option<Entry>
        ensures { result ≡ entry_in (entries_of (table_of self.now)) at }
    {
        self.table.entry_at(at)
    }

    // Whether the last clearing kept the entry at a place; false where none stands.
    pub fn is_kept(&self, at: usize) -> bool
        ensures { result ≡ kept_of (table_of self.now) at }
    {
        self.table.is_kept(at)
    }

    // What each member has paid and received over the kept records, and how many are withdrawn, from one pass over the table.
    pub fn sheet(&self) -> Sheet
        ensures { SheetIn self.now result }
    {
        self.table.sheet()
    }

    // The position of the member at a place on the roll, over the kept entries.
    pub fn position_at(&self, place: u8) -> i64
        ensures { result ≡ position_at self.now place }
    {
        self.table.position(place)
    }

    // The cover stored for the member at a place on the roll.
    pub fn cover_at(&self, place: u8) -> u64
        ensures { result ≡ cover_of (covers_of self.now) place }
    {
        self.covers.amount(place)
    }
}
