// A place of the table: an entry within the limits of the house, and whether the last clearing kept it.
ghost use Rattle.std.specs.Prelude.{◌≡◌, ◌<◌, ◌≤◌, ◌&&◌, false, ◌==◌};
ghost use Rattle.clearing.specs.Choices.{no_entry};

use crate::entry::Entry;

// How many members a roll can hold.
pub const MEMBERS: usize = 64;

// How many entries a clearing can hold.
pub const CAPACITY: usize = 4_096;

#[derive(Clone, Copy)]
pub struct Place {
    pub entry: Entry,
    pub kept: bool,
    ghost pays: { entry.payer < 64 },
    ghost receives: { entry.receiver < 64 },
    ghost limited: { entry.worth ≤ 100000000 },
}

impl Place {
    // A place without a live entry, to fill a table with.
    pub fn blank() -> Place
        ensures entry { result.entry ≡ no_entry }
        ensures kept { result.kept ≡ false }
    {
        Place {
            entry: Entry {
                record_type: 0,
                origin: 0,
                other: 0,
                reference: 0,
                amount: 0,
                commission: 0,
                worth: 0,
                payer: 0,
                receiver: 0,
                returnable: false,
                returned: true,
            },
            kept: false,
        }
    }

    // Whether the entry is kept and the member pays it.
    pub(crate) fn is_kept_of(&self, member: usize) -> bool
        ensures { result ≡ (self.now.kept && self.now.entry.payer == member) }
    {
        self.kept && usize::from(self.entry.payer) == member
    }
}
