// A sheet added up in one pass over a table, and what it says.
ghost use Rattle.std.specs.Prelude.{◌≡◌, ◌≤◌};
ghost use Rattle.clearing.specs.Sheets.{SheetOf, position_on, withdrawn_on};
ghost use Rattle.clearing.specs.Table.{entries, front, kept};

use crate::balances::Balances;
use crate::covers::Covers;
use crate::fronts::front;
use crate::place::Place;
use crate::sheet::Sheet;

impl Sheet {
    // Adds up the kept entries among the first `held` places, at most 4,096, and counts the withdrawn ones.
    pub fn add_up(places: &[Place], held: usize) -> Sheet
        ensures { SheetOf (entries (front held places.now)) (kept (front held places.now)) result }
    {
        let mut balances = Balances::of(&Covers::none());
        let mut withdrawn = 0;
        for place in front(places, held) {
            if place.kept {
                balances.add(place);
            } else if place.entry.is_live() {
                withdrawn += 1;
            }
        }
        Sheet {
            balances,
            withdrawn,
        }
    }

    // The position of the member at a place on the roll.
    pub fn position(&self, member: u8) -> i64
        ensures { result ≡ position_on self.now member }
    {
        match self.balances.by_member.get(usize::from(member)) {
            Some(balance) => balance.funds as i64 - balance.due as i64,
            None => 0,
        }
    }

    // How many live entries are not kept.
    pub fn withdrawn(&self) -> usize
        ensures value { result ≡ withdrawn_on self.now }
        ensures few { result ≤ 4096 }
    {
        self.withdrawn
    }
}
