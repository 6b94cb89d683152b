// What each member is to pay of the kept entries, and what it has to pay it from.
ghost use Rattle.std.specs.Prelude.{◌≡◌, ℕ, ◌+◌, ◌^◌, ◌<◌, ◌≤◌, T, slice_index, nat_lt};
ghost use Rattle.clearing.specs.Balances.{Short, SomeShort, lowered, raised};
ghost use Rattle.clearing.specs.Sums.{dues, means};
ghost use Rattle.clearing.specs.Table.{cover_of};

use crate::covers::Covers;
use crate::place::{MEMBERS, Place};

#[derive(Clone, Copy)]
pub(crate) struct Balance {
    pub(crate) due: u64,
    // Its cover and its kept receipts.
    pub(crate) funds: u64,
}

impl Balance {
    // Whether the member is to pay more than it has to pay from.
    fn is_short(&self) -> bool
        ensures { result ≡ nat_lt self.now.funds self.now.due }
    {
        self.funds < self.due
    }
}

#[derive(Clone, Copy)]
pub(crate) struct Balances {
    pub(crate) by_member: [Balance; MEMBERS],
}

impl Balances {
    // The covers alone, with no entry.
    pub(crate) fn of(covers: &Covers) -> Balances
        ensures due { (m : ℕ) → slice_index (dues result.by_member) m ≡ 0 }
        ensures funds { (m : ℕ) → slice_index (means result.by_member) m ≡ cover_of covers.now m }
    {
        let mut by_member = [Balance { due: 0, funds: 0 }; MEMBERS];
        // A loop: with the array's `map` a clearing with nobody short is slower by a twentieth.
        for (m, funds) in covers.amounts.iter().enumerate() {
            by_member[m].funds = *funds;
        }
        Balances { by_member }
    }

    // Adds the worth of the entry at a place to what its payer pays and to what its receiver has.
    pub(crate) fn add(&mut self, place: &Place)
        requires paid { slice_index (dues self.old.by_member) place.now.entry.payer + place.now.entry.worth < 2 ^ 64 }
        requires received { slice_index (means self.old.by_member) place.now.entry.receiver + place.now.entry.worth < 2 ^ 64 }
        ensures due { dues self.new.by_member ≡ raised (dues self.old.by_member) place.now.entry.payer place.now.entry.worth }
        ensures funds { means self.new.by_member ≡ raised (means self.old.by_member) place.now.entry.receiver place.now.entry.worth }
    {
        let worth = u64::from(place.entry.worth);
        self.by_member[usize::from(place.entry.payer)].due += worth;
        self.by_member[usize::from(place.entry.receiver)].funds += worth;
    }

    // Takes it out of both.
    pub(crate) fn take_out(&mut self, place: &Place)
        requires paid { place.now.entry.worth ≤ slice_index (dues self.old.by_member) place.now.entry.payer }
        requires received { place.now.entry.worth ≤ slice_index (means self.old.by_member) place.now.entry.receiver }
        ensures due { dues self.new.by_member ≡ lowered (dues self.old.by_member) place.now.entry.payer place.now.entry.worth }
        ensures funds { means self.new.by_member ≡ lowered (means self.old.by_member) place.now.entry.receiver place.now.entry.worth }
    {
        let worth = u64::from(place.entry.worth);
        self.by_member[usize::from(place.entry.payer)].due -= worth;
        self.by_member[usize::from(place.entry.receiver)].funds -= worth;
    }

    // The first member that is short.
    pub(crate) fn find_short(&self) -> Option<usize>
        ensures { SomeShort self.now.by_member result }
    {
        self.by_member.iter().position(|balance| balance.is_short())
    }

    // Whether the member at a place on the roll is short.
    fn is_short(&self, member: usize) -> bool
        ensures { T result → Short (dues self.now.by_member) (means self.now.by_member) member }
    {
        member < MEMBERS && self.by_member[member].is_short()
    }

    // A member that is short. The two parties of the entry withdrawn last are looked at first, since only they can have come to be so.
    pub(crate) fn next_short(&self, payer: usize, receiver: usize) -> Option<usize>
        ensures { SomeShort self.now.by_member result }
    {
        if self.is_short(payer) {
            return Some(payer);
        }
        if self.is_short(receiver) {
            return Some(receiver);
        }
        self.find_short()
    }
}
