// The entries, covers and rule of each case, as the engine takes them.
ghost use Rattle.std.specs.Prelude.{◌≡◌, ◌≤◌, [], ◌∷◌, length};
ghost use Rattle.cases.specs.Entries.{debit, sent_back, transfer, transfer_of};
ghost use Rattle.cases.specs.Settled.{row_of, stated_in};
ghost use Rattle.clearing.specs.Table.{entries, front};
ghost use Rattle.std.proofs.Common.{rules};

use crate::table::{Case, Party};
use clearing::entry::Entry;
use clearing::place::Place;
use rules::cover::CoverSource;
use rules::rankings::AnyRanking;

// The places of the largest case.
pub const PLACES: usize = 4;

const TRANSFER: u8 = 220;

const WAGES: u8 = 221;

const DEBIT: u8 = 100;

// A transfer, not yet cleared. The limit on amounts is asked here and of the two below, since the amounts are written out where these are called.
fn transfer(record_type: u8, number: u32, from: Party, to: Party, amount: u32) -> Place
    requires { amount ≤ 100000000 }
    ensures { result.entry ≡ transfer_of record_type number from to amount }
{
    Place {
        entry: Entry {
            record_type,
            origin: from.code(),
            other: to.code(),
            reference: number,
            amount,
            commission: 0,
            worth: amount,
            payer: from.place(),
            receiver: to.place(),
            returnable: true,
            returned: false,
        },
        kept: false,
    }
}

// A transfer that was returned.
fn sent_back(number: u32, from: Party, to: Party, amount: u32) -> Place
    requires { amount ≤ 100000000 }
    ensures { result.entry ≡ sent_back (transfer number from to amount) }
{
    let mut place = transfer(TRANSFER, number, from, to, amount);
    place.entry.returned = true;
    place
}

// A debit is worth its amount without the commission.
fn debit(number: u32, from: Party, to: Party, amount: u32, commission: u16) -> Place
    requires charged { commission ≤ amount }
    requires limited { amount ≤ 100000000 }
    ensures { result.entry ≡ debit number from to amount commission }
{
    let sent = transfer(DEBIT, number, from, to, amount);
    Place {
        entry: Entry {
            commission,
            worth: amount - u32::from(commission),
            returnable: false,
            ..sent.entry
        },
        kept: false,
    }
}

// The base, with its first two entries as the case has them.
fn base(first: Place, second: Place) -> [Place; PLACES]
    ensures { entries result ≡ first.entry ∷ second.entry ∷ transfer 3 Party.Seven Party.Nine 600 ∷ transfer 4 Party.Nine Party.Two 100 ∷ [] }
{
    let third = transfer(TRANSFER, 3, Party::Seven, Party::Nine, 600);
    let fourth = transfer(TRANSFER, 4, Party::Nine, Party::Two, 100);
    [first, second, third, fourth]
}

// The entries of a case, in order of their session numbers.
pub fn places_of(case: Case) -> [Place; PLACES]
    ensures { entries (front (length (row_of case).entries) result) ≡ (row_of case).entries }
{
    let first = transfer(TRANSFER, 1, Party::Two, Party::Seven, 500);
    let second = transfer(TRANSFER, 2, Party::Two, Party::Nine, 300);
    let blank = Place::blank();
    match case {
        Case::A | Case::B => base(first, second),
        Case::C => base(first, transfer(WAGES, 2, Party::Two, Party::Nine, 300)),
        Case::D => [
            transfer(TRANSFER, 1, Party::Two, Party::Seven, 100),
            transfer(TRANSFER, 2, Party::Seven, Party::Nine, 100),
            transfer(TRANSFER, 3, Party::Nine, Party::Two, 100),
            blank,
        ],
        Case::E | Case::F => [first, blank, blank, blank],
        Case::G => [
            first,
            transfer(TRANSFER, 2, Party::Two, Party::Seven, 0),
            blank,
            blank,
        ],
        Case::H => base(sent_back(1, Party::Two, Party::Seven, 500), second),
        Case::I => [
            debit(1, Party::Two, Party::Seven, 1_000, 30),
            blank,
            blank,
            blank,
        ],
    }
}

// How many entries a case has.
pub fn held_of(case: Case) -> usize
    ensures { result ≡ length (row_of case).entries }
{
    match case {
        Case::A | Case::B | Case::C | Case::H => 4,
        Case::D => 3,
        Case::G => 2,
        Case::E | Case::F | Case::I => 1,
    }
}

// The ranking rule of a case.
pub fn rule_of(case: Case) -> AnyRanking
    ensures { result ≡ (row_of case).rule }
{
    match case {
        Case::C => AnyRanking::Wages,
        _ => AnyRanking::Sending,
    }
}

// The covers of the members 2, 7 and 9.
fn covers_of(case: Case) -> [u64; 3]
    ensures { result ≡ (row_of case).covers }
{
    match case {
        Case::A | Case::C => [600, 0, 0],
        Case::B | Case::H => [600, 100, 0],
        Case::D => [0, 0, 0],
        Case::E => [500, 0, 0],
        Case::F | Case::G => [499, 0, 0],
        Case::I => [970, 0, 0],
    }
}

// A case as the source of its covers.
#[derive(Clone, Copy)]
pub struct Stated(pub Case);

impl CoverSource for Stated {
    ghost covers = { λ s. stated_in (row_of s.0) };

    ghost limited = { Prim.search rules };

    fn cover(&self, code: u16) -> u64 {
        let covers = covers_of(self.0);
        match code {
            2 => covers[0],
            7 => covers[1],
            9 => covers[2],
            _ => 0,
        }
    }
}
