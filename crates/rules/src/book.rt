// The book of a cover source: the amounts that were last reported, by member code.
ghost use Rattle.std.specs.Prelude.{◌≡◌, ℕ, ◌≤◌, true, length, take};
ghost use Rattle.rules.specs.Reports.{amount_of, are_apart};

mod entries;

// How many different codes a book holds at most.
pub const CODES: usize = 64;

// An amount for a member code.
#[derive(Clone, Copy)]
pub struct Report {
    pub code: u16,
    pub amount: u64,
}

// The places are in the book itself, so that a report never asks for memory.
#[derive(Clone, Copy)]
pub struct Book {
    reports: [Report; CODES],
    // Only so many places are in use.
    held: usize,
    ghost places: { length reports ≡ 64 },
    ghost few: { held ≤ 64 },
    ghost apart: { are_apart (take held reports) ≡ true },
    ghost limited: { (code : ℕ) → amount_of code (take held reports) ≤ 1_000_000_000_000_000 },
}
