// Taking entries in, finding them and returning them.
ghost use Rattle.std.specs.Prelude.{◌≡◌, ◌≤◌, min, ◌&&◌, [], ◌∷◌, ◌++◌, length, if◌then◌else◌, vec_len, nat_lt};
ghost use Rattle.table.specs.Entries.{capacity_of, entries_of, entry_in, held_of, is_record, is_within, record_in, struck};

use crate::index::{Index, bucket_of};
use crate::table::Table;
use clearing::entry::Entry;
use clearing::place::{CAPACITY, MEMBERS, Place};

// The most that an entry may be worth, in hundredths.
const WORTH_MOST: u32 = 100_000_000;

// Whether the entry is within the limits of the house.
fn is_within(entry: Entry) -> bool
    ensures { result ≡ is_within entry }
{
    usize::from(entry.payer) < MEMBERS
        && usize::from(entry.receiver) < MEMBERS
        && entry.worth <= WORTH_MOST
}

// Whether the origin presented the entry with that reference.
fn is_record(entry: Entry, origin: u16, reference: u32) -> bool
    ensures { result ≡ is_record origin reference entry }
{
    entry.origin == origin && entry.reference == reference
}

impl Table {
    // An empty table over the places, of which the first 4,096 at most are its capacity.
    pub fn new(places: Vec<Place>) -> Table
        ensures entries { entries_of result ≡ [] }
        ensures capacity { capacity_of result ≡ min (vec_len places) 4096 }
    {
        let capacity = places.len().min(CAPACITY);
        Table {
            places,
            held: 0,
            capacity,
            index: Index::empty(),
        }
    }

    // How many entries were taken in.
    pub fn held(&self) -> usize
        ensures value { result ≡ length (entries_of self.now) }
        ensures field { result ≡ held_of self.now }
        ensures few { result ≤ 4096 }
    {
        self.held
    }

    // How many entries can be taken in.
    pub fn capacity(&self) -> usize
        ensures value { result ≡ capacity_of self.now }
        ensures few { result ≤ 4096 }
    {
        self.capacity
    }

    // The entry at a place.
    pub fn entry_at(&self, at: usize) -> Option<Entry>
        ensures { result ≡ entry_in (entries_of self.now) at }
    {
        self.places[..self.held].get(at).map(|place| place.entry)
    }

    // Puts an entry behind the others; false where it is out of limits or the table is full.
    pub fn put(&mut self, entry: Entry) -> bool
        ensures answer { result ≡ (is_within entry && nat_lt (length (entries_of self.old)) (capacity_of self.old)) }
        ensures entries { entries_of self.new ≡ (if result then entries_of self.old ++ (entry ∷ []) else entries_of self.old) }
        ensures capacity { capacity_of self.new ≡ capacity_of self.old }
    {
        let held = self.held;
        if !is_within(entry) || held >= self.capacity {
            return false;
        }
        let bucket = bucket_of(entry.origin, entry.reference);
        self.index.enter(bucket, held);
        self.places[held] = Place { entry, kept: false };
        self.held = held + 1;
        true
    }

    // The place of the first entry that the origin presented with that reference.
    // Its bucket is gone through to the end, from the last entry taken in to the first, so the match found last is the first.
    pub fn find(&self, origin: u16, reference: u32) -> Option<usize>
        ensures { result ≡ record_in (entries_of self.now) origin reference }
    {
        let mut found = None;
        let mut next = self.index.last_in(bucket_of(origin, reference));
        while let Some(at) = next {
            if is_record(self.places[at].entry, origin, reference) {
                found = Some(at);
            }
            next = self.index.previous(at);
        }
        found
    }

    // Returns the entry at a place; where none stands nothing changes.
    pub fn strike(&mut self, at: usize)
        ensures entries { entries_of self.new ≡ struck (entries_of self.old) at }
        ensures capacity { capacity_of self.new ≡ capacity_of self.old }
    {
        if at < self.held {
            self.places[at].entry.returned = true;
        }
    }
}
