// The index of the table: the entries of a bucket, from the last taken in to the first.
ghost use Rattle.std.specs.Prelude.{◌≡◌, ℕ, ◌+◌, ◌<◌, slice_index, slice_set};
ghost use Rattle.table.specs.Buckets.{bucket_of, name_of};

use clearing::place::CAPACITY;

// As many as a table can have entries, so that a bucket has about one.
const BUCKETS: usize = 4_096;

// Both factors are odd, and below 2^31 so that the sum of the two products fits.
const REFERENCE_FACTOR: u64 = 1_640_531_527;

const ORIGIN_FACTOR: u64 = 1_540_483_477;

// The low bits of that sum hang on the low bits of its parts alone, so they are left out.
const LOW_BITS: u64 = 1_048_576;

// The entries of each bucket, chained. An entry is named by 1 + its place, and 0 names none: half the memory of an `Option`. Chains of
// places in two arrays of a fixed length, since taking in allocates nothing.
#[derive(Drop)]
pub(crate) struct Index {
    // By bucket: the last entry taken in.
    heads: [u16; BUCKETS],
    // By place: the entry of the same bucket taken in before it.
    links: [u16; CAPACITY],
}

// The bucket of a record. References in a row, round ones, and the same ones of many origins spread over all buckets.
pub(crate) fn bucket_of(origin: u16, reference: u32) -> usize
    ensures value { result ≡ bucket_of origin reference }
    ensures small { result < 4096 }
{
    let mixed = reference as u64 * REFERENCE_FACTOR + origin as u64 * ORIGIN_FACTOR;
    (mixed / LOW_BITS) as usize % BUCKETS
}

impl Index {
    // An index of no entries.
    pub(crate) fn empty() -> Index
        ensures { (h : ℕ) → slice_index result.heads h ≡ 0 }
    {
        Index {
            heads: [0; BUCKETS],
            links: [0; CAPACITY],
        }
    }

    // Enters the entry at a place as the last of its bucket.
    pub(crate) fn enter(&mut self, bucket: usize, place: usize)
        requires bucket { bucket < 4096 }
        requires place { place < 4096 }
        ensures heads { self.new.heads ≡ slice_set self.old.heads bucket (place + 1) }
        ensures links { self.new.links ≡ slice_set self.old.links place (slice_index self.old.heads bucket) }
    {
        self.links[place] = self.heads[bucket];
        self.heads[bucket] = (place + 1) as u16;
    }

    // The place of the last entry of a bucket.
    pub(crate) fn last_in(&self, bucket: usize) -> Option<usize>
        requires { bucket < 4096 }
        ensures { name_of result ≡ slice_index self.now.heads bucket }
    {
        usize::from(self.heads[bucket]).checked_sub(1)
    }

    // The place of the entry of the same bucket that was taken in before the one at a place.
    pub(crate) fn previous(&self, place: usize) -> Option<usize>
        requires { place < 4096 }
        ensures { name_of result ≡ slice_index self.now.links place }
    {
        usize::from(self.links[place]).checked_sub(1)
    }
}
