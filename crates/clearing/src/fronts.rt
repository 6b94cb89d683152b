// The front of a table, which a clearing goes over.
ghost use Rattle.std.specs.Prelude.{◌≡◌, ◌≤◌, min, length};
ghost use Rattle.clearing.specs.Table.{front};

use crate::place::{CAPACITY, Place};

// How many of `len` places a clearing of the first `held` goes over.
pub(crate) fn front_len(held: usize, len: usize) -> usize
    ensures { result ≡ min (min held 4096) len }
{
    held.min(CAPACITY).min(len)
}

// The places that a clearing of the first `held` goes over.
pub(crate) fn front(places: &[Place], held: usize) -> &[Place]
    ensures places { result.now ≡ front held places.now }
    ensures few { length result.now ≤ 4096 }
{
    &places[..front_len(held, places.len())]
}
