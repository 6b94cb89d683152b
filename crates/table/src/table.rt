// The held table: its first places are taken, and no more than the capacity ever are; the index knows each of them.
ghost use Rattle.std.specs.Prelude.{◌≤◌, vec_len};
ghost use Rattle.clearing.specs.Table.{entries};
ghost use Rattle.table.specs.Buckets.{Heads, Links};

use crate::index::Index;
use clearing::place::Place;

pub mod entries;
pub mod result;

#[derive(Drop)]
pub struct Table {
    // All made by the caller, since taking in allocates nothing: the first `held` are taken.
    places: Vec<Place>,
    held: usize,
    capacity: usize,
    index: Index,
    ghost within: { held ≤ capacity },
    ghost room: { capacity ≤ vec_len places },
    ghost small: { capacity ≤ 4096 },
    ghost led: { Heads index.heads (entries places.items) held },
    ghost linked: { Links index.links (entries places.items) held },
}
