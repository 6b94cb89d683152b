// The cover of each member, by its place on the roll.
ghost use Rattle.std.specs.Prelude.{ℕ, ◌≤◌, slice_index};

use crate::place::MEMBERS;

pub mod gathering;

#[derive(Clone, Copy)]
pub struct Covers {
    pub(crate) amounts: [u64; MEMBERS],
    ghost low: { (m : ℕ) → slice_index amounts m ≤ 1000000000000000 },
}
