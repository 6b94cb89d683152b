// The sheet of a clearing: what each member has paid and received over the kept entries, and how many live entries were withdrawn.
ghost use Rattle.std.specs.Prelude.{ℕ, ◌<◌, ◌≤◌, slice_index};
ghost use Rattle.clearing.specs.Sums.{dues, means};

use crate::balances::Balances;

pub mod adding;

#[derive(Clone, Copy)]
pub struct Sheet {
    // With no cover: what a member has paid is due, and what it has received are its funds.
    balances: Balances,
    withdrawn: usize,
    ghost payments: { (m : ℕ) → m < 64 → slice_index (dues balances.by_member) m ≤ 409600000000 },
    ghost receipts: { (m : ℕ) → m < 64 → slice_index (means balances.by_member) m ≤ 409600000000 },
    ghost few: { withdrawn ≤ 4096 },
}
