// The clearing of a table of entries: the greatest lawful covered choice, and the positions that it leaves.
#![tactic(auto)]

mod balances;
pub mod covers;
pub mod entry;
mod fronts;
mod lanes;
pub mod laws;
pub mod netting;
pub mod place;
pub mod positions;
mod ranked;
pub mod sheet;
