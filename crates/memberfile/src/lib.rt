// The check of a member file: the order of its records, their values, kinds, numbers and totals.
#![tactic(auto)]

pub mod check;
pub mod header;
pub mod rows;
pub mod stage;
