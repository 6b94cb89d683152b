// Cases settled by hand: one table, what the rules say of it, and the engine run on it.
#![tactic(auto)]

pub mod engine;
pub mod filing;
pub mod table;
