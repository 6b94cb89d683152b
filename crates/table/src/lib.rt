// The table that a session holds: the entries taken in, in the order of their session numbers.
#![tactic(auto)]

mod index;
pub mod table;
