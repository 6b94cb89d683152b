// The desk: calls upon a session as values, one after another, and what any list of them leaves.
#![tactic(auto)]

pub mod calls;
pub mod desk;
