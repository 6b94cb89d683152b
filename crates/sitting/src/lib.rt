// What people read and write: lists of records, plans of a session, and the sheets of a clearing room.
#![tactic(auto)]

pub mod amounts;
pub mod demo;
pub mod lists;
mod papers;
mod reading;
pub mod shelf;
pub mod sitting;
pub mod why;
