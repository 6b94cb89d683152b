// The member-file writer: a file goes into a borrowed buffer record by record, through states that only allow the right order.
#![tactic(auto)]

pub mod batch_rows;
mod checks;
pub mod example;
mod progress;
mod records;
pub mod states;
pub mod whole;
mod written;
