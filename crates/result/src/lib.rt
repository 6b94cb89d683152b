// The result file of a cleared session.
#![tactic(auto)]

mod cleared;
pub mod example;
pub mod file;
pub mod member_line;
mod records;
