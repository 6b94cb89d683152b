// The console of the engine: each line is a command, and each command has an answer of one line.
#![tactic(auto)]

pub mod answer;
pub mod console;
pub mod draft;
mod files;
pub mod hexadecimal;
pub mod misread;
pub mod names;
pub mod records;
pub mod words;
