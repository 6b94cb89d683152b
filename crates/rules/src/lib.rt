// What is plugged into a session: instruments, ranking rules and cover sources, with their meanings and laws.
#![tactic(auto)]

mod book;
pub mod cover;
pub mod instrument;
pub mod instruments;
pub mod ranking;
pub mod rankings;
pub mod sources;
#[cfg(test)]
mod tests;
