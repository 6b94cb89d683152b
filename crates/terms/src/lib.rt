// The terms of the subject: currencies, cycles, file kinds, dates, refusals, faults and the docket.
#![tactic(auto)]

pub mod currency;
pub mod cycle;
pub mod date;
pub mod docket;
pub mod fault;
pub mod file_kind;
pub mod refusal;
pub mod unknown;
