// Writing numbers into a borrowed buffer, one behind another.
#![tactic(auto)]

pub mod pen;
