// A session of the clearing house: the docket it was opened with, the table it holds, and the files taken into it.
#![tactic(auto)]

pub mod session;
