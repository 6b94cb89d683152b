// The check of member files with what is proved of it in the words of files: exact acceptance and exact refusal.
#![tactic(auto)]

pub mod judged;
