// The bytes of a member file: numbers in fields, the values of records, and the reader that goes from record to record.
#![tactic(auto)]

pub mod fields;
pub mod reader;
pub mod record;
pub mod row;
pub mod values;
