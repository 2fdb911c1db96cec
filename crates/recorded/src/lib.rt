// Lists of records in a file, and lent memory beside them. crates/replay/HOW.md describes the form.
#![tactic(auto)]

pub mod field;
pub mod memory;
