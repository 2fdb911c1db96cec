// Tables, messages and the questions about them in words, on standard output.
#![tactic(auto)]

pub mod apart;
pub mod changes;
pub mod entries;
pub mod found;
pub mod line;
mod names;
mod parts;
mod path;
pub mod tree;
mod value;
mod way;
