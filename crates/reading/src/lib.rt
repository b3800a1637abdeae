// Reads a sheet, and engine rows, from a text.
#![tactic(auto)]

mod engines;
mod rows;
mod sheets;

pub use engines::{read_columns, read_engines};
pub use sheets::{read_sheet, read_words};
