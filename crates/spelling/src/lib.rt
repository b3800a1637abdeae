// Bytes to numbers and back: the field finder, the number reader and writer, and one reader and one writer for every
// line; and the line and byte at which a text is wrong.
#![tactic(auto)]

mod bytes;
mod cuts;
mod limits;
mod lines;
mod numbers;
mod places;

pub use bytes::{agreement, find_field, starts, write_bytes};
pub use cuts::{after_lines, first_line};
pub use limits::{alike_hold, all_hold};
pub use lines::{read_line, write_line};
pub use numbers::{read_number, write_number};
pub use places::{line_and_byte, text_fault, told_after, wrong_at};
