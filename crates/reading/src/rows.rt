// A row: a FIT line or an ENG line.
ghost use Rattle.text.specs.Line.{line_of};
ghost use Rattle.reading.specs.Rows.{row_told, RowOf};

use text::{Fault, Limit};

// Reads the row at the start of a text: its numbers, the third of them 1 where the line has but two, and how many bytes
// it took.
pub fn read_row(tag: &[u8], limits: &[Limit], text: &[u8]) -> Result<([u32; 3], usize), Fault>
    ensures { RowOf (line_of tag.now limits.now) text.now (row_told result) }
{
    // a FIT line that leaves out its count is of one piece
    let mut row = [0, 0, 1];
    let len = spelling::read_line(tag, limits, text, &mut row)?;
    Ok((row, len))
}
