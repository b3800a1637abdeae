// A text as it is written: bytes laid one line after another, with room for the longest sheet.
ghost use Rattle.std.specs.Prelude.{◌≡◌, ℕ, List, [], ◌++◌, ◌+◌, ◌≤◌, length, take};
ghost use Rattle.text.specs.Line.{line_of, line_text};

use sheet::SHEET_TEXT;
use std::marker::Model;
use text::Limit;

// Kept (1): no heap, so that bytes and length stand side by side; contracts see one list.
#[derive(Drop)]
pub struct Page {
    bytes: [u8; SHEET_TEXT],
    len: usize,
}

impl Model for Page {
    ghost Value = { List ℕ };

    ghost view = { λ p. take p.len p.bytes };

    ghost invariant = { λ p. p.len ≤ 658 };
}

impl Page {
    pub fn new() -> Self
        ensures { result ≡ [] }
    {
        Page {
            bytes: [0; SHEET_TEXT],
            len: 0,
        }
    }

    // Kept (4): tag, table and numbers as in spelling's write_line.
    // Adds the line of a tag and of a number for each limit of a table; numbers beyond are not written.
    pub fn add(&mut self, tag: &[u8], table: &[Limit], numbers: &[u32])
        requires many { length table.now ≤ length numbers.now }
        requires room { length self.old + length (line_text (line_of tag.now table.now) numbers.now) ≤ SHEET_TEXT }
        ensures { self.new ≡ self.old ++ line_text (line_of tag.now table.now) numbers.now }
    {
        let len = spelling::write_line(tag, table, numbers, &mut self.bytes[self.len..]);
        self.len += len;
    }

    pub fn text(&self) -> &[u8]
        ensures { result.now ≡ self.now }
    {
        &self.bytes[..self.len]
    }
}
