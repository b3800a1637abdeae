// A text cut into its lines, each still the caller's own bytes.
ghost use Rattle.std.specs.Prelude.{◌≡◌};
ghost use Rattle.text.specs.Place.{first_line, after_lines};

// The first line of a text, with the line feed that ends it; still the caller's own bytes.
pub fn first_line(text: &[u8]) -> &[u8]
    ensures { result.now ≡ first_line text.now }
{
    match text.iter().position(|b| *b == b'\n') {
        Some(end) => &text[..=end],
        None => text,
    }
}

// What stands after the first lines of a text, so many of them; still the caller's own bytes.
pub fn after_lines(text: &[u8], lines: usize) -> &[u8]
    ensures { result.now ≡ after_lines lines text.now }
{
    let mut rest = text;
    for _ in 0..lines {
        rest = &rest[first_line(rest).len()..];
    }
    rest
}
