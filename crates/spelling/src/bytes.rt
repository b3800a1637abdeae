// Bytes by themselves: how a text begins, the field finder, and what is stored into a lent slice as far as it goes.
ghost use Rattle.std.specs.Prelude.{◌≡◌, set};
ghost use Rattle.std.proofs.lemmas.List.Edits.{sets};
ghost use Rattle.text.specs.Field.{field_of, begins, agreed};

// Whether b is the first byte of text.
// Kept (4): it is the library's `first`, under the name that the contracts of its callers speak of.
pub fn starts(text: &[u8], b: u8) -> bool
    ensures { result ≡ begins b text.now }
{
    text.first() == Some(&b)
}

// In how many leading bytes tag and text agree.
pub fn agreement(tag: &[u8], text: &[u8]) -> usize
    ensures { result ≡ agreed tag.now text.now }
{
    tag.iter()
        .zip(text)
        .take_while(|(want, b)| b == want)
        .count()
}

// The first field of text: up to a tab, a line feed or the end, and still the caller's own bytes.
pub fn find_field(text: &[u8]) -> &[u8]
    ensures { result.now ≡ field_of text.now }
{
    let end = text.iter().position(|b| *b == b'\t' || *b == b'\n');
    &text[..end.unwrap_or(text.len())]
}

// Puts x at a place of out, if out has that place.
pub fn store<T: Copy>(out: &mut [T], at: usize, x: T)
    ensures { out.new ≡ set out.old at x }
{
    // Kept (3): of a slice's `get_mut` no clause says what the slice ends as
    if at < out.len() {
        out[at] = x;
    }
}

// Lays bytes at the start of out, as far as out goes.
pub fn write_bytes(bytes: &[u8], out: &mut [u8])
    ensures { out.new ≡ sets out.old 0 bytes.now }
{
    // where both go on, so that no byte asks for its place
    let end = bytes.len().min(out.len());
    // Kept (2): copy_from_slice calls memmove for a tag of a few bytes: writing a sheet took some 3 in 100 more, and is
    // just below 1.2 of plain C's instructions with this
    for i in 0..end {
        out[i] = bytes[i];
    }
}
