// Places of a text: told from an earlier start; and where it is wrong, as whoever wrote it counts, by line and byte.
ghost use Rattle.std.specs.Prelude.{◌≡◌, ◌+◌, ◌≤◌, ◌<◌, ◌^◌, length};
ghost use Rattle.text.specs.Read.{line_told, reached, shift_by};
ghost use Rattle.text.specs.Place.{line_at, byte_at};

use answers::TextFault;
use text::Fault;

// Line and byte of a place of a text. They are asked for only where something is refused: what is accepted pays
// nothing for them.
pub fn line_and_byte(text: &[u8], at: usize) -> (u32, u32)
    requires { (at ≤ length text.now) × (at < 2 ^ 31) }
    ensures { (result.0 ≡ line_at text.now at) × (result.1 ≡ byte_at text.now at) }
{
    let mut line = 1;
    let mut byte = 1;
    for b in &text[..at] {
        if *b == b'\n' {
            line += 1;
            byte = 1;
        } else {
            byte += 1;
        }
    }
    (line, byte)
}

// A refusal of a text, whatever it is, at a place of it: the refusal, with line and byte of the place.
pub fn wrong_at<R>(refusal: R, text: &[u8], at: usize) -> (R, u32, u32)
    requires { (at ≤ length text.now) × (at < 2 ^ 31) }
    ensures { (result.0 ≡ refusal) × (result.1 ≡ line_at text.now at) × (result.2 ≡ byte_at text.now at) }
{
    let (line, byte) = line_and_byte(text, at);
    (refusal, line, byte)
}

// A fault of a text, told by its line and byte.
pub fn text_fault(fault: Fault, text: &[u8]) -> TextFault
    requires { (fault.at ≤ length text.now) × (fault.at < 2 ^ 31) }
    ensures { result ≡ record {
      refusal = fault.refusal;
      line = line_at text.now fault.at;
      byte = byte_at text.now fault.at;
    } }
{
    let (refusal, line, byte) = wrong_at(fault.refusal, text, fault.at);
    TextFault {
        refusal,
        line,
        byte,
    }
}

// How the reading of a line ended, told from a start so many bytes before it.
pub fn told_after(before: usize, ended: Result<usize, Fault>) -> Result<usize, Fault>
    requires { before + reached (line_told ended) < 2 ^ 64 }
    ensures { line_told result ≡ shift_by before (line_told ended) }
{
    // Kept (4): both cases change, and as closures for map and map_err each would need a contract.
    match ended {
        Ok(len) => Ok(before + len),
        Err(fault) => Err(fault.after(before)),
    }
}
