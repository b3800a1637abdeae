// One reader and one writer for every line, of a sheet or of engine rows: its tag, then numbers by a table of limits.
ghost use Rattle.std.specs.Prelude.{◌≡◌, ◌*◌, ◌≤◌, ◌&&◌, cond, eqb, length};
ghost use Rattle.answers.specs.declared.Refusal.TheVariants.{BrokenLine};
ghost use Rattle.text.specs.Field.{begins};
ghost use Rattle.text.specs.Read.{entry_told, line_told};
ghost use Rattle.text.specs.Quoted.{tab, feed, dash};
ghost use Rattle.text.specs.Limit.{or_none};
ghost use Rattle.text.specs.Line.{line_of, read_entry, read_numbers, read_line, Reads};
ghost use Rattle.text.specs.Line.{entry_text, numbers_text, line_text};
ghost use Rattle.text.specs.Line.{Laid, stops_short};

use crate::bytes::{agreement, find_field, starts, store, write_bytes};
use crate::limits::{is_none, is_within};
use crate::numbers::{read_number, write_number};
use crate::places::told_after;
use answers::Refusal;
use text::{Fault, Limit, Rule, Taken};

// What ends a number that has `left` more after it on its line.
fn ender_before(left: usize) -> u8
    ensures { result ≡ cond (eqb left 0) feed tab }
{
    if left == 0 { b'\n' } else { b'\t' }
}

// Whether text starts with a `-` that may stand there.
fn is_dash(l: &Limit, text: &[u8]) -> bool
    ensures { result ≡ (or_none l.now.rule && begins dash text.now) }
{
    // the byte first: it is seldom there, and the limit then is not asked
    starts(text, b'-') && l.rule == Rule::OrNone
}

// A fault of the form, at a place.
fn broken(at: usize) -> Fault
    ensures { result ≡ record { refusal = BrokenLine; at = at } }
{
    Fault {
        refusal: Refusal::BrokenLine,
        at,
    }
}

// Reads a number, or a `-`, and the byte that must end it: the form first, then the limits.
fn read_entry(l: &Limit, last: u32, ender: u8, text: &[u8]) -> Result<Taken, Fault>
    ensures { entry_told result ≡ read_entry l.now last ender text.now }
{
    if is_dash(l, text) {
        if starts(&text[1..], ender) {
            return Ok(Taken { number: 0, len: 2 });
        }
        return Err(broken(1));
    }
    let f = find_field(text);
    let n = read_number(f).map_err(broken)?;
    if !starts(&text[f.len()..], ender) {
        return Err(broken(f.len()));
    }
    if !is_within(*l, last, n) {
        return Err(Fault {
            refusal: Refusal::OutsideLimits,
            at: 0,
        });
    }
    Ok(Taken {
        // Kept (4): it is within its limit, which has 32 bits: try_from would have to be unwrapped.
        number: n as u32,
        len: f.len() + 1,
    })
}

// Whether a line ends with the first field of text, and the numbers of the table are left out of it. Where they may not
// be, no byte is looked at.
fn stops_short(table: &[Limit], text: &[u8]) -> bool
    ensures { result ≡ stops_short table.now text.now }
{
    match table {
        [
            Limit {
                rule: Rule::Product(_),
                ..
            },
            ..
        ] => starts(&text[find_field(text).len()..], b'\n'),
        _ => false,
    }
}

// Kept (4): `short` is a value of the rule; as two functions the caller would switch in its place.
// What must end a number that is read, with `left` more after it by the table: the line feed too where those are left
// out.
fn ender_read(short: bool, left: usize) -> u8
    ensures { result ≡ cond short feed (cond (eqb left 0) feed tab) }
{
    if short { b'\n' } else { ender_before(left) }
}

// Reads a number for each limit of the table, but for those that are left out, from the start of text, stored in out as
// far as out goes.
fn read_numbers(table: &[Limit], text: &[u8], out: &mut [u32]) -> Result<usize, Fault>
    ensures { Reads (read_numbers table.now 0 text.now) out.old (line_told result) out.new }
{
    let mut last = 0;
    let mut at = 0;
    for (k, l) in table.iter().enumerate() {
        let short = stops_short(&table[k + 1..], &text[at..]);
        let ender = ender_read(short, table.len() - k - 1);
        // Kept (4): as a closure for map_err it would need a contract, since `after` asks that the places add up.
        let taken = match read_entry(l, last, ender, &text[at..]) {
            Ok(taken) => taken,
            Err(fault) => return Err(fault.after(at)),
        };
        store(out, k, taken.number);
        last = taken.number;
        at += taken.len;
        if short {
            return Ok(at);
        }
    }
    Ok(at)
}

// Kept (4): tag and table, here and below, are a form's two constants: a struct of both would be made for each call.
// Reads one line by its form from the start of text: the tag's bytes, then a number for each limit of the table, stored
// in out.
pub fn read_line(tag: &[u8], table: &[Limit], text: &[u8], out: &mut [u32]) -> Result<usize, Fault>
    ensures { Reads (read_line (line_of tag.now table.now) text.now) out.old (line_told result) out.new }
{
    let same = agreement(tag, text);
    if same != tag.len() {
        return Err(broken(same));
    }
    told_after(same, read_numbers(table, &text[same..], out))
}

// Writes n, or the `-` that it stands for, from the start of out, and answers how long it is.
fn write_entry(l: Limit, n: u32, out: &mut [u8]) -> usize
    ensures { Laid (entry_text l n) out.old 0 result out.new }
{
    if is_none(l, n) {
        store(out, 0, b'-');
        1
    } else {
        write_number(out, u64::from(n))
    }
}

// Kept (4): the numbers are the sheet's own words from the line's first on, so that only a sheet's length would be
// in a type, and each caller would show it there as here.
// Writes a number for each limit of the table from the start of out, and answers how long they are.
fn write_numbers(table: &[Limit], numbers: &[u32], out: &mut [u8]) -> usize
    requires { length table.now ≤ length numbers.now }
    ensures laid { Laid (numbers_text table.now numbers.now) out.old 0 result out.new }
    ensures most { result ≤ 11 * length table.now }
{
    let mut at: usize = 0;
    // Kept (4): k is counted for what ends the number; to zip the numbers on would not spare it.
    for (k, l) in table.iter().enumerate() {
        let from = at.min(out.len());
        at += write_entry(*l, numbers[k], &mut out[from..]);
        store(out, at, ender_before(table.len() - k - 1));
        at += 1;
    }
    at
}

// Writes one line by its form from the start of out, as far as out goes, and answers how long the line is. There is a
// number for each limit of the table; those beyond are not written.
pub fn write_line(tag: &[u8], table: &[Limit], numbers: &[u32], out: &mut [u8]) -> usize
    requires { length table.now ≤ length numbers.now }
    ensures { Laid (line_text (line_of tag.now table.now) numbers.now)
        out.old 0 result out.new }
{
    write_bytes(tag, out);
    let from = tag.len().min(out.len());
    tag.len() + write_numbers(table, numbers, &mut out[from..])
}
