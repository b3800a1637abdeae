// A sheet from its text: the lines HULL to SEAT, the FIT lines, END.
ghost use Rattle.std.specs.Prelude.{◌≡◌, [], ◌∷◌, ◌+◌, ◌-◌, ◌*◌, ◌≤◌, length, take, drop, replicate};
ghost use Rattle.answers.specs.Settled.{Settled};
ghost use Rattle.answers.specs.Values.{in_numbers};
ghost use Rattle.text.specs.Read.{Taken, line_told, text_told, reached};
ghost use Rattle.form.specs.Parts.{one_line};
ghost use Rattle.form.specs.Outcome.{mapped};
ghost use Rattle.form.specs.Reading.{read_rows, read_parts};
ghost use Rattle.sheet.specs.Lines.{lines, end_line, fittings};
ghost use Rattle.sheet.specs.Places.{text_words, fittings_at};
ghost use Rattle.sheet.specs.SheetText.{fit_part, fits_from, read_sheet};
ghost use Rattle.sheet.specs.TextCalls.{read_answer, read_into};
ghost use Rattle.reading.specs.Filled.{ended_as, Filled, Heard};
ghost use Rattle.reading.specs.Steps.{line_from, Next, ReadsOn, rest_on, Past};

use crate::rows::read_row;
use answers::{Answer, Figures, Refusal, TextFault};
use sheet::{
    FIT_COUNT, FIT_WEIGHT, FITTING_LINES, FITTINGS, FORM_LINE, HULL_LINE, LIMITS, LINE_WORDS,
    MASS_LINE, MOST_TEXT, PWR_LINE, Q_LINE, R_LINE, S_LINE, SEAT_LINE, T_LINE, TEXT_WORDS,
    VOL_LINE,
};
use std::ops::Range;
use text::{Fault, Limit, Rule};

// Reads the line of a tag and of some words of a sheet, which is the next one, from a place of a text on, and answers
// the place after it. Laid out in place, its answer goes in registers.
#[inline(always)]
fn read_line(
    tag: &[u8],
    range: Range<usize>,
    text: &[u8],
    at: usize,
    words: &mut [u32],
) -> Result<usize, Fault>
    requires next { Next tag.now range.start range.end }
    requires so_far { Past text.now range.start (Taken at) words.old }
    ensures line { ReadsOn at (line_from tag.now range.start range.end) text.now range.start words.old
        (line_told result) words.new }
    ensures so_far { Past text.now range.end (line_told result) words.new }
{
    let into = &mut words[range.start..];
    spelling::told_after(
        at,
        spelling::read_line(tag, &LIMITS[range], &text[at..], into),
    )
}

// Kept (4): that the words are all 0 is asked here and in two functions below; a type for it would hold no more once
// the first line is read.
// Reads the lines HULL to SEAT, and answers the place after them. The words are all 0 before it.
#[tactic(auto, using(crate::proofs::LineByLine::line_laws), unfolding(sheet::specs::Sheet::limits_on))]
fn read_lines(text: &[u8], words: &mut [u32]) -> Result<usize, Fault>
    requires { words.old ≡ replicate text_words 0 }
    ensures { Past text.now (1 + fittings_at) (line_told result) words.new }
{
    let hull = read_line(b"HULL\t", HULL_LINE..FORM_LINE, text, 0, words)?;
    let form = read_line(b"FORM\t", FORM_LINE..Q_LINE, text, hull, words)?;
    let q = read_line(b"STN\tQ\t", Q_LINE..R_LINE, text, form, words)?;
    let r = read_line(b"STN\tR\t", R_LINE..S_LINE, text, q, words)?;
    let s = read_line(b"STN\tS\t", S_LINE..T_LINE, text, r, words)?;
    let t = read_line(b"STN\tT\t", T_LINE..VOL_LINE, text, s, words)?;
    let vol = read_line(b"VOL\t", VOL_LINE..MASS_LINE, text, t, words)?;
    let mass = read_line(b"MASS\t", MASS_LINE..PWR_LINE, text, vol, words)?;
    let power = read_line(b"PWR\t", PWR_LINE..SEAT_LINE, text, mass, words)?;
    read_line(b"SEAT\t", SEAT_LINE..LINE_WORDS, text, power, words)
}

// Reads FIT lines up to the line that must be END: weight and count of each to the two words of its line number. The
// words are all 0 before it.
fn read_fits(text: &[u8], fits: &mut [u32]) -> Result<usize, Fault>
    requires { fits.old ≡ replicate (2 * fittings) 0 }
    ensures { Filled (mapped (fits_from 1) (read_rows fit_part fittings 0 0 text.now))
        text.now (line_told result) fits.new }
{
    let mut at = 0;
    let mut next = 1;
    for _ in 0..FITTINGS {
        if !spelling::starts(&text[at..], b'F') {
            break;
        }
        let limits = [
            Limit {
                low: next,
                high: FITTING_LINES,
                rule: Rule::Plain,
            },
            FIT_WEIGHT,
            FIT_COUNT,
        ];
        // Kept (4): as a closure for map_err it would need a contract, since `after` asks that the places add up.
        let ([line, weight, count], len) = match read_row(b"FIT\t", &limits, &text[at..]) {
            Ok(row) => row,
            Err(fault) => return Err(fault.after(at)),
        };
        let word = 2 * (line as usize - 1);
        fits[word] = weight;
        fits[word + 1] = count;
        next = line + 1;
        at += len;
    }
    Ok(at)
}

// Reads END, after which nothing may stand.
fn read_end(text: &[u8]) -> Result<usize, Fault>
    ensures { (line_told result ≡ ended_as (read_parts (one_line end_line ∷ []) text.now)) ×
        (reached (line_told result) ≤ length text.now) }
{
    let same = spelling::agreement(b"END\n", text);
    if same < 4 || text.len() > 4 {
        return Err(Fault {
            refusal: Refusal::BrokenLine,
            at: same,
        });
    }
    Ok(4)
}

// Reads what follows the line SEAT.
fn read_rest(text: &[u8], fits: &mut [u32]) -> Result<usize, Fault>
    requires { fits.old ≡ replicate (2 * fittings) 0 }
    ensures { Filled (rest_on [] text.now) text.now (line_told result) fits.new }
{
    let at = read_fits(text, fits)?;
    spelling::told_after(at, read_end(&text[at..]))
}

// Reads every part of a sheet. The words are all 0 before it.
fn read_parts(text: &[u8], words: &mut [u32]) -> Result<usize, Fault>
    requires { words.old ≡ replicate text_words 0 }
    ensures { Filled (rest_on lines text.now) text.now (line_told result) words.new }
{
    let at = read_lines(text, words)?;
    spelling::told_after(at, read_rest(&text[at..], &mut words[LINE_WORDS..]))
}

// Kept (4): read_columns has the same frame; as one, it would take what reads as a closure, with a contract of its own.
// Reads a sheet from a text of at most 4,096 bytes and answers how many words it has. They are all 0 before it.
pub fn read_words(text: &[u8], words: &mut [u32]) -> Result<usize, TextFault>
    requires { words.old ≡ replicate text_words 0 }
    ensures { Heard (read_sheet text.now) (text_told result) words.new }
{
    if text.len() > MOST_TEXT {
        return Err(TextFault::TOO_LONG);
    }
    // Kept (4): as a closure for map_err it would need a contract, since text_fault asks where the fault may be.
    match read_parts(text, words) {
        Ok(_) => Ok(TEXT_WORDS),
        Err(fault) => Err(spelling::text_fault(fault, text)),
    }
}

// Reads a sheet, its HULL number first, from a text of at most 4,096 bytes. A refusal, 2 or 3 with its place, leaves
// `sheet` as it stood.
pub fn read_sheet(text: &[u8], sheet: &mut [u32; TEXT_WORDS]) -> Answer
    ensures { Settled (read_answer (read_sheet text.now))
        (read_into (read_sheet text.now) sheet.old) (in_numbers result) sheet.new }
{
    // Kept (1): no heap; it is filled whole.
    let mut words = [0u32; TEXT_WORDS];
    read_words(text, &mut words)?;
    *sheet = words;
    Ok(Figures::Done)
}
