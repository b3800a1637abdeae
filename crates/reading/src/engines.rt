// Engine rows from their text, the powers and the weights apart.
ghost use Rattle.std.specs.Prelude.{◌≡◌, [], ◌∷◌, length};
ghost use Rattle.answers.specs.Settled.{Settled};
ghost use Rattle.form.specs.Outcome.{mapped};
ghost use Rattle.form.specs.Reading.{read_parts};
ghost use Rattle.sheet.specs.Lines.{most_rows};
ghost use Rattle.sheet.specs.EngineText.{engine_part, only_rows, read_engines};
ghost use Rattle.sheet.specs.TextCalls.{engines_answer, columns_into};
ghost use Rattle.answers.specs.Values.{in_numbers};
ghost use Rattle.text.specs.Read.{text_told};
ghost use Rattle.reading.specs.Rows.{rows_told, Columns, HeardRows};

use crate::rows::read_row;
use answers::{Answer, Figures, Refusal, Refused, TextFault};
use sheet::{ENGINE_POWER_HIGH, ENGINE_WEIGHT_HIGH, MOST_ROWS, MOST_TEXT};
use text::{Fault, Limit, Rule};

// Kept (1): powers and weights stay two slices: C lends them so (wb_read_engines), and plate C takes them so.

// Reads engine rows, the powers and the weights of them apart.
fn read_rows(text: &[u8], powers: &mut [u32], weights: &mut [u32]) -> Result<usize, Fault>
    requires { (length powers.old ≡ most_rows) × (length weights.old ≡ most_rows) }
    ensures { Columns (mapped only_rows (read_parts (engine_part ∷ []) text.now)) text.now (rows_told result)
        powers.new weights.new }
{
    let mut at = 0;
    let mut next = 1;
    // Kept (4): the row is counted for the answer; to zip two slices to write to would not spare it.
    for row in 0..MOST_ROWS {
        let limits = [
            Limit {
                low: next,
                high: ENGINE_POWER_HIGH,
                rule: Rule::Plain,
            },
            Limit {
                low: 0,
                high: ENGINE_WEIGHT_HIGH,
                rule: Rule::Plain,
            },
        ];
        // Kept (4): as a closure for map_err it would need a contract, since `after` asks that the places add up.
        let ([power, weight, _], len) = match read_row(b"ENG\t", &limits, &text[at..]) {
            Ok(row) => row,
            Err(fault) => return Err(fault.after(at)),
        };
        powers[row] = power;
        weights[row] = weight;
        next = power + 1;
        at += len;
        if at >= text.len() {
            return Ok(row + 1);
        }
    }
    Err(Fault {
        refusal: Refusal::BrokenLine,
        at,
    })
}

// Reads engine rows from a text of at most 4,096 bytes into room for as many as there may be, and answers how many
// there are.
pub fn read_columns(
    text: &[u8],
    powers: &mut [u32],
    weights: &mut [u32],
) -> Result<usize, TextFault>
    requires { (length powers.old ≡ most_rows) × (length weights.old ≡ most_rows) }
    ensures { HeardRows (read_engines text.now) (text_told result) powers.new weights.new }
{
    if text.len() > MOST_TEXT {
        return Err(TextFault::TOO_LONG);
    }
    // Kept (4): as a closure for map_err it would need a contract, since text_fault asks where the fault may be.
    match read_rows(text, powers, weights) {
        Ok(rows) => Ok(rows),
        Err(fault) => Err(spelling::text_fault(fault, text)),
    }
}

// Reads engine rows from a text of at most 4,096 bytes into two lent slices and answers how many there are. A refusal,
// 2 or 3 with its place, or 16 where either slice is shorter than the rows, leaves both as they stood.
pub fn read_engines(text: &[u8], powers: &mut [u32], weights: &mut [u32]) -> Answer
    ensures { Settled
        (engines_answer (read_engines text.now) (length powers.old) (length weights.old))
        (columns_into (read_engines text.now) powers.old weights.old) (in_numbers result)
        (powers.new, weights.new) }
{
    // Kept (1): no heap; as long as the rows may be.
    let mut read_powers = [0u32; MOST_ROWS];
    let mut read_weights = [0u32; MOST_ROWS];
    let rows = read_columns(text, &mut read_powers, &mut read_weights)?;
    if powers.len() < rows || weights.len() < rows {
        return Err(Refused::Plain(Refusal::NoRoom));
    }
    ground::copy_numbers(&read_powers[..rows], powers);
    ground::copy_numbers(&read_weights[..rows], weights);
    // Kept (4): it is proved to fit 32 bits: try_from would have to be unwrapped.
    Ok(Figures::Count(rows as u32))
}
