// Every call on the register, in lent memory. Each is total: it refuses by 01's numbers, in 01's order, and a refusal
// leaves the memory as it stood.
#![tactic(auto)]

ghost use Rattle.std.specs.Prelude.{◌≡◌, ◌∷◌, ◌<◌, length, IfOk};
ghost use Rattle.answers.specs.Values.{in_numbers};
ghost use Rattle.sheet.specs.Places.{sheet_words};
ghost use Rattle.memory.specs.Layout.{most_hulls, draft_hull, draft_sheet};
ghost use Rattle.register.specs.Refusals.{hull_refusal, desk_refusal, room_refusal, open_refusal, set_own, save_own};
ghost use Rattle.register.specs.Calls.{set_fitting, replace, try_plate, plate, weigh, write, new_hull, open_hull, work};
ghost use Rattle.register.specs.Calls.{save, drop_draft, ask, fresh_step, step, Changes, Writes};
ghost use Rattle.answering.specs.Checked.{refused_by};

use answers::{Answer, Figures, Refusal, Refused};
use figuring::{Boat, Plate};
pub use figuring::{PlateA, PlateC, PlateU};
use keeping::lent::LentSlot;
use keeping::{Desk, Hull};
use memory::{COUNT, DESKS, MOST_EDITS, MOST_HULLS, REGISTER_WORDS};
use sheet::{FITTING_LINES, IN_TEXT, TEXT_WORDS};

// ---- what calls are on, or what refuses them

// Kept (1): every call below takes the memory and the number that C gives; these two make of them what the rest takes.
// They are two since what refuses a hull's number and a desk's differs, in 01's table of refusals.

// The hull that a call is on; or what refuses the call: the memory first, then the hull.
#[tactic(auto, using(crate::proofs::Sheets::sized), unfolding(register::specs::Refusals::hull_refusal))]
fn hull_at(mem: &[u32], hull: u32) -> Result<Hull<'_>, Refusal>
    ensures refused { refused_by result ≡ hull_refusal mem.now hull }
    ensures found { IfOk result (λ h. (h.mem.now ≡ mem.now) × (h.number ≡ hull)) }
{
    if !judging::is_formed(mem) {
        return Err(Refusal::BadMemory);
    }
    if hull >= mem[COUNT] {
        return Err(Refusal::NoHull);
    }
    Ok(Hull::of(mem, hull as usize))
}

// The desk whose draft a call is on; or what refuses the call: the memory first, then the desk, then that it holds no
// draft.
#[tactic(auto, using(crate::proofs::Sheets::sized), unfolding(register::specs::Refusals::desk_refusal))]
fn draft_at(mem: &[u32], desk: u32) -> Result<Desk<'_>, Refusal>
    ensures refused { refused_by result ≡ desk_refusal mem.now desk }
    ensures found { IfOk result (λ d. (d.mem.now ≡ mem.now) × (d.number ≡ desk)) }
{
    if !judging::is_formed(mem) {
        return Err(Refusal::BadMemory);
    }
    let number = desk as usize;
    if number >= DESKS {
        return Err(Refusal::NoDesk);
    }
    let desk = Desk::of(mem, number);
    if desk.held() == 0 {
        return Err(Refusal::NoDraft);
    }
    Ok(desk)
}

// What refuses a new hull before its text is read: the memory first, then a full register.
#[tactic(auto, using(crate::proofs::Sheets::sized), unfolding(register::specs::Refusals::room_refusal))]
fn check_room(mem: &[u32]) -> Result<(), Refusal>
    ensures { refused_by result ≡ room_refusal mem.now }
{
    if !judging::is_formed(mem) {
        return Err(Refusal::BadMemory);
    }
    if mem[COUNT] as usize >= MOST_HULLS {
        return Err(Refusal::Full);
    }
    Ok(())
}

// What refuses an open: the memory first, then the desk, then the hull.
#[tactic(auto, using(crate::proofs::Sheets::sized), unfolding(register::specs::Refusals::open_refusal))]
fn check_open(mem: &[u32], desk: u32, hull: u32) -> Result<(), Refusal>
    ensures { refused_by result ≡ open_refusal mem.now desk hull }
{
    if !judging::is_formed(mem) {
        return Err(Refusal::BadMemory);
    }
    if desk as usize >= DESKS {
        return Err(Refusal::NoDesk);
    }
    if hull >= mem[COUNT] {
        return Err(Refusal::NoHull);
    }
    Ok(())
}

// ---- hulls

// Fresh start: makes of a memory of the right size one with no hulls and no drafts, every word 0.
pub fn fresh(mem: &mut [u32]) -> Answer
    ensures { Changes (fresh_step mem.old) (in_numbers result) mem.new }
{
    if mem.len() != REGISTER_WORDS {
        return Err(Refused::Plain(Refusal::BadMemory));
    }
    mem.fill(0);
    Ok(Figures::Done)
}

// Enters a new hull from a text and answers its number.
pub fn new_hull(mem: &mut [u32], text: &[u8]) -> Answer
    ensures { Changes (step mem.old (new_hull text.now)) (in_numbers result) mem.new }
{
    check_room(mem)?;
    // Kept (1): no heap; it is filled whole.
    let mut words = [0u32; TEXT_WORDS];
    reading::read_words(text, &mut words)?;
    let sheet = &words[IN_TEXT..];
    let weight = measuring::weigh(sheet).unwrap();
    Ok(Figures::Count(keeping::enter_hull(mem, weight, sheet)))
}

// A plate of a hull.
#[tactic(auto, using(crate::proofs::Sheets::hull_laws))]
pub fn plate<P: Plate>(mem: &[u32], hull: u32, which: P) -> Answer
    ensures { in_numbers result ≡ (step mem.now (ask hull (plate (P.kind which)))).answer }
{
    let hull = hull_at(mem, hull)?;
    which.mark(Boat {
        weight: hull.weight(),
        sheet: hull.sheet(),
    })
}

// What a hull's boat weighs, with its fittings, as it is held: nothing is summed.
#[tactic(auto, using(crate::proofs::Sheets::hull_laws))]
pub fn weight(mem: &[u32], hull: u32) -> Answer
    ensures { in_numbers result ≡ (step mem.now (ask hull weigh)).answer }
{
    Ok(Figures::Count(hull_at(mem, hull)?.weight()))
}

// The words of a sheet with a hull's number before them.
fn numbered(number: u32, sheet: &[u32]) -> [u32; TEXT_WORDS]
    requires { length sheet.now ≡ sheet_words }
    ensures { result ≡ number ∷ sheet.now }
{
    let mut words = [number; TEXT_WORDS];
    words[IN_TEXT..].copy_from_slice(sheet);
    words
}

// Writes a hull's sheet, under the register's number, from the start of out and answers how many bytes it has.
#[tactic(auto, using(crate::proofs::Sheets::hull_laws))]
pub fn write_hull(mem: &[u32], hull: u32, out: &mut [u8]) -> Answer
    ensures { Writes (step mem.now (ask hull (write out.old))) (in_numbers result) out.new }
{
    let words = numbered(hull, hull_at(mem, hull)?.sheet());
    writing::write_sheet(&words, out)
}

// ---- drafts

// Opens a hull at a desk, which discards a draft that the desk held, and answers the hull's edit number.
#[tactic(auto, using(crate::proofs::Sheets::to_open))]
pub fn open_hull(mem: &mut [u32], desk: u32, hull: u32) -> Answer
    ensures { Changes (step mem.old (open_hull desk hull)) (in_numbers result) mem.new }
{
    check_open(mem, desk, hull)?;
    Ok(Figures::Count(keeping::open_draft(mem, desk as usize, hull)))
}

// What refuses a fitting line that is to be set: a line, a weight or a count outside the limits, 0 and 0 being within
// them, and then an empty line that is to be emptied.
#[tactic(auto, using(register::proofs::Own::line_word, sheet::proofs::FitRow::empty_count))]
fn check_line(draft: &Desk, line: u32, weight: u32, count: u32) -> Result<(), Refusal>
    ensures { refused_by result ≡ set_own (draft_sheet draft.now.mem.now draft.now.number) line weight count }
{
    if line < 1 || line > FITTING_LINES || !measuring::fit_ok(weight, count) {
        return Err(Refusal::OutsideLimits);
    }
    if weight == 0 && draft.fitting(line as usize) == 0 {
        return Err(Refusal::EmptyLine);
    }
    Ok(())
}

// Sets a fitting line of a desk's draft to so many pieces of a weight, in place of what is there; 0 and 0 empty it.
#[tactic(auto, using(crate::proofs::Sheets::draft_laws))]
pub fn set_fitting(mem: &mut [u32], desk: u32, line: u32, weight: u32, count: u32) -> Answer
    ensures { Changes (step mem.old (work desk (set_fitting line weight count))) (in_numbers result) mem.new }
{
    let draft = draft_at(mem, desk)?;
    check_line(&draft, line, weight, count)?;
    keeping::set_fitting(mem, desk as usize, line as usize, weight, count);
    Ok(Figures::Done)
}

// Makes a desk's draft the sheet of a text.
pub fn replace(mem: &mut [u32], desk: u32, text: &[u8]) -> Answer
    ensures { Changes (step mem.old (work desk (replace text.now))) (in_numbers result) mem.new }
{
    draft_at(mem, desk)?;
    // Kept (1): no heap; it is filled whole.
    let mut words = [0u32; TEXT_WORDS];
    reading::read_words(text, &mut words)?;
    let sheet = &words[IN_TEXT..];
    let weight = measuring::weigh(sheet).unwrap();
    keeping::replace_sheet(mem, desk as usize, weight, sheet);
    Ok(Figures::Done)
}

// A plate of a desk's draft, as a trial.
// Kept (4): beside `plate`, since each is a call of its own with its own promise; what they share is `mark`.
#[tactic(auto, using(crate::proofs::Sheets::draft_laws))]
pub fn trial<P: Plate>(mem: &[u32], desk: u32, which: P) -> Answer
    ensures { in_numbers result ≡ (step mem.now (work desk (try_plate (P.kind which)))).answer }
{
    let draft = draft_at(mem, desk)?;
    which.mark(Boat {
        weight: draft.weight(),
        sheet: draft.sheet(),
    })
}

// What refuses a save: an edit of the hull since the open, then that no edit number is left.
fn check_save(draft: &Desk) -> Result<(), Refusal>
    requires { draft_hull draft.now.mem.now draft.now.number < most_hulls }
    ensures { refused_by result ≡ save_own draft.now.mem.now draft.now.number }
{
    let hull = Hull {
        mem: draft.mem,
        number: draft.hull(),
    };
    let edits = hull.edit();
    if edits != draft.opening() {
        return Err(Refusal::EditedSince);
    }
    if edits == MOST_EDITS {
        return Err(Refusal::EditsSpent);
    }
    Ok(())
}

// Saves a desk's draft as its hull's sheet, ends it, and answers the hull's edit number.
#[tactic(auto, using(crate::proofs::Sheets::draft_laws))]
pub fn save(mem: &mut [u32], desk: u32) -> Answer
    ensures { Changes (step mem.old (save desk)) (in_numbers result) mem.new }
{
    let draft = draft_at(mem, desk)?;
    check_save(&draft)?;
    Ok(Figures::Count(keeping::save_draft(mem, desk as usize)))
}

// Ends a desk's draft.
#[tactic(auto, using(crate::proofs::Sheets::draft_laws))]
pub fn drop_draft(mem: &mut [u32], desk: u32) -> Answer
    ensures { Changes (step mem.old (drop_draft desk)) (in_numbers result) mem.new }
{
    draft_at(mem, desk)?;
    keeping::drop_draft(mem, desk as usize);
    Ok(Figures::Done)
}
