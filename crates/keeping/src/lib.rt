// The register's memory, lent as words: the words of each slot by name, and the changes that calls make. Callers see
// first that it is well formed (crate judging).
#![tactic(auto)]

ghost use Rattle.std.specs.Prelude.{◌≡◌, ℕ, List, ◌+◌, ◌*◌, ◌≤◌, ◌<◌, ◌∷◌, length, get_or};
ghost use Rattle.std.proofs.lemmas.List.Edits.{sets};
ghost use Rattle.sheet.specs.Lines.{fittings};
ghost use Rattle.sheet.specs.Places.{sheet_words, fitting_word};
ghost use Rattle.memory.specs.Layout.{Sized, most_hulls, desks, hull_words, draft_words, register_words};
ghost use Rattle.memory.specs.Layout.{weighed_words, part};
ghost use Rattle.memory.specs.Layout.{hull_count, edit, hull_weight, hull_sheet};
ghost use Rattle.memory.specs.Layout.{held, draft_hull, opening, draft_weight, draft_sheet, fitting};
ghost use Rattle.memory.specs.Asked.{AtHull, AtDesk, ToEnter, ToOpen, ToSet, ToReplace, ToSave, ToLay, ToCopy};
ghost use Rattle.memory.specs.Updates.{entered, opened, fitted, replaced, dropped, saved};

pub mod lent;

use lent::LentSlot;
use memory::{
    COUNT, DRAFT_HULL, DRAFT_SHEET, DRAFT_WEIGHT, DRAFT_WORDS, EDIT, HELD, HULL_SHEET, HULL_WEIGHT,
    HULL_WORDS, OPENING, REGISTER_WORDS, WEIGHED_WORDS,
};
use sheet::{FITTED, SHEET_WORDS};

// A memory of the right size.
pub type Memory = [u32; REGISTER_WORDS];

// A memory of the right size, lent on as what it is: the one chunk that it has, so that its length is not asked again.
pub fn whole(mem: &[u32]) -> &Memory
    requires { Sized mem.now }
    ensures { result.now ≡ mem.now }
{
    let (chunks, _) = mem.as_chunks::<REGISTER_WORDS>();
    &chunks[0]
}

// ---- the words of each slot

// How many hulls are entered.
pub fn hull_count(mem: &Memory) -> usize
    ensures { result ≡ hull_count mem.now }
{
    mem[COUNT] as usize
}

// The sheet that starts at a place, still the caller's own words.
fn sheet_at(mem: &Memory, at: usize) -> &[u32]
    requires { at + sheet_words ≤ register_words }
    ensures value { result.now ≡ part mem.now at sheet_words }
    ensures whole { length result.now ≡ sheet_words }
{
    &mem[at..at + SHEET_WORDS]
}

// A slot that has a sheet and what its boat weighs: a hull's, or that of a desk's draft.
pub trait Slot {
    ghost boat: { Self → ℕ };

    ghost words: { Self → List ℕ };

    // What the boat weighs.
    fn weight(&self) -> u32
        ensures { result ≡ boat self.now };

    // The sheet, still the caller's own words.
    fn sheet(&self) -> &[u32]
        ensures value { result.now ≡ words self.now }
        ensures whole { length result.now ≡ sheet_words };
}

// A hull by its number.
#[derive(Clone, Copy)]
pub struct Hull<'a> {
    pub mem: &'a Memory,
    pub number: usize,
    pub ghost there: { number < most_hulls },
}

impl<'a> Hull<'a> {
    // That of a memory of the right size.
    pub fn of(mem: &'a [u32], number: usize) -> Self
        requires { AtHull mem.now number }
        ensures { (result.mem.now ≡ mem.now) × (result.number ≡ number) }
    {
        Hull {
            mem: whole(mem),
            number,
        }
    }

    // How far its words stand from those of hull 0.
    fn offset(&self) -> usize
        ensures { result ≡ hull_words * self.now.number }
    {
        HULL_WORDS * self.number
    }

    // Its edit number.
    pub fn edit(&self) -> u32
        ensures { result ≡ edit self.now.mem.now self.now.number }
    {
        self.mem[EDIT + self.offset()]
    }
}

impl<'a> LentSlot<'a> for Hull<'a> {
    ghost boat = { λ h. hull_weight h.mem.now h.number };

    ghost words = { λ h. hull_sheet h.mem.now h.number };

    fn weight(&self) -> u32 {
        self.mem[HULL_WEIGHT + self.offset()]
    }

    fn sheet(&self) -> &'a [u32] {
        sheet_at(self.mem, HULL_SHEET + self.offset())
    }
}

impl Slot for Hull<'_> {
    ghost boat = { λ h. hull_weight h.mem.now h.number };

    ghost words = { λ h. hull_sheet h.mem.now h.number };

    fn weight(&self) -> u32 {
        <Hull as LentSlot>::weight(self)
    }

    fn sheet(&self) -> &[u32] {
        <Hull as LentSlot>::sheet(self)
    }
}

// A desk by its number, and its draft.
#[derive(Clone, Copy)]
pub struct Desk<'a> {
    pub mem: &'a Memory,
    pub number: usize,
    pub ghost there: { number < desks },
}

impl<'a> Desk<'a> {
    // That of a memory of the right size.
    pub fn of(mem: &'a [u32], number: usize) -> Self
        requires { AtDesk mem.now number }
        ensures { (result.mem.now ≡ mem.now) × (result.number ≡ number) }
    {
        Desk {
            mem: whole(mem),
            number,
        }
    }

    // How far its words stand from those of desk 0.
    fn offset(&self) -> usize
        ensures { result ≡ draft_words * self.now.number }
    {
        DRAFT_WORDS * self.number
    }

    // Its mark: 1 if it holds a draft, and 0 if not.
    pub fn held(&self) -> u32
        ensures { result ≡ held self.now.mem.now self.now.number }
    {
        self.mem[HELD + self.offset()]
    }

    // The number of its draft's hull.
    pub fn hull(&self) -> usize
        ensures { result ≡ draft_hull self.now.mem.now self.now.number }
    {
        self.mem[DRAFT_HULL + self.offset()] as usize
    }

    // The edit number that the hull had at the open.
    pub fn opening(&self) -> u32
        ensures { result ≡ opening self.now.mem.now self.now.number }
    {
        self.mem[OPENING + self.offset()]
    }

    // The weight of one piece on a fitting line of its draft, 0 for an empty line.
    pub fn fitting(&self, line: usize) -> u32
        requires { (1 ≤ line) × (line ≤ fittings) }
        ensures { result ≡ fitting self.now.mem.now self.now.number line }
    {
        self.mem[DRAFT_SHEET + self.offset() + fitting_word(line)]
    }
}

impl<'a> LentSlot<'a> for Desk<'a> {
    ghost boat = { λ d. draft_weight d.mem.now d.number };

    ghost words = { λ d. draft_sheet d.mem.now d.number };

    fn weight(&self) -> u32 {
        self.mem[DRAFT_WEIGHT + self.offset()]
    }

    fn sheet(&self) -> &'a [u32] {
        sheet_at(self.mem, DRAFT_SHEET + self.offset())
    }
}

impl Slot for Desk<'_> {
    ghost boat = { λ d. draft_weight d.mem.now d.number };

    ghost words = { λ d. draft_sheet d.mem.now d.number };

    fn weight(&self) -> u32 {
        <Desk as LentSlot>::weight(self)
    }

    fn sheet(&self) -> &[u32] {
        <Desk as LentSlot>::sheet(self)
    }
}

// Where the weight of a fitting line stands in a sheet; its count comes after it.
fn fitting_word(line: usize) -> usize
    requires { (1 ≤ line) × (line ≤ fittings) }
    ensures { result ≡ fitting_word line }
{
    FITTED + 2 * (line - 1)
}

// ---- the changes
// Kept (4): they take the memory, not a Hull or Desk lent to write to: a contract of a change says every word of the
// memory (Updates), and a view would have to hand back those outside its slot. Weight and sheet are laid side by side;
// the pair is figuring's Boat, a layer above.

// Copies a sheet, with the weight before it, from one place to another that it does not overlap.
#[tactic(auto, using(crate::proofs::Writes::copied_as))]
fn copy_weighed(mem: &mut [u32], from: usize, to: usize)
    requires { ToCopy mem.old from to }
    ensures { mem.new ≡ sets mem.old to (part mem.old from weighed_words) }
{
    mem.copy_within(from..from + WEIGHED_WORDS, to);
}

// Lays a weight and a sheet from a place on.
fn lay_weighed(mem: &mut [u32], at: usize, weight: u32, sheet: &[u32])
    requires { ToLay mem.old at sheet.now }
    ensures { mem.new ≡ sets mem.old at (weight ∷ sheet.now) }
{
    mem[at] = weight;
    mem[at + 1..at + WEIGHED_WORDS].copy_from_slice(sheet);
}

// Enters a new hull, of a boat that weighs so much, with edit number 0, and answers its number.
#[tactic(auto, using(crate::proofs::Writes::entered_as))]
pub fn enter_hull(mem: &mut [u32], weight: u32, sheet: &[u32]) -> u32
    requires { ToEnter mem.old weight sheet.now }
    ensures value { result ≡ hull_count mem.old }
    ensures mem_after { mem.new ≡ entered mem.old sheet.now }
{
    let hull = mem[COUNT];
    let slot = HULL_WORDS * hull as usize;
    mem[EDIT + slot] = 0;
    lay_weighed(mem, HULL_WEIGHT + slot, weight, sheet);
    mem[COUNT] = hull + 1;
    hull
}

// Opens a hull at a desk, whose draft is then the hull's sheet and weight, and answers the hull's edit number.
#[tactic(auto, using(crate::proofs::Writes::opened_as))]
pub fn open_draft(mem: &mut [u32], desk: usize, hull: u32) -> u32
    requires { ToOpen mem.old desk hull }
    ensures value { result ≡ edit mem.old hull }
    ensures mem_after { mem.new ≡ opened mem.old desk hull }
{
    let from = HULL_WORDS * hull as usize;
    let to = DRAFT_WORDS * desk;
    let edits = mem[EDIT + from];
    copy_weighed(mem, HULL_WEIGHT + from, DRAFT_WEIGHT + to);
    mem[HELD + to] = 1;
    mem[DRAFT_HULL + to] = hull;
    mem[OPENING + to] = edits;
    edits
}

// Sets the weight of one piece on a fitting line of a desk's draft, and how many there are; both 0 for an empty line.
// The boat's weight moves by the difference.
#[tactic(auto, using(memory::proofs::Fittings::line_weighs), unfolding(memory::specs::Updates::fitted))]
pub fn set_fitting(mem: &mut [u32], desk: usize, line: usize, weight: u32, count: u32)
    requires { ToSet mem.old desk line weight count }
    ensures { mem.new ≡ fitted mem.old desk line weight count }
{
    let slot = DRAFT_WORDS * desk;
    let at = DRAFT_SHEET + slot + fitting_word(line);
    let boat = mem[DRAFT_WEIGHT + slot] + weight * count - mem[at] * mem[at + 1];
    mem[at] = weight;
    mem[at + 1] = count;
    mem[DRAFT_WEIGHT + slot] = boat;
}

// Makes a desk's draft another sheet, of a boat that weighs so much.
#[tactic(auto, using(crate::proofs::Writes::replaced_as))]
pub fn replace_sheet(mem: &mut [u32], desk: usize, weight: u32, sheet: &[u32])
    requires { ToReplace mem.old desk weight sheet.now }
    ensures { mem.new ≡ replaced mem.old desk sheet.now }
{
    lay_weighed(mem, DRAFT_WEIGHT + DRAFT_WORDS * desk, weight, sheet);
}

// Ends a desk's draft.
#[tactic(auto, unfolding(memory::specs::Updates::dropped))]
pub fn drop_draft(mem: &mut [u32], desk: usize)
    requires { AtDesk mem.old desk }
    ensures { mem.new ≡ dropped mem.old desk }
{
    mem[HELD + DRAFT_WORDS * desk] = 0;
}

// Saves a desk's draft as its hull's sheet and weight and ends it; answers the hull's edit number, which is one more.
#[tactic(auto, using(crate::proofs::Writes::saved_as))]
pub fn save_draft(mem: &mut [u32], desk: usize) -> u32
    requires { ToSave mem.old desk }
    ensures value { result ≡ edit mem.old (draft_hull mem.old desk) + 1 }
    ensures mem_after { mem.new ≡ saved mem.old desk }
{
    let from = DRAFT_WORDS * desk;
    let to = HULL_WORDS * mem[DRAFT_HULL + from] as usize;
    let edits = mem[EDIT + to] + 1;
    copy_weighed(mem, DRAFT_WEIGHT + from, HULL_WEIGHT + to);
    mem[EDIT + to] = edits;
    mem[HELD + from] = 0;
    edits
}

#[cfg(test)]
mod tests;
