// Whether the register's memory is well formed: the check that every call on the register makes first. It reads the
// memory once, slot by slot, without copies.
#![tactic(auto)]

ghost use Rattle.std.specs.Prelude.{◌≡◌, ◌≤◌};
ghost use Rattle.capacity.specs.Weights.{weighed_ok};
ghost use Rattle.memory.specs.Layout.{most_hulls, desks, hull_count};
ghost use Rattle.memory.specs.Formed.{each, hull_ok, draft_ok, formed};

use keeping::lent::LentSlot;
use keeping::{Desk, Hull, Memory};
use memory::{DESKS, MOST_EDITS, MOST_HULLS, REGISTER_WORDS};

// Whether a slot's sheet is within limits and its boat weighs what stands beside it. It is read once, and weighed as it
// is judged.
fn weighed_ok<'a, S: LentSlot<'a>>(slot: &S) -> bool
    ensures { result ≡ weighed_ok (S.boat slot.now) (S.words slot.now) }
{
    measuring::weigh(slot.sheet()) == Some(slot.weight())
}

// Kept (4): a hull and a desk ask different words of the memory in different numbers; what they share is weighed_ok.
// One loop for both would take bound, view and check, and be longer than the two.

// Whether a hull is well formed: its edit number, then its sheet with the weight beside it.
#[tactic(auto, unfolding(memory::specs::Formed::hull_ok))]
fn hull_ok(hull: &Hull) -> bool
    ensures { result ≡ hull_ok hull.now.mem.now hull.now.number }
{
    hull.edit() <= MOST_EDITS && weighed_ok(hull)
}

// The same of the first hulls, so many of them.
#[tactic(auto, using(memory::proofs::Each::each_none, memory::proofs::Each::each_more))]
fn hulls_ok(mem: &Memory, hulls: usize) -> bool
    requires { hulls ≤ most_hulls }
    ensures { result ≡ each hulls (hull_ok mem.now) }
{
    for number in 0..hulls {
        if !hull_ok(&Hull { mem, number }) {
            return false;
        }
    }
    true
}

// Whether a desk is well formed: it holds no draft, or one of a hull that is there, of an edit number not above the
// hull's, with a sheet within limits and what its boat weighs.
#[tactic(auto, unfolding(memory::specs::Formed::draft_ok))]
fn draft_ok(desk: &Desk) -> bool
    requires { hull_count desk.now.mem.now ≤ most_hulls }
    ensures { result ≡ draft_ok desk.now.mem.now desk.now.number }
{
    match desk.held() {
        0 => true,
        1 => {
            let mem = desk.mem;
            let number = desk.hull();
            number < keeping::hull_count(mem)
                && desk.opening() <= (Hull { mem, number }).edit()
                && weighed_ok(desk)
        }
        _ => false,
    }
}

// The same of every desk.
#[tactic(auto, using(memory::proofs::Each::each_none, memory::proofs::Each::each_more))]
fn drafts_ok(mem: &Memory) -> bool
    requires { hull_count mem.now ≤ most_hulls }
    ensures { result ≡ each desks (draft_ok mem.now) }
{
    for number in 0..DESKS {
        if !draft_ok(&Desk { mem, number }) {
            return false;
        }
    }
    true
}

// Whether the memory is well formed: refusal 1 is given where it is not.
#[tactic(auto, unfolding(memory::specs::Formed::formed))]
pub fn is_formed(mem: &[u32]) -> bool
    ensures { result ≡ formed mem.now }
{
    let Some(mem) = mem.as_array::<REGISTER_WORDS>() else {
        return false;
    };
    let hulls = keeping::hull_count(mem);
    if hulls > MOST_HULLS {
        return false;
    }
    // The drafts first, so that the loop over the hulls keeps nothing for them over its calls (DECISIONS).
    drafts_ok(mem) && hulls_ok(mem, hulls)
}
