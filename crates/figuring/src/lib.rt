// Plates A, C and U, worked from the words of a sheet that is within the limits and from a weight that is taken for M,
// the boat with its fittings: the plate is by that weight, whatever it is. printing and answering call them.
#![tactic(auto)]

ghost use Rattle.std.specs.Prelude.{◌≡◌};
ghost use Rattle.answers.specs.Values.{in_numbers};
ghost use Rattle.capacity.specs.PlateC.{plate_c};
ghost use Rattle.capacity.specs.PlateA.{plate_a};
ghost use Rattle.capacity.specs.PlateU.{plate_u};
ghost use Rattle.capacity.specs.Kinds.{PlateKind, kind_a, kind_c, kind_u, plate_by};

use answers::{Answer, Figures, Refusal, Refused};
pub use boat::Boat;
use engines::rows_right;

mod boat; // a boat, by its sheet and its weight
mod numbers; // rounding down
mod volume; // N, and what adds to the load
mod weights; // what takes from the load
mod loads; // marked loads of plates C and A
mod engines; // engine rows and the engine's weight
mod persons; // plate C's persons
mod power; // plate A's power
mod pounds; // plate U's load

// A plate, with what its caller gives it.
pub trait Plate: Copy {
    // Which plate it is.
    ghost kind: { Self → PlateKind };

    // Marks a boat.
    fn mark(self, boat: Boat) -> Answer
        ensures { in_numbers result ≡ plate_by (kind self) boat.entry.weight boat.entry.sheet.now };
}

// Plate A: kilograms and watts.
#[derive(Clone, Copy)]
pub struct PlateA;

impl Plate for PlateA {
    ghost kind = { λ _. kind_a };

    // Laid out in each call, here and below: called, it is lent its boat by memory, and the calls take 16 to 32 bytes of
    // stack more (DECISIONS).
    #[inline(always)]
    fn mark(self, boat: Boat) -> Answer
        ensures { in_numbers result ≡ plate_a boat.entry.weight boat.entry.sheet.now }
    {
        let load = boat.load_a().ok_or(Refusal::NoLoad)?;
        if boat.lacks_power() {
            return Err(Refused::Plain(Refusal::NoPower));
        }
        // Kept (4): both are proved to fit 32 bits: try_from would have to be unwrapped.
        Ok(Figures::Plate(load as u32, boat.power() as u32))
    }
}

// Plate C: kilograms and persons, of engine rows in two lent slices.
#[derive(Clone, Copy)]
pub struct PlateC<'a> {
    pub powers: &'a [u32],
    pub weights: &'a [u32],
}

impl Plate for PlateC<'_> {
    ghost kind = { λ rows. kind_c rows.powers.now rows.weights.now };

    #[inline(always)]
    fn mark(self, boat: Boat) -> Answer
        ensures { in_numbers result
            ≡ plate_c boat.entry.weight boat.entry.sheet.now self.entry.powers.now self.entry.weights.now }
    {
        if !rows_right(self.powers, self.weights) {
            return Err(Refused::Plain(Refusal::BadRows));
        }
        let load = boat.load_c().ok_or(Refusal::NoLoad)?;
        let engine = boat
            .engine(self.powers, self.weights)
            .ok_or(Refusal::NoRow)?;
        let gross = 1000 * load;
        if boat.lacks_tests(gross, engine) {
            return Err(Refused::Plain(Refusal::Untested));
        }
        let persons = boat.persons(gross, engine).ok_or(Refusal::NoPersons)?;
        // Kept (4): both are proved to fit 32 bits: try_from would have to be unwrapped.
        Ok(Figures::Plate(load as u32, persons as u32))
    }
}

// Plate U: pounds.
#[derive(Clone, Copy)]
pub struct PlateU;

impl Plate for PlateU {
    ghost kind = { λ _. kind_u };

    #[inline(always)]
    fn mark(self, boat: Boat) -> Answer
        ensures { in_numbers result ≡ plate_u boat.entry.weight boat.entry.sheet.now }
    {
        let load = boat.load_u().ok_or(Refusal::NoLoad)?;
        // Kept (4): it is proved to fit 32 bits: try_from would have to be unwrapped.
        Ok(Figures::Count(load as u32))
    }
}
