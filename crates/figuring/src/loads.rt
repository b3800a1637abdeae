// The loads of plates C and A.
ghost use Rattle.std.specs.Prelude.{◌≡◌};
ghost use Rattle.capacity.specs.PlateC.{marked_c};
ghost use Rattle.capacity.specs.PlateA.{marked_a};
ghost use Rattle.figuring.specs.Positive.{positive};

use super::boat::Boat;
use super::numbers::whole_part;
use super::volume::GRAM;
use sheet::{DECLARED, OUTBOARD};

// Declared watts up to which the gross load of plate C is three tenths, not a fifth.
const LOW_POWER: u32 = 1500;

// What X has for each kilogram of marked load; and half of it, which plate A adds before it rounds down.
const MARKED_KILO: u64 = 5 * 1000 * GRAM;

const HALF_MARKED: u64 = 2500 * GRAM;

#[tactic(auto, using(capacity::proofs::Most::gain_most_lem, capacity::proofs::Most::weight_most))]
impl Boat<'_> {
    // The kilograms that plate C marks, where there are any.
    pub(crate) fn load_c(self) -> Option<u64>
        ensures { result ≡ positive (marked_c self.entry.weight self.entry.sheet.now) }
    {
        let gain = self.gain();
        let loss = self.loss(u64::from(self.weight) + self.carried());
        if LOW_POWER < self.word(DECLARED) {
            whole_part(gain, loss, MARKED_KILO)
        } else {
            whole_part(3 * gain, 3 * loss, 2 * MARKED_KILO)
        }
    }

    // The kilograms that plate A marks, where there are any: half a kilogram is added, so that a half goes upward. An
    // inboard's tanks and machinery count five times.
    pub(crate) fn load_a(self) -> Option<u64>
        ensures { result ≡ positive (marked_a self.entry.weight self.entry.sheet.now) }
    {
        let gain = self.gain() + HALF_MARKED;
        let boat = u64::from(self.weight);
        let carried = self.carried();
        if self.word(OUTBOARD) == 1 {
            whole_part(gain, self.loss(boat + carried), MARKED_KILO)
        } else {
            whole_part(gain, self.loss(boat + 5 * carried), MARKED_KILO)
        }
    }
}
