// The load of plate U, in pounds.
ghost use Rattle.std.specs.Prelude.{◌≡◌};
ghost use Rattle.capacity.specs.PlateU.{figure, pounds, marked_u};
ghost use Rattle.capacity.specs.Highs.{Figured};
ghost use Rattle.figuring.specs.Positive.{positive};

use super::boat::Boat;
use super::numbers::whole_part;
use sheet::{DECLARED, FUEL, MACHINERY, OUTBOARD};

// Declared watts, of two horsepower, up to which an outboard's load on plate U is three tenths.
const TWO_HORSES: u32 = 1491;

// Pounds are a fraction of what Z has: 100_000 over 180_000 * 45_359_237, since Z counts a gram as 180_000 and a pound
// has 45_359_237 hundred-thousandths of one. It is reduced by 20_000, so that with any weight of 32 bits its terms fit
// 64 bits.
const FINER: u64 = 5;

const POUND: u64 = 9 * 45_359_237;

#[tactic(auto, using(capacity::proofs::Most::weight_most))]
impl Boat<'_> {
    // Whole pounds of times / divisor of what the displacement has above so many grams, where there are any.
    fn pounds_of(self, gain: u64, less: u64, times: u64, divisor: u64) -> Option<u64>
        requires { Figured self.sheet.now gain (figure less times divisor) }
        ensures { result ≡ positive (pounds self.entry.sheet.now (figure less times divisor)) }
    {
        let fine = times * FINER;
        whole_part(fine * gain, fine * self.loss(less), divisor * POUND)
    }

    // The pounds that plate U marks, where there are any.
    pub(crate) fn load_u(self) -> Option<u64>
        ensures { result ≡ positive (marked_u self.entry.weight self.entry.sheet.now) }
    {
        let gain = self.gain();
        let boat = u64::from(self.weight);
        let fuelled = boat + self.wide(FUEL);
        if self.word(OUTBOARD) == 1 {
            if TWO_HORSES < self.word(DECLARED) {
                self.pounds_of(gain, fuelled, 1, 5)
            } else {
                self.pounds_of(gain, boat, 3, 10)
            }
        } else {
            let powered = fuelled + 4 * self.wide(MACHINERY);
            let fifth = self.pounds_of(gain, powered, 1, 5);
            fifth.max(self.pounds_of(gain, fuelled, 1, 7))
        }
    }
}
