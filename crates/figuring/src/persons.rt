// The persons of plate C.
ghost use Rattle.std.specs.Prelude.{◌≡◌};
ghost use Rattle.std.proofs.Math.IntN.{sub_ℕ};
ghost use Rattle.capacity.specs.PlateC.{persons, lacks_tests};
ghost use Rattle.figuring.specs.Positive.{positive};

use super::boat::Boat;
use super::numbers::whole_part;
use sheet::{POSITIONS, TESTED};

// Grams to a person, and the grams of live load below which persons must be tested.
const PERSON_GRAMS: u64 = 75_000;

const TESTED_GRAMS: u64 = 250_000;

impl Boat<'_> {
    // Persons for a live load of so many grams, gross and engine apart, where there are any.
    pub(crate) fn persons(self, gross: u64, engine: u32) -> Option<u64>
        ensures { result ≡ positive (persons self.entry.sheet.now (sub_ℕ gross engine)) }
    {
        let by_load = whole_part(gross, u64::from(engine), PERSON_GRAMS)?;
        let seated = by_load.min(self.wide(POSITIONS));
        match self.wide(TESTED) {
            0 => Some(seated),
            tested => Some(seated.min(tested)),
        }
    }

    // Whether a live load, gross and engine apart, wants tested persons and none are entered.
    pub(crate) fn lacks_tests(self, gross: u64, engine: u32) -> bool
        ensures { result ≡ lacks_tests self.entry.sheet.now (sub_ℕ gross engine) }
    {
        gross < u64::from(engine) + TESTED_GRAMS && self.word(TESTED) == 0
    }
}
