// What a boat carries, and what takes from the load.
ghost use Rattle.std.specs.Prelude.{◌≡◌, ◌+◌, ◌*◌, ◌≤◌};
ghost use Rattle.capacity.specs.Words.{well, flooding, fuel, machinery};
ghost use Rattle.capacity.specs.Volume.{gram};
ghost use Rattle.capacity.specs.Highs.{heaviest};

use super::boat::Boat;
use super::volume::GRAM;
use sheet::{FLOODING, FUEL, MACHINERY, WELL};

impl Boat<'_> {
    // The tanks with fuel and the machinery.
    pub(crate) fn carried(self) -> u64
        ensures { result ≡ fuel self.entry.sheet.now + machinery self.entry.sheet.now }
    {
        self.wide(FUEL) + self.wide(MACHINERY)
    }

    // What takes from the load, of a boat that is taken to weigh so many grams.
    pub(crate) fn loss(self, weight: u64) -> u64
        requires { weight ≤ heaviest }
        ensures { result ≡ gram * (well self.entry.sheet.now + flooding self.entry.sheet.now + weight) }
    {
        GRAM * (self.wide(WELL) + self.wide(FLOODING) + weight)
    }
}
