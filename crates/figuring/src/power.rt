// The power of plate A: by its table, and above that by its formulas.
ghost use Rattle.std.specs.Prelude.{◌≡◌, ◌≤◌, ◌<◌, ◌&&◌, eqb, leb};
ghost use Rattle.capacity.specs.Words.{remote, transom_height};
ghost use Rattle.capacity.specs.PlateA.{factor_p, table_end, row_of, listed_watts, raised, formula_watts, power_a};
ghost use Rattle.capacity.specs.PlateA.{lacks_power};
ghost use Rattle.capacity.specs.Highs.{AboveTable};

use super::boat::Boat;
use sheet::{FLAT_BOTTOM, LENGTH, OUTBOARD, REMOTE, TRANSOM_HEIGHT, TRANSOM_WIDTH};

// Square millimetres up to which the power goes by the table, and by its first row.
const TABLE_END: u64 = 5_000_000;

const FIRST_ROW: u64 = 2_250_000;

// Watts of the table's rows, the first from place 1; before that row there is none, and 0 stands for its watts. The
// table stands in the archive, and its words are narrow.
// Kept (4): lacks_power tells whether there is a row; as options the rows would tell it once more.
const WATTS: [u16; 7] = [0, 1500, 3000, 4000, 5250, 7500, 12000];

// The row of the power table for a power factor that is not above its end.
#[tactic(auto, unfolding(capacity::specs::PlateC::row_for))]
fn table_row(p: u64) -> usize
    requires { p ≤ table_end }
    ensures { result ≡ row_of p }
{
    match p {
        ..=FIRST_ROW => 0,
        ..=3_300_000 => 1,
        ..=3_600_000 => 2,
        ..=3_900_000 => 3,
        ..=4_200_000 => 4,
        _ => 5,
    }
}

// The least multiple of 5000 that is not below watts / scale.
fn raised_watts(watts: u64, scale: u64) -> u64
    requires { (watts ≤ 400000000) × (0 < scale) × (scale ≤ 2000) }
    ensures { result ≡ raised watts scale }
{
    5000 * watts.div_ceil(5000 * scale)
}

impl Boat<'_> {
    // The power factor, square millimetres.
    fn power_factor(self) -> u64
        ensures { result ≡ factor_p self.entry.sheet.now }
    {
        self.wide(LENGTH) * self.wide(TRANSOM_WIDTH)
    }

    // Watts by the table, for a power factor that is not above its end: a flat bottom takes the row before its own.
    #[tactic(auto, using(capacity::proofs::Power::row_in))]
    fn listed_watts(self, p: u64) -> u16
        requires { (p ≡ factor_p self.sheet.now) × (p ≤ table_end) }
        ensures { result ≡ listed_watts self.entry.sheet.now }
    {
        let row = table_row(p);
        if self.word(FLAT_BOTTOM) == 1 {
            WATTS[row]
        } else {
            WATTS[row + 1]
        }
    }

    // Whether the formulas take it for one of remote steering: it has that, and a transom of 500 mm or more.
    fn is_remote(self) -> bool
        ensures { result ≡ (eqb (remote self.entry.sheet.now) 1 && leb 500 (transom_height self.entry.sheet.now)) }
    {
        self.word(REMOTE) == 1 && 500 <= self.word(TRANSOM_HEIGHT)
    }

    // Watts by the formulas, for a power factor above the table's end.
    #[tactic(auto, using(capacity::proofs::Power::factor_most_lem))]
    fn formula_watts(self, p: u64) -> u64
        requires { AboveTable self.sheet.now p }
        ensures { result ≡ formula_watts self.entry.sheet.now }
    {
        if self.is_remote() {
            raised_watts(16 * p - 67_000_000, 1000)
        } else if self.word(FLAT_BOTTOM) == 1 {
            raised_watts(4 * p - 11_000_000, 1000)
        } else {
            raised_watts(13 * p - 40_000_000, 2000)
        }
    }

    // The watts that plate A marks.
    pub(crate) fn power(self) -> u64
        ensures { result ≡ power_a self.entry.sheet.now }
    {
        let p = self.power_factor();
        if self.word(OUTBOARD) == 0 {
            0
        } else if TABLE_END < p {
            self.formula_watts(p)
        } else {
            u64::from(self.listed_watts(p))
        }
    }

    // Whether plate A has no power for an outboard: a flat bottom in the table's first row.
    pub(crate) fn lacks_power(self) -> bool
        ensures { result ≡ lacks_power self.entry.sheet.now }
    {
        self.word(OUTBOARD) == 1 && self.word(FLAT_BOTTOM) == 1 && self.power_factor() <= FIRST_ROW
    }
}
