// What a sheet and engine rows are, and their one text: definitions in specs/, laws in proofs/, and the types and
// numbers that the code names. The code is the crates measuring, reading and writing.
#![tactic(auto)]

use text::{Limit, Rule};

// ---- where each number stands among the words of a sheet: each place follows from the one before

// FORM
pub const LENGTH: usize = 0;

pub const REFERENCE: usize = LENGTH + 1;

pub const TRANSOM_WIDTH: usize = REFERENCE + 1;

pub const TRANSOM_HEIGHT: usize = TRANSOM_WIDTH + 1;

pub const FLAT_BOTTOM: usize = TRANSOM_HEIGHT + 1;

pub const REMOTE: usize = FLAT_BOTTOM + 1;

// STN: four stations of seven readings each
pub const READINGS: usize = 7;

pub const STATION_Q: usize = REMOTE + 1;

pub const STATION_R: usize = STATION_Q + READINGS;

pub const STATION_S: usize = STATION_R + READINGS;

pub const STATION_T: usize = STATION_S + READINGS;

// VOL
pub const AFT: usize = STATION_T + READINGS;

pub const WELL: usize = AFT + 1;

pub const FLOODING: usize = WELL + 1;

// MASS
pub const BARE: usize = FLOODING + 1;

pub const FUEL: usize = BARE + 1;

pub const MACHINERY: usize = FUEL + 1;

// PWR
pub const OUTBOARD: usize = MACHINERY + 1;

pub const DECLARED: usize = OUTBOARD + 1;

// SEAT
pub const POSITIONS: usize = DECLARED + 1;

pub const TESTED: usize = POSITIONS + 1;

// FIT: two words for each fitting line, the weight of one piece and how many there are
pub const FITTED: usize = TESTED + 1;

pub const FITTINGS: usize = 24;

// The words that the register holds of a hull; in a text the HULL number stands before them, and every word one place
// further on.
pub const SHEET_WORDS: usize = FITTED + 2 * FITTINGS;

pub const HULL_NUMBER: usize = 0;

pub const IN_TEXT: usize = HULL_NUMBER + 1;

pub const TEXT_WORDS: usize = IN_TEXT + SHEET_WORDS;

// Where the words of each line start in a text, and where those of the lines HULL to SEAT end.
pub const HULL_LINE: usize = HULL_NUMBER;

pub const FORM_LINE: usize = IN_TEXT + LENGTH;

pub const Q_LINE: usize = IN_TEXT + STATION_Q;

pub const R_LINE: usize = IN_TEXT + STATION_R;

pub const S_LINE: usize = IN_TEXT + STATION_S;

pub const T_LINE: usize = IN_TEXT + STATION_T;

pub const VOL_LINE: usize = IN_TEXT + AFT;

pub const MASS_LINE: usize = IN_TEXT + BARE;

pub const PWR_LINE: usize = IN_TEXT + OUTBOARD;

pub const SEAT_LINE: usize = IN_TEXT + POSITIONS;

pub const LINE_WORDS: usize = IN_TEXT + FITTED;

// ---- limits

// A limit by its least and its greatest value and its rule; and one by these two alone.
macro_rules! limit {
    ($low:expr, $high:expr, $rule:expr) => {
        Limit {
            low: $low,
            high: $high,
            rule: $rule,
        }
    };
}

macro_rules! ranging {
    ($low:expr, $high:expr) => {
        limit!($low, $high, Rule::Plain)
    };
}

// The greatest line number of a fitting, the most that the pieces on one line weigh together, and the most that there
// are; and the greatest power and weight of an engine.
pub const FITTING_LINES: u32 = 24;

pub const FITTING_HIGH: u32 = 500_000;

pub const FITTING_COUNT: u32 = 99;

// The limits of a FIT line after its line number: the weight of one piece, and how many there are.
pub const FIT_WEIGHT: Limit = ranging!(1, FITTING_HIGH);

pub const FIT_COUNT: Limit = limit!(1, FITTING_COUNT, Rule::Product(FITTING_HIGH));

pub const ENGINE_POWER_HIGH: u32 = 200_000;

pub const ENGINE_WEIGHT_HIGH: u32 = 1_000_000;

pub const MOST_ROWS: usize = 40;

// The longest text that is read, and the longest that a sheet can have.
pub const MOST_TEXT: usize = 4096;

pub const SHEET_TEXT: usize = 658;

// The limits of the numbers on the lines HULL to SEAT, in the order of the text.
pub const LIMITS: [Limit; LINE_WORDS] = [
    // HULL
    ranging!(0, 15),
    // FORM
    ranging!(2000, 6000),
    limit!(2000, 6000, Rule::Capped),
    ranging!(500, 3000),
    ranging!(200, 900),
    ranging!(0, 1),
    ranging!(0, 1),
    // STN Q
    ranging!(0, 4000),
    ranging!(0, 2500),
    ranging!(0, 2500),
    ranging!(0, 2500),
    ranging!(0, 2500),
    ranging!(0, 2500),
    ranging!(0, 2500),
    // STN R
    ranging!(0, 4000),
    ranging!(0, 2500),
    ranging!(0, 2500),
    ranging!(0, 2500),
    ranging!(0, 2500),
    ranging!(0, 2500),
    ranging!(0, 2500),
    // STN S
    ranging!(0, 4000),
    ranging!(0, 2500),
    ranging!(0, 2500),
    ranging!(0, 2500),
    ranging!(0, 2500),
    ranging!(0, 2500),
    ranging!(0, 2500),
    // STN T
    ranging!(0, 4000),
    ranging!(0, 2500),
    ranging!(0, 2500),
    ranging!(0, 2500),
    ranging!(0, 2500),
    ranging!(0, 2500),
    ranging!(0, 2500),
    // VOL
    ranging!(0, 5_000_000),
    ranging!(0, 5_000_000),
    ranging!(0, 5_000_000),
    // MASS
    ranging!(1, 2_000_000),
    ranging!(0, 500_000),
    ranging!(0, 500_000),
    // PWR
    ranging!(0, 1),
    ranging!(0, 200_000),
    // SEAT
    ranging!(1, 24),
    limit!(1, 24, Rule::OrNone),
];
