// Whether the numbers of a sheet are within their limits, and what its boat weighs: the quick check that the register
// and the writer make. Words of alike limits are judged together, by the greatest of them, and fittings line by line,
// each weighed as it is judged.
#![tactic(auto)]

ghost use Rattle.std.specs.Prelude.{◌≡◌, Some, None, cond, ◌+◌, ◌*◌, ◌≤◌, ◌<◌, length};
ghost use Rattle.sheet.specs.Lines.{fittings};
ghost use Rattle.sheet.specs.Sheet.{fit_ok, fits_ok, words_ok, sheet_ok};
ghost use Rattle.sheet.specs.Places.{readings, stations, station_at, aft_at, bare_at, fittings_at};
ghost use Rattle.sheet.specs.Places.{sheet_words, text_words};
ghost use Rattle.capacity.specs.Weights.{added_up, boat_m};
ghost use Rattle.capacity.specs.Highs.{high_at};
ghost use Rattle.measuring.specs.Part.{part_ok, Lent, WordPart, AlikePart};

use sheet::{
    AFT, BARE, FITTED, FITTING_COUNT, FITTING_HIGH, IN_TEXT, LENGTH, LIMITS, READINGS, STATION_Q,
};
use text::Limit;

// The stations stand between FORM and VOL.
const STATIONS: usize = (AFT - STATION_Q) / READINGS;

// The words of a sheet, without its HULL number, and the limits of those before the fittings.
#[derive(Clone, Copy)]
struct Judged<'a> {
    limits: &'a [Limit],
    words: &'a [u32],
    ghost lent: { Lent limits.now words.now },
}

impl Judged<'_> {
    // Whether the words from a place up to an end are within their limits.
    #[tactic(auto, using(crate::proofs::Parts::rows_many, crate::proofs::Parts::part_judged))]
    fn part_ok(&self, at: usize, end: usize) -> bool
        requires { WordPart at end }
        ensures { result ≡ part_ok self.now.words.now at end }
    {
        spelling::all_hold(&self.limits[at..end], &self.words[at..end])
    }

    // The same of places whose limits are alike.
    // Kept (2): with part_ok alone a call on the register took 1.3 of plain C's time, above the bar of 1.2 (BENCH).
    #[tactic(auto, using(crate::proofs::Runs::run_laws))]
    fn run_ok(&self, at: usize, end: usize) -> bool
        requires { AlikePart at end }
        ensures { result ≡ part_ok self.now.words.now at end }
    {
        spelling::alike_hold(self.limits[at], &self.words[at..end])
    }

    // The same of a station, Q to T by its number: one word B, and six of alike limits.
    #[tactic(auto, using(crate::proofs::Runs::station_parts))]
    fn station_ok(&self, station: usize) -> bool
        requires { station < stations }
        ensures { result ≡ part_ok self.now.words.now (station_at station) (station_at station + readings) }
    {
        let at = STATION_Q + READINGS * station;
        self.run_ok(at, at + 1) && self.run_ok(at + 1, at + READINGS)
    }

    // The same from the line VOL up to the fittings: MASS, PWR and SEAT have limits of many kinds.
    #[tactic(auto, using(crate::proofs::Runs::vol_run, crate::proofs::Runs::vol_parts))]
    fn from_vol(&self) -> bool
        ensures { result ≡ part_ok self.now.words.now aft_at fittings_at }
    {
        self.run_ok(AFT, BARE) && self.part_ok(BARE, FITTED)
    }

    // The same from the first station up to the fittings.
    #[tactic(auto, using(crate::proofs::Runs::station_more))]
    fn from_stations(&self) -> bool
        ensures { result ≡ part_ok self.now.words.now (station_at 0) fittings_at }
    {
        for station in 0..STATIONS {
            if !self.station_ok(station) {
                return false;
            }
        }
        self.from_vol()
    }

    // The same of all before the fittings.
    #[tactic(auto, using(crate::proofs::Runs::form_parts))]
    fn before_fittings(&self) -> bool
        ensures { result ≡ part_ok self.now.words.now 0 fittings_at }
    {
        self.part_ok(LENGTH, STATION_Q) && self.from_stations()
    }
}

// Whether a fitting line is empty, or its weight and count are within their limits. One piece is no heavier than all,
// so that the weight of all tells.
#[tactic(auto, using(crate::proofs::Fits::line_laws))]
pub fn fit_ok(weight: u32, count: u32) -> bool
    ensures { result ≡ fit_ok weight count }
{
    match count {
        0 => weight == 0,
        1..=FITTING_COUNT => weight != 0
            && u64::from(weight) * u64::from(count) <= u64::from(FITTING_HIGH),
        _ => false,
    }
}

// What a bare boat weighs with its fittings, which are judged on the way; none where a line is outside the limits.
#[tactic(auto, using(capacity::proofs::Weights::fit_most_lem))]
fn with_fittings(bare: u32, fits: &[u32]) -> Option<u32>
    requires { (bare ≤ high_at bare_at) × (length fits.now ≡ 2 * fittings) }
    ensures { result ≡ cond (fits_ok fittings fits.now) (Some (bare + added_up fits.now)) None }
{
    let mut total = bare;
    let (lines, _) = fits.as_chunks::<2>();
    for &[weight, count] in lines {
        if !fit_ok(weight, count) {
            return None;
        }
        total += weight * count;
    }
    Some(total)
}

// M, what the boat weighs by the words of a sheet, without its HULL number; none where they are outside the limits.
#[tactic(auto, using(crate::proofs::Parts::boat_laws))]
pub fn weigh(words: &[u32]) -> Option<u32>
    requires { length words.now ≡ sheet_words }
    ensures { result ≡ cond (words_ok words.now) (Some (boat_m words.now)) None }
{
    let sheet = Judged {
        limits: &LIMITS[IN_TEXT..],
        words,
    };
    if !sheet.before_fittings() {
        return None;
    }
    with_fittings(words[BARE], &words[FITTED..])
}

// Whether the words of a sheet, without its HULL number, are within their limits.
pub fn words_ok(words: &[u32]) -> bool
    requires { length words.now ≡ sheet_words }
    ensures { result ≡ words_ok words.now }
{
    weigh(words).is_some()
}

// Whether a sheet's numbers, its HULL number first, are within their limits.
#[tactic(auto, using(crate::proofs::Hull::parted))]
pub fn sheet_ok(sheet: &[u32]) -> bool
    requires { length sheet.now ≡ text_words }
    ensures { result ≡ sheet_ok sheet.now }
{
    spelling::all_hold(&LIMITS[..IN_TEXT], &sheet[..IN_TEXT]) && words_ok(&sheet[IN_TEXT..])
}
