// A boat as the plates take it.
ghost use Rattle.std.specs.Prelude.{◌≡◌, ◌<◌, ◌≤◌, true, get_or};
ghost use Rattle.sheet.specs.Places.{sheet_words};
ghost use Rattle.sheet.specs.Sheet.{words_ok};
ghost use Rattle.capacity.specs.Highs.{word_most};

// The words of a sheet that is within the limits, and the weight that is taken for M, the boat with its fittings: a
// plate is by that weight, whatever it is.
#[derive(Clone, Copy)]
pub struct Boat<'a> {
    pub weight: u32,
    pub sheet: &'a [u32],
    pub ghost within: { words_ok sheet.now ≡ true },
}

impl Boat<'_> {
    // A word of the sheet, by its place.
    #[tactic(auto, using(sheet::proofs::Words::words_length))]
    pub fn word(self, place: usize) -> u32
        requires { place < sheet_words }
        ensures { result ≡ get_or self.entry.sheet.now place 0 }
    {
        self.sheet[place]
    }

    // The same as a number to reckon with: the sums need the room.
    pub fn wide(self, place: usize) -> u64
        requires { place < sheet_words }
        ensures { (result ≡ get_or self.entry.sheet.now place 0) × (result ≤ word_most) }
    {
        u64::from(self.word(place))
    }
}
