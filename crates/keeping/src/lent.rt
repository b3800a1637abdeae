// Slots that are views of lent memory. They stand in a module of their own, so that whoever imports all of the crate has
// one `weight` and one `sheet` of a hull, those of `Slot`.
ghost use Rattle.std.specs.Prelude.{◌≡◌, ℕ, List, length};
ghost use Rattle.sheet.specs.Places.{sheet_words};

// A slot that is a view: what a `Slot` has, with the sheet lent for as long as the memory.
pub trait LentSlot<'a> {
    ghost boat: { Self → ℕ };

    ghost words: { Self → List ℕ };

    // What the boat weighs.
    fn weight(&self) -> u32
        ensures { result ≡ boat self.now };

    // The sheet, still the caller's own words: lent for as long as the memory is.
    fn sheet(&self) -> &'a [u32]
        ensures value { result.now ≡ words self.now }
        ensures whole { length result.now ≡ sheet_words };
}
