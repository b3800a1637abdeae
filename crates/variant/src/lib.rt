// What a variant of a parent hull is, and the text and the sheet that the two make: definitions in specs/, laws in
// proofs/, and the number that the code names. The code is the crate reading.
#![tactic(auto)]

// How many lines a variant always has before those that it may leave out: HULL, FORM and four STN.
pub const OWN_LINES: usize = 6;
