// What the register's memory is, when it is well formed and how calls change it: definitions in specs/, laws in
// proofs/, and the layout's numbers for the code, which is the crates judging and keeping.
#![tactic(auto)]

use sheet::SHEET_WORDS;

pub const MOST_HULLS: usize = 16;

pub const DESKS: usize = 8;

pub const MOST_EDITS: u32 = 65_535;

// ---- where each word of the first slot stands: the count of hulls, then the hulls, then the desks. Each follows from
// the one before, and in the next slot it stands HULL_WORDS or DRAFT_WORDS further on.

pub const COUNT: usize = 0;

// A hull's slot: its edit number, the boat's weight, and its sheet.
pub const EDIT: usize = COUNT + 1;

pub const HULL_WEIGHT: usize = EDIT + 1;

pub const HULL_SHEET: usize = HULL_WEIGHT + 1;

pub const HULL_WORDS: usize = HULL_SHEET + SHEET_WORDS - EDIT;

// A desk's slot: 1 if it holds a draft and 0 if not, the draft's hull, its opening number, the boat's weight by the
// draft, and its sheet.
pub const HELD: usize = EDIT + HULL_WORDS * MOST_HULLS;

pub const DRAFT_HULL: usize = HELD + 1;

pub const OPENING: usize = DRAFT_HULL + 1;

pub const DRAFT_WEIGHT: usize = OPENING + 1;

pub const DRAFT_SHEET: usize = DRAFT_WEIGHT + 1;

pub const DRAFT_WORDS: usize = DRAFT_SHEET + SHEET_WORDS - HELD;

// A sheet with the boat's weight before it.
pub const WEIGHED_WORDS: usize = 1 + SHEET_WORDS;

// The size of the lent memory, in words of 32 bits.
pub const REGISTER_WORDS: usize = HELD + DRAFT_WORDS * DESKS;
