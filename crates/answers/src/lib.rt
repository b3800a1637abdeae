// What a call answers: the refusals by name and number, the answer inside the house, and the answer as C reads it.
// Definitions in specs/, laws in proofs/.
#![tactic(auto)]

ghost use Rattle.std.specs.Prelude.{◌≡◌};
ghost use Rattle.answers.specs.declared.Refused.TheVariants.{Plain, InText};
ghost use Rattle.answers.specs.Refusals.{number};
ghost use Rattle.answers.specs.Values.{in_numbers, faced};

// The refusals, each with 01's number: the one table for the code. A test holds it to the definitions'
// (specs/Refusals.antt), the header's and the man page's.
#[derive(Clone, Copy, PartialEq, Eq)]
pub enum Refusal {
    BadMemory = 1,
    BrokenLine = 2,
    OutsideLimits = 3,
    Full = 4,
    NoHull = 5,
    NoDesk = 6,
    NoDraft = 7,
    EditedSince = 8,
    EditsSpent = 9,
    BadRows = 10,
    NoRow = 11,
    NoLoad = 12,
    NoPower = 13,
    Untested = 14,
    NoPersons = 15,
    NoRoom = 16,
    EmptyLine = 17,
}

impl From<Refusal> for u32 {
    ghost from_gives = { λ r n. n ≡ number r };

    fn from(refusal: Refusal) -> u32 {
        refusal as u32
    }
}

// What refuses a text: the refusal, with the line and the byte of the fault, both from 1, or both 0 where the text is
// too long. Kept (1): 0 and 0 are what C is given.
#[derive(Clone, Copy, PartialEq, Eq)]
pub struct TextFault {
    pub refusal: Refusal,
    pub line: u32,
    pub byte: u32,
}

impl TextFault {
    // Of a text too long, of which no byte is read.
    pub const TOO_LONG: TextFault = TextFault {
        refusal: Refusal::BrokenLine,
        line: 0,
        byte: 0,
    };
}

// What refuses a call: a refusal by itself, or that of a text.
#[derive(Clone, Copy, PartialEq, Eq)]
pub enum Refused {
    Plain(Refusal),
    InText(TextFault),
}

impl From<Refusal> for Refused {
    ghost from_gives = { λ r e. e ≡ Plain r };

    fn from(refusal: Refusal) -> Refused {
        Refused::Plain(refusal)
    }
}

impl From<TextFault> for Refused {
    ghost from_gives = { λ f e. e ≡ InText f };

    fn from(fault: TextFault) -> Refused {
        Refused::InText(fault)
    }
}

// What an accepted call says: that it was done, or a count (of hulls, edits, bytes, rows or pounds), or a plate's load
// and its other figure.
#[derive(Clone, Copy, PartialEq, Eq)]
pub enum Figures {
    Done,
    Count(u32),
    Plate(u32, u32),
}

// What a call answers.
pub type Answer = Result<Figures, Refused>;

// An answer as C reads it: a refusal, with a text's line and byte as figures, or refusal 0 and the figures; those
// unused are 0.
#[repr(C)]
#[derive(Drop)]
pub struct WbAnswer {
    pub refusal: u32,
    pub first: u32,
    pub second: u32,
    pub third: u32,
}

impl WbAnswer {
    // Of a call that was accepted.
    fn accepted(first: u32, second: u32) -> WbAnswer
        ensures { result ≡ record { refusal = 0; first = first; second = second; third = 0 } }
    {
        WbAnswer {
            refusal: 0,
            first,
            second,
            third: 0,
        }
    }

    // Of a call that was refused, with the place in a text or none.
    fn refused(refusal: Refusal, line: u32, byte: u32) -> WbAnswer
        ensures { result ≡ record { refusal = number refusal; first = line; second = byte; third = 0 } }
    {
        WbAnswer {
            refusal: u32::from(refusal),
            first: line,
            second: byte,
            third: 0,
        }
    }
}

impl From<Answer> for WbAnswer {
    ghost from_gives = { λ a w. w ≡ faced (in_numbers a) };

    fn from(answer: Answer) -> WbAnswer {
        match answer {
            Ok(Figures::Done) => WbAnswer::accepted(0, 0),
            Ok(Figures::Count(n)) => WbAnswer::accepted(n, 0),
            Ok(Figures::Plate(load, figure)) => WbAnswer::accepted(load, figure),
            Err(Refused::Plain(refusal)) => WbAnswer::refused(refusal, 0, 0),
            Err(Refused::InText(fault)) => {
                WbAnswer::refused(fault.refusal, fault.line, fault.byte)
            }
        }
    }
}
