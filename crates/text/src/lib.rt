// What a line of text is: definitions in specs/, laws in proofs/, and the types that the code names. The code is the
// crate spelling.
#![tactic(auto)]

ghost use Rattle.std.specs.Prelude.{◌≡◌, ◌+◌, ◌<◌, ◌^◌};
ghost use Rattle.text.specs.Limit.{ranging};

use answers::Refusal;

// What is asked of a number beyond its least and greatest value: nothing; or that it may be 0 for none, written `-`; or
// that it is not above the number before it; or that the number before it, times this one, makes at most so much. A
// number of the last kind may be left out of a line.
#[derive(Clone, Copy, PartialEq, Eq)]
pub enum Rule {
    Plain,
    OrNone,
    Capped,
    Product(u32),
}

// What a number of a line may be.
#[derive(Clone, Copy, PartialEq, Eq)]
pub struct Limit {
    pub low: u32,
    pub high: u32,
    pub rule: Rule,
}

impl Limit {
    // From low to high, and nothing beyond.
    pub const fn ranging(low: u32, high: u32) -> Limit
        ensures { result ≡ ranging low high }
    {
        Limit {
            low,
            high,
            rule: Rule::Plain,
        }
    }
}

// Why a line is refused, and the place in it of the first byte at fault.
#[derive(Clone, Copy, PartialEq, Eq)]
pub struct Fault {
    pub refusal: Refusal,
    pub at: usize,
}

impl Fault {
    // The same, told from a start so many bytes before it.
    pub fn after(self, before: usize) -> Fault
        requires { before + self.at < 2 ^ 64 }
        ensures { result ≡ record { refusal = self.refusal; at = before + self.at } }
    {
        Fault {
            refusal: self.refusal,
            at: before + self.at,
        }
    }
}

// A number with the byte that ended it: the number, and how many bytes both took.
#[derive(Clone, Copy, PartialEq, Eq)]
pub struct Taken {
    pub number: u32,
    pub len: usize,
}
