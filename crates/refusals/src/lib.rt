// Why a call is refused (documents 01 and 02), and the order of refusals: the first check that refuses decides.
#![tactic(auto)]

ghost use Rattle.std.specs.Prelude.{◌≡◌};
ghost use Rattle.refusals.specs.First.{first_of};
ghost use Rattle.refusals.specs.Inner.{number_of};

// By their numbers in the table.
#[derive(Clone, Copy, PartialEq, Eq)]
pub enum Refusal {
    TooLong = 1,
    Unsound = 2,
    Total = 3,
    Number = 4,
    Table = 5,
    Length = 6,
    Gaps = 7,
    Value = 8,
    Input = 9,
    Framing = 10,
    NotSpeech = 11,
}

impl From<Refusal> for u32 {
    ghost from_gives = { λ refusal n. n ≡ number_of refusal };

    fn from(refusal: Refusal) -> u32 {
        refusal as u32
    }
}

// Of two numbers, 0 for none. The calls of this repository hold checks as `Result`s, of which `and` is the first that refuses; numbers
// stay for callers that have them (docs/DECISIONS.md names this function, and a number outside the table is taken too).
pub fn first_refusal(a: u32, b: u32) -> u32
    ensures { result ≡ first_of a b }
{
    if a == 0 { b } else { a }
}
