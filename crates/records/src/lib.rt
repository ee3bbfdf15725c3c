// What every other crate stands on: the paper's numbers and refusals, and the definitions and laws of bits,
// words, lists and tags.
//
// Every function is total: its definition in specs/ gives a value for every argument of its type.
#![tactic(auto)]

ghost use Rattle.std.specs.Prelude.{◌≡◌, ℕ};
ghost use Rattle.records.specs.Verdicts.{accepted, refused, refused_unless};
ghost use Rattle.records.specs.Answers.{number_of, verdict_by, tested};

// A kind that a number of a list stands for.
pub trait Numbered: Copy {
    ghost number: { Self → ℕ };

    fn number(self) -> u8
        ensures { result ≡ number self };
}

// "Numbers given back", but for 0, which is no refusal.
#[derive(Clone, Copy, Debug, PartialEq, Eq)]
pub enum Number {
    WrongLength,
    Reserved,
    Unprinted,
    OutOfRange,
    RepeatedTag,
    UnknownTag,
    TooManyCells,
    Unreachable,
    BadWord,
    NoRoom,
}

impl Numbered for Number {
    ghost number = { number_of };

    fn number(self) -> u8 {
        self as u8 + 1
    }
}

// Why a call is refused, and the place at fault.
#[derive(Clone, Copy, Debug, PartialEq, Eq)]
pub struct Refusal<K = Number> {
    pub kind: K,
    pub place: usize,
}

// The kind at the place, unless the test holds.
pub fn ensure<K: Numbered>(holds: bool, kind: K, place: usize) -> Result<(), Refusal<K>>
    ensures verdict { verdict_by K.number result ≡ refused_unless holds (K.number kind) place }
    ensures whole { result ≡ tested holds kind place }
{
    if holds {
        Ok(())
    } else {
        Err(Refusal { kind, place })
    }
}

// A number of the paper's list with its place, as C and the programs' lines have it: C packs the number, so it is one here.
#[derive(Clone, Copy)]
pub struct Verdict {
    pub number: u8,
    pub place: usize,
}

pub fn accepted() -> Verdict
    ensures { result ≡ accepted }
{
    refused(0, 0)
}

pub fn refused(number: u8, place: usize) -> Verdict
    ensures { result ≡ refused number place }
{
    Verdict { number, place }
}

impl Verdict {
    // What a call answered, with nothing of its value.
    pub fn of<T: Copy, K: Numbered>(answer: Result<T, Refusal<K>>) -> Verdict
        ensures { result ≡ verdict_by K.number answer }
    {
        match answer {
            Ok(_) => accepted(),
            Err(refusal) => refused(refusal.kind.number(), refusal.place),
        }
    }
}
