// A state's eight bytes, in one form wherever a state is bytes: number of the step or cell, held,
// elapsed (2), ticks (2), two zero bytes. Held and ticks are 0.
//
// Every function is total: its definition in specs/ gives a value for every argument of its type. They are functions, and
// no `From`: `State` is a type of `machine`, which knows no bytes.
#![tactic(auto)]

ghost use Rattle.std.specs.Prelude.{◌≡◌};
ghost use Rattle.records.specs.Answers.{verdict_of};
ghost use Rattle.states.specs.States.{state_from, state_bytes, bytes_verdict};

use machine::State;
use records::{Number, Refusal, ensure};
use words::{byte_at, word_at};

// The state that the bytes hold. A byte past their end counts as 0.
#[tactic(auto, unfolding(crate::specs::States::state_from))]
pub fn state_from(bytes: &[u8]) -> State
    ensures { result ≡ state_from bytes.now }
{
    State {
        at: byte_at(bytes, 0),
        elapsed: word_at(bytes, 2),
    }
}

// The eight bytes of a state.
#[tactic(auto, unfolding(crate::specs::States::state_bytes, records::specs::Words::low_byte, records::specs::Words::high_byte))]
pub fn state_bytes(state: State) -> [u8; 8]
    ensures { result ≡ state_bytes state }
{
    let [low, high] = state.elapsed.to_le_bytes();
    [state.at, 0, low, high, 0, 0, 0, 0]
}

// Another length is refused, then a byte that must be 0 and is not.
#[tactic(auto, using(records::proofs::ReturnLaws::tests), unfolding(crate::specs::States::bytes_verdict, crate::specs::States::zeros_stand))]
pub fn bytes_verdict(bytes: &[u8]) -> Result<(), Refusal>
    ensures { verdict_of result ≡ bytes_verdict bytes.now }
{
    let held = byte_at(bytes, 1);
    let ticks = word_at(bytes, 4);
    let rest = word_at(bytes, 6);
    ensure(bytes.len() == 8, Number::WrongLength, 0)?;
    ensure(held == 0 && ticks == 0 && rest == 0, Number::Unreachable, 0)
}
