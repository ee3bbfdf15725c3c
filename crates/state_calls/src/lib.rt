// The engine's calls on a state that is eight lent bytes.
//
// None of the calls has a `requires`. The bytes are tested before the call's own tests; a refusal leaves
// them, and shows nothing.
#![tactic(auto)]

ghost use Rattle.std.specs.Prelude.{◌≡◌, IfOk};
ghost use Rattle.records.specs.Answers.{verdict_of};
ghost use Rattle.states.specs.States.{state_from, bytes_verdict};
ghost use Rattle.engine.specs.Answers.{as_ticked};
ghost use Rattle.state_calls.specs.StateCalls.{start_verdict, start_written, ticked_on, shown_on, state_after};

use engine::{Form, Shown};
use machine::State;
use records::{Number, Refusal, ensure};
use states::{bytes_verdict, state_bytes, state_from};

// The start's bytes into the eight that are lent, whatever stood there.
#[tactic(auto, using(crate::proofs::StateCallLaws::start_written_lem), unfolding(crate::specs::StateCalls::start_verdict, crate::specs::StateCalls::start_written, states::specs::States::state_bytes))]
pub fn start(state: &mut [u8]) -> Result<(), Refusal>
    ensures value { verdict_of result ≡ start_verdict state.old }
    ensures state_after { state.new ≡ start_written state.old }
{
    ensure(state.len() == 8, Number::WrongLength, 0)?;
    state.copy_from_slice(&state_bytes(engine::start()));
    Ok(())
}

// One tick with a word of faults, from the state in the eight bytes, which take the next state.
#[tactic(auto, using(crate::proofs::StateCallLaws::passed_eight), unfolding(crate::specs::StateCalls::ticked_on, crate::specs::StateCalls::on_bytes, crate::specs::StateCalls::state_after))]
pub fn tick<F: Form>(bytes: &[u8], state: &mut [u8], word: u16) -> Result<Shown, Refusal>
    ensures value { as_ticked (state_from state.new) result ≡ ticked_on F.form bytes.now state.old word }
    ensures state_after { state.new ≡ state_after (ticked_on F.form bytes.now state.old word) state.old }
{
    let mut next = received(state)?;
    let shown = engine::tick::<F>(bytes, &mut next, word)?;
    state.copy_from_slice(&state_bytes(next));
    Ok(shown)
}

// What shows at the state in the eight bytes.
#[tactic(auto, unfolding(crate::specs::StateCalls::shown_on, crate::specs::StateCalls::on_bytes))]
pub fn show<F: Form>(bytes: &[u8], state: &[u8]) -> Result<Shown, Refusal>
    ensures { as_ticked (state_from state.now) result ≡ shown_on F.form bytes.now state.now }
{
    engine::show::<F>(bytes, received(state)?)
}

// The state in the eight bytes, which are tested.
fn received(state: &[u8]) -> Result<State, Refusal>
    ensures verdict { verdict_of result ≡ bytes_verdict state.now }
    ensures state { IfOk result (λ received. received ≡ state_from state.now) }
{
    bytes_verdict(state)?;
    Ok(state_from(state))
}
