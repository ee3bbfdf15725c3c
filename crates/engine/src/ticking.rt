// What every call makes on nodes, whatever the form.
ghost use Rattle.std.specs.Prelude.{◌≡◌, IfOk};
ghost use Rattle.records.specs.Answers.{verdict_of};
ghost use Rattle.engine.specs.Answers.{as_ticked};
ghost use Rattle.engine.specs.Engine.{nodes_of, state_verdict, ticked, shown_at};

use crate::{Form, Shown};
use machine::{Node, State};
use records::{Number, Refusal, ensure};

// One tick with a word of faults.
#[tactic(auto, using(records::proofs::ReturnLaws::tests), unfolding(crate::specs::Engine::ticked, crate::specs::Engine::went_from, crate::specs::Engine::answered_at, crate::specs::Engine::word_verdict, machine::specs::Fields::word_in_range))]
pub fn tick<F: Form>(bytes: &[u8], state: &mut State, word: u16) -> Result<Shown, Refusal>
    ensures { as_ticked state.new result ≡ ticked F.form bytes.now state.old word }
{
    let node = stood::<F>(bytes, *state)?;
    ensure(word < 1024, Number::BadWord, 0)?;
    *state = machine::tick(node, word, *state).state;
    Ok(F::node_at(bytes, state.at).into())
}

// What shows at a state: the tick's tests without the word, the state unchanged.
#[tactic(auto, unfolding(crate::specs::Engine::shown_at, crate::specs::Engine::answered_at))]
pub fn show<F: Form>(bytes: &[u8], state: State) -> Result<Shown, Refusal>
    ensures { as_ticked state result ≡ shown_at F.form bytes.now state }
{
    stood::<F>(bytes, state).map(Shown::from)
}

// The node at which a state stands: the tests of standing there, then elapsed.
#[tactic(auto, using(records::proofs::ReturnLaws::tests), unfolding(crate::specs::Engine::state_verdict, crate::specs::Engine::state_tested))]
fn stood<F: Form>(bytes: &[u8], state: State) -> Result<Node, Refusal>
    ensures verdict { verdict_of result ≡ state_verdict F.form bytes.now state }
    ensures node { IfOk result (λ node. node ≡ nodes_of F.form bytes.now state.at) }
{
    let node = F::standing(bytes, state.at)?;
    let lasts = machine::elapsed_in_range(node.timeout, state.elapsed);
    ensure(lasts, Number::Unreachable, 0)?;
    Ok(node)
}
