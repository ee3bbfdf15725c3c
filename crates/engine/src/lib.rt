// The engine on sheets and on tables: one tick, and what shows at a state.
//
// None of the calls has a `requires`. A refusal keeps the state that it received, and shows nothing. On a sheet all
// its own tests are made, without cells and room. On a table only the cell at which the engine stands is tested; an
// entered cell is tested when a later tick meets it.
#![tactic(auto)]

mod forms;
mod ticking;

ghost use Rattle.std.specs.Prelude.{◌≡◌};
ghost use Rattle.machine.specs.Answers.{as_standing};
ghost use Rattle.machine.specs.Machine.{start_state};
ghost use Rattle.engine.specs.Answers.{as_ticked, shows};
ghost use Rattle.engine.specs.Engine.{Form, nodes_of, standing_at};

use machine::{Node, State};
use records::{Refusal, Verdict};
pub use ticking::{show, tick};

// What differs between sheets and tables.
pub trait Form {
    ghost form: { Form };

    // The node with a number, if the engine may stand there.
    fn standing(bytes: &[u8], k: u8) -> Result<Node, Refusal>
        ensures { as_standing (nodes_of form bytes.now k) result ≡ standing_at form bytes.now k };

    // The node with a number, untested.
    fn node_at(bytes: &[u8], k: u8) -> Node
        ensures { result ≡ nodes_of form bytes.now k };
}

pub struct Sheet;

pub struct Table;

// What shows at a state.
#[derive(Clone, Copy)]
pub struct Shown {
    pub outputs: u16,
    pub step: u8,
}

impl From<Node> for Shown {
    ghost from_gives = { λ node shown. shown ≡ shows node };

    fn from(node: Node) -> Shown {
        Shown {
            outputs: node.outputs,
            step: node.step,
        }
    }
}

// The state after the tick, with the outputs and the step that show there; or the refusal, with the
// state as received: as C has it.
#[derive(Clone, Copy)]
pub struct Ticked {
    pub verdict: Verdict,
    pub state: State,
    pub outputs: u16,
    pub step: u8,
}

impl Ticked {
    // A call's answer, with the state after it.
    pub fn of(answer: Result<Shown, Refusal>, state: State) -> Ticked
        ensures { result ≡ as_ticked state answer }
    {
        let shown = answer.unwrap_or(Shown {
            outputs: 0,
            step: 0,
        });
        Ticked {
            verdict: Verdict::of(answer),
            state,
            outputs: shown.outputs,
            step: shown.step,
        }
    }
}

// Where every run starts: step 0 or cell 0, elapsed 0.
pub fn start() -> State
    ensures { result ≡ start_state }
{
    machine::start()
}
