// A tick from state to state. A state is made in three places: at the start, by entering, by staying.
ghost use Rattle.std.specs.Prelude.{◌≡◌, false};
ghost use Rattle.machine.specs.Machine.{start_state, enter, stay, tick_at};
ghost use Rattle.machine.specs.Machine.{due};
ghost use Rattle.machine.specs.Fields.{elapsed_in_range};

use crate::{Exit, Node, State, Taken, exits};

pub fn start() -> State
    ensures { result ≡ start_state }
{
    enter(0)
}

fn enter(to: u8) -> State
    ensures { result ≡ enter to }
{
    State { at: to, elapsed: 0 }
}

#[tactic(auto, unfolding(crate::specs::Machine::stay, crate::specs::Machine::due))]
fn stay(node: Node, state: State) -> State
    requires { due node state.elapsed ≡ false }
    ensures { result ≡ stay node state }
{
    let elapsed = if node.timeout == 0 {
        0
    } else {
        state.elapsed + 1
    };
    State {
        at: state.at,
        elapsed,
    }
}

// One tick at a node with a word.
#[tactic(auto, using(crate::proofs::ExitLaws::stay_not_due), unfolding(crate::specs::Machine::tick_at, crate::specs::Machine::after))]
pub fn tick(node: Node, word: u16, state: State) -> Taken
    ensures { result ≡ tick_at node word state }
{
    let exit = exits::exit_of(node, state.elapsed, word);
    let next = match exit {
        Exit::Stay => stay(node, state),
        Exit::Fault => enter(node.faultto),
        Exit::Sequence => enter(node.sequenceto),
        Exit::Timeout => enter(node.timeoutto),
    };
    Taken { exit, state: next }
}

// Elapsed below the larger of 1 and the timeout.
#[tactic(auto, unfolding(crate::specs::Fields::elapsed_in_range))]
pub fn elapsed_in_range(timeout: u16, elapsed: u16) -> bool
    ensures { result ≡ elapsed_in_range timeout elapsed }
{
    elapsed < timeout.max(1)
}
