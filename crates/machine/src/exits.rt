// Which exit a tick takes.
ghost use Rattle.std.specs.Prelude.{◌≡◌};
ghost use Rattle.machine.specs.Machine.{exit_of, met, due};

use crate::{Exit, Node};
use bit_fields::word_bit;

#[tactic(auto, unfolding(crate::specs::Machine::exit_of, crate::specs::Machine::shares))]
pub(crate) fn exit_of(node: Node, elapsed: u16, word: u16) -> Exit
    ensures { result ≡ exit_of node elapsed word }
{
    if (word & node.mask) != 0 {
        return Exit::Fault;
    }
    if met(node, word) {
        return Exit::Sequence;
    }
    if due(node, elapsed) {
        return Exit::Timeout;
    }
    Exit::Stay
}

// The channel's bit equals the level.
#[tactic(auto, unfolding(crate::specs::Machine::met))]
fn met(node: Node, word: u16) -> bool
    ensures { result ≡ met node word }
{
    node.channel != 0 && word_bit(word, node.channel - 1) == node.level
}

// There is a timeout, and this tick reaches it.
#[tactic(auto, unfolding(crate::specs::Machine::due))]
fn due(node: Node, elapsed: u16) -> bool
    ensures { result ≡ due node elapsed }
{
    node.timeout != 0 && elapsed >= node.timeout - 1
}
