// The one machine that sheets and tables both are: nodes, which exit a tick takes, and taking it.
//
// Every function is total: its definition in specs/ gives a value for every argument of its type.
#![tactic(auto)]

mod exits;
mod moving;

ghost use Rattle.std.specs.Prelude.{◌≡◌};
ghost use Rattle.machine.specs.Machine.{exit_number};
ghost use Rattle.machine.specs.Answers.{fault_number};

pub use moving::{elapsed_in_range, start, tick};
use records::{Numbered, Refusal};

// The kinds of fault that a field may have.
#[derive(Clone, Copy, Debug, PartialEq, Eq)]
pub enum Fault {
    Range,
    JumpWithoutExit,
    ExitWithoutJump,
    LevelWithoutChannel,
}

impl Numbered for Fault {
    ghost number = { fault_number };

    fn number(self) -> u8 {
        12 + self as u8
    }
}

// A step or a cell, its exits leading to the numbers of other steps or cells.
#[derive(Clone, Copy)]
pub struct Node {
    pub outputs: u16,
    pub mask: u16,
    pub faultto: u8,
    pub channel: u8,
    pub level: u8,
    pub sequenceto: u8,
    pub timeout: u16,
    pub timeoutto: u8,
    pub step: u8,
}

// A node, and what the tests of standing at it say: it is given where they refuse too.
#[derive(Clone, Copy)]
pub struct Stood {
    pub node: Node,
    pub tested: Result<(), Refusal>,
}

// "Exit taken (1 byte: 1 fault, 2 sequence, 3 timeout)", and 0 where none is.
#[derive(Clone, Copy)]
pub enum Exit {
    Stay,
    Fault,
    Sequence,
    Timeout,
}

impl Exit {
    pub fn number(self) -> u8
        ensures { result ≡ exit_number self }
    {
        self as u8
    }
}

// The number of the step or cell, and the ticks since it was entered.
#[derive(Clone, Copy)]
pub struct State {
    pub at: u8,
    pub elapsed: u16,
}

// The exit that a tick takes, and the state after it.
#[derive(Clone, Copy)]
pub struct Taken {
    pub exit: Exit,
    pub state: State,
}
