// One channel: its state, what its pins hold in a frame, and the state after a run of frames with
// the fault and the warning of the last. `Channel::run` is the call, and has no `requires`.
#![tactic(auto)]

mod frame;
mod sampling;

// "All state starts false and zero", as the default has it.
#[derive(Clone, Copy, PartialEq, Eq, Default)]
pub struct Channel {
    pub over: bool,
    pub under: bool,
    pub analog: Filter,
    pub logic: Filter,
    pub left: u16,
}

#[derive(Clone, Copy, PartialEq, Eq, Default)]
pub struct Filter {
    pub filtered: bool,
    pub count: u16,
}

// What a channel's pins hold in one frame.
#[derive(Clone, Copy)]
pub struct Sample {
    pub value: u8,
    pub level: bool,
}

// A channel after a run of frames, with its two bits on the last.
#[derive(Clone, Copy)]
pub struct Ran {
    pub channel: Channel,
    pub fault: bool,
    pub warning: bool,
}
