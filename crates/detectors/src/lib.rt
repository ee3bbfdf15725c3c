// The detectors: a bank of ten channels. A tick is one frame of eleven bytes; an engine tick is
// twenty of them.
//
// `start`, `tick` and `engine_tick` are the calls. None has a `requires`. A refusal gives back the
// bank it received.
#![tactic(auto)]

mod advancing;
mod ticks;

ghost use Rattle.std.specs.Prelude.{◌≡◌};
ghost use Rattle.detectors.specs.Tick.{as_detected};

pub use advancing::start;
use channels::Channel;
use records::{Refusal, Verdict};
pub use ticks::{engine_tick, tick};

// Ten channels, taken and returned by value.
#[derive(Clone, Copy, PartialEq, Eq)]
pub struct Bank {
    pub channels: [Channel; 10],
}

// The words of a tick: bit k for channel k.
#[derive(Clone, Copy, Default)]
pub struct Words {
    pub faults: u16,
    pub warnings: u16,
}

// The bank after the call, and the words of its last tick; or the refusal, with the bank as received.
#[derive(Clone, Copy)]
pub struct Detection {
    pub bank: Bank,
    pub words: Result<Words, Refusal>,
}

// The same field by field, as C has it: number 0 with the bank and the words; or the refusal, with the
// bank as received and zero words.
#[derive(Clone, Copy)]
pub struct Detected {
    pub verdict: Verdict,
    pub bank: Bank,
    pub faults: u16,
    pub warnings: u16,
}

impl From<Detection> for Detected {
    ghost from_gives = { λ detection detected. detected ≡ as_detected detection };

    fn from(detection: Detection) -> Detected {
        let words = detection.words.unwrap_or_default();
        Detected {
            verdict: Verdict::of(detection.words),
            bank: detection.bank,
            faults: words.faults,
            warnings: words.warnings,
        }
    }
}
