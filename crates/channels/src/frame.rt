// What a channel's pins hold in a frame: ten samples by channel, then the logic levels. A byte past
// the end of the frame counts as 0.
ghost use Rattle.std.specs.Prelude.{◌≡◌};
ghost use Rattle.channels.specs.Frame.{measured, level_at, sample_at};

use crate::Sample;
use bit_fields::field;
use image::Input;
use words::byte_at;

// Of one frame, for channel k.
#[tactic(auto, unfolding(crate::specs::Frame::sample_at))]
pub(crate) fn sample(input: Input, frame: &[u8], k: usize) -> Sample
    ensures { result ≡ sample_at input frame.now k }
{
    Sample {
        value: byte_at(frame, measured(input, k)),
        level: level(frame, k),
    }
}

// The channel whose sample is measured: under function 2 the sister's.
fn measured(input: Input, k: usize) -> usize
    ensures { result ≡ measured input k }
{
    match input {
        Input::LogicFaultAnalogWarning => k.saturating_sub(5),
        _ => k,
    }
}

// VP and VH have no level, and a byte has eight bits.
#[tactic(auto, unfolding(crate::specs::Frame::level_at))]
fn level(frame: &[u8], k: usize) -> bool
    ensures { result ≡ level_at frame.now k }
{
    let levels = byte_at(frame, 10);
    let Some(low) = k.checked_sub(5) else {
        return false;
    };
    low < 8 && field(levels, low as u8, 1) == 1
}
