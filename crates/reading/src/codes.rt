// From a code to its meaning: constant tables, a form of the paper. Two codes may mean the same, and some mean nothing.
ghost use Rattle.std.specs.Prelude.{◌≤◌, ◌^◌, ◌≡◌, length, get_or};
ghost use Rattle.records.specs.Bits.{bits};
ghost use Rattle.image.specs.Reading.{input_of};

use bit_fields::field;
use image::{Input, Pull, Source};

const RANGES: [Input; 4] = [
    Input::VpMid,
    Input::VpLow,
    Input::VpUltralow,
    Input::VpUltralow,
];

const HIGH_RANGES: [Input; 2] = [Input::VhLow, Input::VhHigh];

const FUNCTIONS: [Input; 4] = [
    Input::AnalogFault,
    Input::LogicFault,
    Input::LogicFaultAnalogWarning,
    Input::NoFunction,
];

pub(crate) const SOURCES: [Source; 8] = [
    Source::Disabled,
    Source::Engine,
    Source::DrivenLow,
    Source::DrivenHigh,
    Source::Disabled,
    Source::Disabled,
    Source::Disabled,
    Source::Disabled,
];

pub(crate) const PULLS: [Pull; 16] = [
    Pull::Unpulled,
    Pull::Unpulled,
    Pull::Vddcap300k,
    Pull::Vddcap300k,
    Pull::WeakVp1,
    Pull::PushPullVp1,
    Pull::WeakVp2,
    Pull::PushPullVp2,
    Pull::WeakVp3,
    Pull::PushPullVp3,
    Pull::WeakVp4,
    Pull::PushPullVp4,
    Pull::Unpulled,
    Pull::Unpulled,
    Pull::WeakVddcap,
    Pull::PushPullVddcap,
];

// The meaning of byte 5 in group k.
#[tactic(auto, using(records::proofs::BitLaws::bits_lt), unfolding(image::specs::Reading::input_of))]
pub(crate) fn input(k: usize, byte: u8) -> Input
    ensures { result ≡ input_of k byte }
{
    match k {
        0..4 => RANGES[field(byte, 0, 2) as usize],
        4 => HIGH_RANGES[field(byte, 0, 1) as usize],
        _ => FUNCTIONS[field(byte, 0, 2) as usize],
    }
}
