// From a meaning to its lowest code.
ghost use Rattle.std.specs.Prelude.{◌≤◌, ◌≡◌, length};
ghost use Rattle.image.specs.Codes.{lookup, fault_code, input_code, source_code, pull_code};

use image::{FaultType, Input, Pull, Source};

// The lowest place at which a table has the value.
pub(crate) fn lookup(table: &[u16], value: u16) -> Option<u8>
    requires { length table.now ≤ 256 }
    ensures { result ≡ lookup table.now value }
{
    table
        .iter()
        .position(|entry| *entry == value)
        .map(|place| place as u8)
}

// A function for each cast: beside other work a cast leaves a goal for each variant.
pub(crate) fn fault_code(faults: FaultType) -> u8
    ensures { result ≡ fault_code faults }
{
    faults as u8
}

pub(crate) fn source_code(source: Source) -> u8
    ensures { result ≡ source_code source }
{
    source as u8
}

pub(crate) fn pull_code(pull: Pull) -> u8
    ensures { result ≡ pull_code pull }
{
    pull as u8
}

// The code of a kind of input in its own group's table.
pub(crate) fn input_code(k: usize, input: Input) -> Option<u8>
    ensures { result ≡ input_code k input }
{
    let number = input as u8;
    match input {
        Input::VpMid | Input::VpLow | Input::VpUltralow => (k < 4).then_some(number),
        Input::VhLow | Input::VhHigh => (k == 4).then_some(number - Input::VhLow as u8),
        _ => (k >= 5).then_some(number - Input::AnalogFault as u8),
    }
}
