// Settings from 160 bytes, and compared with them. Kinds go by their numbers in docs/CASES.md: of inputs and pull-ups these
// are no codes of an image, and of sources it has only those that are printed.
ghost use Rattle.std.specs.Prelude.{◌<◌};

use crate::fields::Fields;
use image::{FAULT_TYPES, Group, Input, Logic, Output, Pull, Settings, Source, Threshold};
use std::array;

const INPUTS: [Input; 9] = [
    Input::VpMid,
    Input::VpLow,
    Input::VpUltralow,
    Input::VhLow,
    Input::VhHigh,
    Input::AnalogFault,
    Input::LogicFault,
    Input::LogicFaultAnalogWarning,
    Input::NoFunction,
];

const SOURCES: [Source; 4] = [
    Source::Disabled,
    Source::Engine,
    Source::DrivenLow,
    Source::DrivenHigh,
];

const PULLS: [Pull; 12] = [
    Pull::Unpulled,
    Pull::Vddcap300k,
    Pull::WeakVp1,
    Pull::PushPullVp1,
    Pull::WeakVp2,
    Pull::PushPullVp2,
    Pull::WeakVp3,
    Pull::PushPullVp3,
    Pull::WeakVp4,
    Pull::PushPullVp4,
    Pull::WeakVddcap,
    Pull::PushPullVddcap,
];

// The kind with a number, counted round again past the last.
fn numbered<T: Copy, const N: usize>(kinds: &[T; N], number: u8) -> T
    requires { 0 < N }
{
    kinds[number as usize % N]
}

pub(crate) fn settings_from(fields: &mut Fields<'_>) -> Settings {
    Settings {
        groups: array::from_fn(|_| group_from(fields)),
    }
}

fn group_from(fields: &mut Fields<'_>) -> Group {
    Group {
        over: threshold_from(fields),
        under: threshold_from(fields),
        delay: fields.word(),
        faults: numbered(&FAULT_TYPES, fields.byte()),
        input: numbered(&INPUTS, fields.byte()),
        logic: logic_from(fields),
        output: output_from(fields),
    }
}

fn threshold_from(fields: &mut Fields<'_>) -> Threshold {
    Threshold {
        level: fields.byte(),
        hysteresis: fields.byte(),
    }
}

fn logic_from(fields: &mut Fields<'_>) -> Logic {
    Logic {
        invert: fields.flag(),
        edge: fields.flag(),
        pulse: fields.word(),
        delay: fields.word(),
    }
}

fn output_from(fields: &mut Fields<'_>) -> Output {
    Output {
        source: numbered(&SOURCES, fields.byte()),
        pull: numbered(&PULLS, fields.byte()),
    }
}

// Whether the settings are those of the next 160 bytes.
pub(crate) fn is_settings(settings: Settings, expected: &mut Fields<'_>) -> bool {
    settings
        .groups
        .iter()
        .all(|group| is_group(group, expected))
}

// Kinds by their numbers, which do not begin anew past the last as those of given settings do.
fn is_group(group: &Group, expected: &mut Fields<'_>) -> bool {
    (group.over == threshold_from(expected))
        & (group.under == threshold_from(expected))
        & (group.delay == expected.word())
        & (group.faults as u8 == expected.byte())
        & (group.input as u8 == expected.byte())
        & (group.logic == logic_from(expected))
        & (group.output.source as u8 == expected.byte())
        & (PULLS.get(expected.byte() as usize) == Some(&group.output.pull))
}
