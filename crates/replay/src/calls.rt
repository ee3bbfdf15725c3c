// The calls by kind: settings, detectors and pins. What is given, lent and expected are passed side by side: the call takes
// the first two, the comparison the last.
use crate::bank::bank_from;
use crate::fields::Fields;
use crate::for_c::{is_shown_on, is_started_on, is_ticked_on};
use crate::machine_calls::{is_shown, is_table, is_ticked, is_translated};
use crate::settings::{is_settings, settings_from};
use detectors::{Bank, Detected, Detection};
use engine::{Sheet, Table};
use image::Settings;
use states::state_bytes;

// Whether the call of a kind answers what is expected. A kind that is not known is not alike. Kinds are the numbers of
// docs/CASES.md: an enum of eighteen calls would list each of them twice more.
pub(crate) fn is_alike(kind: u8, given: &[u8], lent: &mut [u8], expected: &[u8]) -> bool {
    let expected = &mut Fields::new(expected);
    match kind {
        1 => is_read(given, lent, expected),
        2 => is_written(settings_from(&mut Fields::new(given)), lent, expected),
        6 => is_translated(given, lent, expected),
        14 => is_started_on(lent, expected),
        15 => is_ticked_on::<Table>(given, lent, expected),
        16 => is_ticked_on::<Sheet>(given, lent, expected),
        17 => is_shown_on::<Table>(given, lent, expected),
        18 => is_shown_on::<Sheet>(given, lent, expected),
        _ => lent.is_empty() && is_lent_none(kind, given, expected),
    }
}

// The calls that are lent no buffer.
fn is_lent_none(kind: u8, given: &[u8], expected: &mut Fields<'_>) -> bool {
    match kind {
        3 => is_detected(
            |settings, bank, frames| detectors::tick(settings, bank, frames),
            given,
            expected,
        ),
        4 => is_detected(
            |settings, bank, frames| detectors::engine_tick(settings, bank, frames),
            given,
            expected,
        ),
        5 => is_driven(given, expected),
        7 => is_ticked::<Table>(given, expected),
        8 => is_ticked::<Sheet>(given, expected),
        9 => is_shown::<Table>(given, expected),
        10 => is_shown::<Sheet>(given, expected),
        11 => is_table(given, expected),
        12 => expected.has_verdict(sheets::sheet_verdict(given)) & expected.ends_with(&[]),
        13 => is_started(expected),
        _ => false,
    }
}

// A refusal has the zero settings.
fn is_read(image: &[u8], lent: &mut [u8], expected: &mut Fields<'_>) -> bool {
    let answer = reading::read(image);
    let settings = answer.unwrap_or_default();
    expected.has_verdict(answer)
        & is_settings(settings, expected)
        & is_written(settings, lent, expected)
}

// The settings' verdict and the writer's, then the lent bytes.
fn is_written(settings: Settings, lent: &mut [u8], expected: &mut Fields<'_>) -> bool {
    expected.has_verdict(writing::settings_verdict(settings))
        & expected.has_verdict(writing::write(settings, lent))
        & expected.ends_with(lent)
}

// A call on settings, a bank, and the frames after them. A refusal has zero words.
fn is_detected<F: FnOnce(Settings, Bank, &[u8]) -> Detection>(
    call: F,
    given: &[u8],
    expected: &mut Fields<'_>,
) -> bool
    requires { F.IsAlwaysCallable call }
{
    let fields = &mut Fields::new(given);
    let settings = settings_from(fields);
    let bank = bank_from(fields);
    let Some(frames) = fields.rest() else {
        return false;
    };
    let detection = call(settings, bank, frames);
    let detected = Detected::from(detection);
    expected.has_verdict(detection.words)
        & (detected.bank == bank_from(expected))
        & (detected.faults == expected.word())
        & (detected.warnings == expected.word())
        & expected.ends_with(&[])
}

// A refusal has no pin.
fn is_driven(given: &[u8], expected: &mut Fields<'_>) -> bool {
    let fields = &mut Fields::new(given);
    let settings = settings_from(fields);
    let answer = pins::pins(settings, fields.word());
    expected.has_verdict(answer)
        & (answer.unwrap_or(0) == expected.word())
        & expected.ends_with(&[])
}

fn is_started(expected: &mut Fields<'_>) -> bool {
    expected.has_bytes(&blank_image::blank())
        & (detectors::start() == bank_from(expected))
        & expected.ends_with(&state_bytes(engine::start()))
}
