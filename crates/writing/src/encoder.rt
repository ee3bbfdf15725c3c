// The eight bytes that mean one group's settings, by value: everything that can refuse.
ghost use Rattle.std.specs.Prelude.{◌<◌, ◌≡◌, Some};
ghost use Rattle.records.specs.declared.Number.TheVariants.{OutOfRange};
ghost use Rattle.writing.specs.Writing.{encoded, as_encoded, logic_byte, pin_logic_byte, output_byte};

use crate::codes;
use bit_fields::join;
use image::{Group, Logic, Output, PULSES, TIMES};
use records::{Number, Refusal, ensure};

// The eight bytes of a group that is accepted. A look-up is taken apart by `let else` that returns the refusal, a form of
// the paper.
#[tactic(auto, using(crate::proofs::WritingLaws::encodes))]
pub(crate) fn encode(k: usize, group: Group) -> Result<[u8; 8], Refusal>
    requires { k < 10 }
    ensures { as_encoded result ≡ encoded k group }
{
    ensure(group.over.hysteresis <= 31, Number::OutOfRange, 8 * k + 1)?;
    ensure(group.under.hysteresis <= 31, Number::OutOfRange, 8 * k + 3)?;
    let Some(delay) = codes::lookup(&TIMES, group.delay) else {
        return Err(lacking(8 * k + 4));
    };
    let Some(five) = codes::input_code(k, group.input) else {
        return Err(lacking(8 * k + 5));
    };
    let Some(six) = logic_byte(k, group.logic) else {
        return Err(lacking(8 * k + 6));
    };
    Ok([
        group.over.level,
        group.over.hysteresis,
        group.under.level,
        group.under.hysteresis,
        join(delay, 2, codes::fault_code(group.faults)),
        five,
        six,
        output_byte(group.output),
    ])
}

// The refusal of a setting that the byte at an address cannot mean.
fn lacking(place: usize) -> Refusal
    ensures { result ≡ record { kind = OutOfRange; place = place } }
{
    Refusal {
        kind: Number::OutOfRange,
        place,
    }
}

// Byte 6 of group k.
#[tactic(auto, unfolding(crate::specs::Writing::logic_byte, crate::specs::Writing::has_logic))]
fn logic_byte(k: usize, logic: Logic) -> Option<u8>
    ensures { result ≡ logic_byte k logic }
{
    if k >= 5 {
        return pin_logic_byte(logic);
    }
    (logic == Logic::default()).then_some(0)
}

#[tactic(auto, using(crate::proofs::WritingLaws::pulse_lacks, crate::proofs::WritingLaws::delay_lacks, crate::proofs::WritingLaws::pin_logic_is))]
fn pin_logic_byte(logic: Logic) -> Option<u8>
    ensures { result ≡ pin_logic_byte logic }
{
    let pulse = codes::lookup(&PULSES, logic.pulse)?;
    let delay = codes::lookup(&TIMES, logic.delay)?;
    let times = join(pulse, 3, delay);
    Some(join(logic.invert as u8, 6, join(logic.edge as u8, 5, times)))
}

// Byte 7: every output has its byte.
#[tactic(auto, using(crate::proofs::WritingLaws::output_is))]
fn output_byte(output: Output) -> u8
    ensures { Some result ≡ output_byte output }
{
    join(
        codes::source_code(output.source),
        4,
        codes::pull_code(output.pull),
    )
}
