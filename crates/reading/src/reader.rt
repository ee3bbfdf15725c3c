// From eighty bytes to settings.
ghost use Rattle.std.specs.Prelude.{◌<◌, ◌≡◌, length};
ghost use Rattle.records.specs.Answers.{verdict_of};
ghost use Rattle.image.specs.Reading.{reserved_from, printed, byte_verdict, part_verdict, image_verdict, threshold_of, logic_of, output_of, group_of, settings_of, reading, as_reading};

use crate::codes::{self, PULLS, SOURCES};
use bit_fields::field;
use image::{FAULT_TYPES, Group, Logic, Output, PULSES, Settings, TIMES, Threshold};
use records::{Number, Refusal, ensure};

// Reads an image of eighty bytes. The lowest bad address is reported.
#[tactic(auto, using(crate::proofs::ReadingLaws::accepted_whole), unfolding(image::specs::Reading::reading))]
pub fn read(image: &[u8]) -> Result<Settings, Refusal>
    ensures { as_reading result ≡ reading image.now }
{
    image_verdict(image)?;
    Ok(read_groups(image))
}

#[tactic(auto, using(records::proofs::ReturnLaws::loops, crate::proofs::ReadingLaws::image_whole, crate::proofs::ReadingLaws::image_not_whole))]
fn image_verdict(image: &[u8]) -> Result<(), Refusal>
    ensures { verdict_of result ≡ image_verdict image.now }
{
    ensure(image.len() == 80, Number::WrongLength, 0)?;
    // The part from 8k on for every k, as the paper has it, and no chunks.
    for k in 0..10 {
        part_verdict(k, &image[8 * k..8 * k + 8])?;
    }
    Ok(())
}

// The tests of the eight bytes of group k.
#[tactic(auto, using(records::proofs::ReturnLaws::loops), unfolding(image::specs::Reading::part_verdict))]
fn part_verdict(k: usize, part: &[u8]) -> Result<(), Refusal>
    requires k_bound { k < 10 }
    requires part_len { length part.now ≡ 8 }
    ensures { verdict_of result ≡ part_verdict k part.now }
{
    for (j, byte) in part.iter().enumerate() {
        byte_verdict(k, j, *byte, 8 * k + j)?;
    }
    Ok(())
}

#[tactic(auto, using(records::proofs::ReturnLaws::tests, crate::proofs::ReadingLaws::reserved_below), unfolding(image::specs::Reading::byte_verdict, image::specs::Reading::usable))]
fn byte_verdict(k: usize, j: usize, byte: u8, address: usize) -> Result<(), Refusal>
    ensures { verdict_of result ≡ byte_verdict k j byte address }
{
    let from = reserved_from(k, j);
    ensure(field(byte, from, 8 - from) == 0, Number::Reserved, address)?;
    ensure(is_printed(j, byte), Number::Unprinted, address)
}

// The lowest reserved bit of byte j of group k, 8 where it has none.
#[tactic(auto, unfolding(image::specs::Reading::reserved_from))]
fn reserved_from(k: usize, j: usize) -> u8
    ensures { result ≡ reserved_from k j }
{
    let five = if k == 4 { 1 } else { 2 };
    let six = if k < 5 { 0 } else { 7 };
    let from = [8, 5, 8, 5, 5, five, six, 7];
    from.get(j).copied().unwrap_or(8)
}

#[tactic(auto, unfolding(image::specs::Reading::printed))]
fn is_printed(j: usize, byte: u8) -> bool
    ensures { result ≡ printed j byte }
{
    j != 7 || (field(byte, 4, 3) < 4 && !matches!(field(byte, 0, 4), 12 | 13))
}

fn read_groups(image: &[u8]) -> Settings
    requires { length image.now ≡ 80 }
    ensures { result ≡ settings_of image.now }
{
    let zero = Settings::default();
    let mut groups = zero.groups;
    for k in 0..10 {
        groups[k] = read_group(k, &image[8 * k..8 * k + 8]);
    }
    Settings { groups }
}

// The one group reader: what the eight bytes of group k mean. They come as a part of the slice, a form of the paper, and
// so not as an array.
#[tactic(auto, using(records::proofs::BitLaws::bits_lt), unfolding(image::specs::Reading::group_of))]
fn read_group(k: usize, part: &[u8]) -> Group
    requires { length part.now ≡ 8 }
    ensures { result ≡ group_of k part.now }
{
    let timing = part[4];
    Group {
        over: read_threshold(part[0], part[1]),
        under: read_threshold(part[2], part[3]),
        delay: TIMES[field(timing, 2, 3) as usize],
        faults: FAULT_TYPES[field(timing, 0, 2) as usize],
        input: codes::input(k, part[5]),
        logic: read_logic(k, part[6]),
        output: read_output(part[7]),
    }
}

#[tactic(auto, unfolding(image::specs::Reading::threshold_of))]
fn read_threshold(level: u8, hysteresis: u8) -> Threshold
    ensures { result ≡ threshold_of level hysteresis }
{
    Threshold {
        level,
        hysteresis: field(hysteresis, 0, 5),
    }
}

#[tactic(auto, using(records::proofs::BitLaws::bits_lt), unfolding(image::specs::Reading::logic_of))]
fn read_logic(k: usize, byte: u8) -> Logic
    ensures { result ≡ logic_of k byte }
{
    if k < 5 {
        return Logic::default();
    }
    Logic {
        invert: field(byte, 6, 1) == 1,
        edge: field(byte, 5, 1) == 1,
        pulse: PULSES[field(byte, 3, 2) as usize],
        delay: TIMES[field(byte, 0, 3) as usize],
    }
}

#[tactic(auto, using(records::proofs::BitLaws::bits_lt), unfolding(image::specs::Reading::output_of))]
fn read_output(byte: u8) -> Output
    ensures { result ≡ output_of byte }
{
    Output {
        source: SOURCES[field(byte, 4, 3) as usize],
        pull: PULLS[field(byte, 0, 4) as usize],
    }
}
