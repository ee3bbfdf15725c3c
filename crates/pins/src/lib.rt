// The pin drives: which of PDO1 to PDO10 are driven high, from settings and the outputs.
#![tactic(auto)]

ghost use Rattle.std.specs.Prelude.{◌≡◌};
ghost use Rattle.pins.specs.Pins.{drive, pins_of, driven, as_driven};

use bit_fields::word_bit;
use image::{Settings, Source};
use records::{Number, Refusal, ensure};
use words::bit;

// The pins for a word of outputs below 1024. The settings are tested first.
#[tactic(auto, using(records::proofs::ReturnLaws::tests), unfolding(crate::specs::Pins::driven, crate::specs::Pins::pins_verdict))]
pub fn pins(settings: Settings, outputs: u16) -> Result<u16, Refusal>
    ensures { as_driven result ≡ driven settings outputs }
{
    writing::settings_verdict(settings)?;
    ensure(outputs < 1024, Number::BadWord, 0)?;
    Ok(drive_all(settings, outputs))
}

fn drive_all(settings: Settings, outputs: u16) -> u16
    ensures { result ≡ pins_of settings outputs }
{
    let mut word = 0;
    for (k, group) in settings.groups.iter().enumerate() {
        let output = word_bit(outputs, k as u8) == 1;
        word += bit(drive(group.output.source, output), k);
    }
    word
}

fn drive(source: Source, output: bool) -> bool
    ensures { result ≡ drive source output }
{
    match source {
        Source::Disabled => false,
        Source::Engine => output,
        Source::DrivenLow => false,
        Source::DrivenHigh => true,
    }
}
