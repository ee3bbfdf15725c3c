// From settings to eighty bytes. Everything that can refuse answers by value first; then the parts
// are lent and filled.
ghost use Rattle.std.specs.Prelude.{◌≡◌, length};
ghost use Rattle.records.specs.Answers.{verdict_of};
ghost use Rattle.writing.specs.Writing.{settings_verdict, write_verdict, image_of, written};

use crate::encoder;
use image::Settings;
use records::{Number, Refusal, ensure};

// Accepted where some image means the settings; else number 4 at the lowest address whose setting no
// byte of its group can mean.
#[tactic(auto, using(records::proofs::ReturnLaws::loops, crate::proofs::WritingLaws::settings_groups))]
pub fn settings_verdict(settings: Settings) -> Result<(), Refusal>
    ensures { verdict_of result ≡ settings_verdict settings }
{
    for (k, group) in settings.groups.iter().enumerate() {
        encoder::encode(k, *group)?;
    }
    Ok(())
}

// Writes the settings' eighty bytes into a buffer of eighty bytes. A refusal leaves every byte.
#[tactic(auto, using(records::proofs::ReturnLaws::tests, records::proofs::ReturnLaws::number_some, crate::proofs::WritingLaws::fills), unfolding(crate::specs::Writing::write_verdict))]
pub fn write(settings: Settings, buffer: &mut [u8]) -> Result<(), Refusal>
    ensures value { verdict_of result ≡ write_verdict settings buffer.old }
    ensures buffer_after { buffer.new ≡ written settings buffer.old }
{
    ensure(buffer.len() == 80, Number::WrongLength, 0)?;
    settings_verdict(settings)?;
    write_groups(settings, buffer);
    Ok(())
}

fn write_groups(settings: Settings, buffer: &mut [u8])
    requires buffer_len { length buffer.old ≡ 80 }
    requires settings_value { (settings_verdict settings).number ≡ 0 }
    ensures { buffer.new ≡ image_of settings }
{
    // The part lent from 8k on for each group, as the paper has it, and no chunks.
    for (k, group) in settings.groups.iter().enumerate() {
        let bytes = encoder::encode(k, *group).unwrap();
        write_group(bytes, &mut buffer[8 * k..8 * k + 8]);
    }
}

// Stores a group's eight bytes into the part lent for it: a part of the slice, a form of the paper.
fn write_group(bytes: [u8; 8], part: &mut [u8])
    requires { length part.old ≡ 8 }
    ensures { part.new ≡ bytes }
{
    part.copy_from_slice(&bytes);
}
