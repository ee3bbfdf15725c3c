// The detectors over a recording: an image, and whole engine ticks of 220 bytes.
//
// The call has no `requires`. A refusal has no words.
#![tactic(auto)]

mod ticks;

ghost use Rattle.std.specs.Prelude.{◌≡◌, IfOk};
ghost use Rattle.records.specs.Answers.{verdict_of};
ghost use Rattle.image.specs.Reading.{settings_of};
ghost use Rattle.detectors.specs.Tick.{as_detected};
ghost use Rattle.recordings.specs.Recordings.{recording_verdict, recorded};

use detectors::Detection;
use image::Settings;
use records::{Number, Refusal, ensure};

// Under the image's settings, from the start: what the last engine tick answers, or the first that is
// refused.
#[tactic(auto, unfolding(crate::specs::Recordings::recorded))]
pub fn recorded(image: &[u8], recording: &[u8]) -> Detection
    ensures { as_detected result ≡ recorded image.now recording.now }
{
    match settings_of(image, recording) {
        Ok(settings) => ticks::detect(&settings, recording),
        Err(refusal) => Detection {
            bank: detectors::start(),
            words: Err(refusal),
        },
    }
}

// The image's settings, where the recording is whole engine ticks.
#[tactic(auto, using(records::proofs::ReturnLaws::tests, image::proofs::SettingsLaws::settings_read), unfolding(crate::specs::Recordings::recording_verdict, crate::specs::Recordings::image_then, image::specs::Reading::reading))]
fn settings_of(image: &[u8], recording: &[u8]) -> Result<Settings, Refusal>
    ensures verdict { verdict_of result ≡ recording_verdict image.now recording.now }
    ensures settings { IfOk result (λ settings. settings ≡ settings_of image.now) }
{
    let settings = reading::read(image)?;
    ensure(recording.len() % 220 == 0, Number::WrongLength, 0)?;
    Ok(settings)
}
