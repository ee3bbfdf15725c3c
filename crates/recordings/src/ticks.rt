// One engine tick after the other.
ghost use Rattle.std.specs.Prelude.{◌≡◌, ◌/◌, length};
ghost use Rattle.detectors.specs.Tick.{as_detected};
ghost use Rattle.recordings.specs.Recordings.{detected_after};

use detectors::{Detection, Words, engine_tick};
use image::Settings;

// After every whole engine tick of the recording, or after the first that is refused.
pub(crate) fn detect(settings: &Settings, recording: &[u8]) -> Detection
    ensures { as_detected result ≡ detected_after settings.now recording.now (length recording.now / 220) }
{
    let mut detection = Detection {
        bank: detectors::start(),
        words: Ok(Words::default()),
    };
    for frames in recording.chunks_exact(220) {
        detection = engine_tick(*settings, detection.bank, frames);
        if detection.words.is_err() {
            return detection;
        }
    }
    detection
}
