// The calls on frames: every test first, then the ticks. Settings, bank and frames are passed side by side: so the paper
// has them, and the bank is taken and returned by value.
ghost use Rattle.std.specs.Prelude.{◌≤◌, ◌/◌, ◌≡◌, length};
ghost use Rattle.records.specs.Answers.{verdict_of};
ghost use Rattle.detectors.specs.Tick.{frames_verdict, levels_verdict, detected_over, ticked, engine_ticked, as_detected};

use crate::{Bank, Detection, advancing};
use image::Settings;
use records::{Number, Refusal, ensure};
use words::byte_at;

// One detector tick, 5 µs, on one frame of eleven bytes.
#[tactic(auto, unfolding(crate::specs::Tick::ticked))]
pub fn tick(settings: Settings, bank: Bank, frame: &[u8]) -> Detection
    ensures { as_detected result ≡ ticked settings bank frame.now }
{
    detect::<1>(settings, bank, frame)
}

// One engine tick: twenty frames, 220 bytes. Its words are those of the last of the twenty.
#[tactic(auto, unfolding(crate::specs::Tick::engine_ticked))]
pub fn engine_tick(settings: Settings, bank: Bank, frames: &[u8]) -> Detection
    ensures { as_detected result ≡ engine_ticked settings bank frames.now }
{
    detect::<20>(settings, bank, frames)
}

#[tactic(auto, unfolding(crate::specs::Tick::detected_over, crate::specs::Tick::detected))]
fn detect<const N: usize>(settings: Settings, bank: Bank, frames: &[u8]) -> Detection
    requires { 1 ≤ N }
    ensures { as_detected result ≡ detected_over N settings bank frames.now }
{
    match frames_verdict::<N>(settings, bank, frames) {
        Ok(()) => {
            let (bank, words) = advancing::advance::<N>(settings, bank, frames);
            Detection {
                bank,
                words: Ok(words),
            }
        }
        Err(refusal) => Detection {
            bank,
            words: Err(refusal),
        },
    }
}

// The tests, in the order 1, 4, 8, 9.
#[tactic(auto, using(records::proofs::ReturnLaws::tests), unfolding(crate::specs::Tick::frames_verdict))]
fn frames_verdict<const N: usize>(
    settings: Settings,
    bank: Bank,
    frames: &[u8],
) -> Result<(), Refusal>
    ensures { verdict_of result ≡ frames_verdict N settings bank frames.now }
{
    let whole = frames.len() % 11 == 0 && frames.len() / 11 == N;
    ensure(whole, Number::WrongLength, 0)?;
    writing::settings_verdict(settings)?;
    advancing::bank_verdict(settings, bank)?;
    levels_verdict(frames)
}

#[tactic(auto, using(records::proofs::ReturnLaws::loops), unfolding(crate::specs::Tick::levels_verdict))]
fn levels_verdict(frames: &[u8]) -> Result<(), Refusal>
    ensures { verdict_of result ≡ levels_verdict (length frames.now / 11) frames.now }
{
    for frame in frames.chunks_exact(11) {
        ensure(byte_at(frame, 10) < 32, Number::BadWord, 0)?;
    }
    Ok(())
}
