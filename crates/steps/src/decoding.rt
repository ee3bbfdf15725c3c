// A step's bytes: tag (2), outputs (2), monitor mask (2), fault jump (2), sequence channel, level,
// sequence jump (2), timeout (2), timeout jump (2).
ghost use Rattle.std.specs.Prelude.{◌≡◌};
ghost use Rattle.steps.specs.Steps.{step_at, step_count};

use crate::Step;
use words::{byte_at, word_at};

// The step with a number. A byte past the sheet's end counts as 0. A step has other fields at other offsets than a cell,
// so each has a decoder of its own.
#[tactic(auto, unfolding(crate::specs::Steps::step_at))]
pub fn step_at(sheet: &[u8], k: u8) -> Step
    ensures { result ≡ step_at sheet.now k }
{
    let at = 16 * (k as usize);
    Step {
        tag: word_at(sheet, at),
        outputs: word_at(sheet, at + 2),
        mask: word_at(sheet, at + 4),
        faultjump: word_at(sheet, at + 6),
        channel: byte_at(sheet, at + 8),
        level: byte_at(sheet, at + 9),
        sequencejump: word_at(sheet, at + 10),
        timeout: word_at(sheet, at + 12),
        timeoutjump: word_at(sheet, at + 14),
    }
}

// How many steps a sheet has, 63 at most.
#[tactic(auto, unfolding(crate::specs::Steps::step_count))]
pub fn step_count(sheet: &[u8]) -> u8
    ensures { result ≡ step_count sheet.now }
{
    (sheet.len() / 16).min(63) as u8
}
