// A step as a node: its jumps looked up to step numbers.
ghost use Rattle.std.specs.Prelude.{◌≡◌};
ghost use Rattle.sheets.specs.Sheets.{target, node_at};

use crate::tags;
use machine::Node;
use steps::{step_at, step_count};

#[tactic(auto, unfolding(crate::specs::Sheets::node_at))]
pub fn node_at(sheet: &[u8], k: u8) -> Node
    ensures { result ≡ node_at sheet.now k }
{
    let step = step_at(sheet, k);
    Node {
        outputs: step.outputs,
        mask: step.mask,
        faultto: target(sheet, step.faultjump),
        channel: step.channel,
        level: step.level,
        sequenceto: target(sheet, step.sequencejump),
        timeout: step.timeout,
        timeoutto: target(sheet, step.timeoutjump),
        step: k,
    }
}

// The step that a jump leads to; 0 for an absent jump.
#[tactic(auto, unfolding(crate::specs::Sheets::target))]
fn target(sheet: &[u8], jump: u16) -> u8
    ensures { result ≡ target sheet.now jump }
{
    if jump == 0 {
        return 0;
    }
    tags::look_up(sheet, jump).unwrap_or(step_count(sheet))
}
