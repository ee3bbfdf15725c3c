// The tests of a step's fields: each refusal has the kind of fault, and the field's offset in the step as place.
// They stand in the order of the offsets, which a step and a cell do not share.
ghost use Rattle.std.specs.Prelude.{◌≡◌};
ghost use Rattle.records.specs.Answers.{verdict_by};
ghost use Rattle.machine.specs.Answers.{fault_number};
ghost use Rattle.steps.specs.Steps.{step_fault, jump_fault};

use crate::Step;
use machine::Fault;
use records::{Refusal, ensure};

#[tactic(auto, using(records::proofs::ReturnLaws::tests), unfolding(crate::specs::Steps::step_fault, machine::specs::Fields::outputs_in_range, machine::specs::Fields::mask_in_range, machine::specs::Fields::channel_in_range, machine::specs::Fields::level_in_range, machine::specs::Fields::level_allowed))]
pub fn step_fault(step: Step) -> Result<(), Refusal<Fault>>
    ensures { verdict_by fault_number result ≡ step_fault step }
{
    ensure(step.tag >= 1, Fault::Range, 0)?;
    ensure(step.outputs < 1024, Fault::Range, 2)?;
    ensure(step.mask < 1024, Fault::Range, 4)?;
    jump_fault(step.mask != 0, step.faultjump, 6)?;
    ensure(step.channel <= 10, Fault::Range, 8)?;
    ensure(step.level <= 1, Fault::Range, 9)?;
    ensure(
        (step.channel != 0) | (step.level == 0),
        Fault::LevelWithoutChannel,
        9,
    )?;
    jump_fault(step.channel != 0, step.sequencejump, 10)?;
    ensure(step.timeout <= 40000, Fault::Range, 12)?;
    jump_fault(step.timeout != 0, step.timeoutjump, 14)
}

// "A jump ... is 0 exactly when its exit is absent."
#[tactic(auto, using(records::proofs::ReturnLaws::tests), unfolding(crate::specs::Steps::jump_fault))]
fn jump_fault(present: bool, jump: u16, offset: usize) -> Result<(), Refusal<Fault>>
    ensures { verdict_by fault_number result ≡ jump_fault present jump offset }
{
    ensure(present | (jump == 0), Fault::JumpWithoutExit, offset)?;
    ensure(!present | (jump != 0), Fault::ExitWithoutJump, offset)
}
