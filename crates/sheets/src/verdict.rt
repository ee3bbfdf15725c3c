// The sheet's tests: length, fields of every step, repeated tags, unknown tags.
ghost use Rattle.std.specs.Prelude.{◌≡◌};
ghost use Rattle.records.specs.Answers.{verdict_of};
ghost use Rattle.sheets.specs.Sheets.{sheet_verdict, fields_verdict, unknown_verdict, jumps_known, known};

use crate::tags;
use records::{Number, Refusal, ensure};
use steps::{step_at, step_count, step_fault};
use words::is_whole;

#[tactic(auto, using(records::proofs::ReturnLaws::tests), unfolding(crate::specs::Sheets::sheet_verdict, crate::specs::Sheets::sheet_tests, crate::specs::Sheets::is_sheet, records::specs::Lists::whole_records))]
pub fn sheet_verdict(sheet: &[u8]) -> Result<(), Refusal>
    ensures { verdict_of result ≡ sheet_verdict sheet.now }
{
    ensure(is_whole(sheet, 16), Number::WrongLength, 0)?;
    fields_verdict(sheet)?;
    tags::repeats_verdict(sheet)?;
    unknown_verdict(sheet)
}

#[tactic(auto, using(records::proofs::ReturnLaws::loops), unfolding(crate::specs::Sheets::fields_verdict))]
fn fields_verdict(sheet: &[u8]) -> Result<(), Refusal>
    ensures { verdict_of result ≡ fields_verdict sheet.now }
{
    let steps = step_count(sheet);
    // By number, here and below: the bytes hold no slice of steps.
    for k in 0..steps {
        let sound = step_fault(step_at(sheet, k)).is_ok();
        ensure(sound, Number::OutOfRange, k as usize)?;
    }
    Ok(())
}

#[tactic(auto, using(records::proofs::ReturnLaws::loops), unfolding(crate::specs::Sheets::unknown_verdict))]
fn unknown_verdict(sheet: &[u8]) -> Result<(), Refusal>
    ensures { verdict_of result ≡ unknown_verdict sheet.now }
{
    let steps = step_count(sheet);
    for k in 0..steps {
        ensure(jumps_known(sheet, k), Number::UnknownTag, k as usize)?;
    }
    Ok(())
}

#[tactic(auto, unfolding(crate::specs::Sheets::jumps_known))]
fn jumps_known(sheet: &[u8], k: u8) -> bool
    ensures { result ≡ jumps_known sheet.now k }
{
    let step = step_at(sheet, k);
    let jumps = [step.faultjump, step.sequencejump, step.timeoutjump];
    jumps.iter().all(|jump| known(sheet, *jump))
}

// The jump is absent, or some step has its tag.
#[tactic(auto, unfolding(crate::specs::Sheets::known))]
fn known(sheet: &[u8], jump: u16) -> bool
    ensures { result ≡ known sheet.now jump }
{
    jump == 0 || tags::look_up(sheet, jump).is_some()
}
