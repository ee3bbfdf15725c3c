// Tags: the lowest step that repeats one, and the step that has one.
ghost use Rattle.std.specs.Prelude.{◌≡◌, ltb};
ghost use Rattle.std.specs.Option.{is_some, unwrap_or};
ghost use Rattle.records.specs.Answers.{verdict_of};
ghost use Rattle.records.specs.Tags.{tag_at, look_up};
ghost use Rattle.steps.specs.Steps.{step_count};
ghost use Rattle.sheets.specs.Sheets.{repeats_verdict};

use records::{Number, Refusal};
use steps::step_count;
use words::word_at;

// Number 5 at the lowest step whose tag an earlier step has: nested loops, left by a label, as the scope names them.
pub(crate) fn repeats_verdict(sheet: &[u8]) -> Result<(), Refusal>
    ensures { verdict_of result ≡ repeats_verdict sheet.now }
{
    let steps = step_count(sheet);
    let mut answer = Ok(());
    'search: for later in 0..steps {
        for earlier in 0..later {
            if tag(sheet, earlier) == tag(sheet, later) {
                answer = Err(Refusal {
                    kind: Number::RepeatedTag,
                    place: later as usize,
                });
                break 'search;
            }
        }
    }
    answer
}

// The lowest step with a tag, if some step has it.
pub(crate) fn look_up(sheet: &[u8], wanted: u16) -> Option<u8>
    ensures step { unwrap_or result (step_count sheet.now) ≡ look_up 16 sheet.now (step_count sheet.now) wanted }
    ensures found { is_some result ≡ ltb (look_up 16 sheet.now (step_count sheet.now) wanted) (step_count sheet.now) }
{
    (0..step_count(sheet)).find(|k| tag(sheet, *k) == wanted)
}

#[tactic(auto, unfolding(records::specs::Tags::tag_at))]
fn tag(sheet: &[u8], k: u8) -> u16
    ensures { result ≡ tag_at 16 sheet.now k }
{
    word_at(sheet, 16 * (k as usize))
}
