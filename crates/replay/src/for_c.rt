// The calls on a state of eight lent bytes, their answers packed as for C.
use crate::fields::Fields;
use engine::{Form, Shown, Ticked};
use packing::{packed, packed_tick};
use records::{Refusal, Verdict};
use states::state_from;

pub(crate) fn is_started_on(state: &mut [u8], expected: &mut Fields<'_>) -> bool {
    let answer = packed(Verdict::of(state_calls::start(state)), 0);
    expected.has_bytes(&answer.to_le_bytes()) & expected.ends_with(state)
}

pub(crate) fn is_ticked_on<F: Form>(
    given: &[u8],
    state: &mut [u8],
    expected: &mut Fields<'_>,
) -> bool {
    let fields = &mut Fields::new(given);
    let word = fields.word();
    let Some(bytes) = fields.rest() else {
        return false;
    };
    is_answer(state_calls::tick::<F>(bytes, state, word), state, expected)
}

pub(crate) fn is_shown_on<F: Form>(given: &[u8], state: &[u8], expected: &mut Fields<'_>) -> bool {
    is_answer(state_calls::show::<F>(given, state), state, expected)
}

fn is_answer(answer: Result<Shown, Refusal>, state: &[u8], expected: &mut Fields<'_>) -> bool {
    let answer = packed_tick(Ticked::of(answer, state_from(state)));
    expected.has_bytes(&answer.to_le_bytes()) & expected.ends_with(state)
}
