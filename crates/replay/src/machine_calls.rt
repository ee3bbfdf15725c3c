// The calls by kind: sheets, tables, the engine and the translator.
use crate::fields::Fields;
use engine::{Form, Shown, Ticked};
use machine::State;
use records::Refusal;
use states::{state_bytes, state_from};
use words::word_at;

// A refusal has no cell.
pub(crate) fn is_translated(sheet: &[u8], lent: &mut [u8], expected: &mut Fields<'_>) -> bool {
    let answer = translator::translate(sheet, lent);
    expected.has_verdict(answer)
        & (answer.unwrap_or(0) == expected.byte())
        & expected.ends_with(lent)
}

pub(crate) fn is_ticked<F: Form>(given: &[u8], expected: &mut Fields<'_>) -> bool {
    if given.len() < 10 {
        return false;
    }
    let mut state = state_from(given);
    let answer = engine::tick::<F>(&given[10..], &mut state, word_at(given, 8));
    is_answer(answer, state, expected)
}

pub(crate) fn is_shown<F: Form>(given: &[u8], expected: &mut Fields<'_>) -> bool {
    if given.len() < 8 {
        return false;
    }
    let state = state_from(given);
    is_answer(engine::show::<F>(&given[8..], state), state, expected)
}

// A refusal has zero outputs and step 0.
fn is_answer(answer: Result<Shown, Refusal>, state: State, expected: &mut Fields<'_>) -> bool {
    let ticked = Ticked::of(answer, state);
    expected.has_verdict(answer)
        & expected.has_bytes(&state_bytes(ticked.state))
        & (ticked.outputs == expected.word())
        & (ticked.step == expected.byte())
        & expected.ends_with(&[])
}

pub(crate) fn is_table(given: &[u8], expected: &mut Fields<'_>) -> bool {
    let Some((cell, table)) = given.split_first() else {
        return false;
    };
    expected.has_verdict(tables::table_verdict(table))
        & expected.has_verdict(tables::cell_standing(table, *cell).tested)
        & expected.ends_with(&[])
}
