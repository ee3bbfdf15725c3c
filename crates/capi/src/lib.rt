// The library for C: calls on numbers and byte slices, each answer packed into one number.
// `capi_c` exports them; `include/wrackbasket.h` declares them and explains the bits.
//
// None of the calls has a `requires`. A refusal leaves every lent byte.
#![tactic(auto)]

ghost use Rattle.std.specs.Prelude.{◌≡◌};
ghost use Rattle.engine.specs.Engine.{sheet_form, table_form};
ghost use Rattle.records.specs.Answers.{verdict_of};
ghost use Rattle.translator.specs.Translation.{translation, translated};
ghost use Rattle.state_calls.specs.StateCalls.{start_verdict, start_written, ticked_on, shown_on, state_after};
ghost use Rattle.recordings.specs.Recordings.{recorded};
ghost use Rattle.packing.specs.Packed.{packed_translation, packed_verdict, packed_tick, packed_words};
ghost use Rattle.capi.specs.Calls.{normal_verdict, normal_written};

use detectors::Detected;
use engine::{Form, Sheet, Table, Ticked};
use packing::{packed, packed_tick, packed_words};
use records::{Refusal, Verdict};
use states::state_from;

// Translates a sheet into the lent table.
pub fn wrackbasket_translate(sheet: &[u8], table: &mut [u8]) -> u32
    ensures value { result ≡ packed_translation (translation sheet.now table.old) }
    ensures table_after { table.new ≡ translated sheet.now table.old }
{
    let answer = translator::translate(sheet, table);
    packed(Verdict::of(answer), answer.unwrap_or(0))
}

// Writes the normal bytes of an image into the lent buffer of eighty bytes.
pub fn wrackbasket_normal(image: &[u8], buffer: &mut [u8]) -> u32
    ensures value { result ≡ packed_verdict (normal_verdict image.now buffer.old) }
    ensures buffer_after { buffer.new ≡ normal_written image.now buffer.old }
{
    packed(Verdict::of(normal(image, buffer)), 0)
}

fn normal(image: &[u8], buffer: &mut [u8]) -> Result<(), Refusal>
    ensures value { verdict_of result ≡ normal_verdict image.now buffer.old }
    ensures buffer_after { buffer.new ≡ normal_written image.now buffer.old }
{
    let settings = reading::read(image)?;
    writing::write(settings, buffer)
}

// The start's bytes into the eight that are lent, whatever stood there.
pub fn wrackbasket_start(state: &mut [u8]) -> u32
    ensures value { result ≡ packed_verdict (start_verdict state.old) }
    ensures state_after { state.new ≡ start_written state.old }
{
    packed(Verdict::of(state_calls::start(state)), 0)
}

// One tick of the engine on a table, from the state in the eight bytes, which take the next state.
pub fn wrackbasket_tick_table(table: &[u8], state: &mut [u8], word: u16) -> u64
    ensures value { result ≡ packed_tick (ticked_on table_form table.now state.old word) }
    ensures state_after { state.new ≡ state_after (ticked_on table_form table.now state.old word) state.old }
{
    tick::<Table>(table, state, word)
}

// One tick of the engine on a sheet, from the state in the eight bytes, which take the next state.
pub fn wrackbasket_tick_sheet(sheet: &[u8], state: &mut [u8], word: u16) -> u64
    ensures value { result ≡ packed_tick (ticked_on sheet_form sheet.now state.old word) }
    ensures state_after { state.new ≡ state_after (ticked_on sheet_form sheet.now state.old word) state.old }
{
    tick::<Sheet>(sheet, state, word)
}

fn tick<F: Form>(bytes: &[u8], state: &mut [u8], word: u16) -> u64
    ensures value { result ≡ packed_tick (ticked_on F.form bytes.now state.old word) }
    ensures state_after { state.new ≡ state_after (ticked_on F.form bytes.now state.old word) state.old }
{
    let answer = state_calls::tick::<F>(bytes, state, word);
    packed_tick(Ticked::of(answer, state_from(state)))
}

// What shows on a table at the state in the eight bytes.
pub fn wrackbasket_show_table(table: &[u8], state: &[u8]) -> u64
    ensures { result ≡ packed_tick (shown_on table_form table.now state.now) }
{
    show::<Table>(table, state)
}

// What shows on a sheet at the state in the eight bytes.
pub fn wrackbasket_show_sheet(sheet: &[u8], state: &[u8]) -> u64
    ensures { result ≡ packed_tick (shown_on sheet_form sheet.now state.now) }
{
    show::<Sheet>(sheet, state)
}

fn show<F: Form>(bytes: &[u8], state: &[u8]) -> u64
    ensures { result ≡ packed_tick (shown_on F.form bytes.now state.now) }
{
    let answer = state_calls::show::<F>(bytes, state);
    packed_tick(Ticked::of(answer, state_from(state)))
}

// The detectors under an image's settings, from the start over a recording of whole engine ticks: the
// words of the last.
pub fn wrackbasket_detect(image: &[u8], recording: &[u8]) -> u64
    ensures { result ≡ packed_words (recorded image.now recording.now) }
{
    packed_words(Detected::from(recordings::recorded(image, recording)))
}
