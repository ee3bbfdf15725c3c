// The exports for C: each call of `capi` under its name, with its clauses. C links them as libcapi.a;
// `include/wrackbasket.h` declares them.
#![tactic(auto)]

ghost use Rattle.std.specs.Prelude.{◌≡◌};
ghost use Rattle.engine.specs.Engine.{sheet_form, table_form};
ghost use Rattle.translator.specs.Translation.{translation, translated};
ghost use Rattle.state_calls.specs.StateCalls.{start_verdict, start_written, ticked_on, shown_on, state_after};
ghost use Rattle.recordings.specs.Recordings.{recorded};
ghost use Rattle.packing.specs.Packed.{packed_translation, packed_verdict, packed_tick, packed_words};
ghost use Rattle.capi.specs.Calls.{normal_verdict, normal_written};

// Translates a sheet into the lent table.
#[unsafe(no_mangle)]
pub extern "C" fn wrackbasket_translate(sheet: &[u8], table: &mut [u8]) -> u32
    ensures value { result ≡ packed_translation (translation sheet.now table.old) }
    ensures table_after { table.new ≡ translated sheet.now table.old }
{
    capi::wrackbasket_translate(sheet, table)
}

// Writes the normal bytes of an image into the lent buffer of eighty bytes.
#[unsafe(no_mangle)]
pub extern "C" fn wrackbasket_normal(image: &[u8], buffer: &mut [u8]) -> u32
    ensures value { result ≡ packed_verdict (normal_verdict image.now buffer.old) }
    ensures buffer_after { buffer.new ≡ normal_written image.now buffer.old }
{
    capi::wrackbasket_normal(image, buffer)
}

// The start's bytes into the eight that are lent, whatever stood there.
#[unsafe(no_mangle)]
pub extern "C" fn wrackbasket_start(state: &mut [u8]) -> u32
    ensures value { result ≡ packed_verdict (start_verdict state.old) }
    ensures state_after { state.new ≡ start_written state.old }
{
    capi::wrackbasket_start(state)
}

// One tick of the engine on a table, from the state in the eight bytes, which take the next state.
#[unsafe(no_mangle)]
pub extern "C" fn wrackbasket_tick_table(table: &[u8], state: &mut [u8], word: u16) -> u64
    ensures value { result ≡ packed_tick (ticked_on table_form table.now state.old word) }
    ensures state_after { state.new ≡ state_after (ticked_on table_form table.now state.old word) state.old }
{
    capi::wrackbasket_tick_table(table, state, word)
}

// One tick of the engine on a sheet, from the state in the eight bytes, which take the next state.
#[unsafe(no_mangle)]
pub extern "C" fn wrackbasket_tick_sheet(sheet: &[u8], state: &mut [u8], word: u16) -> u64
    ensures value { result ≡ packed_tick (ticked_on sheet_form sheet.now state.old word) }
    ensures state_after { state.new ≡ state_after (ticked_on sheet_form sheet.now state.old word) state.old }
{
    capi::wrackbasket_tick_sheet(sheet, state, word)
}

// What shows on a table at the state in the eight bytes.
#[unsafe(no_mangle)]
pub extern "C" fn wrackbasket_show_table(table: &[u8], state: &[u8]) -> u64
    ensures { result ≡ packed_tick (shown_on table_form table.now state.now) }
{
    capi::wrackbasket_show_table(table, state)
}

// What shows on a sheet at the state in the eight bytes.
#[unsafe(no_mangle)]
pub extern "C" fn wrackbasket_show_sheet(sheet: &[u8], state: &[u8]) -> u64
    ensures { result ≡ packed_tick (shown_on sheet_form sheet.now state.now) }
{
    capi::wrackbasket_show_sheet(sheet, state)
}

// The detectors under an image's settings, from the start over a recording of whole engine ticks: the
// words of the last.
#[unsafe(no_mangle)]
pub extern "C" fn wrackbasket_detect(image: &[u8], recording: &[u8]) -> u64
    ensures { result ≡ packed_words (recorded image.now recording.now) }
{
    capi::wrackbasket_detect(image, recording)
}
