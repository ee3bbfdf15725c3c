// The board: its detectors, the engine on its table, and its pins.
use detectors::{Bank, Words};
use engine::{Shown, Table};
use image::Settings;
use machine::State;
use records::Refusal;

// Under its settings and on its table: the bank and the engine's state after an engine tick, with what the
// detectors, the engine and the pins show.
#[derive(Clone, Copy)]
pub(crate) struct Board<'a> {
    settings: Settings,
    table: &'a [u8],
    bank: Bank,
    state: State,
    pub words: Words,
    pub shown: Shown,
    pub pins: u16,
}

impl<'a> Board<'a> {
    // Before the first tick: what shows at the engine's start, with no fault and no warning.
    pub(crate) fn start(settings: Settings, table: &'a [u8]) -> Result<Board<'a>, Refusal> {
        let state = engine::start();
        let shown = engine::show::<Table>(table, state)?;
        Ok(Board {
            settings,
            table,
            bank: detectors::start(),
            state,
            words: Words::default(),
            shown,
            pins: pins::pins(settings, shown.outputs)?,
        })
    }

    // After one more engine tick, whose faults the engine is given. The first refusal ends it, and nothing
    // is asked of those behind it.
    pub(crate) fn tick(self, frames: &[u8]) -> Result<Board<'a>, Refusal> {
        let detection = detectors::engine_tick(self.settings, self.bank, frames);
        let words = detection.words?;
        let mut state = self.state;
        let shown = engine::tick::<Table>(self.table, &mut state, words.faults)?;
        Ok(Board {
            bank: detection.bank,
            state,
            words,
            shown,
            pins: pins::pins(self.settings, shown.outputs)?,
            ..self
        })
    }
}
