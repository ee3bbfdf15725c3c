// The two forms: what the nodes are, and the tests before the state's own.
ghost use Rattle.std.specs.Prelude.{◌≡◌};
ghost use Rattle.engine.specs.Engine.{sheet_form, table_form};

use crate::{Form, Sheet, Table};
use machine::Node;
use records::{Number, Refusal, ensure};
use sheets::sheet_verdict;
use steps::step_count;
use tables::{cell_at, cell_standing};

impl Form for Sheet {
    ghost form = { sheet_form };

    // The sheet's tests, then the step's number.
    #[tactic(auto, using(records::proofs::ReturnLaws::tests), unfolding(crate::specs::Engine::standing))]
    fn standing(sheet: &[u8], k: u8) -> Result<Node, Refusal> {
        sheet_verdict(sheet)?;
        ensure(k < step_count(sheet), Number::Unreachable, 0)?;
        Ok(sheets::node_at(sheet, k))
    }

    fn node_at(sheet: &[u8], k: u8) -> Node {
        sheets::node_at(sheet, k)
    }
}

impl Form for Table {
    ghost form = { table_form };

    #[tactic(auto, unfolding(crate::specs::Engine::standing, tables::specs::Tables::cell_standing))]
    fn standing(table: &[u8], k: u8) -> Result<Node, Refusal> {
        let stood = cell_standing(table, k);
        stood.tested?;
        Ok(stood.node)
    }

    fn node_at(table: &[u8], k: u8) -> Node {
        cell_at(table, k)
    }
}
