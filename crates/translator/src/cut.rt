// The cells that a step is cut into.
ghost use Rattle.std.specs.Prelude.{◌+◌, ◌<◌, ◌≤◌, cond, ◌≡◌};
ghost use Rattle.translator.specs.Translation.{cut_at, cells_of};
ghost use Rattle.translator.specs.Cuts.{before};
ghost use Rattle.steps.specs.Steps.{step_count};

use crate::Accepted;
use crate::cells::first_cell;
use machine::Node;
use sheets::node_at;

impl Accepted<'_> {
    // Cell j, the last, of step i: the rest of the timeout, and the step's own jumps.
    #[tactic(auto, using(crate::proofs::CutLeads::decoded), unfolding(crate::specs::Translation::cut_at, crate::specs::Translation::last_cut, sheets::specs::Sheets::node_at))]
    pub(crate) fn last_cut(&self, i: u8, j: u16) -> Node
        requires i_bound { i < step_count self.now.sheet.now }
        requires j_value { j + 1 ≡ cells_of self.now.sheet.now i }
        ensures { result ≡ cut_at self.now.sheet.now i j }
    {
        let step = node_at(self.sheet, i);
        let timeout = step.timeout - 4000 * j;
        let faultto = first_cell(self.sheet, step.faultto) as u8;
        let sequenceto = first_cell(self.sheet, step.sequenceto) as u8;
        let timeoutto = first_cell(self.sheet, step.timeoutto) as u8;
        Node {
            faultto,
            sequenceto,
            timeout,
            timeoutto,
            ..step
        }
    }
}

// The last cell itself, or one before it: that waits 4000 ticks and goes to the following cell.
pub(crate) fn cut(last: Node, following: u8, is_last: bool) -> Node
    ensures { result ≡ cond is_last last (before last following) }
{
    if is_last {
        last
    } else {
        Node {
            timeout: 4000,
            timeoutto: following,
            ..last
        }
    }
}
