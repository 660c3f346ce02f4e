// Which word of a board is which, and what the halt's says.
ghost use Rattle.std.specs.Prelude.{◌≡◌, ◌≢◌, ◌<◌};
ghost use Rattle.dob_board.specs.declared.halt.Halt.TheVariants.{Running};
ghost use Rattle.dob_board.specs.Words.{posted_word, taken_word, word_count, halt_word, halt_after};

use crate::{Halt, NodeSeat};
use dob_safra::NodeCount;

// The word of the number of nodes.
pub(crate) const NODES: usize = 0;

// The word of the token.
pub(crate) const TOKEN: usize = 1;

// The word of the halt.
pub(crate) const HALT: usize = 2;

// The words before the counts.
const COUNTS: usize = 3;

// The halt where the run goes on.
pub(crate) const RUNNING: u64 = 0;

// The halt where its end was announced.
pub(crate) const ENDED: u64 = 1;

// The halt where node 0 failed it; those of the others come behind.
pub(crate) const FAILED: u64 = 2;

// How many words a board of `nodes` nodes has.
pub(crate) fn word_count(nodes: NodeCount) -> usize
    ensures { result ≡ word_count nodes }
{
    let nodes = nodes.get();
    COUNTS + 2 * nodes * nodes
}

impl NodeSeat {
    // The word of what node `from` posted to node `to` of the seat's board.
    pub(crate) fn posted_index(&self, from: usize, to: usize) -> usize
        requires from { from < self.now.nodes }
        requires to { to < self.now.nodes }
        ensures { result ≡ posted_word self.now.nodes from to }
    {
        let nodes = self.nodes.get();
        COUNTS + (from * nodes + to)
    }

    // The word of what node `to` took of node `from` of the seat's board.
    pub(crate) fn taken_index(&self, from: usize, to: usize) -> usize
        requires from { from < self.now.nodes }
        requires to { to < self.now.nodes }
        ensures { result ≡ taken_word self.now.nodes from to }
    {
        let nodes = self.nodes.get();
        COUNTS + (nodes * nodes + (from * nodes + to))
    }
}

pub(crate) fn halt_of(word: u64) -> Halt
    ensures { halt_word result ≡ word }
{
    match word {
        RUNNING => Halt::Running,
        ENDED => Halt::Ended,
        _ => Halt::Failed((word - FAILED) as usize),
    }
}

// The halt after it was found as it was and, if the run went on, exchanged for another.
pub(crate) fn halt_after(found: Halt, mark: Halt) -> Halt
    ensures halt { result ≡ halt_after found mark }
    ensures stopped { mark ≢ Running → result ≢ Running }
{
    match found {
        Halt::Running => mark,
        Halt::Ended => Halt::Ended,
        Halt::Failed(node) => Halt::Failed(node),
    }
}
