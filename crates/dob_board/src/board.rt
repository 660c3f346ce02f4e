// A board, from its opening to its close.
ghost use Rattle.std.specs.Prelude.{◌≡◌, ◌≤◌, ◌<◌, [], vec_len, slice_index};
ghost use Rattle.std.specs.Arc.{arc_value};
ghost use Rattle.dob_board.specs.Words.{word_count, halt_word};
ghost use Rattle.dob_board.specs.Boards.{unseated, AreAsWitnessed};
ghost use Rattle.dob_board.specs.Props.{AreAsWitnessed-prop};
ghost use Rattle.dob_safra.specs.Tokens.{most_nodes};

use crate::Halt;
use crate::seat::Words;
use crate::view::View;
use crate::words::{HALT, halt_of};
use atomic_table::Seat;
use dob_safra::NodeCount;
use std::sync::Arc;

/// A blackboard: the words that the seats of its nodes share.
#[derive(Drop)]
pub struct Blackboard {
    pub(crate) shared: Arc<Words>,
    // The seat from which the seats of the nodes were split, and into which they are joined again.
    pub(crate) rest: Seat<(), View>,
    // The words as they were at the start, and room for them as they are at the end.
    pub(crate) words: Vec<u64>,
    /// How many nodes the board has.
    pub nodes: NodeCount,
    pub ghost some: { 0 < nodes },
    pub ghost few: { nodes ≤ most_nodes },
    pub ghost of_board: { rest.table_id ≡ (arc_value shared).shared.table_id },
    pub ghost words_are: { (arc_value shared).shared.table_id.words ≡ word_count nodes },
    pub ghost key: { (arc_value shared).shared.key ≡ nodes },
    pub ghost room: { vec_len words ≡ word_count nodes },
    pub ghost rest_is: { rest.me ≡ (unseated nodes nodes, []) },
}

/// The words of a board that is closed. Only `close` makes one.
#[derive(Drop)]
pub struct Closed {
    /// The number of nodes, the token, the halt, how many batches each node posted to each, and how many of those were
    /// taken.
    pub words: Vec<u64>,
    // The seat that stands for all nodes. It takes no room, and knows all that happened.
    pub(crate) rest: Seat<(), View>,
    pub ghost witnessed: { AreAsWitnessed rest.me.0 words.items } by { AreAsWitnessed-prop _ _ },
}

impl Closed {
    /// What the word of the halt says: whether the run went on, ended or failed.
    pub fn halt(&self) -> Halt
        ensures { halt_word result ≡ slice_index self.now.words.items 2 }
    {
        halt_of(self.words[HALT])
    }
}
