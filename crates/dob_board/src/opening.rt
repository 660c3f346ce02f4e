// How a board is opened.
ghost use Rattle.std.specs.Prelude.{◌≡◌, ◌≢◌, ℕ, suc, ◌+◌, ◌≤◌, ◌<◌, ◌↔◌, [], Err, Some, IfOk, map, slice_get, length, replicate, vec_len};
ghost use Rattle.std.specs.Arc.{arc_value};
ghost use Rattle.dob_safra.specs.Tokens.{IsPacked, first_token};
ghost use Rattle.dob_safra.specs.Laws.{IsSize};
ghost use Rattle.dob_board.specs.declared.fault.Fault.TheVariants as fault;
ghost use Rattle.dob_board.specs.Words.{word_count};
ghost use Rattle.dob_board.specs.Rule.{fresh};
ghost use Rattle.dob_board.specs.Boards.{first_words, unseated};
ghost use Rattle.dob_board.specs.Seats.{stand_of, IsSeatOf, AreSeats};

use crate::counts::Counts;
use crate::rule::FirstNode;
use crate::seat::Words;
use crate::view::{SeatState, View};
use crate::words::{NODES, TOKEN, word_count};
use crate::{Blackboard, Fault, Halt, NodeSeat};
use atomic_table::{Seat, Table};
use dob_safra::{NodeCount, Token, pack};
use std::alloc::{AllocError, Global};
use std::sync::Arc;

impl Blackboard {
    /// Opens a board of `nodes` nodes, with the seat of each in their order. At the start nothing is posted or taken, each
    /// node is black, and the black token is at node 0 with sum 0.
    ///
    /// # Errors
    ///
    /// E9 if the number isn't 1 to 16; E23 if no memory is left.
    pub fn open(alloc: Global, nodes: usize) -> Result<(Blackboard, Vec<NodeSeat>), Fault>
        ensures size { (result ≡ Err fault.Nodes) ↔ (¬ IsSize nodes) }
        ensures nodes { IfOk result (λ opened. opened.0.nodes ≡ nodes) }
        ensures seats { IfOk result (λ opened. AreSeats opened.0.rest.table_id nodes opened.1.items) }
        ensures fresh { IfOk result (λ opened. map stand_of opened.1.items ≡ replicate nodes (fresh nodes)) }
    {
        let Some(nodes) = NodeCount::new(nodes) else {
            return Err(Fault::Nodes);
        };
        let opened = Blackboard::open_for(alloc, nodes)?;
        Ok(opened)
    }

    /// Opens a board as above, of so many nodes.
    ///
    /// # Errors
    ///
    /// `AllocError` if memory runs out.
    pub fn open_for(
        alloc: Global,
        nodes: NodeCount,
    ) -> Result<(Blackboard, Vec<NodeSeat>), AllocError>
        ensures nodes { IfOk result (λ opened. opened.0.nodes ≡ nodes) }
        ensures seats { IfOk result (λ opened. AreSeats opened.0.rest.table_id nodes opened.1.items) }
        ensures fresh { IfOk result (λ opened. map stand_of opened.1.items ≡ replicate nodes (fresh nodes)) }
    {
        let words = start_words(alloc, nodes)?;
        let key = nodes.get();
        let (table, mut rest) = Table::of_words(alloc, &words, &key)?;
        let shared = Arc::new(alloc, table)?;
        let seats = all_seats(alloc, &shared, &mut rest, nodes)?;
        let board = Blackboard {
            shared,
            rest,
            words,
            nodes,
        };
        Ok((board, seats))
    }
}

fn start_words(alloc: Global, nodes: NodeCount) -> Result<Vec<u64>, AllocError>
    ensures { IfOk result (λ words. (word : ℕ) × IsPacked first_token word × (words.items ≡ first_words nodes word)) }
{
    let mut words = vec![in alloc; 0; word_count(nodes)]?;
    words[NODES] = nodes.get() as u64;
    words[TOKEN] = pack(Token::first());
    Ok(words)
}

// The seats of all nodes, which are split from the rest.
fn all_seats(
    alloc: Global,
    shared: &Arc<Words>,
    rest: &mut Seat<(), View>,
    nodes: NodeCount,
) -> Result<Vec<NodeSeat>, AllocError>
    requires board { (arc_value shared.now).shared.table_id.words ≡ word_count nodes }
    requires key { (arc_value shared.now).shared.key ≡ nodes }
    requires of_board { rest.old.table_id ≡ (arc_value shared.now).shared.table_id }
    requires rest { rest.old.me ≡ (unseated nodes 0, []) }
    ensures of_board { IfOk result (λ seats. rest.new.table_id ≡ rest.old.table_id) }
    ensures rest { IfOk result (λ seats. rest.new.me ≡ (unseated nodes nodes, [])) }
    ensures seats { IfOk result (λ seats. AreSeats rest.old.table_id nodes seats.items) }
    ensures fresh { IfOk result (λ seats. map stand_of seats.items ≡ replicate nodes (fresh nodes)) }
{
    let count = nodes.get();
    let mut seats = Vec::with_capacity(alloc, count)?;
    for node in 0..count {
        let seat = next_seat(alloc, shared, rest, node, nodes)?;
        seats.push(seat)?;
    }
    Ok(seats)
}

// The seat of the first node of the rest.
fn next_seat(
    alloc: Global,
    shared: &Arc<Words>,
    rest: &mut Seat<(), View>,
    node: usize,
    nodes: NodeCount,
) -> Result<NodeSeat, AllocError>
    requires within { node < nodes }
    requires board { (arc_value shared.now).shared.table_id.words ≡ word_count nodes }
    requires key { (arc_value shared.now).shared.key ≡ nodes }
    requires of_board { rest.old.table_id ≡ (arc_value shared.now).shared.table_id }
    requires rest { rest.old.me ≡ (unseated nodes node, []) }
    ensures of_board { IfOk result (λ seat. rest.new.table_id ≡ rest.old.table_id) }
    ensures rest { IfOk result (λ seat. rest.new.me ≡ (unseated nodes (suc node), [])) }
    ensures seat { IfOk result (IsSeatOf rest.old.table_id nodes node) }
    ensures fresh { IfOk result (λ seat. seat.stand ≡ fresh nodes) }
{
    let board = Arc::try_clone(shared)?;
    let count = nodes.get();
    let posted = Counts::zeros(alloc, count)?;
    let taken = Counts::zeros(alloc, count)?;
    let seen = Counts::zeros(alloc, count)?;
    let stand = SeatState {
        posted,
        taken,
        seen,
        black: true,
        token: None,
        halt: Halt::Running,
    };
    let seat = shared.shared.split_seat::<FirstNode>(rest);
    Ok(NodeSeat {
        board,
        seat,
        node,
        nodes,
        stand,
    })
}
