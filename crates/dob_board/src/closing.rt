// How a board is closed.
ghost use Rattle.std.specs.Prelude.{◌≡◌, suc, [], Some, map, length, slice_get, vec_len};
ghost use Rattle.std.specs.Arc.{arc_value};
ghost use Rattle.dob_board.specs.Words.{word_count};
ghost use Rattle.dob_board.specs.Boards.{unseated, gathered, joined, closed_view, AreRead};
ghost use Rattle.dob_board.specs.Histories.{IsLaterLog};
ghost use Rattle.dob_board.specs.Seats.{stand_of, witnessed_by, IsSeatOf, AreSeats, AreWords, IsBoardHistory};

use crate::rule::{Back, Reads};
use crate::seat::Words;
use crate::view::View;
use crate::{Blackboard, Closed, NodeSeat};
use atomic_table::Seat;
use dob_safra::NodeCount;
use std::sync::Arc;

impl Blackboard {
    /// The words, once the seats of all nodes are back. They are exactly what the seats counted, and what the events of the board
    /// made of the token and the halt.
    pub fn close(self, seats: Vec<NodeSeat>) -> Closed
        requires { AreSeats self.rest.table_id self.nodes seats.items }
        ensures words { AreWords self.nodes seats.items result.words.items }
        ensures history { IsBoardHistory self.nodes seats.items result }
    {
        let Blackboard {
            shared,
            mut rest,
            words,
            nodes,
        } = self;
        join_all(&shared, &mut rest, seats, nodes);
        let words = read_all(&shared, &mut rest, words, nodes);
        Closed { words, rest }
    }
}

// Joins the seats of all nodes into the rest.
fn join_all(
    shared: &Arc<Words>,
    rest: &mut Seat<(), View>,
    mut seats: Vec<NodeSeat>,
    nodes: NodeCount,
)
    requires board { (arc_value shared.now).shared.table_id.words ≡ word_count nodes }
    requires key { (arc_value shared.now).shared.key ≡ nodes }
    requires of_board { rest.old.table_id ≡ (arc_value shared.now).shared.table_id }
    requires seats { AreSeats rest.old.table_id nodes seats.items }
    requires rest { rest.old.me ≡ (unseated nodes nodes, []) }
    ensures of_board { rest.new.table_id ≡ rest.old.table_id }
    ensures rest { rest.new.me ≡ (gathered nodes (map stand_of seats.items) rest.new.me.0.witnessed rest.new.me.0.own, []) }
    ensures witnessed { (seat : NodeSeat) → slice_get seats.items 0 ≡ Some seat → rest.new.me.0.witnessed ≡ witnessed_by seat }
{
    while let Some(seat) = seats.pop() {
        join_last(shared, rest, seat, nodes);
    }
}

// Joins the seat of the node before the rest.
fn join_last(shared: &Arc<Words>, rest: &mut Seat<(), View>, seat: NodeSeat, nodes: NodeCount)
    requires board { (arc_value shared.now).shared.table_id.words ≡ word_count nodes }
    requires key { (arc_value shared.now).shared.key ≡ nodes }
    requires of_board { rest.old.table_id ≡ (arc_value shared.now).shared.table_id }
    requires seat_of_board { seat.seat.table_id ≡ rest.old.table_id }
    requires nodes { seat.nodes ≡ nodes }
    requires before { rest.old.me.0.from ≡ suc seat.node }
    requires no_slot { rest.old.me.1 ≡ [] }
    ensures of_board { rest.new.table_id ≡ rest.old.table_id }
    ensures rest { rest.new.me ≡ (joined rest.old.me.0 seat.seat.me.0, []) }
{
    let NodeSeat { seat, .. } = seat;
    shared.shared.join_seat::<Back>(rest, seat);
}

// Reads all words by the seat that stands for all nodes, which is closed by that.
fn read_all(
    shared: &Arc<Words>,
    rest: &mut Seat<(), View>,
    mut words: Vec<u64>,
    nodes: NodeCount,
) -> Vec<u64>
    requires board { (arc_value shared.now).shared.table_id.words ≡ word_count nodes }
    requires key { (arc_value shared.now).shared.key ≡ nodes }
    requires of_board { rest.old.table_id ≡ (arc_value shared.now).shared.table_id }
    requires size { rest.old.me.0.size ≡ nodes }
    requires from { rest.old.me.0.from ≡ 0 }
    requires no_slot { rest.old.me.1 ≡ [] }
    requires all { length rest.old.me.0.stands ≡ nodes }
    requires room { vec_len words ≡ word_count nodes }
    ensures rest { rest.new.me ≡ (closed_view nodes rest.old.me.0.stands rest.new.me.0.witnessed, []) }
    ensures witnessed { IsLaterLog rest.old.me.0.witnessed rest.new.me.0.witnessed }
    ensures read { AreRead nodes rest.old.me.0.stands rest.new.me.0.witnessed result.items }
{
    for word in 0..words.len() {
        words[word] = shared.shared.load::<Reads>(rest, word);
    }
    words
}
