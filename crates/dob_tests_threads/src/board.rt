// Boards of two nodes in one thread: each seat reads at once what the other one wrote. What a call does to its own seat, and that no end is announced
// while a batch is on its way, are clauses of `dob_board`; that no board of 0 or 17 nodes is opened is one too. Seats of several threads are those of builds.
use dob_board::{Blackboard, Halt, NodeSeat, NotPosted};
use dob_safra::Token;
use std::alloc::Global;
use std::process::Abort;

const BLACK: bool = true;

const WHITE: bool = false;

// The token at its start, and that of a probe that begins.
const START: Token = Token {
    at: 0,
    black: BLACK,
    sum: 0,
};

const PROBE: Token = Token {
    at: 1,
    black: WHITE,
    sum: 0,
};

// The seats of a new board.
fn two_seats(rt: &impl Abort, alloc: Global) -> (NodeSeat, NodeSeat) {
    let (_board, mut seats) = Blackboard::open(alloc, 2).expect(rt, "a board");
    let second = seats.pop().expect(rt, "the second seat");
    let first = seats.pop().expect(rt, "the first seat");
    (first, second)
}

// Posts a batch to that other node, if the seat may.
fn post(seat: &mut NodeSeat, to: usize) {
    if to < seat.nodes.get()
        && to != seat.node
        && seat.stand.black
        && seat.stand.posted.get(to) < 1 << 40
    {
        seat.post(to);
    }
}

// Whether the seat sees that the other node has posted one batch, takes it, and no other one.
fn takes_one(seat: &mut NodeSeat, from: usize) -> bool {
    if from >= seat.nodes.get() || from == seat.node || seat.look(from) != 1 {
        return false;
    }
    seat.take(from).is_ok() && seat.take(from) == Err(NotPosted { seen: 1 })
}

// Announces the end, if the seat may.
fn announce(seat: &mut NodeSeat) -> Halt {
    if seat.may_announce() {
        seat.announce()
    } else {
        seat.halted()
    }
}

// Passes the token, if the seat knows it at itself. Whether the other one then sees that token.
fn hands_over(seat: &mut NodeSeat, other: &mut NodeSeat, passed: Token) -> bool {
    if seat.stand.token.is_none() {
        return false;
    }
    seat.pass();
    other.token() == passed
}

// The token goes round the ring: the second seat sees the new probe, and the first one the token of that colour and that sum.
fn goes_round(first: &mut NodeSeat, second: &mut NodeSeat, black: bool, sum: i64) -> bool {
    hands_over(first, second, PROBE) && hands_over(second, first, Token { at: 0, black, sum })
}

// One seat reads what the other wrote: counts, the token on two rounds of the ring, and the end, which a failure doesn't change.
fn reads_back(first: &mut NodeSeat, second: &mut NodeSeat) -> bool {
    post(first, 1);
    takes_one(second, 0)
        && first.token() == START
        && second.token() == START
        && goes_round(first, second, BLACK, -1)
        && announce(first) == Halt::Running
        && goes_round(first, second, WHITE, -1)
        && announce(first) == Halt::Ended
        && second.halted() == Halt::Ended
        && second.fail() == Halt::Ended
}

#[test]
fn board_reads_back(rt: HostRuntime) {
    let (mut first, mut second) = two_seats(&rt, rt.alloc());
    assert!(rt; reads_back(&mut first, &mut second));
}

// A batch of the second node is on its way while both are white and the token is back with its sum: that isn't the end, nor is it when the first node
// has taken the batch and is black, but one round later.
fn ends_late(first: &mut NodeSeat, second: &mut NodeSeat) -> bool {
    post(second, 0);
    first.token() == START
        && goes_round(first, second, BLACK, 1)
        && announce(first) == Halt::Running
        && goes_round(first, second, WHITE, 1)
        && announce(first) == Halt::Running
        && takes_one(first, 1)
        && announce(first) == Halt::Running
        && goes_round(first, second, WHITE, 1)
        && announce(first) == Halt::Ended
}

#[test]
fn a_batch_on_its_way_is_no_end(rt: HostRuntime) {
    let (mut first, mut second) = two_seats(&rt, rt.alloc());
    assert!(rt; ends_late(&mut first, &mut second));
}

// The first of two failures is what both seats see.
fn stay_failed(first: &mut NodeSeat, second: &mut NodeSeat) -> bool {
    let failed = Halt::Failed(1);
    second.fail() == failed && first.fail() == failed && first.halted() == failed
}

#[test]
fn halts_stay(rt: HostRuntime) {
    let (mut first, mut second) = two_seats(&rt, rt.alloc());
    assert!(rt; stay_failed(&mut first, &mut second));
}

// The token as the only node hands it to itself.
const BACK: Token = Token {
    at: 0,
    black: WHITE,
    sum: 0,
};

// The only node of a ring hands the token to itself, white with its sum, and only then announces the end.
fn ends_alone(seat: &mut NodeSeat) -> bool {
    if seat.token() != START || announce(seat) != Halt::Running || seat.stand.token.is_none() {
        return false;
    }
    seat.pass();
    seat.token() == BACK && announce(seat) == Halt::Ended
}

#[test]
fn one_seat_is_a_ring(rt: HostRuntime) {
    let (_board, mut seats) = Blackboard::open(rt.alloc(), 1).expect(&rt, "a board");
    let mut seat = seats.pop().expect(&rt, "the seat");
    assert!(rt; ends_alone(&mut seat));
}
