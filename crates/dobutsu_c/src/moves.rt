// The moves of a position with their values by the bytes of a database's file, best first.
ghost use Rattle.std.specs.Prelude.{◌≡◌, ◌≢◌};
ghost use Rattle.dobutsu_c.specs.Moves.{AreExactMoves, AreWritten, shown_move};

use crate::moves_by::answer_moves;
use crate::numbering::Numbering;
use crate::value::{DobutsuValue, shown};
use dob_foreign::shown_step;
use dob_moves::Move;
use dob_probe::ValuedMove;
use std::alloc::Global;

/// A move with the value that the side that makes it then has: a step of a piece of that kind from one square to another, or
/// where it comes from 12 a drop. Chick 0, elephant 1, giraffe 2, hen 3, lion 4, as the piece was before; square a1 is 0, b1
/// 1, c1 2, a2 3 and so on to c4, 11. `catches` is 1 if a piece is caught and `grows` if a chick becomes a hen, else 0.
#[repr(C)]
#[derive(Clone, Copy)]
pub struct DobutsuMove {
    pub kind: u32,
    pub from: u32,
    pub to: u32,
    pub catches: u32,
    pub grows: u32,
    pub value: DobutsuValue,
}

/// The moves of the position whose text that is, each with the value that the bytes of a database's file give it, best first:
/// wins by the least distance, draws, losses by the greatest; equal ones in the move order. Where the enemy lion can be caught
/// there is its first catch alone, and none if the position is lost already. It answers 0, writes how many there are into
/// `count` and the first of them into `moves`, as many as there is room for: 38 is a hint for how much that is, which rests on no
/// proof, and `count` says whether it was enough. By a file of the value table the values are the moves' own. Else
/// it answers the number of a fault and writes nothing: the first of those of `dobutsu_probe` that holds, or 23 if memory
/// runs out: it takes some thousand bytes and gives all back.
#[unsafe(no_mangle)]
#[tactic(auto, using(crate::proofs::Indexed::all_counted))]
pub extern "C" fn dobutsu_moves(
    alloc: Global,
    file: &[u8],
    text: &[u8],
    moves: &mut [DobutsuMove],
    count: &mut u64,
) -> u32
    ensures exact { AreExactMoves file.now text.now moves.old moves.new count.new result }
    ensures unchanged { result ≢ 0 → (moves.new ≡ moves.old) × (count.new ≡ count.old) }
{
    answer_moves(alloc, file, Numbering::Counted, text, moves, count)
}

/// Writes the first of the moves, as many as there are places.
pub(crate) fn write_moves(places: &mut [DobutsuMove], list: &[ValuedMove])
    ensures { AreWritten list.now places.old places.new }
{
    let count = list.len().min(places.len());
    for place in 0..count {
        let valued = list[place];
        places[place] = shown_move(valued.played, shown(valued.value));
    }
}

pub(crate) fn shown_move(played: Move, value: DobutsuValue) -> DobutsuMove
    ensures { result ≡ shown_move played value }
{
    let step = shown_step(played);
    DobutsuMove {
        kind: step.kind,
        from: step.from,
        to: step.to,
        catches: step.catches,
        grows: step.grows,
        value,
    }
}
