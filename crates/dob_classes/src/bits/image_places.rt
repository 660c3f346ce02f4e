// Where the mirror image of a position stands in its run, by the board that shows it.
ghost use Rattle.std.specs.Prelude.{◌≡◌, ◌<◌, ◌+◌, ◌*◌};
ghost use Rattle.dob_classes.specs.RunShapes.{IsShape};
ghost use Rattle.dob_pieces.specs.Setups.{mirrored};
ghost use Rattle.dob_pieces.specs.declared.setup.Setup.{Setup};
ghost use Rattle.dob_rank.specs.Numbers.{product, block_bases, HasBlock};
ghost use Rattle.dob_rank.specs.Runs.{runs_in, run_size, local_of};

use crate::bits::bit_placing::bits_by;
use crate::run_shapes::RunShape;
use dob_pieces::{PieceSet, Side};
use dob_rank::block;
use dob_rank::placing::places_by;
use dob_rank::runs::Spot;
use dob_rank::set_ranks::{hands_of, spot_by};

/// The place in its run of the mirror image of the position at that spot of the block, by the shape of the spot's run.
pub(crate) fn image_place(set: PieceSet, block: u64, spot: Spot, shape: &RunShape) -> u64
    requires block { block < product (block_bases set) }
    requires run { spot.run < runs_in set block }
    requires local { spot.local < run_size set block }
    requires shape { IsShape set block spot.run shape.now }
    ensures { (setup : Setup) × (HasBlock set block (spot.run * run_size set block + spot.local) setup × (result ≡ local_of (mirrored setup))) }
{
    // The shape is that of a run of the block, which the contract alone names.
    let _ = block;
    let on_board = shape.on_board;
    let digits = block::digits_with(set, &on_board, &shape.choices, shape.digits, spot);
    let places = places_by(&on_board, &[digits[5], digits[6], digits[7]]);
    let hands = hands_of(set, &on_board, &digits);
    let board = bits_by(Side::Mover, &on_board, &digits, &places, hands);
    spot_by(set, &board.mirrored()).1.local
}
