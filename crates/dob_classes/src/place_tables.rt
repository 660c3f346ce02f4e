// The places of all choices of squares in a block, in a table.
ghost use Rattle.std.specs.Prelude.{◌≡◌, IfOk};
ghost use Rattle.dob_rank.specs.Placing.{AreAllPlaces};
ghost use Rattle.dob_rank.specs.Runs.{AreFewOnBoard, square_bases};

use dob_pieces::Memory;
use dob_rank::block::PerKind;
use dob_rank::placing::{Places, places_by};
use dob_rank::radix;
use std::alloc::Global;

/// The places of each choice of the squares of all kinds, by its number.
pub(crate) fn all_places(
    alloc: Global,
    on_board: &PerKind,
    choices: &PerKind,
) -> Result<Vec<Places>, Memory>
    requires few { AreFewOnBoard on_board.now }
    requires choices { choices.now ≡ square_bases on_board.now }
    ensures { IfOk result (λ table. AreAllPlaces on_board.now table.items) }
{
    let mut table = Vec::new(alloc);
    for number in 0..radix::product(choices) {
        let places = places_by(on_board, &radix::three_digits(choices, number));
        table.push(places)?;
    }
    Ok(table)
}
