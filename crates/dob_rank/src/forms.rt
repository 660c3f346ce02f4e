// The forms of the pieces of a layer.
ghost use Rattle.std.specs.Prelude.{◌≡◌, ◌<◌, ◌≤◌};
ghost use Rattle.dob_rank.specs.Numbers.{order, base_of, cell_of};

use crate::layers::Layer;
use dob_pieces::{Kind, Piece, Side};

/// How many forms a piece of that layer has.
pub fn base_of(layer: Layer) -> u64
    ensures value { result ≡ base_of (order layer) }
    ensures low { 0 < result }
    ensures high { result ≤ 4 }
{
    match layer {
        Layer::Chicks => 4,
        Layer::Elephants | Layer::Giraffes => 2,
        Layer::OwnLion | Layer::EnemyLion | Layer::Empty => 1,
    }
}

pub(crate) fn cell_of(layer: Layer, form: u64) -> Option<Piece>
    ensures { result ≡ cell_of (order layer) form }
{
    let (side, kind) = match (layer, form) {
        (Layer::OwnLion, _) => (Side::Mover, Kind::Lion),
        (Layer::EnemyLion, _) => (Side::Enemy, Kind::Lion),
        (Layer::Chicks, 0) => (Side::Mover, Kind::Chick),
        (Layer::Chicks, 1) => (Side::Mover, Kind::Hen),
        (Layer::Chicks, 2) => (Side::Enemy, Kind::Chick),
        (Layer::Chicks, _) => (Side::Enemy, Kind::Hen),
        (Layer::Elephants, 0) => (Side::Mover, Kind::Elephant),
        (Layer::Elephants, _) => (Side::Enemy, Kind::Elephant),
        (Layer::Giraffes, 0) => (Side::Mover, Kind::Giraffe),
        (Layer::Giraffes, _) => (Side::Enemy, Kind::Giraffe),
        (Layer::Empty, _) => return None,
    };
    Some(Piece { side, kind })
}
