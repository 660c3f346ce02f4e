// The reference program of predecessors: each way back square by square, as the definitions go, and the setup before each made anew.
ghost use Rattle.std.specs.Prelude.{◌≡◌, ◌<◌, ℕ, IfOk, MatchOption, OnOk};
ghost use Rattle.dob_pieces.specs.declared.profile.Profile.TheVariants.{A};
ghost use Rattle.dob_pieces.specs.declared.setup.Setup.{Setup};
ghost use Rattle.dob_moves.specs.declared.position_status.Status.TheVariants.{Open};
ghost use Rattle.dob_moves.specs.Statuses.{HasStatus};
ghost use Rattle.dob_rank.specs.Families.{IsPositionOf};
ghost use Rattle.dob_rank.specs.Families.{classes_of};
ghost use Rattle.dob_unmove.specs.declared.undo.RetroMove.{RetroMove};
ghost use Rattle.dob_unmove.specs.Undoes.{earlier};
ghost use Rattle.dob_unmove.specs.Unmoves.{CountEdges, ArePredecessors};
ghost use Rattle.dob_unmove.specs.Edges.{predecessors};
ghost use Rattle.dob_unmove.specs.Classes.{IsSeenTurned, RepresentsClass};
ghost use Rattle.dob_unmove.specs.Gathers.{AddsClasses, Appends};
ghost use Rattle.dob_unmove.specs.Threats.{IsThreat};

use crate::earlier::position_before;
use crate::walk::{Taker, take_all};
use dob_classes::Classes;
use dob_pieces::{Board, Memory, Position, Setup};
use dob_unmove::{RetroMove, Threat};

// What finds classes: their numbering, the threat to the enemy lion in the setup from which ways back are taken, and whether the representative whose setup
// that is after the moves is its own mirror image: then mirror images of what stood before don't count.
#[derive(Drop)]
struct Finder<'a> {
    classes: &'a Classes,
    threat: Threat,
    is_own_image: bool,
}

impl Taker for Finder<'_> {
    ghost suits = { λ after finder. IsSeenTurned (IsPositionOf finder.classes.now.family) after × IsThreat after finder.threat };

    ghost takes = { λ after finder old undo new.
        AddsClasses finder.is_own_image (RepresentsClass finder.classes.now.family) (earlier after undo) old new };

    fn take(&self, after: &Setup, undo: RetroMove, found: &mut Vec<u64>) -> Result<(), Memory> {
        match position_before(self.classes.family, after, &self.threat, undo) {
            None => Ok(()),
            Some(position) => self.push_classes(&position, found),
        }
    }
}

impl Finder<'_> {
    // Appends the class of the open position, if it is the representative, and that of which its mirror image is, if images count.
    fn push_classes(&self, position: &Position, found: &mut Vec<u64>) -> Result<(), Memory>
        requires { IsPositionOf self.now.classes.now.family position.now.setup }
        ensures { OnOk result (HasStatus A position.now.setup Open
            → AddsClasses self.now.is_own_image (RepresentsClass self.now.classes.now.family) position.now.setup found.old.items found.new.items) }
    {
        push_representative(self.classes, position, found)?;
        if self.is_own_image {
            return Ok(());
        }
        push_representative(self.classes, &position.mirrored(), found)
    }
}

// Appends the class whose representative the position of the family is, if it is one.
fn push_representative(
    classes: &Classes,
    position: &Position,
    found: &mut Vec<u64>,
) -> Result<(), Memory>
    requires { IsPositionOf classes.now.family position.now.setup }
    ensures { OnOk result (Appends (RepresentsClass classes.now.family) position.now.setup found.old.items found.new.items) }
{
    if let Some(class) = class_if_representative(classes, position) {
        found.push(class)?;
    }
    Ok(())
}

// The class whose representative the position of the family is; `None` if it is none.
fn class_if_representative(classes: &Classes, position: &Position) -> Option<u64>
    requires { IsPositionOf classes.now.family position.now.setup }
    ensures { MatchOption result (¬ ((class : ℕ) × RepresentsClass classes.now.family position.now.setup class)) (RepresentsClass classes.now.family position.now.setup) }
{
    classes.class_if_representative(&Board::of(&position.setup))
}

// The classes from which moves lead to the representative of a class or to its mirror image, in the order of the walk, in
// the room of that list.
fn gather(room: Vec<u64>, classes: &Classes, representative: &Position) -> Result<Vec<u64>, Memory>
    requires { (class : ℕ) × RepresentsClass classes.now.family representative.now.setup class }
    ensures { IfOk result (λ list. CountEdges A (RepresentsClass classes.now.family) representative.now.setup list.items) }
{
    let mut found = room;
    found.clear();
    let after = representative.turned();
    let board = Board::of(&after);
    let image = representative.mirrored();
    let finder = Finder {
        classes,
        threat: Threat::of(&board),
        is_own_image: class_if_representative(classes, &image).is_some(),
    };
    take_all(&finder, &after, &mut found)?;
    Ok(found)
}

/// The classes from which moves lead into the class, ascending, each as often as moves of its representative lead
/// there, in the room of a list; what it held is gone. Err if no memory was left for it to grow.
pub fn back_into(room: Vec<u64>, classes: &Classes, class: u64) -> Result<Vec<u64>, Memory>
    requires { class < classes_of classes.now.family }
    ensures counts { IfOk result (λ list. (q : Setup) → RepresentsClass classes.now.family q class → ArePredecessors classes.now.family.profile (RepresentsClass classes.now.family) q list.items) }
    ensures list { IfOk result (λ list. list.items ≡ predecessors classes.now.family class) }
{
    let mut numbers = gather(room, classes, &classes.class_at(class))?;
    numbers.sort_unstable();
    Ok(numbers)
}
