// The classes from which a class is reached: the walk over the ways back that the board leaves.
ghost use Rattle.std.specs.Prelude.{◌≡◌, ◌↔◌, true, false, ◌<◌, ◌∷◌, [], Some, IsTrue, IfOk, OnOk};
ghost use Rattle.dob_pieces.specs.declared.profile.Profile.TheVariants.{A};
ghost use Rattle.dob_pieces.specs.declared.setup.Setup.{Setup};
ghost use Rattle.dob_pieces.specs.Pieces.{kind_on_board};
ghost use Rattle.dob_pieces.specs.Setups.{at, piece_of, turned, mirrored, HasLionOffFarRow};
ghost use Rattle.dob_pieces.specs.declared.kind.Kind.{Kind};
ghost use Rattle.dob_pieces.specs.declared.kind.Side.TheVariants.{Mover};
ghost use Rattle.dob_pieces.specs.Boards.{IsBoardOf};
ghost use Rattle.dob_rank.specs.Families.{classes_of, class_setup};
ghost use Rattle.dob_unmove.specs.declared.undo.RetroMove.{RetroMove};
ghost use Rattle.dob_unmove.specs.Undoes.{arrives_at as arrival, CanUndo, earlier};
ghost use Rattle.dob_unmove.specs.Unmoves.{CountEdges, ArePredecessors};
ghost use Rattle.dob_unmove.specs.Edges.{predecessors};
ghost use Rattle.dob_unmove.specs.Classes.{RepresentsClass};
ghost use Rattle.dob_moves.specs.declared.position_status.Status.{Status};
ghost use Rattle.dob_moves.specs.Statuses.{HasStatus};
ghost use Rattle.dob_classes.specs.Views.{IsShown};
ghost use Rattle.dob_unmove.specs.Gathers.{AddsClasses, Appends};
ghost use Rattle.dob_unmove.specs.Threats.{stood_before};
ghost use Rattle.dob_unmove.specs.Walks.{stands, uncatch, unsteps_from, unsteps, unputs, undoes_at, undoes};
ghost use Rattle.dob_unmove.specs.Ways.{may_come, AreWays};
ghost use Rattle.dob_unmove.specs.Ends.{CanWalk, CanEnd, Collects, setup_after};

use crate::bits_before::bits_before;
use crate::earlier::may_give_back;
use crate::undo::RetroMove;
use crate::ways::{Ways, has_lions_on_b};
use dob_classes::Classes;
use dob_pieces::{Board, HandKind, Kind, Memory, Side, Square};
use std::alloc::Global;
use std::snapshot::Snapshot;

// A walk over the ways to take back the moves that led to the representative of the class. The side that made them is the mover in the
// ways, whose board shows all that a walk asks of the setup. The mirror images of what stood before led to the mirror image: their classes are found too.
#[derive(Drop)]
struct RetroMoves<'a> {
    classes: &'a Classes,
    // The class, which says of what the ways are.
    led_to: Snapshot<u64>,
    ways: &'a Ways,
    // Whether the representative is its own mirror image: then the walk comes to the mirror image of each position before it too.
    is_own_image: bool,
}

// A square on which the move may have ended.
#[derive(Clone, Copy)]
struct End<'a> {
    walk: &'a RetroMoves<'a>,
    to: Square,
}

impl RetroMoves<'_> {
    // Appends the classes of the open positions that stood before the setup.
    fn gather_all(&self, found: &mut Vec<u64>) -> Result<(), Memory>
        requires { CanWalk self.now }
        ensures { OnOk result (Collects self.now (undoes (setup_after self.now)) found.old.items found.new.items) }
    {
        for to in self.ways.ends {
            let end = End { walk: &*self, to };
            end.gather_all(found)?;
        }
        Ok(())
    }

    // Those of the position from which the move was made in that way, which was open. In profile B no chick is given back on row 1, where none stood.
    fn gather_one(&self, undo: RetroMove, found: &mut Vec<u64>) -> Result<(), Memory>
        requires walk { CanWalk self.now }
        requires can { CanUndo (setup_after self.now) undo }
        requires calm { stood_before self.now.ways.now.threat undo ≡ false }
        requires home { HasLionOffFarRow (earlier (setup_after self.now) undo) }
        ensures { OnOk result (Collects self.now (undo ∷ []) found.old.items found.new.items) }
    {
        if may_give_back(self.classes.family.profile, &undo) {
            let before = bits_before(self.ways.board, undo);
            self.gather_class(&before, found)
        } else {
            Ok(())
        }
    }

    // Appends the class of the position that the board shows, as often as it counts: once if the position is the class's representative, and once if its
    // mirror image is. Both are where they are the same, and then their lions stand on column b.
    fn gather_class(&self, before: &Board, found: &mut Vec<u64>) -> Result<(), Memory>
        requires { (p : Setup) × IsShown self.now.classes.now.family p before.now }
        ensures { OnOk result ((p : Setup) → IsShown self.now.classes.now.family p before.now → HasStatus A p Status.Open
            → AddsClasses self.now.is_own_image (RepresentsClass self.now.classes.now.family) p found.old.items found.new.items) }
    {
        if self.is_own_image {
            return push_representative(self.classes, before, found);
        }
        if has_lions_on_b(before) {
            push_representative(self.classes, before, found)?;
            return push_representative(self.classes, &before.mirrored(), found);
        }
        found.push(self.classes.class_by(before))?;
        Ok(())
    }
}

// Appends the class of the position that the board shows, if that is the class's representative.
fn push_representative(classes: &Classes, board: &Board, found: &mut Vec<u64>) -> Result<(), Memory>
    requires { (p : Setup) × IsShown classes.now.family p board.now }
    ensures { OnOk result ((p : Setup) → IsShown classes.now.family p board.now → Appends (RepresentsClass classes.now.family) p found.old.items found.new.items) }
{
    if let Some(class) = classes.class_if_representative(board) {
        found.push(class)?;
    }
    Ok(())
}

impl End<'_> {
    // Appends the classes of those from which the move ended on the square.
    fn gather_all(&self, found: &mut Vec<u64>) -> Result<(), Memory>
        requires { CanEnd self.now }
        ensures { OnOk result (Collects self.now.walk.now (undoes_at (setup_after self.now.walk.now) self.now.to) found.old.items found.new.items) }
    {
        self.gather_kind(self.walk.ways.board.own_kind(self.to), found)
    }

    // Those from which the mover's piece of that kind came to the square, on which it stands.
    fn gather_kind(&self, kind: Kind, found: &mut Vec<u64>) -> Result<(), Memory>
        requires end { CanEnd self.now }
        requires stands { at (setup_after self.now.walk.now) self.now.to ≡ Some (piece_of Mover kind) }
        ensures { OnOk result (Collects self.now.walk.now (undoes_at (setup_after self.now.walk.now) self.now.to) found.old.items found.new.items) }
    {
        match kind {
            Kind::Lion => self.gather_steps(Kind::Lion, found),
            Kind::Giraffe => {
                self.gather_steps(Kind::Giraffe, found)?;
                self.gather_put(HandKind::Giraffe, found)
            }
            Kind::Elephant => {
                self.gather_steps(Kind::Elephant, found)?;
                self.gather_put(HandKind::Elephant, found)
            }
            Kind::Chick => self.gather_chick(found),
            Kind::Hen => self.gather_hen(found),
        }
    }

    // Those from which the chick came that stands on the square. On its far row it was dropped there, since a step would
    // have made it a hen.
    fn gather_chick(&self, found: &mut Vec<u64>) -> Result<(), Memory>
        requires end { CanEnd self.now }
        requires stands { at (setup_after self.now.walk.now) self.now.to ≡ Some (piece_of Mover Kind.Chick) }
        ensures { OnOk result (Collects self.now.walk.now (undoes_at (setup_after self.now.walk.now) self.now.to) found.old.items found.new.items) }
    {
        if self.to.row() != 3 {
            self.gather_steps(Kind::Chick, found)?;
        }
        self.gather_put(HandKind::Chick, found)
    }

    // Those from which the hen came that stands on the square: on its far row as a chick too.
    fn gather_hen(&self, found: &mut Vec<u64>) -> Result<(), Memory>
        requires end { CanEnd self.now }
        requires stands { at (setup_after self.now.walk.now) self.now.to ≡ Some (piece_of Mover Kind.Hen) }
        ensures { OnOk result (Collects self.now.walk.now (undoes_at (setup_after self.now.walk.now) self.now.to) found.old.items found.new.items) }
    {
        if self.to.row() == 3 {
            self.gather_steps(Kind::Chick, found)?;
        }
        self.gather_steps(Kind::Hen, found)
    }

    // Those from which a piece of that kind stepped to the square, on which it stands as what it became.
    fn gather_steps(&self, kind: Kind, found: &mut Vec<u64>) -> Result<(), Memory>
        requires end { CanEnd self.now }
        requires stands { stands (at (setup_after self.now.walk.now) self.now.to) (arrival kind self.now.to) ≡ true }
        ensures { OnOk result (Collects self.now.walk.now (unsteps (setup_after self.now.walk.now) kind self.now.to) found.old.items found.new.items) }
    {
        for from in self.walk.ways.sources(kind, self.to) {
            self.gather_steps_from(kind, from, found)?;
        }
        Ok(())
    }

    // Those from which a piece of that kind stepped from the one square to the other.
    #[tactic(auto, using(crate::proofs::Runs::runs))]
    fn gather_steps_from(
        &self,
        kind: Kind,
        from: Square,
        found: &mut Vec<u64>,
    ) -> Result<(), Memory>
        requires end { CanEnd self.now }
        requires stands { stands (at (setup_after self.now.walk.now) self.now.to) (arrival kind self.now.to) ≡ true }
        requires comes { may_come (setup_after self.now.walk.now) self.now.walk.now.ways.now.threat.lion kind self.now.to from ≡ true }
        ensures { OnOk result (Collects self.now.walk.now (unsteps_from (setup_after self.now.walk.now) kind self.now.to from) found.old.items found.new.items) }
    {
        let undo = RetroMove::Unstep {
            kind,
            from,
            to: self.to,
            caught: None,
        };
        self.walk.gather_one(undo, found)?;
        self.gather_catch(kind, from, Kind::Giraffe, found)?;
        self.gather_catch(kind, from, Kind::Elephant, found)?;
        self.gather_catch(kind, from, Kind::Chick, found)?;
        self.gather_catch(kind, from, Kind::Hen, found)
    }

    // Those from which that step caught a piece of that kind, if the hand has it.
    #[tactic(auto, using(crate::proofs::Runs::runs))]
    fn gather_catch(
        &self,
        kind: Kind,
        from: Square,
        caught: Kind,
        found: &mut Vec<u64>,
    ) -> Result<(), Memory>
        requires end { CanEnd self.now }
        requires stands { stands (at (setup_after self.now.walk.now) self.now.to) (arrival kind self.now.to) ≡ true }
        requires comes { may_come (setup_after self.now.walk.now) self.now.walk.now.ways.now.threat.lion kind self.now.to from ≡ true }
        ensures { OnOk result (Collects self.now.walk.now (uncatch (setup_after self.now.walk.now) kind from self.now.to caught) found.old.items found.new.items) }
    {
        if !self.walk.ways.holds_caught(caught) {
            return Ok(());
        }
        let undo = RetroMove::Unstep {
            kind,
            from,
            to: self.to,
            caught: Some(caught),
        };
        self.walk.gather_one(undo, found)
    }

    // The one from which the piece of that kind that stands on the square was dropped there.
    fn gather_put(&self, kind: HandKind, found: &mut Vec<u64>) -> Result<(), Memory>
        requires end { CanEnd self.now }
        requires stands { at (setup_after self.now.walk.now) self.now.to ≡ Some (piece_of Mover (kind_on_board kind)) }
        ensures { OnOk result (Collects self.now.walk.now (unputs (setup_after self.now.walk.now) kind self.now.to) found.old.items found.new.items) }
    {
        self.walk
            .gather_one(RetroMove::Unput { kind, to: self.to }, found)
    }
}

// Whether the representative of the class is its own mirror image. What is known of the turned setup says mostly that it isn't.
fn is_own_image(classes: &Classes, class: u64, ways: &Ways) -> bool
    requires class { class < classes_of classes.now.family }
    requires ways { AreWays (turned (class_setup classes.now.family class)) ways.now }
    ensures { IsTrue result ↔ (mirrored (class_setup classes.now.family class) ≡ class_setup classes.now.family class) }
{
    if has_lions_on_b(&ways.board) {
        let image = classes.board_at(class, Side::Mover).mirrored();
        return classes.class_if_representative(&image).is_some();
    }
    false
}

// The classes from which moves lead to the representative of the class or to its mirror image, in the order of the walk, in
// the room of that list. What the walk needs is the board that the enemy sees of the representative.
#[inline(always)]
fn gather(room: Vec<u64>, classes: &Classes, class: u64, board: &Board) -> Result<Vec<u64>, Memory>
    requires class { class < classes_of classes.now.family }
    requires board { IsBoardOf (turned (class_setup classes.now.family class)) board.now }
    ensures { IfOk result (λ list. CountEdges A (RepresentsClass classes.now.family) (class_setup classes.now.family class) list.items) }
{
    let mut found = room;
    found.clear();
    let ways = Ways::of(*board);
    let walk = RetroMoves {
        classes,
        led_to: Snapshot::of(&class),
        ways: &ways,
        is_own_image: is_own_image(classes, class, &ways),
    };
    walk.gather_all(&mut found)?;
    Ok(found)
}

/// The classes from which moves lead into the class, ascending, each as often as moves of its representative lead
/// there. Err if no memory was left for the list.
pub fn back(alloc: Global, classes: &Classes, class: u64) -> Result<Vec<u64>, Memory>
    requires { class < classes_of classes.now.family }
    ensures counts { IfOk result (λ list. (q : Setup) → RepresentsClass classes.now.family q class → ArePredecessors classes.now.family.profile (RepresentsClass classes.now.family) q list.items) }
    ensures list { IfOk result (λ list. list.items ≡ predecessors classes.now.family class) }
{
    back_into(Vec::new(alloc), classes, class)
}

/// A class's predecessors in the room of a list that the caller keeps for many classes; what it held is gone. Err if no memory was
/// left for it to grow, and then the list is gone too.
pub fn back_into(room: Vec<u64>, classes: &Classes, class: u64) -> Result<Vec<u64>, Memory>
    requires { class < classes_of classes.now.family }
    ensures counts { IfOk result (λ list. (q : Setup) → RepresentsClass classes.now.family q class → ArePredecessors classes.now.family.profile (RepresentsClass classes.now.family) q list.items) }
    ensures list { IfOk result (λ list. list.items ≡ predecessors classes.now.family class) }
{
    let mut numbers = gather(room, classes, class, &classes.board_at(class, Side::Enemy))?;
    numbers.sort_unstable();
    Ok(numbers)
}
