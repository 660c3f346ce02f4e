// The classes of a family, block by block.
ghost use Rattle.std.specs.Prelude.{◌≡◌, ◌<◌, ◌≤◌, ◌+◌, ◌^◌, IfOk, IfSome, MatchOption, vec_len};
ghost use Rattle.dob_rank.specs.Order.{IsFirstOfTwo};
ghost use Rattle.dob_rank.specs.Families.{IsPositionOf, IsRepresentative, HasClasses, HasClass, IsInClass, is_marked, classes_of, class_number, class_setup};
ghost use Rattle.dob_rank.specs.Numbers.{product, block_bases, start_of, rank_of_set};
ghost use Rattle.dob_rank.specs.Marks.{marks_below};
ghost use Rattle.dob_classes.specs.BlockTables.{AreBlocks};
ghost use Rattle.dob_pieces.specs.declared.setup.Setup.{Setup};
ghost use Rattle.dob_pieces.specs.Boards.{IsBoardOf};
ghost use Rattle.dob_classes.specs.Views.{seen_by, IsShown};

use crate::bits::bit_placing::bits_by;
use crate::block_classes::BlockClasses;
use crate::spots::spot_in;
use dob_pieces::{Board, Family, Memory, Position, Side};
use dob_rank::block;
use dob_rank::set_ranks::{hands_of, setup_of};
use std::alloc::Global;

/// The classes of a family, each with its number.
#[derive(Drop)]
pub struct Classes {
    /// The family whose classes these are.
    pub family: Family,
    blocks: Vec<BlockClasses>,
    count: u64,
    ghost whole: { vec_len blocks ≡ product (block_bases family.set) },
    ghost table: { AreBlocks family blocks.items },
    ghost counted: { count ≡ classes_of family },
}

impl Classes {
    /// Opens the classes of a family.
    pub fn open(alloc: Global, family: Family) -> Result<Classes, Memory>
        ensures family { IfOk result (λ classes. classes.family ≡ family) }
    {
        let mut blocks = Vec::new(alloc);
        let mut count = 0;
        for number in 0..block::blocks(family.set) {
            let block = BlockClasses::open(alloc, family, number, count)?;
            count = block.after;
            blocks.push(block)?;
        }
        Ok(Classes {
            family,
            blocks,
            count,
        })
    }

    /// How many classes the family has.
    pub fn class_count(&self) -> u64
        ensures count { HasClasses self.now.family result }
        ensures number { result ≡ classes_of self.now.family }
        ensures bound { result < 2 ^ 31 }
    {
        self.count
    }

    /// The number of the class of a position of the family: how many representatives stand before the earlier of it
    /// and its mirror image.
    pub fn class_of(&self, position: &Position) -> u64
        requires { IsPositionOf self.now.family position.now.setup }
        ensures class { IsInClass self.now.family position.now.setup result }
        ensures number { result ≡ class_number self.now.family position.now.setup }
        ensures bound { result < classes_of self.now.family }
    {
        self.class_by(&Board::of(&position.setup))
    }

    /// The number of the class of the position of the family that the board shows.
    pub fn class_by(&self, board: &Board) -> u64
        requires { (setup : Setup) × IsShown self.now.family setup board.now }
        ensures { (setup : Setup) → IsShown self.now.family setup board.now → result ≡ class_number self.now.family setup }
    {
        if board.is_later_image() {
            self.class_of_either(&board.mirrored())
        } else {
            self.class_of_either(board)
        }
    }

    // The same. It takes longer where the mirror image is the earlier one.
    fn class_of_either(&self, board: &Board) -> u64
        requires { (setup : Setup) × IsShown self.now.family setup board.now }
        ensures { (setup : Setup) → IsShown self.now.family setup board.now → result ≡ class_number self.now.family setup }
    {
        let (is_representative, class) = self.look_up(board);
        if is_representative {
            class
        } else {
            self.look_up(&board.mirrored()).1
        }
    }

    /// The number of the class of the position of the family that the board shows, if that is the class's representative; `None` if its mirror image is
    /// earlier.
    pub fn class_if_representative(&self, board: &Board) -> Option<u64>
        requires { (setup : Setup) × IsShown self.now.family setup board.now }
        ensures class { (setup : Setup) → IsShown self.now.family setup board.now → MatchOption result (¬ IsFirstOfTwo setup)
            (λ class. IsFirstOfTwo setup × HasClass self.now.family setup class) }
        ensures number { (setup : Setup) → IsShown self.now.family setup board.now → IfSome result (λ class. class ≡ class_number self.now.family setup) }
        ensures bound { IfSome result (λ class. class < classes_of self.now.family) }
    {
        let (is_representative, class) = self.look_up(board);
        if is_representative { Some(class) } else { None }
    }

    /// The representative of the class of that number, which is below the number of classes.
    pub fn class_at(&self, class: u64) -> Position
        requires { class < classes_of self.now.family }
        ensures representative { IsRepresentative self.now.family result.setup }
        ensures class { HasClass self.now.family result.setup class }
        ensures number { class_number self.now.family result.setup ≡ class }
        ensures setup { result.setup ≡ class_setup self.now.family class }
    {
        let block = self.block_of(class);
        let digits = block.digits_at(block.spot_at(class));
        Position::new(setup_of(block.family.set, &block.on_board, &digits))
    }

    /// The board that the side sees of the representative of the class of that number: the mover as it stands, the enemy turned. No list of cells is made.
    #[inline(always)]
    pub fn board_at(&self, class: u64, side: Side) -> Board
        requires { class < classes_of self.now.family }
        ensures { IsBoardOf (seen_by side (class_setup self.now.family class)) result }
    {
        let block = self.block_of(class);
        let spot = block.spot_at(class);
        let digits = block.digits_at(spot);
        let squares = block::squares_at(&block.on_board, spot.local);
        let hands = hands_of(self.family.set, &block.on_board, &digits);
        let places = &block.places[squares as usize];
        bits_by(side, &block.on_board, &digits, places, hands)
    }

    // The block in which the representative of that class stands.
    #[inline(always)]
    fn block_of(&self, class: u64) -> &BlockClasses
        requires { class < classes_of self.now.family }
        ensures family { result.now.family ≡ self.now.family }
        ensures low { result.now.before ≤ class }
        ensures high { class < result.now.after }
    {
        &self.blocks[self.block_at(class)]
    }

    // Its number: the last one with no more classes before it.
    fn block_at(&self, class: u64) -> usize
        requires { class < classes_of self.now.family }
        ensures block { result < product (block_bases self.now.family.set) }
        ensures low { marks_below (is_marked self.now.family) (start_of self.now.family.set result) ≤ class }
        ensures high { class < marks_below (is_marked self.now.family) (start_of self.now.family.set (result + 1)) }
    {
        for block in (0..self.blocks.len()).rev() {
            if self.blocks[block].before <= class {
                return block;
            }
        }
        0
    }

    // Whether the position of the family that the board shows is a representative, and how many stand before it.
    #[inline(always)]
    fn look_up(&self, board: &Board) -> (bool, u64)
        requires { (setup : Setup) × IsShown self.now.family setup board.now }
        ensures mark { (setup : Setup) → IsShown self.now.family setup board.now
            → result.0 ≡ is_marked self.now.family (rank_of_set self.now.family.set setup) }
        ensures before { (setup : Setup) → IsShown self.now.family setup board.now
            → result.1 ≡ marks_below (is_marked self.now.family) (rank_of_set self.now.family.set setup) }
    {
        let (block, spot) = spot_in(self.family, board);
        self.blocks[block as usize].look_up(spot)
    }
}
