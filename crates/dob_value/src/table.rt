// Tables of a family: a value for each of its classes.
ghost use Rattle.std.specs.Prelude.{◌≡◌, ◌<◌, ℕ, All, Some, IfOk, length, slice_get};
ghost use Rattle.dob_distance.specs.declared.value.Value.{Value};
ghost use Rattle.dob_moves.specs.Shown.{setup_on};
ghost use Rattle.dob_rank.specs.Families.{IsPositionOf, HasClasses};
ghost use Rattle.dob_rank.specs.Families.{classes_of};
ghost use Rattle.dob_distance.specs.Codes.{values_of_codes, IsEntry};
ghost use Rattle.dob_value.specs.Follows.{ClassTable, HasInTable, IsTable, AreGiven, class_table};

use crate::outcomes::class_of;
use dob_classes::Classes;
use dob_distance::{Value, code_of_value, value_of_code};
use dob_lists::{SegmentLength, Segments};
use dob_moves::PositionBoard;
use dob_pieces::{Family, Memory, Position};
use std::alloc::Global;
use std::marker::Model;

/// A family with one value for each of its classes: wins have odd and losses even distances, at most
/// `MAX_DISTANCE`. It keeps 2 bytes a class beside the family's `Classes`, in segments.
#[derive(Drop)]
pub struct Table {
    classes: Classes,
    codes: Segments<u16>,
}

impl Model for Table {
    ghost Value = { ClassTable };

    ghost view = { λ table. class_table table.classes.family (values_of_codes table.codes) };

    ghost invariant = { λ table. IsTable table.classes.family (values_of_codes table.codes) };
}

impl Table {
    /// The table of those classes with those codes, one for each class in the order of their numbers.
    pub fn new(classes: Classes, codes: Segments<u16>) -> Table
        requires whole { length codes ≡ classes_of classes.family }
        requires codes { All (λ code. code < 65536) codes }
        ensures { result ≡ class_table classes.family (values_of_codes codes) }
    {
        Table { classes, codes }
    }

    /// The table of those classes with the value that is given for each, which is asked for once, in the order of their
    /// numbers.
    pub fn from_fn<F: Fn(u64) -> Value>(
        alloc: Global,
        classes: Classes,
        value_at: F,
    ) -> Result<Table, Memory>
        requires asked { (class : ℕ) → class < classes_of classes.family → F.pre value_at class }
        requires entries { (class : ℕ) (value : Value) → class < classes_of classes.family → F.post value_at class value → IsEntry value }
        ensures family { IfOk result (λ table. table.family ≡ classes.family) }
        ensures given { IfOk result (λ table. AreGiven (F.post value_at) (classes_of classes.family) table.values) }
    {
        let mut codes = Segments::new(alloc, SegmentLength::longest());
        for class in 0..classes.class_count() {
            codes.push(code_of_value(value_at(class)))?;
        }
        Ok(Table { classes, codes })
    }

    /// The family.
    pub fn family(&self) -> Family
        ensures family { result ≡ self.now.family }
        ensures table { IsTable self.now.family self.now.values }
    {
        self.classes.family
    }

    /// The classes of the family, with their numbers.
    pub fn classes(&self) -> &Classes
        ensures family { result.now.family ≡ self.now.family }
        ensures count { classes_of self.now.family ≡ length self.now.values }
        ensures table { IsTable self.now.family self.now.values }
    {
        &self.classes
    }

    /// The codes of the values, in the order of the classes.
    pub fn codes(&self) -> &Segments<u16>
        ensures { values_of_codes result.now ≡ self.now.values }
    {
        &self.codes
    }

    /// How many classes there are.
    pub fn class_count(&self) -> u64
        ensures count { HasClasses self.now.family result }
        ensures length { result ≡ length self.now.values }
    {
        self.classes.class_count()
    }

    /// The value of the class with that number.
    pub fn value(&self, class: u64) -> Value
        requires { class < length self.now.values }
        ensures { slice_get self.now.values class ≡ Some result }
    {
        value_of_code(self.codes.get(class))
    }

    /// The value of the position's class.
    pub fn value_of(&self, position: &Position) -> Value
        requires { IsPositionOf self.now.family position.now.setup }
        ensures { HasInTable self.now.family self.now.values position.now.setup result }
    {
        self.value_on(&PositionBoard::of(position))
    }

    /// The value of the class of the position on that board.
    pub fn value_on(&self, position: &PositionBoard) -> Value
        requires { IsPositionOf self.now.family (setup_on position.now.board) }
        ensures { HasInTable self.now.family self.now.values (setup_on position.now.board) result }
    {
        let number = class_of(&self.classes, position);
        value_of_code(self.codes.get(number))
    }
}
