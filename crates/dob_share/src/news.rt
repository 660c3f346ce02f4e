// What owners send one another: settlements, and the items that they make, one by one or settlement by settlement.
ghost use Rattle.std.specs.Prelude.{◌≡◌, ◌↔◌, ◌<◌, ◌≤◌, ◌^◌, IsTrue, MatchOption};
ghost use Rattle.dob_distance.specs.Codes.{IsEntry, value_of_code};
ghost use Rattle.dob_share.specs.Items.{item_for};

use dob_distance::{MAX_DISTANCE, Value, code_of_value, value_of_code};
use std::marker::Model;

/// A change of the value of a class. `number` is its place in the history of the class's owner, counted from 0.
#[derive(Clone, Copy, PartialEq, Eq)]
pub struct Settlement {
    pub number: u64,
    pub class: u64,
    pub was: Value,
    pub now: Value,
}

/// A settlement's news for one edge: some move of the class `to` leads into a class whose value `was` has become `now`.
/// `number` is the settlement's.
#[derive(Clone, Copy, PartialEq, Eq)]
pub struct Item {
    pub number: u64,
    pub to: u64,
    pub was: Value,
    pub now: Value,
}

/// A settlement as it is kept to be sent: with its values as a table keeps them, so they are such as a table can have.
#[derive(Drop)]
pub struct News {
    number: u64,
    class: u64,
    code_was: u16,
    code_now: u16,
}

impl Model for News {
    ghost use Rattle.dob_distance.specs.Codes.{value_of_code};
    ghost use Rattle.dob_share.specs.declared.news.Settlement.{Settlement as Settled};

    ghost Value = { Settled };

    ghost view = { λ news. record { number = news.number; class = news.class; was = value_of_code news.code_was; now = value_of_code news.code_now } };
}

impl News {
    /// The news of a settlement, and `None` if a value of it is none that a table can have.
    pub fn of(settlement: Settlement) -> Option<News>
        ensures { MatchOption result (¬ (IsEntry settlement.was × IsEntry settlement.now)) (λ news. news ≡ settlement) }
    {
        if !is_entry(settlement.was) || !is_entry(settlement.now) {
            return None;
        }
        Some(News {
            number: settlement.number,
            class: settlement.class,
            code_was: code_of_value(settlement.was),
            code_now: code_of_value(settlement.now),
        })
    }

    /// The news of the settlement of that number and class, from the one value to the other, by their codes.
    pub fn of_codes(number: u64, class: u64, was: u16, now: u16) -> News
        ensures { result ≡ record { number = number; class = class; was = value_of_code was; now = value_of_code now } }
    {
        News {
            number,
            class,
            code_was: was,
            code_now: now,
        }
    }

    /// The class that is settled.
    pub fn class(&self) -> u64
        ensures { result ≡ self.now.class }
    {
        self.class
    }

    /// The settlement.
    pub fn settlement(&self) -> Settlement
        ensures { result ≡ self.now }
    {
        Settlement {
            number: self.number,
            class: self.class,
            was: value_of_code(self.code_was),
            now: value_of_code(self.code_now),
        }
    }
}

// Whether a table can have the value.
fn is_entry(value: Value) -> bool
    ensures { IsTrue result ↔ IsEntry value }
{
    match value {
        Value::Win(plies) => plies % 2 == 1 && plies <= MAX_DISTANCE,
        Value::Loss(plies) => plies % 2 == 0 && plies <= MAX_DISTANCE,
        Value::Draw => true,
    }
}

/// A settlement, and how many of its items are in a list: at least one. The list has the classes that the items are for, those of one part
/// after those of the other. A part takes 24 bytes.
#[derive(Drop)]
pub struct Part {
    number: u64,
    class: u64,
    code_was: u16,
    code_now: u16,
    items: u32,
}

impl Model for Part {
    ghost use Rattle.std.specs.Prelude.{◌<◌, ◌^◌};
    ghost use Rattle.dob_distance.specs.Codes.{value_of_code};
    ghost use Rattle.dob_share.specs.Items.{PartView};

    ghost Value = { PartView };

    ghost view = { λ part. record { settlement = record { number = part.number; class = part.class; was = value_of_code part.code_was; now = value_of_code part.code_now }; items = part.items } };

    ghost invariant = { λ part. part.items < 2 ^ 32 };
}

impl Part {
    /// So many items of the settlement.
    pub fn new(news: &News, items: usize) -> Part
        requires { items < 2 ^ 32 }
        ensures { result ≡ record { settlement = news.now; items = items } }
    {
        Part {
            number: news.number,
            class: news.class,
            code_was: news.code_was,
            code_now: news.code_now,
            items: items as u32,
        }
    }

    /// The settlement.
    pub fn settlement(&self) -> Settlement
        ensures settlement { result ≡ self.now.settlement }
        ensures was { IsEntry result.was }
        ensures now { IsEntry result.now }
    {
        Settlement {
            number: self.number,
            class: self.class,
            was: value_of_code(self.code_was),
            now: value_of_code(self.code_now),
        }
    }

    /// How many of its items are in the list.
    pub fn items(&self) -> usize
        ensures { result ≡ self.now.items }
    {
        self.items as usize
    }

    /// The part with fewer items, or as many.
    pub fn with_items(&self, items: usize) -> Part
        requires { items ≤ self.now.items }
        ensures { result ≡ record self.now { items = items } }
    {
        Part {
            number: self.number,
            class: self.class,
            code_was: self.code_was,
            code_now: self.code_now,
            items: items as u32,
        }
    }
}

/// The news of the settlement for an edge from the class `to`.
pub fn item_for(settlement: Settlement, to: u64) -> Item
    ensures { result ≡ item_for settlement to }
{
    Item {
        number: settlement.number,
        to,
        was: settlement.was,
        now: settlement.now,
    }
}
