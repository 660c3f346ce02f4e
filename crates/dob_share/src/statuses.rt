// The statuses of one owner's classes, 64 in a word with the number of open ones before them, so that the open classes are
// numbered among themselves: only these have a cell.
ghost use Rattle.std.specs.Prelude.{◌≡◌, ◌<◌, ◌^◌, ◌≤◌, ◌+◌, ◌*◌, ◌/◌, ◌%◌, ℕ, IfOk, MatchOption, length};
ghost use Rattle.dob_share.specs.Openings.{opening_of};
ghost use Rattle.dob_share.specs.Owners.{class_of_place};
ghost use Rattle.dob_share.specs.Statuses.{bit, bits_below, opens, catches, tries, status_of_bits, IsStatusOf, status_listed, word_of, open_at, status_in, opens_below, AreCounted};

use crate::listed::opening_at;
use crate::opening::Opening;
use dob_lists::Segments;
use dob_moves::Status;
use dob_pieces::Memory;
use dob_safra::NodeCount;
use std::alloc::Global;
use std::marker::Model;
use std::sync::Arc;

/// The bits of 64 classes by their statuses, all unset for a stuck one, and how many classes are open before them.
#[derive(Clone, Copy)]
pub(crate) struct StatusWord {
    pub(crate) opens: u64,
    pub(crate) caught: u64,
    pub(crate) tried: u64,
    pub(crate) before: u32,
}

/// The statuses of the classes at `places` places. Those who hold them share the words.
#[derive(Drop)]
pub struct Statuses {
    places: u64,
    words: Arc<Segments<StatusWord>>,
}

impl Model for Statuses {
    ghost use Rattle.std.specs.Prelude.{◌<◌, ◌^◌, ◌*◌, length};
    ghost use Rattle.std.specs.Arc.{arc_value};
    ghost use Rattle.dob_share.specs.Statuses.{StatusesView, AreCounted};

    ghost Value = { StatusesView };

    ghost view = { λ s. record { places = s.places; words = arc_value s.words } };

    ghost invariant = { λ s. (s.places < length (arc_value s.words) * 64) × (s.places < 2 ^ 32) × AreCounted (arc_value s.words) };
}

impl Statuses {
    /// Those that are listed of the classes of owner `id` among `nodes`.
    pub(crate) fn open(
        alloc: Global,
        openings: &Segments<Opening>,
        places: u64,
        id: usize,
        nodes: NodeCount,
    ) -> Result<Statuses, Memory>
        requires few { length openings.now < 2 ^ 32 }
        requires few_places { places < 2 ^ 32 }
        requires places { (other : ℕ) → other < places → other * nodes + id < length openings.now }
        ensures places { IfOk result (λ statuses. statuses.places ≡ places) }
        ensures statuses { IfOk result (λ statuses. (place : ℕ) → place < places → IsStatusOf (word_of statuses.words place) (place % 64) (opening_of openings.now (class_of_place nodes id place)).status) }
    {
        let words = words_of(alloc, openings, places, id, nodes)?;
        let words = Arc::new(alloc, words)?;
        Ok(Statuses { places, words })
    }

    /// A second handle to these statuses, which takes no further memory for them.
    pub(crate) fn share(&self) -> Result<Statuses, Memory>
        ensures { IfOk result (λ statuses. statuses ≡ self.now) }
    {
        let words = Arc::try_clone(&self.words)?;
        Ok(Statuses {
            places: self.places,
            words,
        })
    }

    /// How many classes there are.
    pub fn places(&self) -> u64
        ensures places { result ≡ self.now.places }
        ensures few { result < 2 ^ 32 }
    {
        self.places
    }

    /// The status of the class at a place.
    pub fn status(&self, place: u64) -> Status
        requires { place < self.now.places }
        ensures { result ≡ status_in self.now.words place }
    {
        let word = self.words.get(place / 64);
        status_by(word, (place % 64) as u32)
    }

    /// How many classes are open before a place, which is the number of its cell if it is open itself.
    pub(crate) fn opens_before(&self, place: u64) -> u32
        requires { place < self.now.places }
        ensures { result ≡ opens_below self.now.words place }
    {
        let word = self.words.get(place / 64);
        word.before + ones_before(word.opens, (place % 64) as u32)
    }
}

// The words of the classes of owner `id` among `nodes`, and one more at least than `places` ask for.
fn words_of(
    alloc: Global,
    openings: &Segments<Opening>,
    places: u64,
    id: usize,
    nodes: NodeCount,
) -> Result<Segments<StatusWord>, Memory>
    requires few { length openings.now < 2 ^ 32 }
    requires few_places { places < 2 ^ 32 }
    requires places { (other : ℕ) → other < places → other * nodes + id < length openings.now }
    ensures within { IfOk result (λ words. places < length words * 64) }
    ensures counted { IfOk result (λ words. AreCounted words) }
    ensures statuses { IfOk result (λ words. (place : ℕ) → place < places → IsStatusOf (word_of words place) (place % 64) (opening_of openings.now (class_of_place nodes id place)).status) }
{
    let mut words = Segments::new(alloc, openings.segment_length());
    let mut count = 0;
    for number in 0..places / 64 + 1 {
        let word = word_at(openings, places, id, nodes, number * 64, count as u32);
        words.push(word)?;
        count += u64::from(word.opens.count_ones());
    }
    Ok(words)
}

// The word of the 64 classes from a place on, with `before` open classes before it.
fn word_at(
    openings: &Segments<Opening>,
    places: u64,
    id: usize,
    nodes: NodeCount,
    first: u64,
    before: u32,
) -> StatusWord
    requires few { length openings.now < 2 ^ 32 }
    requires few_places { first ≤ 2 ^ 32 }
    requires places { (other : ℕ) → other < places → other * nodes + id < length openings.now }
    ensures low { result.opens < 2 ^ 64 }
    ensures before { result.before ≡ before }
    ensures each { (k : ℕ) → k < 64 → IsStatusOf result k (status_listed openings.now places nodes id (first + k)) }
{
    let mut opens = 0;
    let mut caught = 0;
    let mut tried = 0;
    for k in 0..64 {
        let status = listed_status(openings, places, id, nodes, first + u64::from(k));
        let (is_open, is_caught, is_tried) = digits_of(status);
        opens = with_digit(opens, k, is_open);
        caught = with_digit(caught, k, is_caught);
        tried = with_digit(tried, k, is_tried);
    }
    StatusWord {
        opens,
        caught,
        tried,
        before,
    }
}

// What is listed as the status of the class at a place; stuck if there is none.
fn listed_status(
    openings: &Segments<Opening>,
    places: u64,
    id: usize,
    nodes: NodeCount,
    place: u64,
) -> Status
    requires few { length openings.now < 2 ^ 32 }
    requires places { (other : ℕ) → other < places → other * nodes + id < length openings.now }
    ensures { result ≡ status_listed openings.now places nodes id place }
{
    if place >= places {
        return Status::Stuck;
    }
    opening_at(openings, place * nodes.get() as u64 + id as u64).status
}

// One for each of an open class, one that is caught and one that is tried, else nought.
fn digits_of(status: Status) -> (u64, u64, u64)
    ensures open { result.0 ≡ opens status }
    ensures caught { result.1 ≡ catches status }
    ensures tried { result.2 ≡ tries status }
    ensures low_open { result.0 < 2 }
    ensures low_caught { result.1 < 2 }
    ensures low_tried { result.2 < 2 }
{
    match status {
        Status::Open => (1, 0, 0),
        Status::Caught => (0, 1, 0),
        Status::Tried => (0, 0, 1),
        Status::Stuck => (0, 0, 0),
    }
}

// The status of the class at that place of a word.
fn status_by(word: StatusWord, place: u32) -> Status
    requires { place < 64 }
    ensures { result ≡ status_of_bits (bit word.opens place) (bit word.caught place) (bit word.tried place) }
{
    match digit_at(word.opens, place) {
        0 => match digit_at(word.caught, place) {
            0 => match digit_at(word.tried, place) {
                0 => Status::Stuck,
                _ => Status::Tried,
            },
            _ => Status::Caught,
        },
        _ => Status::Open,
    }
}

// The bit at that place.
fn digit_at(word: u64, place: u32) -> u64
    requires { place < 64 }
    ensures { result ≡ bit word place }
{
    (word >> place) % 2
}

// How many bits are set before that place.
fn ones_before(word: u64, place: u32) -> u32
    requires { place < 64 }
    ensures { result ≡ bits_below word place }
{
    (word & ((1 << place) - 1)).count_ones()
}

// The word with that digit at that place, from which on none is set.
fn with_digit(word: u64, place: u32, digit: u64) -> u64
    requires place { place < 64 }
    requires digit { digit < 2 }
    requires low { word < 2 ^ place }
    ensures here { bit result place ≡ digit }
    ensures before { (other : ℕ) → other < place → bit result other ≡ bit word other }
    ensures low { result < 2 ^ (place + 1) }
{
    word | (digit << place)
}
