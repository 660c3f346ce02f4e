// The questions that a line can ask.
use crate::about_crew::sizes_in;
use crate::about_token::OfToken;
use crate::about_world::{OfWorld, Sizes};
use dob_pieces::Profile;

/// What a line asks.
#[derive(Clone, Copy)]
pub(crate) enum Question<'a> {
    /// Something about the position of that text.
    Position(OfPosition, &'a str),
    /// Something about the piece set of that text.
    Set(OfSet, &'a str),
    /// Something about how the values of the piece set of that text are found.
    Values(OfValues<'a>, &'a str),
    /// Something about tokens of the ring.
    Token(OfToken),
}

/// What is asked about a position.
#[derive(Clone, Copy)]
pub(crate) enum OfPosition {
    /// Which status it has, and which moves.
    Moves,
    /// What it is after the move of that number, counted from 0.
    After(usize),
    /// Which step catches the enemy lion first.
    Catch,
    /// Which value it has.
    Value,
    /// Which rank it has in its piece set.
    Rank,
    /// Which class it is in.
    Class,
}

/// What is asked about a piece set.
#[derive(Clone, Copy)]
pub(crate) enum OfSet {
    /// Which position has that rank.
    Unrank(u64),
    /// Something about its classes.
    Classes(OfClasses),
}

/// What is asked about the classes of a piece set.
#[derive(Clone, Copy)]
pub(crate) enum OfClasses {
    /// How many there are, and how many positions.
    Size,
    /// Which position is the representative of that class.
    ClassAt(u64),
    /// From which classes moves lead into that class.
    Back(u64),
    /// How many moves lead from one class into another.
    Edges { from: u64, into: u64 },
}

/// What is asked about how the values of a piece set are found.
#[derive(Clone, Copy)]
pub(crate) enum OfValues<'a> {
    /// What the cell of the class of that number answers to these changes.
    Cell(u64, &'a str),
    /// Which values one node alone finds in N steps.
    Build(u64),
    /// Which values a build with those sizes finds, each node in a thread of its own.
    Crew(Sizes),
    /// What comes of something in a world with those sizes.
    World(Sizes, OfWorld<'a>),
}

impl<'a> Question<'a> {
    /// The question of a line, and the profile by whose rules it is asked: B where the line begins with `B `. None where
    /// the line is no question.
    pub(crate) fn read(line: &'a str) -> Option<(Profile, Question<'a>)> {
        match line.strip_prefix("B ") {
            Some(line_of_b) => Some((Profile::B, Question::of(line_of_b)?)),
            None => Some((Profile::A, Question::of(line)?)),
        }
    }

    // The question of a line without its profile.
    fn of(line: &'a str) -> Option<Question<'a>> {
        let (word, rest) = line.split_once(' ')?;
        match word {
            "moves" | "after" | "catch" | "value" | "rank" | "class" => {
                let (matter, text) = OfPosition::read(word, rest)?;
                Some(Question::Position(matter, text))
            }
            "size" | "unrank" | "classat" | "back" | "edges" => {
                let (matter, set) = OfSet::read(word, rest)?;
                Some(Question::Set(matter, set))
            }
            "apply" | "alone" | "built" | "drive" | "events" => {
                let (set, rest) = rest.split_once(' ')?;
                Some(Question::Values(OfValues::read(word, rest)?, set))
            }
            _ => Some(Question::Token(OfToken::read(word, rest)?)),
        }
    }
}

impl OfPosition {
    // The question with that first word, and the text of its position; none if there is no such question.
    fn read<'a>(word: &str, rest: &'a str) -> Option<(OfPosition, &'a str)> {
        match word {
            "moves" => Some((OfPosition::Moves, rest)),
            "after" => {
                let (number, text) = rest.split_once(' ')?;
                Some((OfPosition::After(number.parse::<usize>().ok()?), text))
            }
            "catch" => Some((OfPosition::Catch, rest)),
            "value" => Some((OfPosition::Value, rest)),
            "rank" => Some((OfPosition::Rank, rest)),
            "class" => Some((OfPosition::Class, rest)),
            _ => None,
        }
    }
}

impl OfSet {
    // The question with that first word, and the text of its piece set; none if there is no such question.
    fn read<'a>(word: &str, rest: &'a str) -> Option<(OfSet, &'a str)> {
        if word == "size" {
            return Some((OfSet::Classes(OfClasses::Size), rest));
        }
        let (set, rest) = rest.split_once(' ')?;
        if word == "edges" {
            let (from, into) = two_numbers(rest)?;
            return Some((OfSet::Classes(OfClasses::Edges { from, into }), set));
        }
        let number = rest.parse::<u64>().ok()?;
        match word {
            "unrank" => Some((OfSet::Unrank(number), set)),
            "classat" => Some((OfSet::Classes(OfClasses::ClassAt(number)), set)),
            "back" => Some((OfSet::Classes(OfClasses::Back(number)), set)),
            _ => None,
        }
    }
}

impl<'a> OfValues<'a> {
    // The question with that first word, whose piece set was read; none if there is no such question.
    fn read(word: &str, rest: &'a str) -> Option<OfValues<'a>> {
        match word {
            "apply" => {
                let (class, changes) = rest.split_once(' ')?;
                Some(OfValues::Cell(class.parse::<u64>().ok()?, changes))
            }
            "alone" => Some(OfValues::Build(rest.parse::<u64>().ok()?)),
            "built" => Some(OfValues::Crew(sizes_in(rest)?)),
            _ => {
                let (sizes, matter) = OfWorld::read(word, rest)?;
                Some(OfValues::World(sizes, matter))
            }
        }
    }
}

// Two numbers with a space between them.
fn two_numbers(text: &str) -> Option<(u64, u64)> {
    let (first, second) = text.split_once(' ')?;
    let first = first.parse::<u64>().ok()?;
    let second = second.parse::<u64>().ok()?;
    Some((first, second))
}
