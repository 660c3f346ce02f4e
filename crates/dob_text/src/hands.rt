// Reading a hand.
ghost use Rattle.std.specs.Prelude.{◌≡◌, ◌≢◌, ◌==◌, ◌<◌, ◌≤◌, length, min, MatchOption};
ghost use Rattle.std.specs.List.{prefix_len};
ghost use Rattle.dob_pieces.specs.declared.hand.Hand.{Hand};
ghost use Rattle.dob_text.specs.PositionText.{hand_text};
ghost use Rattle.dob_text.specs.Readings.{capped};

use crate::letters::piece_letter;
use dob_pieces::{Hand, Kind, Side};

// How many times the bytes begin with the letter.
fn front_len(bytes: &[u8], letter: u8) -> usize
    ensures value { result ≡ prefix_len (λ byte. byte == letter) bytes.now }
    ensures bound { result ≤ length bytes.now }
{
    for (i, byte) in bytes.iter().enumerate() {
        if *byte != letter {
            return i;
        }
    }
    bytes.len()
}

// The count, or 255 if it is more.
fn capped_count(count: usize) -> u8
    ensures { result ≡ min count 255 }
{
    count.min(255) as u8
}

/// The hand that a word stands for, with 255 in place of a larger count.
pub(crate) fn hand_of(word: &[u8], side: Side) -> Option<Hand>
    requires { 0 < length word.now }
    ensures { MatchOption result
        ((hand : Hand) → word.now ≢ hand_text side hand)
        (λ hand. (full : Hand) × (word.now ≡ hand_text side full) × (hand ≡ capped full)) }
{
    if word.len() == 1 && word[0] == b'-' {
        return Some(Hand {
            chicks: 0,
            elephants: 0,
            giraffes: 0,
        });
    }
    let chicks = front_len(word, piece_letter(side, Kind::Chick));
    let rest = &word[chicks..];
    let elephants = front_len(rest, piece_letter(side, Kind::Elephant));
    let rest = &rest[elephants..];
    let giraffes = front_len(rest, piece_letter(side, Kind::Giraffe));
    if giraffes < rest.len() {
        return None;
    }
    Some(Hand {
        chicks: capped_count(chicks),
        elephants: capped_count(elephants),
        giraffes: capped_count(giraffes),
    })
}
