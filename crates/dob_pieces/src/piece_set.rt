// The piece set, which no move changes.
ghost use Rattle.std.specs.Prelude.{◌≢◌, ◌≡◌, ◌≤◌, Some, IfOk, OnErr};

use std::error::Error;
use std::fmt;

/// How many chicks (hens counted with them), elephants and giraffes there are besides the lions, board and
/// hands together: 0 to 2 of each.
#[derive(Clone, Copy, PartialEq, Eq)]
pub struct PieceSet {
    pub chicks: u8,
    pub elephants: u8,
    pub giraffes: u8,
    pub ghost few_chicks: { chicks ≤ 2 },
    pub ghost few_elephants: { elephants ≤ 2 },
    pub ghost few_giraffes: { giraffes ≤ 2 },
}

impl PieceSet {
    ghost use Rattle.dob_pieces.specs.declared.piece_set.PieceSet.{PieceSet};
    ghost use Rattle.dob_pieces.specs.Sets.{set_text};

    /// The set with that text: three ASCII digits, each 0, 1 or 2, for the chicks, the elephants and the giraffes.
    /// Refuses any other text.
    pub fn read(text: &str) -> Result<PieceSet, SetText>
        ensures ok { IfOk result (λ set. text.now ≡ set_text set) }
        ensures err { OnErr result ((set : PieceSet) → text.now ≢ set_text set) }
    {
        match *text.as_bytes() {
            [
                chicks @ b'0'..=b'2',
                elephants @ b'0'..=b'2',
                giraffes @ b'0'..=b'2',
            ] => Ok(PieceSet {
                chicks: chicks - b'0',
                elephants: elephants - b'0',
                giraffes: giraffes - b'0',
            }),
            _ => Err(SetText),
        }
    }
}

/// E25: the text isn't three digits, each 0, 1 or 2.
#[derive(Clone, Copy, Debug, PartialEq, Eq)]
pub struct SetText;

impl fmt::Display for SetText {
    ghost use Rattle.dob_pieces.specs.Faults.{set_fault_text};

    ghost output = { λ _. Some set_fault_text };

    fn fmt<W: fmt::Write>(&self, f: &mut fmt::Formatter<W>) -> fmt::Result {
        write!(f, "E25 SetText")
    }
}

impl Error for SetText {}
