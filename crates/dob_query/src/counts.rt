// How many positions and classes a piece set has by the rules of a profile.
ghost use Rattle.std.specs.Prelude.{◌≡◌, IfOk, IfErr, string_bytes};
ghost use Rattle.dob_query.specs.Sizes.{AreCountLinesOf, HasCounts, IsCountFaultOf, count_lines};

use dob_classes::count_classes;
use dob_files::Answer;
use dob_pieces::{Family, Memory, PieceSet, Profile};
use dob_rank::size;
use std::alloc::Global;

/// How many positions a family has, and how many classes.
#[derive(Clone, Copy)]
pub(crate) struct Counts {
    pub(crate) positions: u64,
    pub(crate) classes: u64,
}

/// The lines that give the numbers of positions and of classes of the piece set that the text names, by the rules of the profile.
pub fn answer_count(alloc: Global, profile: Profile, text: &str) -> Answer
    ensures ok { IfOk result (λ lines. AreCountLinesOf profile text.now (string_bytes lines)) }
    ensures err { IfErr result (IsCountFaultOf text.now) }
{
    let set = PieceSet::read(text)?;
    let counts = counts_of(Family { set, profile });
    Ok(lines_with(alloc, counts)?)
}

// The lines that give the numbers.
fn lines_with(alloc: Global, counts: Counts) -> Result<String, Memory>
    ensures { IfOk result (λ lines. string_bytes lines ≡ count_lines counts) }
{
    let positions = counts.positions;
    let classes = counts.classes;
    Ok(format!(in alloc; "positions {positions}\nclasses {classes}\n")?)
}

// The numbers of positions and of classes of the family, which take no memory.
fn counts_of(family: Family) -> Counts
    ensures { HasCounts family result }
{
    Counts {
        positions: size(family),
        classes: count_classes(family),
    }
}
