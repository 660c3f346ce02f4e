// The parts of a position's text: fifteen bytes of board and two words.
ghost use Rattle.std.specs.Prelude.{◌≡◌, ◌↔◌, ℕ, List, length, position, MatchOption, IsTrue, IsAscii};
ghost use Rattle.dob_text.specs.PositionText.{is_space, IsWord, IsGrid, AreTwoWords, AreParts, HasShape};

// How many bytes the board takes.
const GRID_LEN: usize = 15;

/// The parts of a text, none with a space.
#[derive(Clone, Copy)]
pub(crate) struct Parts<'a> {
    pub(crate) grid: &'a [u8],
    pub(crate) mover: &'a [u8],
    pub(crate) enemy: &'a [u8],
}

// Whether these fifteen bytes have slashes at 3, 7 and 11, no other slash, and no space.
fn is_grid(grid: &[u8]) -> bool
    requires { length grid.now ≡ 15 }
    ensures { IsTrue result ↔ IsGrid grid.now }
{
    grid.iter().enumerate().all(|(i, byte)| *byte != b' ' && (*byte == b'/') == (i % 4 == 3))
}

// Whether there are bytes, and none is a space.
fn is_word(word: &[u8]) -> bool
    ensures { IsTrue result ↔ IsWord word.now }
{
    !word.is_empty() && word.iter().all(|byte| *byte != b' ')
}

// The place of the first space.
fn first_space(text: &[u8]) -> Option<usize>
    ensures { result ≡ position is_space text.now }
{
    text.iter().position(|byte| *byte == b' ')
}

// The two words of a text that is two words with a space between them.
fn words_of(text: &[u8]) -> Option<(&[u8], &[u8])>
    ensures { MatchOption result
        ((mover enemy : List ℕ) → ¬ AreTwoWords text.now mover enemy)
        (λ words. AreTwoWords text.now words.0.now words.1.now) }
{
    let space = first_space(text)?;
    let mover = &text[..space];
    let enemy = &text[space + 1..];
    if is_word(mover) && is_word(enemy) {
        Some((mover, enemy))
    } else {
        None
    }
}

/// The parts of a text of the right shape.
pub(crate) fn parts_of(text: &[u8]) -> Option<Parts<'_>>
    ensures { MatchOption result
        (¬ HasShape text.now)
        (λ parts. IsAscii text.now × AreParts text.now parts.grid.now parts.mover.now parts.enemy.now) }
{
    if !text.is_ascii() || text.len() <= GRID_LEN {
        return None;
    }
    let (grid, rest) = text.split_at(GRID_LEN);
    if rest[0] != b' ' || !is_grid(grid) {
        return None;
    }
    let (mover, enemy) = words_of(&rest[1..])?;
    Some(Parts { grid, mover, enemy })
}
