// The board as a picture (SVG), in the colours and forms of the game's own set.
ghost use Rattle.std.specs.Prelude.{◌≡◌, ◌<◌, ◌++◌, ◌∷◌, [], OnOk, IfOk, string_bytes};
ghost use Rattle.dob_text.specs.Backgrounds.{background};
ghost use Rattle.dob_text.specs.Letters.{letter_of_kind};
ghost use Rattle.dob_text.specs.Pictures.{board_picture, hand_left, hand_picture, hand_top, piece_picture, pieces_picture, picture_of, square_picture};
ghost use Rattle.dob_text.specs.Pictures.{turn_text, use_line};

use dob_pieces::{Hand, Kind, Memory, Piece, Position, Side, Square};
use std::alloc::{AllocError, Global};

// The pieces, each round its own centre and seen from its own side, with a red dot for each step and its letter; below the
// pieces the board with the names of its rows and columns, and whose hand is which.
const BACKGROUND: &str =
    "<svg xmlns='http://www.w3.org/2000/svg' viewBox='0 0 760 480' font-family='sans-serif' font-size='20' text-anchor='middle'>
<defs>
<g id='L'><path d='M-34-44H34Q44-44 44-34V34Q44 44 34 44H-34Q-44 44-44 34V-34Q-44-44-34-44Z' fill='#f6b8bd' stroke='#7a5a3a' stroke-width='2'/><circle cx='0' cy='-37' r='4' fill='#d22'/><circle cx='0' cy='37' r='4' fill='#d22'/><circle cx='37' cy='0' r='4' fill='#d22'/><circle cx='-37' cy='0' r='4' fill='#d22'/><circle cx='37' cy='-37' r='4' fill='#d22'/><circle cx='37' cy='37' r='4' fill='#d22'/><circle cx='-37' cy='-37' r='4' fill='#d22'/><circle cx='-37' cy='37' r='4' fill='#d22'/><circle cy='-2' r='27' fill='#a8591c'/><circle cy='-2' r='19' fill='#f5c242'/><circle cx='-7' cy='-6' r='3' fill='#222'/><circle cx='7' cy='-6' r='3' fill='#222'/><path d='M-4 2H4L0 7ZM-7 11Q0 16 7 11' fill='#222'/><text x='-26' y='34' font-size='17'>L</text></g>
<g id='G'><path d='M-34-44H34Q44-44 44-34V34Q44 44 34 44H-34Q-44 44-44 34V-34Q-44-44-34-44Z' fill='#cfc3ea' stroke='#7a5a3a' stroke-width='2'/><circle cx='0' cy='-37' r='4' fill='#d22'/><circle cx='0' cy='37' r='4' fill='#d22'/><circle cx='37' cy='0' r='4' fill='#d22'/><circle cx='-37' cy='0' r='4' fill='#d22'/><path d='M-9 30V-6L-14-22H12L17-8H5V30Z' fill='#f5d04a'/><path d='M-8-22V-31M2-22V-31' stroke='#8a5a20' stroke-width='4'/><circle cx='-3' cy='2' r='4' fill='#a8661e'/><circle cx='1' cy='14' r='4' fill='#a8661e'/><circle cx='-4' cy='24' r='3' fill='#a8661e'/><circle cx='1' cy='-15' r='3' fill='#222'/><text x='-26' y='34' font-size='17'>G</text></g>
<g id='E'><path d='M-34-44H34Q44-44 44-34V34Q44 44 34 44H-34Q-44 44-44 34V-34Q-44-44-34-44Z' fill='#cfc3ea' stroke='#7a5a3a' stroke-width='2'/><circle cx='37' cy='-37' r='4' fill='#d22'/><circle cx='37' cy='37' r='4' fill='#d22'/><circle cx='-37' cy='-37' r='4' fill='#d22'/><circle cx='-37' cy='37' r='4' fill='#d22'/><circle cx='-19' cy='-5' r='14' fill='#7fa6c9'/><circle cx='19' cy='-5' r='14' fill='#7fa6c9'/><circle cy='-5' r='19' fill='#96bbdb'/><path d='M0 2V19Q0 28 10 25' fill='none' stroke='#96bbdb' stroke-width='10'/><path d='M-11 9L-15 18M11 9L15 18' stroke='#fff' stroke-width='4'/><circle cx='-8' cy='-9' r='3' fill='#222'/><circle cx='8' cy='-9' r='3' fill='#222'/><text x='-26' y='34' font-size='17'>E</text></g>
<g id='C'><path d='M-34-44H34Q44-44 44-34V34Q44 44 34 44H-34Q-44 44-44 34V-34Q-44-44-34-44Z' fill='#c4e5b4' stroke='#7a5a3a' stroke-width='2'/><circle cx='0' cy='-37' r='4' fill='#d22'/><circle cy='4' r='22' fill='#fbe04c'/><circle cx='-8' cy='-1' r='3' fill='#222'/><circle cx='8' cy='-1' r='3' fill='#222'/><path d='M-6 4H6L0 12Z' fill='#ef8a1d'/><path d='M-22 6L-30 0M22 6L30 0' stroke='#fbe04c' stroke-width='6'/><text x='-26' y='34' font-size='17'>C</text></g>
<g id='H'><path d='M-34-44H34Q44-44 44-34V34Q44 44 34 44H-34Q-44 44-44 34V-34Q-44-44-34-44Z' fill='#c4e5b4' stroke='#7a5a3a' stroke-width='2'/><circle cx='0' cy='-37' r='4' fill='#d22'/><circle cx='37' cy='-37' r='4' fill='#d22'/><circle cx='-37' cy='-37' r='4' fill='#d22'/><circle cx='37' cy='0' r='4' fill='#d22'/><circle cx='-37' cy='0' r='4' fill='#d22'/><circle cx='0' cy='37' r='4' fill='#d22'/><path d='M-12-12Q-12-28-4-20Q0-32 4-20Q12-28 12-12Z' fill='#d8342b'/><circle cy='5' r='22' fill='#fff'/><circle cx='-8' cy='0' r='3' fill='#222'/><circle cx='8' cy='0' r='3' fill='#222'/><path d='M-6 5H6L0 13Z' fill='#ef8a1d'/><circle cy='17' r='4' fill='#d8342b'/><text x='-26' y='34' font-size='17'>H</text></g>
</defs>
<rect width='760' height='480' fill='#fffaf0'/>
<rect x='230' y='40' width='300' height='100' fill='#cfe8f7'/>
<rect x='230' y='140' width='300' height='200' fill='#f3e3bd'/>
<rect x='230' y='340' width='300' height='100' fill='#cde7b5'/>
<path d='M230 40V440M330 40V440M430 40V440M530 40V440M230 40H530M230 140H530M230 240H530M230 340H530M230 440H530' stroke='#7a5a3a' stroke-width='2'/>
<text x='280' y='28'>a</text><text x='280' y='466'>a</text>
<text x='380' y='28'>b</text><text x='380' y='466'>b</text>
<text x='480' y='28'>c</text><text x='480' y='466'>c</text>
<text x='216' y='97'>4</text><text x='544' y='97'>4</text>
<text x='216' y='197'>3</text><text x='544' y='197'>3</text>
<text x='216' y='297'>2</text><text x='544' y='297'>2</text>
<text x='216' y='397'>1</text><text x='544' y='397'>1</text>
<text x='106' y='28'>other side</text><text x='656' y='466'>side to move</text>
";

// What each picture begins with.
fn first_part() -> &'static str
    ensures { result.now ≡ background }
{
    BACKGROUND
}

// The name of a piece's picture in the background: its letter.
fn picture_name(kind: Kind) -> &'static str
    ensures { result.now ≡ letter_of_kind kind ∷ [] }
{
    match kind {
        Kind::Lion => "L",
        Kind::Giraffe => "G",
        Kind::Elephant => "E",
        Kind::Chick => "C",
        Kind::Hen => "H",
    }
}

// The turn of a side's pieces: the enemy's stand upside down.
fn turn_of(side: Side) -> &'static str
    ensures { result.now ≡ turn_text side }
{
    match side {
        Side::Mover => "",
        Side::Enemy => " rotate(180)",
    }
}

// The line that shows the picture of that name, so turned, its centre so far from the left and from the top.
fn use_line(
    alloc: Global,
    name: &str,
    turn: &str,
    left: usize,
    top: usize,
) -> Result<String, AllocError>
    ensures { IfOk result (λ line. string_bytes line ≡ use_line name.now turn.now left top) }
{
    format!(in alloc; "<use href='#{name}' transform='translate({left} {top}){turn}'/>\n")
}

// Draws the piece at the end, its centre so far from the left and from the top.
fn push_piece(
    alloc: Global,
    text: &mut String,
    piece: Piece,
    left: usize,
    top: usize,
) -> Result<(), Memory>
    ensures { OnOk result (string_bytes text.new ≡ string_bytes text.old ++ piece_picture piece left top) }
{
    let name = picture_name(piece.kind);
    let turn = turn_of(piece.side);
    let line = use_line(alloc, name, turn, left, top)?;
    text.push_str(line.as_str())?;
    Ok(())
}

// Draws what stands on the square at the end.
fn push_square(
    alloc: Global,
    text: &mut String,
    cell: Option<Piece>,
    square: Square,
) -> Result<(), Memory>
    ensures { OnOk result (string_bytes text.new ≡ string_bytes text.old ++ square_picture cell square) }
{
    match cell {
        Some(piece) => {
            let left = 280 + 100 * square.column();
            let top = 390 - 100 * square.row();
            push_piece(alloc, text, piece, left, top)
        }
        None => Ok(()),
    }
}

// Draws the pieces on the board at the end.
fn push_board(
    alloc: Global,
    text: &mut String,
    board: &[Option<Piece>; Square::COUNT],
) -> Result<(), Memory>
    ensures { OnOk result (string_bytes text.new ≡ string_bytes text.old ++ board_picture board.now) }
{
    for index in 0..Square::COUNT {
        push_square(alloc, text, board[index], Square::new(index))?;
    }
    Ok(())
}

// Where the hand of a side begins: how far from the left the first piece of a kind has its centre.
fn hand_left(side: Side) -> usize
    ensures { result ≡ hand_left side }
{
    match side {
        Side::Mover => 606,
        Side::Enemy => 54,
    }
}

// How far from the top the pieces of a kind have their centres in the hand of a side: as far from its player as those on
// row 1, row 2 and row 3.
fn hand_top(side: Side, row: usize) -> usize
    requires { row < 3 }
    ensures { result ≡ hand_top side row }
{
    match side {
        Side::Mover => 390 - 100 * row,
        Side::Enemy => 90 + 100 * row,
    }
}

// Draws `count` pieces of a kind at the end, side by side at the height of that row.
fn push_pieces(
    alloc: Global,
    text: &mut String,
    piece: Piece,
    row: usize,
    count: u8,
) -> Result<(), Memory>
    requires { row < 3 }
    ensures { OnOk result (string_bytes text.new ≡ string_bytes text.old ++ pieces_picture piece row count) }
{
    let first = hand_left(piece.side);
    let top = hand_top(piece.side, row);
    for place in 0..count as usize {
        push_piece(alloc, text, piece, first + 100 * place, top)?;
    }
    Ok(())
}

// Draws a hand at the end: the chicks nearest to its player, then the elephants, then the giraffes.
fn push_hand(alloc: Global, text: &mut String, side: Side, hand: Hand) -> Result<(), Memory>
    ensures { OnOk result (string_bytes text.new ≡ string_bytes text.old ++ hand_picture side hand) }
{
    let kind = Kind::Chick;
    push_pieces(alloc, text, Piece { side, kind }, 0, hand.chicks)?;
    let kind = Kind::Elephant;
    push_pieces(alloc, text, Piece { side, kind }, 1, hand.elephants)?;
    let kind = Kind::Giraffe;
    push_pieces(alloc, text, Piece { side, kind }, 2, hand.giraffes)
}

/// The position as a picture, an SVG of ASCII: the board with row 4 on top and the names of its rows and columns, the hand of
/// the side to move on the right and the other one on the left. Each piece is drawn in the colours and the form of the
/// game's own set, with its letter and a red dot for each of its steps; those of the other side stand upside down.
///
/// # Errors
///
/// `Memory` if no memory is left for the text.
pub fn picture_position(alloc: Global, position: &Position) -> Result<String, Memory>
    ensures { IfOk result (λ text. string_bytes text ≡ picture_of position.now.setup) }
{
    let setup = position.setup;
    let mut text = first_part().to_string(alloc)?;
    push_board(alloc, &mut text, &setup.board)?;
    push_hand(alloc, &mut text, Side::Mover, setup.hands.mover)?;
    push_hand(alloc, &mut text, Side::Enemy, setup.hands.enemy)?;
    text.push_str("</svg>\n")?;
    Ok(text)
}
