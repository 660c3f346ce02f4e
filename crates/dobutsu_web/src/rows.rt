// Class numbers by rows that the caller keeps, so that each is found at once.
ghost use Rattle.std.specs.Prelude.{◌≡◌, ◌≢◌, ◌<◌, MatchOption};
ghost use Rattle.dob_pieces.specs.declared.profile.Family.{Family as AnyFamily};
ghost use Rattle.dob_pieces.specs.declared.setup.Setup.{Setup as AnySetup};
ghost use Rattle.dob_classes.specs.BlockRows.{IsRow};
ghost use Rattle.dob_rank.specs.Families.{IsPositionOf};
ghost use Rattle.dobutsu_web.specs.Asked.{IsTextAsked, IsRefused, IsBlockOf};
ghost use Rattle.dobutsu_web.specs.Rows.{IsClassBy, HasNoRow, IsRightRow, IsToldClass};

use crate::asked::ask;
use crate::numbers::NO_ROW;
use dob_classes::{ROW_LEN, block_number, class_number_by_any, count_blocks, write_row};
use dob_pieces::{Family, Position};

/// The number of the block of the position of that text. It answers 0 and writes it, or a fault as `dobutsu_class` does.
#[unsafe(no_mangle)]
pub extern "C" fn dobutsu_block(text: &[u8], profile: u32, block: &mut u64) -> u32
    ensures told { result ≡ 0 → IsBlockOf text.now profile block.new }
    ensures refused { result ≢ 0 → IsRefused text.now profile result }
    ensures unchanged { result ≢ 0 → block.new ≡ block.old }
{
    match ask(text, profile) {
        Ok(asked) => {
            *block = block_number(asked.family, &asked.position);
            0
        }
        Err(refusal) => refusal.number(),
    }
}

/// Writes the row of a block of the pieces of that position, 101 numbers. It answers 0; 29 if there is no such block or no such room; or a
/// fault as `dobutsu_class` does.
#[unsafe(no_mangle)]
pub extern "C" fn dobutsu_row(text: &[u8], profile: u32, block: u64, row: &mut [u64]) -> u32
    ensures told { result ≡ 0 → (family : AnyFamily) × (setup : AnySetup) × IsTextAsked text.now profile family setup × IsRow family block row.new }
    ensures room { result ≡ 29 → (family : AnyFamily) × (setup : AnySetup) × IsTextAsked text.now profile family setup × HasNoRow family block row.old }
    ensures refused { result ≢ 0 → result ≢ 29 → IsRefused text.now profile result }
    ensures unchanged { result ≢ 0 → row.new ≡ row.old }
{
    match ask(text, profile) {
        Ok(asked) => {
            if row.len() != ROW_LEN || block >= count_blocks(asked.family.set) {
                return NO_ROW;
            }
            write_row(asked.family, block, row);
            0
        }
        Err(refusal) => refusal.number(),
    }
}

/// The class of the position of that text by the row of its block, which `dobutsu_row` has written for a position of the same pieces: as
/// `dobutsu_class`, but at once. `classes` is how many classes there are, which the file's header says. It answers 0 and writes the class's number, which is below
/// `classes`; 29 if the row hasn't 101 numbers or what comes out isn't below `classes`, which is never so of the right row and number; or a fault
/// as `dobutsu_class` does. By numbers that are no row of that block the class is some number below `classes`.
#[unsafe(no_mangle)]
pub extern "C" fn dobutsu_class_by(
    text: &[u8],
    profile: u32,
    row: &[u64],
    classes: u64,
    class: &mut u64,
) -> u32
    ensures told { result ≡ 0 → IsToldClass text.now profile row.now class.new }
    ensures below { result ≡ 0 → class.new < classes }
    ensures row { result ≡ 29 → (family : AnyFamily) × (setup : AnySetup) × IsTextAsked text.now profile family setup × ¬ IsRightRow family setup row.now classes }
    ensures refused { result ≢ 0 → result ≢ 29 → IsRefused text.now profile result }
    ensures unchanged { result ≢ 0 → class.new ≡ class.old }
{
    match ask(text, profile) {
        Ok(asked) => match class_below(asked.family, row, classes, &asked.position) {
            Some(found) => {
                *class = found;
                0
            }
            None => NO_ROW,
        },
        Err(refusal) => refusal.number(),
    }
}

/// The class of a position of the family by those numbers, if it is below `classes`.
pub(crate) fn class_below(
    family: Family,
    row: &[u64],
    classes: u64,
    position: &Position,
) -> Option<u64>
    requires { IsPositionOf family position.now.setup }
    ensures { MatchOption result
        (¬ IsRightRow family position.now.setup row.now classes)
        (λ class. IsClassBy family row.now position.now.setup class × (class < classes)) }
{
    if row.len() != ROW_LEN {
        return None;
    }
    let class = class_number_by_any(family, row, position);
    if class < classes { Some(class) } else { None }
}
