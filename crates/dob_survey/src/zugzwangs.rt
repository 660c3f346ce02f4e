// Zugzwangs of a database file: how many pairs of classes there are in which whoever has to move would rather not, and the first ones.
ghost use Rattle.std.specs.Prelude.{◌≡◌, ◌++◌, ◌∷◌, [], IfOk, IfSome, codes, flat_map, string_bytes};
ghost use Rattle.dob_pieces.specs.Bytes.{line_feed};
ghost use Rattle.dob_zugzwang.specs.Counts.{AreCounts};
ghost use Rattle.dob_zugzwang.specs.Pairs.{ArePairs};
ghost use Rattle.dob_survey.specs.Zugzwangs.{AreOfTable, IsOfTable, count_text, deepest_line, first_pairs, pair_line, pair_text, value_words, zugzwang_lines, zugzwangs_owed};
ghost use Rattle.dob_files.specs.Owed.{GivesOwed};

use dob_files::{Answer, open};
use dob_lines::joined;
use dob_pieces::{Memory, Position};
use dob_shelf::Shelf;
use dob_text::write_position;
use dob_value::{Table, Value};
use dob_zugzwang::{PairCounts, Zugzwang, count_pairs, zugzwangs};
use std::alloc::Global;
use std::thread::Threads;

/// The lines that say how many pairs of the file's table are lost by whoever has to move, and how many by one where the other draws, with
/// the deepest of those lost by both; and then a line for each of the first pairs, as many as are asked for.
pub fn answer_zugzwangs<S: Shelf>(
    rt: &(impl Threads + Sync),
    alloc: Global,
    shelf: &mut S,
    file: &str,
    listed: Option<u64>,
) -> Answer
    ensures { GivesOwed (zugzwangs_owed file.now listed) S.state shelf.old shelf.new result }
{
    let table = open(alloc, shelf, file)?;
    let pairs = zugzwangs(rt, alloc, &table)?;
    Ok(pairs_told(alloc, &table, &pairs, listed)?)
}

// The lines about the table by its pairs.
fn pairs_told(
    alloc: Global,
    table: &Table,
    pairs: &[Zugzwang],
    listed: Option<u64>,
) -> Result<String, Memory>
    requires { ArePairs table.now pairs.now }
    ensures { IfOk result (λ lines. (counts : PairCounts) × AreCounts pairs.now counts
        × (string_bytes lines ≡ zugzwang_lines table.now.family counts listed pairs.now)) }
{
    let counts = count_pairs(pairs);
    zugzwang_lines(alloc, table, counts, first_pairs(pairs, listed))
}

// The lines of the counts, and one for each of the pairs.
fn zugzwang_lines(
    alloc: Global,
    table: &Table,
    counts: PairCounts,
    first: &[Zugzwang],
) -> Result<String, Memory>
    requires deepest { IfSome counts.deepest (IsOfTable table.now) }
    requires first { AreOfTable table.now first.now }
    ensures { IfOk result (λ lines. string_bytes lines
        ≡ count_text counts ++ (deepest_line table.now.family counts.deepest ++ flat_map (pair_line table.now.family) first.now)) }
{
    let mut lines = count_text(alloc, counts)?;
    let deepest = deepest_line(alloc, table, counts.deepest)?;
    let listed = pair_lines(alloc, table, first)?;
    lines.push_str(deepest.as_str())?;
    lines.push_str(listed.as_str())?;
    Ok(lines)
}

// The first of the pairs, as many as are asked for.
fn first_pairs(pairs: &[Zugzwang], listed: Option<u64>) -> &[Zugzwang]
    ensures { result.now ≡ first_pairs listed pairs.now }
{
    match listed {
        None => &pairs[..0],
        Some(count) => &pairs[..count.min(pairs.len() as u64) as usize],
    }
}

// The lines of both counts.
fn count_text(alloc: Global, counts: PairCounts) -> Result<String, Memory>
    ensures { IfOk result (λ lines. string_bytes lines ≡ count_text counts) }
{
    let both = counts.lost_by_both;
    let drawn = counts.loss_and_draw;
    Ok(format!(in alloc; "lost by both {both}\nloss and draw {drawn}\n")?)
}

// The line of the deepest pair, or nothing if there is none.
fn deepest_line(alloc: Global, table: &Table, deepest: Option<Zugzwang>) -> Result<String, Memory>
    requires { IfSome deepest (IsOfTable table.now) }
    ensures { IfOk result (λ line. string_bytes line ≡ deepest_line table.now.family deepest) }
{
    match deepest {
        None => Ok(String::new(alloc)),
        Some(pair) => {
            let line = pair_line(alloc, table, pair)?;
            Ok(format!(in alloc; "deepest {line}")?)
        }
    }
}

fn pair_lines(alloc: Global, table: &Table, pairs: &[Zugzwang]) -> Result<String, Memory>
    requires { AreOfTable table.now pairs.now }
    ensures { IfOk result (λ lines. string_bytes lines ≡ flat_map (pair_line table.now.family) pairs.now) }
{
    joined(alloc, pairs, |pair| pair_line(alloc, table, pair))
}

fn pair_line(alloc: Global, table: &Table, pair: Zugzwang) -> Result<String, Memory>
    requires { IsOfTable table.now pair }
    ensures { IfOk result (λ line. string_bytes line ≡ pair_line table.now.family pair) }
{
    let position = table.classes().class_at(pair.class);
    let line = pair_text(alloc, &position, pair)?;
    Ok(line)
}

// The line of the pair with that position.
fn pair_text(alloc: Global, position: &Position, pair: Zugzwang) -> Result<String, Memory>
    ensures { IfOk result (λ line. string_bytes line ≡ pair_text position.now.setup pair) }
{
    let text = write_position(alloc, position)?;
    let value = value_words(alloc, pair.value)?;
    let turn_value = value_words(alloc, pair.turn_value)?;
    three_texts(alloc, text.as_str(), value.as_str(), turn_value.as_str())
}

// The texts on a line, with two spaces between them.
fn three_texts(alloc: Global, text: &str, value: &str, turn_value: &str) -> Result<String, Memory>
    ensures { IfOk result (λ line. string_bytes line
        ≡ text.now ++ (codes "  " ++ (value.now ++ (codes "  " ++ (turn_value.now ++ line_feed ∷ []))))) }
{
    Ok(format!(in alloc; "{text}  {value}  {turn_value}\n")?)
}

fn value_words(alloc: Global, value: Value) -> Result<String, Memory>
    ensures { IfOk result (λ words. string_bytes words ≡ value_words value) }
{
    match value {
        Value::Win(plies) => Ok(format!(in alloc; "win {plies}")?),
        Value::Loss(plies) => Ok(format!(in alloc; "loss {plies}")?),
        Value::Draw => Ok("draw".to_string(alloc)?),
    }
}
