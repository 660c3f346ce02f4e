// Texts as they are shown, whose control characters do nothing to a terminal.
ghost use Rattle.std.specs.Prelude.{◌≤◌, ◌≢◌, IfOk, OnOk};
ghost use Rattle.dob_cli.specs.Runs.{AddsShown, LacksControls};

use dob_words::command::{Reading, read_words};
use std::alloc::{AllocError, Global};

/// The bytes of a text in UTF-8, with `\n` for a line feed, and `\xNN` for each byte of another control character or of one that turns the direction of
/// writing.
pub(crate) fn shown(alloc: Global, text: &[u8]) -> Result<Vec<u8>, AllocError>
    ensures { IfOk result (λ shown. LacksControls shown.items) }
{
    let mut shown = Vec::new(alloc);
    // how many bytes more such a character has
    let mut left = 0;
    for place in 0..text.len() {
        let hidden = hidden_length(&text[place..]);
        left = if hidden > 0 { hidden } else { left };
        push_shown(&mut shown, text[place], left > 0)?;
        left = left.saturating_sub(1);
    }
    Ok(shown)
}

// How many bytes a character has with which the text begins that does something to a terminal; 0 where it begins with another one.
fn hidden_length(text: &[u8]) -> usize {
    match text {
        [0..=31 | 127, ..] => 1,
        // C1
        [0xc2, 0x80..=0x9f, ..] => 2,
        // Arabic letter mark
        [0xd8, 0x9c, ..] => 2,
        // marks of direction, separators of lines and paragraphs, embeddings, overrides, isolates
        [0xe2, 0x80, 0x8e | 0x8f | 0xa8..=0xae, ..] => 3,
        [0xe2, 0x81, 0xa6..=0xa9, ..] => 3,
        _ => 0,
    }
}

// Adds the byte behind what there is, or its number where it is hidden or a control character.
fn push_shown(shown: &mut Vec<u8>, byte: u8, is_hidden: bool) -> Result<(), AllocError>
    ensures { OnOk result (AddsShown shown.old.items shown.new.items) }
{
    if is_hidden || byte < b' ' || byte == 127 {
        return push_escaped(shown, byte);
    }
    shown.push(byte)?;
    Ok(())
}

// Adds the number of the byte behind what there is.
fn push_escaped(shown: &mut Vec<u8>, byte: u8) -> Result<(), AllocError>
    ensures { OnOk result (AddsShown shown.old.items shown.new.items) }
{
    if byte == b'\n' {
        return shown.extend_from_slice(b"\\n");
    }
    let letters = [b'\\', b'x', digit(byte / 16), digit(byte % 16)];
    shown.extend_from_slice(&letters)
}

// The letter of a digit.
fn digit(number: u8) -> u8
    ensures { (32 ≤ result) × (result ≢ 127) }
{
    if number < 10 {
        b'0' + number
    } else {
        b'a' + number.min(15) - 10
    }
}

/// What is wrong with the words where each is shown; none where that is another thing than a usage error.
pub(crate) fn shown_usage(alloc: Global, words: &[&str]) -> Result<Option<String>, AllocError> {
    let mut texts = Vec::new(alloc);
    for word in words {
        match String::from_utf8(shown(alloc, word.as_bytes())?) {
            Ok(text) => texts.push(text)?,
            Err(_) => return Ok(None),
        }
    }
    let mut words = Vec::new(alloc);
    for text in &texts {
        words.push(text.as_str())?;
    }
    match read_words(alloc, &words) {
        Ok(Reading::Usage(text)) => Ok(Some(text)),
        Ok(Reading::Help(_) | Reading::Version | Reading::Order(_)) => Ok(None),
        Err(AllocError) => Err(AllocError),
    }
}
