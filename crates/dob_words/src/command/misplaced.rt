// A file that is to be written to one of the program's own streams.
ghost use Rattle.std.specs.Prelude.{◌≡◌, is_some, map};
ghost use Rattle.std.specs.List.{list_any};
ghost use Rattle.dob_words.specs.Forms.{is_output_kind};
ghost use Rattle.dob_words.specs.Shapes.{choice_said, is_stream_for, is_stream_in, row_said};
ghost use Rattle.dob_words.specs.Words.{is_stream};

use crate::table::{ArgumentKind, OptionArgument, SubcommandRow};
use clap::ArgMatches;
use std::alloc::{AllocError, Global};

/// An option that is given a stream where it has to have the name of a file, by that text.
#[derive(Clone, Copy)]
pub(super) struct Misplaced<'a> {
    name: &'a str,
    label: &'a str,
    text: &'a str,
}

impl Misplaced<'_> {
    /// The usage error, which names the option and its text.
    pub(super) fn text(self, alloc: Global) -> Result<String, AllocError> {
        let text = self.text;
        let name = self.name;
        let label = self.label;
        format!(in alloc;
            "error: invalid value '{text}' for '--{name} <{label}>': it names a stream, not a file

For more information, try '--help'.
"
        )
    }
}

/// The option of the subcommand of that name, one of these rows, for which its matches have a stream, if there is one.
pub(super) fn stream_of<'a>(
    rows: &[SubcommandRow],
    name: &str,
    inner: &ArgMatches<'a>,
) -> Option<Misplaced<'a>>
    ensures { is_some result ≡ list_any (λ row. is_stream_in name.now inner.now row) (map row_said rows.now) }
{
    for row in rows {
        if let Some(found) = stream_in(*row, name, inner) {
            return Some(found);
        }
    }
    None
}

// The row's option for which the matches have a stream, where the row is that of the subcommand.
fn stream_in<'a>(row: SubcommandRow, name: &str, inner: &ArgMatches<'a>) -> Option<Misplaced<'a>>
    ensures { is_some result ≡ is_stream_in name.now inner.now (row_said row.entry) }
{
    let (own, _, _, options, _, _) = row;
    if own == name {
        first_stream(options, inner)
    } else {
        None
    }
}

// The first of these options for which the matches have a stream, if there is one.
fn first_stream<'a>(options: &[OptionArgument], inner: &ArgMatches<'a>) -> Option<Misplaced<'a>>
    ensures { is_some result ≡ list_any (λ choice. is_stream_for inner.now choice) (map choice_said options.now) }
{
    for choice in options {
        if let Some(found) = stream_for(*choice, inner) {
            return Some(found);
        }
    }
    None
}

// This option, if the matches have a stream for it where it has to have the name of a file.
fn stream_for<'a>(choice: OptionArgument, inner: &ArgMatches<'a>) -> Option<Misplaced<'a>>
    ensures { is_some result ≡ is_stream_for inner.now (choice_said choice.entry) }
{
    let (name, place) = choice;
    let (label, kind, _, _) = place;
    let text = inner.get_str(label)?;
    if is_output(kind) && is_stream(text) {
        Some(Misplaced { name, label, text })
    } else {
        None
    }
}

// Whether it is the name of a file that is written.
fn is_output(kind: ArgumentKind) -> bool
    ensures { result ≡ is_output_kind kind }
{
    match kind {
        ArgumentKind::Output => true,
        ArgumentKind::Any | ArgumentKind::Number | ArgumentKind::Profile => false,
    }
}

// Whether the text names one of the program's own streams.
fn is_stream(text: &str) -> bool
    ensures { result ≡ is_stream text.now }
{
    match text {
        "-" | "/dev/stdin" | "/dev/stdout" | "/dev/stderr" => true,
        _ => text.starts_with("/dev/fd/") || text.starts_with("/proc/self/fd/"),
    }
}
