// What a row of the table of subcommands is made of, and what rows share.
//
// A row is made of tuples, since a constant of structs that hold texts has no name in specs/.

/// What a text has to be.
#[derive(Clone, Copy)]
pub enum ArgumentKind {
    /// Any text, as a position's or a file's name.
    Any,
    /// A number below 2^64.
    Number,
    /// The name of a profile of the rules.
    Profile,
    /// The name of a file that is written, which none of the program's own streams has.
    Output,
}

/// Whether a text may be left out.
#[derive(Clone, Copy)]
pub enum Presence {
    Must,
    May,
}

/// A text: what it is called, what it has to be, whether it may be left out, and what the help says of it.
pub type Argument = (&'static str, ArgumentKind, Presence, &'static str);

/// An option: the name behind `--`, and its text.
pub type OptionArgument = (&'static str, Argument);

/// A flag: the name behind `--`, by which it is called too, and what the help says of it.
pub type Flag = (&'static str, &'static str);

/// A row: a subcommand's name, what it does, what it says of itself where its help is asked for, its options, its flags, and the texts that come with no
/// option, in the order of their places.
pub type SubcommandRow = (
    &'static str,
    &'static str,
    &'static str,
    &'static [OptionArgument],
    &'static [Flag],
    &'static [Argument],
);

/// The names of the profiles, which `--rules` takes.
pub const PROFILES: &[&str] = &["A", "B"];

// ---- options, flags and places that rows share

pub(crate) const RULES: OptionArgument = (
    "rules",
    (
        "PROFILE",
        ArgumentKind::Profile,
        Presence::May,
        "The rules: B lets no chick be dropped on its far row, A does; A where it is left out",
    ),
);

pub(crate) const SET: OptionArgument = (
    "set",
    (
        "CEG",
        ArgumentKind::Any,
        Presence::Must,
        "The piece set, as three digits",
    ),
);

pub(crate) const DB: OptionArgument = (
    "db",
    (
        "FILE",
        ArgumentKind::Any,
        Presence::Must,
        "The database file",
    ),
);

pub(crate) const CERT: OptionArgument = (
    "cert",
    ("CERT", ArgumentKind::Any, Presence::Must, "The certificate"),
);

pub(crate) const PROGRESS: Flag = ("progress", "Says on standard error how far it is");

pub(crate) const POSITION: Argument = (
    "POSITION",
    ArgumentKind::Any,
    Presence::Must,
    "The position, as text",
);

pub(crate) const EACH: Flag = (
    "each",
    "Each line of standard input is a position, and answered by a line",
);

pub(crate) const JSON: Flag = ("json", "Answers as JSON, an object on a line");

pub(crate) const LONE_POSITION: Argument = (
    "POSITION",
    ArgumentKind::Any,
    Presence::May,
    "The position, as text, where `--each` isn't given",
);
