// What the program is asked to do, and how the matches of a subcommand say it.
ghost use Rattle.std.specs.Prelude.{◌≡◌, IfSome, Option, Some, codes, is_some, option_map, true};
ghost use Rattle.clap.specs.Words.{first_value, found_of};
ghost use Rattle.dob_words.specs.Forms.{Text, form_named, forms};
ghost use Rattle.dob_words.specs.Shapes.{HasFit, IsNamed, texts_in};
ghost use Rattle.dob_words.specs.Readings.{IsFlaggedBy, IsLinesOrder, IsOneOf, IsReadFor, line_form, name_asked, name_by, stats_form, text_given};
ghost use Rattle.dob_words.specs.Words.{asks, cleared, is_number, lacks_file, number_in, profile_named};
ghost use Rattle.dob_words.specs.declared.command.orders.Question.TheVariants as ask;
ghost use Rattle.dob_words.specs.declared.command.orders.ValueForm.TheVariants as value;

use clap::ArgMatches;
use dob_pieces::Profile;

/// What is asked of a position.
#[derive(Clone, Copy)]
pub enum Question {
    /// What the position is worth.
    Value(ValueForm),
    /// Its moves with their values.
    Moves(MovesForm),
    /// The best moves of both sides from the position to the end.
    Line(LineForm),
}

/// How a value is told.
#[derive(Clone, Copy)]
pub enum ValueForm {
    /// On a line.
    Plain,
    /// As a JSON object.
    Object,
}

/// How moves with their values are told.
#[derive(Clone, Copy)]
pub enum MovesForm {
    /// Each on a line.
    Plain,
    /// The first of them alone.
    Best,
    /// As a JSON object.
    Object,
}

/// How a line is told.
#[derive(Clone, Copy)]
pub enum LineForm {
    /// Its moves, all on one line.
    Plain,
    /// Each move on a line with its number.
    Numbered,
    /// The position's value and its line, as a JSON object.
    Object,
    /// The position drawn, with its value and its line.
    Drawn,
}

/// What a position is asked by a database file, and by what of it.
#[derive(Clone, Copy)]
pub struct Asked {
    pub question: Question,
    pub by: By,
}

/// By what of a file it is asked.
#[derive(Clone, Copy)]
pub enum By {
    /// By its table, which is read whole and tested.
    Table,
    /// By its header and the records that the answer needs.
    Records,
}

/// What the program is asked to do.
#[derive(Clone, Copy)]
pub enum Order<'a> {
    /// To print lines, or to be refused.
    Lines(LinesOrder<'a>),
    /// To answer the position of each line of standard input by the file, where a line may be refused.
    EachLine { file: &'a str, asked: Asked },
}

/// What is answered by lines, or by a fault.
#[derive(Clone, Copy)]
pub enum LinesOrder<'a> {
    /// To print the value of the position that the text names, by the rules of the profile.
    Value {
        profile: Profile,
        position: &'a str,
    },
    /// To print the numbers of positions and of classes of the piece set that the text names, by the rules of the profile.
    Count {
        profile: Profile,
        set: &'a str,
    },
    /// To print how many classes are reached from that of the position; where a table's file is named, by its rules, and how many of them have
    /// which value.
    Reach {
        search: ReachSearch,
        file: Option<&'a str>,
        position: &'a str,
    },
    /// To build a table.
    Build(BuildOrder<'a>),
    /// To print what the position is asked by the file.
    Ask {
        file: &'a str,
        asked: Asked,
        position: &'a str,
    },
    /// To tell whether the table of the file is consistent, and how far that is if it is watched.
    Check {
        file: &'a str,
        is_watched: bool,
    },
    /// To draw the position that the text names, in a file too if one is named for the picture; where a table's file is
    /// named, to print the position's value and its line by it.
    Show {
        file: Option<&'a str>,
        picture: Option<&'a str>,
        position: &'a str,
    },
    /// To print how many classes of the file's table have which value.
    Stats {
        file: &'a str,
        form: StatsForm,
    },
    /// To print how many pairs of classes of the file's table whoever has to move would rather not move in, and the first N of them
    /// where a number is given.
    Zugzwangs {
        file: &'a str,
        listed: Option<u64>,
    },
    /// To print puzzles of the file's table.
    Puzzles {
        file: &'a str,
        search: PuzzleSearch,
    },
    /// To keep the table of the file under the other name, in the format that is written.
    Migrate {
        file: &'a str,
        out: &'a str,
    },
    /// To make a certificate.
    Certify(CertifyOrder<'a>),
    /// To say what the certificate of the file proves, and how far that is if it is watched.
    Verify {
        file: &'a str,
        is_watched: bool,
    },
    /// To print the move that the certificate of the file gives for the position.
    Reply {
        file: &'a str,
        position: &'a str,
    },
    /// To print what the header of the file says, a table's or a certificate's; as a JSON object if that is asked for.
    Info {
        file: &'a str,
        is_object: bool,
    },
}

/// How it is looked for what can be reached.
#[derive(Clone, Copy)]
pub struct ReachSearch {
    /// The rules, where no file says them.
    pub profile: Profile,
    /// Whether there is a line for each distance.
    pub has_levels: bool,
    /// Whether there is a line for each value by the file; it isn't where none is named.
    pub has_values: bool,
    /// Whether the lines are JSON objects.
    pub is_json: bool,
    /// Whether lines on the console say how far it is.
    pub is_watched: bool,
}

/// How statistics are told: as lines, as lines of two fields for scripts, or as JSON objects.
#[derive(Clone, Copy)]
pub enum StatsForm {
    Lines,
    Csv,
    Objects,
}

/// Which puzzles are looked for, positions with exactly one fastest win, and how they are printed.
#[derive(Clone, Copy)]
pub struct PuzzleSearch {
    /// In how many plies they are won.
    pub plies: u64,
    /// How many of them, at most.
    pub count: u64,
    /// The class behind which they stand, where one is given.
    pub from: Option<u64>,
    /// What makes their order, where it is given.
    pub seed: Option<u64>,
    /// Whether the number of its class stands before each.
    pub is_numbered: bool,
}

/// To build the table of the piece set that the text names, by the rules of the profile and by `nodes` nodes, or by as many as
/// there are processors, and to keep it under the name; and how far that is if it is watched.
#[derive(Clone, Copy)]
pub struct BuildOrder<'a> {
    pub profile: Profile,
    pub set: &'a str,
    pub nodes: Option<u64>,
    pub file: &'a str,
    pub is_watched: bool,
}

/// To make a certificate of the position by the table of the file, exact if that is asked for and of at most `most` entries if a
/// number is given, and to keep it under the other name; and to say how far that is if it is watched.
#[derive(Clone, Copy)]
pub struct CertifyOrder<'a> {
    pub file: &'a str,
    pub out: &'a str,
    pub most: Option<u64>,
    pub is_exact: bool,
    pub is_watched: bool,
    pub position: &'a str,
}

// What the matches of the subcommand of that name ask for; nothing if that isn't clear, as of `probe` with both a position and `--each`.
pub(super) fn order_for<'a>(name: &str, inner: &ArgMatches<'a>) -> Option<Order<'a>>
    requires named { IsNamed name.now forms }
    requires fit { HasFit (form_named name.now) inner.now }
    ensures { IsReadFor (cleared (asks name.now (texts_in (form_named name.now) inner.now))) result }
{
    match name {
        "probe" => asked_order(inner, value_asked(By::Table, inner.get_str("json"))),
        "look" => asked_order(inner, value_asked(By::Records, inner.get_str("json"))),
        "moves" => asked_order(inner, moves_asked(inner.get_str("json"))),
        "best" => asked_order(
            inner,
            Asked {
                question: Question::Moves(MovesForm::Best),
                by: By::Records,
            },
        ),
        "line" => asked_order(
            inner,
            line_asked(
                inner.get_str("numbered"),
                inner.get_str("records"),
                inner.get_str("each"),
                inner.get_str("json"),
            ),
        ),
        "value" => Some(Order::Lines(LinesOrder::Value {
            profile: profile_named(inner.get_str("PROFILE")),
            position: text(inner, "POSITION"),
        })),
        "count" => Some(Order::Lines(LinesOrder::Count {
            profile: profile_named(inner.get_str("PROFILE")),
            set: text(inner, "CEG"),
        })),
        "reach" => reach_order(inner),
        "build" => Some(Order::Lines(build_order(inner))),
        "check" => Some(Order::Lines(LinesOrder::Check {
            file: text(inner, "FILE"),
            is_watched: inner.get_str("progress").is_some(),
        })),
        "show" => Some(Order::Lines(LinesOrder::Show {
            file: inner.get_str("FILE"),
            picture: inner.get_str("OUT"),
            position: text(inner, "POSITION"),
        })),
        "stats" => Some(Order::Lines(LinesOrder::Stats {
            file: text(inner, "FILE"),
            form: stats_form(inner.get_str("csv"), inner.get_str("json")),
        })),
        "zugzwangs" => Some(Order::Lines(zugzwangs_order(inner))),
        "puzzles" => Some(Order::Lines(puzzles_order(inner))),
        "migrate" => Some(Order::Lines(LinesOrder::Migrate {
            file: text(inner, "FILE"),
            out: text(inner, "OUT"),
        })),
        "certify" => Some(Order::Lines(certify_order(inner))),
        "verify" => Some(Order::Lines(LinesOrder::Verify {
            file: text(inner, "CERT"),
            is_watched: inner.get_str("progress").is_some(),
        })),
        "reply" => Some(Order::Lines(LinesOrder::Reply {
            file: text(inner, "CERT"),
            position: text(inner, "POSITION"),
        })),
        "info" => Some(Order::Lines(LinesOrder::Info {
            file: text(inner, "FILE"),
            is_object: inner.get_str("json").is_some(),
        })),
        _ => None,
    }
}

// What the matches of `reach` ask for; nothing if a line for each value is asked for and no file is named.
fn reach_order<'a>(inner: &ArgMatches<'a>) -> Option<Order<'a>>
    requires { HasFit (form_named (codes "reach")) inner.now }
    ensures { IsReadFor (cleared (asks (codes "reach") (texts_in (form_named (codes "reach")) inner.now))) result }
{
    let file = inner.get_str("FILE");
    let values = inner.get_str("values");
    if needs_file(file, values) {
        return None;
    }
    let search = ReachSearch {
        profile: profile_named(inner.get_str("PROFILE")),
        has_levels: inner.get_str("levels").is_some(),
        has_values: values.is_some(),
        is_json: inner.get_str("json").is_some(),
        is_watched: inner.get_str("progress").is_some(),
    };
    Some(Order::Lines(LinesOrder::Reach {
        search,
        file,
        position: text(inner, "POSITION"),
    }))
}

// Whether a line for each value is asked for where no file is named.
fn needs_file(file: Option<&str>, values: Option<&str>) -> bool
    ensures { result ≡ lacks_file (text_given file.entry) (text_given values.entry) }
{
    values.is_some() && file.is_none()
}

// What the matches of `build` ask for.
fn build_order<'a>(inner: &ArgMatches<'a>) -> LinesOrder<'a>
    requires { HasFit (form_named (codes "build")) inner.now }
    ensures { IsLinesOrder (codes "build") inner.now result }
{
    LinesOrder::Build(BuildOrder {
        profile: profile_named(inner.get_str("PROFILE")),
        set: text(inner, "CEG"),
        nodes: number_given(inner.get_str("N")),
        file: text(inner, "FILE"),
        is_watched: inner.get_str("progress").is_some(),
    })
}

// What the matches of `zugzwangs` ask for.
fn zugzwangs_order<'a>(inner: &ArgMatches<'a>) -> LinesOrder<'a>
    requires { HasFit (form_named (codes "zugzwangs")) inner.now }
    ensures { IsLinesOrder (codes "zugzwangs") inner.now result }
{
    LinesOrder::Zugzwangs {
        file: text(inner, "FILE"),
        listed: number_given(inner.get_str("N")),
    }
}

// What the matches of `puzzles` ask for.
fn puzzles_order<'a>(inner: &ArgMatches<'a>) -> LinesOrder<'a>
    requires { HasFit (form_named (codes "puzzles")) inner.now }
    ensures { IsLinesOrder (codes "puzzles") inner.now result }
{
    let search = PuzzleSearch {
        plies: number(text(inner, "D")),
        count: number(text(inner, "N")),
        from: number_given(inner.get_str("CLASS")),
        seed: number_given(inner.get_str("SEED")),
        is_numbered: inner.get_str("numbered").is_some(),
    };
    LinesOrder::Puzzles {
        file: text(inner, "FILE"),
        search,
    }
}

// What the matches of `certify` ask for.
fn certify_order<'a>(inner: &ArgMatches<'a>) -> LinesOrder<'a>
    requires { HasFit (form_named (codes "certify")) inner.now }
    ensures { IsLinesOrder (codes "certify") inner.now result }
{
    LinesOrder::Certify(CertifyOrder {
        file: text(inner, "FILE"),
        out: text(inner, "CERT"),
        most: number_given(inner.get_str("N")),
        is_exact: inner.get_str("exact").is_some(),
        is_watched: inner.get_str("progress").is_some(),
        position: text(inner, "POSITION"),
    })
}

// What `probe` and `look` ask by their flag.
fn value_asked(by: By, json: Option<&str>) -> Asked
    ensures name { name_asked result ≡ name_by by (ask.Value value.Plain) }
    ensures flagged { (numbered records each : Option Text) → IsFlaggedBy result.by result.question numbered records each (text_given json.entry) }
{
    let form = match json {
        None => ValueForm::Plain,
        Some(_) => ValueForm::Object,
    };
    Asked {
        question: Question::Value(form),
        by,
    }
}

// What `moves` asks by its flag.
fn moves_asked(json: Option<&str>) -> Asked
    ensures name { name_asked result ≡ codes "moves" }
    ensures flagged { (numbered records each : Option Text) → IsFlaggedBy result.by result.question numbered records each (text_given json.entry) }
{
    let form = match json {
        None => MovesForm::Plain,
        Some(_) => MovesForm::Object,
    };
    Asked {
        question: Question::Moves(form),
        by: By::Records,
    }
}

// What `line` asks by its flags. Each of many lines needs but a few of the records.
fn line_asked(
    numbered: Option<&str>,
    records: Option<&str>,
    each: Option<&str>,
    json: Option<&str>,
) -> Asked
    ensures name { name_asked result ≡ codes "line" }
    ensures flagged { IsFlaggedBy result.by result.question (text_given numbered.entry) (text_given records.entry) (text_given each.entry) (text_given json.entry) }
{
    let by = match (records, each) {
        (None, None) => By::Table,
        _ => By::Records,
    };
    Asked {
        question: Question::Line(line_form(numbered, json)),
        by,
    }
}

// How a line is told: as JSON, also where its moves are to be numbered.
fn line_form(numbered: Option<&str>, json: Option<&str>) -> LineForm
    ensures { result ≡ line_form (text_given numbered.entry) (text_given json.entry) }
{
    match (numbered, json) {
        (_, Some(_)) => LineForm::Object,
        (Some(_), None) => LineForm::Numbered,
        (None, None) => LineForm::Plain,
    }
}

// How statistics are told: as JSON, also where they are to be for scripts.
fn stats_form(csv: Option<&str>, json: Option<&str>) -> StatsForm
    ensures { result ≡ stats_form (text_given csv.entry) (text_given json.entry) }
{
    match (csv, json) {
        (_, Some(_)) => StatsForm::Objects,
        (Some(_), None) => StatsForm::Csv,
        (None, None) => StatsForm::Lines,
    }
}

// What the matches ask for by one position or by `--each`, if it is clear.
fn asked_order<'a>(inner: &ArgMatches<'a>, asked: Asked) -> Option<Order<'a>>
    requires fit { HasFit (form_named (name_asked asked)) inner.now }
    requires flagged { IsFlaggedBy asked.by asked.question (first_value (found_of inner.now) (codes "numbered")) (first_value (found_of inner.now) (codes "records"))
        (first_value (found_of inner.now) (codes "each")) (first_value (found_of inner.now) (codes "json")) }
    ensures { IsReadFor (cleared (asks (name_asked asked) (texts_in (form_named (name_asked asked)) inner.now))) result }
{
    let file = text(inner, "FILE");
    match asked_of(inner)? {
        Some(position) => Some(Order::Lines(LinesOrder::Ask {
            file,
            asked,
            position,
        })),
        None => Some(Order::EachLine { file, asked }),
    }
}

// The position that is asked for, or none if it is `--each`; nothing if both are given, or none of them.
fn asked_of<'a>(inner: &ArgMatches<'a>) -> Option<Option<&'a str>>
    ensures { IsOneOf (first_value (found_of inner.now) (codes "each")) (first_value (found_of inner.now) (codes "POSITION")) result }
{
    match (inner.get_str("each"), inner.get_str("POSITION")) {
        (None, Some(position)) => Some(Some(position)),
        (Some(_), None) => Some(None),
        (Some(_), Some(_)) => None,
        (None, None) => None,
    }
}

// The text of that label, which is there.
fn text<'a>(inner: &ArgMatches<'a>, label: &str) -> &'a str
    requires { is_some (first_value (found_of inner.now) label.now) ≡ true }
    ensures { first_value (found_of inner.now) label.now ≡ Some result.now }
{
    match inner.get_str(label) {
        Some(text) => text,
        None => unreachable!(),
    }
}

// The number that the text gives.
fn number(text: &str) -> u64
    requires { is_number text.now ≡ true }
    ensures { result ≡ number_in text.now }
{
    match text.parse() {
        Ok(number) => number,
        Err(_) => unreachable!(),
    }
}

// The number that the text gives, if there is one.
fn number_given(text: Option<&str>) -> Option<u64>
    requires { IfSome (text_given text) (λ t. is_number t ≡ true) }
    ensures { result ≡ option_map number_in (text_given text.entry) }
{
    match text {
        None => None,
        Some(text) => Some(number(text)),
    }
}

// The profile that the text of `--rules` names, A where it is left out.
fn profile_named(rules: Option<&str>) -> Profile
    ensures { result ≡ profile_named (text_given rules.entry) }
{
    match rules {
        None => Profile::A,
        Some(name) => { if name == "B" { Profile::B } else { Profile::A } }
    }
}
