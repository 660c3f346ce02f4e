// The subcommands of the program, a row each: from here come `clap`'s command, the help and what words mean (specs/Forms.antt). Below the rows stands what
// the program and each subcommand say of themselves where help is asked for, behind what `clap` writes of their words.
use crate::table::{
    ArgumentKind, CERT, DB, EACH, JSON, LONE_POSITION, POSITION, PROGRESS, Presence, RULES, SET,
    SubcommandRow,
};

/// The first six subcommands, in the order of the help. A constant of all rows takes far longer to prove than four.
pub const FIRST_ROWS: &[SubcommandRow] = &[
    (
        "value",
        "Prints the value of a position",
        VALUE,
        &[RULES],
        &[],
        &[POSITION],
    ),
    (
        "count",
        "Prints how many positions and classes a piece set has, as `count --set 100`",
        COUNT,
        &[SET, RULES],
        &[],
        &[],
    ),
    (
        "reach",
        "Prints how many classes a game from a position can reach, and how far they lie",
        REACH,
        &[
            (
                "db",
                (
                    "FILE",
                    ArgumentKind::Any,
                    Presence::May,
                    "A database file, for how many of them are won, lost and drawn; its rules count",
                ),
            ),
            RULES,
        ],
        &[
            (
                "levels",
                "A line for each distance, as `2 17`, after the others",
            ),
            (
                "values",
                "With `--db`: a line for each value, as `win 3 12`, before those of the distances",
            ),
            JSON,
            PROGRESS,
        ],
        &[POSITION],
    ),
    (
        "build",
        "Builds the database file of a piece set, as `build --set 100 --out 100.db`",
        BUILD,
        &[
            SET,
            (
                "nodes",
                (
                    "N",
                    ArgumentKind::Number,
                    Presence::May,
                    "The number of nodes, 1 to 16; as many as there are processors, 16 at most, where it is left out",
                ),
            ),
            (
                "out",
                (
                    "FILE",
                    ArgumentKind::Output,
                    Presence::Must,
                    "The database file, made anew or overwritten",
                ),
            ),
            RULES,
        ],
        &[PROGRESS],
        &[],
    ),
    (
        "probe",
        "Prints the value of a position by a database file",
        PROBE,
        &[DB],
        &[EACH, JSON],
        &[LONE_POSITION],
    ),
    (
        "line",
        "Prints the best play from a position by a database file",
        LINE,
        &[DB],
        &[
            ("numbered", "Each move on a line, with its number"),
            (
                "records",
                "Reads only the records that the answer needs; the rest of the file is not checked",
            ),
            EACH,
            JSON,
        ],
        &[LONE_POSITION],
    ),
];

/// The seventh to the twelfth subcommand.
pub const MIDDLE_ROWS: &[SubcommandRow] = &[
    (
        "check",
        "Checks that a database file is right, whoever made it",
        CHECK,
        &[DB],
        &[PROGRESS],
        &[],
    ),
    (
        "look",
        "Prints a position's value, reading only its record; the rest of the file is not checked",
        LOOK,
        &[DB],
        &[EACH, JSON],
        &[LONE_POSITION],
    ),
    (
        "show",
        "Draws the board of a position, with its squares' names and both hands",
        SHOW,
        &[
            (
                "db",
                (
                    "FILE",
                    ArgumentKind::Any,
                    Presence::May,
                    "A database file, for the value and the best play",
                ),
            ),
            (
                "svg",
                (
                    "OUT",
                    ArgumentKind::Output,
                    Presence::May,
                    "A file for the board as a picture, made anew or overwritten",
                ),
            ),
        ],
        &[],
        &[POSITION],
    ),
    (
        "moves",
        "Prints each move of a position with its value by a database file, best first",
        MOVES,
        &[DB],
        &[EACH, JSON],
        &[LONE_POSITION],
    ),
    (
        "best",
        "Prints the first move of the best play from a position by a database file, with its value",
        BEST,
        &[DB],
        &[EACH],
        &[LONE_POSITION],
    ),
    (
        "stats",
        "Prints how many classes of a database file have which value, and the longest ones",
        STATS,
        &[DB],
        &[
            (
                "csv",
                "A line for each value, as `win 3,12`, below the line `value,classes`",
            ),
            JSON,
        ],
        &[],
    ),
];

/// The thirteenth to the fifteenth subcommand.
pub const LATER_ROWS: &[SubcommandRow] = &[
    (
        "zugzwangs",
        "Prints how many positions there are in which neither side wants to move, and the deepest",
        ZUGZWANGS,
        &[
            DB,
            (
                "list",
                (
                    "N",
                    ArgumentKind::Number,
                    Presence::May,
                    "The first N of them, a line each, after the others",
                ),
            ),
        ],
        &[],
        &[],
    ),
    (
        "puzzles",
        "Prints positions of a database file with exactly one fastest winning move",
        PUZZLES,
        &[
            DB,
            (
                "plies",
                (
                    "D",
                    ArgumentKind::Number,
                    Presence::Must,
                    "In how many plies they are won: an odd number of at least 3",
                ),
            ),
            (
                "count",
                (
                    "N",
                    ArgumentKind::Number,
                    Presence::Must,
                    "How many of them at most",
                ),
            ),
            (
                "from",
                (
                    "CLASS",
                    ArgumentKind::Number,
                    Presence::May,
                    "Only those after the class of this number, which itself isn't printed",
                ),
            ),
            (
                "random",
                (
                    "SEED",
                    ArgumentKind::Number,
                    Presence::May,
                    "In an order that this number makes, each as likely as any other, and no two alike",
                ),
            ),
        ],
        &[(
            "numbered",
            "The number of its class before each position, for `--from`",
        )],
        &[],
    ),
    (
        "migrate",
        "Converts a database file to the current format (2)",
        MIGRATE,
        &[
            DB,
            (
                "out",
                (
                    "OUT",
                    ArgumentKind::Output,
                    Presence::Must,
                    "The database file to be written, made anew or overwritten; it may be the one that is read",
                ),
            ),
        ],
        &[],
        &[],
    ),
];

/// The subcommands from the sixteenth on.
pub const LAST_ROWS: &[SubcommandRow] = &[
    (
        "certify",
        "Makes a certificate of a position's value by a database file",
        CERTIFY,
        &[
            DB,
            (
                "out",
                (
                    "CERT",
                    ArgumentKind::Output,
                    Presence::Must,
                    "The certificate, made anew or overwritten",
                ),
            ),
            (
                "most",
                (
                    "N",
                    ArgumentKind::Number,
                    Presence::May,
                    "How many entries the certificate has at most; as many as it takes, where it is left out",
                ),
            ),
        ],
        &[
            (
                "exact",
                "Claims a win or a loss in so many plies and no fewer, not only within so many",
            ),
            PROGRESS,
        ],
        &[POSITION],
    ),
    (
        "verify",
        "Checks that a certificate proves what it claims, and prints that",
        VERIFY,
        &[CERT],
        &[PROGRESS],
        &[],
    ),
    (
        "reply",
        "Prints the winning move that a certificate gives",
        REPLY,
        &[CERT],
        &[],
        &[POSITION],
    ),
    (
        "info",
        "Prints what the header of a database file or of a certificate says",
        INFO,
        &[],
        &[JSON],
        &[(
            "FILE",
            ArgumentKind::Any,
            Presence::Must,
            "The database file, or the certificate",
        )],
    ),
];

// ---- what they say of themselves

pub(crate) const PROGRAM: &str =
    "`dobutsu value --help` says how a position is written and what the rules A and B are, `dobutsu count --help` how a
piece set is.

A fault is one line on standard error. Where that is a terminal, a line below E24, after two spaces, says which file or stream
failed and why, if that is known. The status is 1, and 3 for E12, E14, E23, E24 and E40:

  E1 Shape         the text isn't fifteen bytes with `/` at 3, 7 and 11, then twice a space and a word
  E2 Letter        a square is none of `.LGECHlgech`
  E3 Hand          a hand is neither `-` nor letters of C, E, G in that order, in the case of its side
  E4 Lions         a side hasn't just one lion
  E5 Count         there are more than two pieces of a kind, hens counted as chicks
  E6 FarLion       the lion of the side to move stands on row 4
  E7 OtherSet      the position's piece set isn't the file's: ask the file of its own set
  E9 Nodes         there aren't 1 to 16 nodes
  E12 TooDeep      of `value`: a distance would be above 65534 plies
  E14 Stopped node N: CAUSE
                   node N of a build has stopped. The cause: `E12 TooDeep`, `E23 Memory`, `Counts`, or
                   `E13 Contradiction class C`, an update for class C contradicts what the node knows
  E15 Truncated    the file ends too early
  E16 Magic        the file doesn't begin as database files do
  E17 SetByte      the file names no piece set
  E18 ClassCount   the file counts other classes than its piece set has
  E19 Trailing     the file goes on after its end
  E20 Digest       the file's digest isn't that of its bytes
  E21 Inconsistent class N
                   the value of class N doesn't follow from those one ply later
  E23 Memory       no memory is left
  E24 Io           standard output, standard input or the file failed
  E25 SetText      the piece set isn't three digits, each 0, 1 or 2
  E26 FarChick     by rules B, or of a file of rules B: a chick stands on its own far row. So
                   `dobutsu value --rules B \"C.l/.../.../L.. - -\"` is refused
  E27 ProfileByte  byte 12 of the file, or byte 13 of a certificate, names neither rules A nor B
  E30 to E42       of `certify`, `verify`, `reply` and `info`: `dobutsu verify --help` has them

A usage error ends with status 2. `dobutsu --version` prints the version.";

const VALUE: &str =
    "A position: four rows of three letters, row 4 (the far row of the side to move) first, joined
by `/`, then a space and the hand of the side to move, a space and the hand of the other side.

Letters: L lion, G giraffe, E elephant, C chick, H hen, upper case for the side to move and
lower case for the other side; `.` is an empty square. A hand is `-`, or letters of C, E, G in
that order with repeats, upper case for the side to move and lower case for the other side.

Rules: both follow those that the Japanese women professionals published, and differ in one choice that these leave
open. By A, the default, a chick may be dropped on its far row, where it has no move; by B it may not, and a position
with a chick on its own far row, row 4 for the side to move and row 1 for the other side, is none (E26).

It goes over all positions with the same pieces, in one thread: at once with up to two pieces besides the lions, in a third
of a second and 24 MB with three, and in much longer and more than 16 GB with six. Of such a set `dobutsu build` makes
a file once, which `dobutsu look` asks at once.

Answers: `win D`, `loss D` or `draw`, where D is the distance in plies.

Example: dobutsu value \"..l/.../L../... - -\" prints `win 3`.
dobutsu value --rules B \"C.l/.../.../L.. - -\" is refused with `E26 FarChick`: its chick stands on row 4. By rules A it is a `draw`.";

const COUNT: &str =
    "A piece set: three digits CEG, each 0, 1 or 2: how many chicks (hens counted with them), elephants
and giraffes there are besides the lions, on the board and in the hands together. `222` is the whole
game.

Answers: `positions N` and `classes N`, where a class is a position with its mirror image. `dobutsu value --help` says what
the rules A and B are; by B a set with chicks has fewer positions.

Example: dobutsu count --set 100 prints `positions 4158` and `classes 2124`, and with `--rules B` 3648 and 1864.";

const REACH: &str =
    "What a game that begins with POSITION can come to. A class is a position with its mirror image, seen by the side to move; it goes
on from open classes alone, and counts those that have ended too: where the lion can be captured, has arrived, or no move is left.
Whether one or both of a class's two positions are reached isn't said.

Answers: `classes N`, how many classes are reached, that of POSITION among them; `open N`, how many of them are open; `depth D`,
in how many plies the furthest is reached. With `--db FILE` also `win N`, `loss N` and `draw N`, how many of them have which value for
the side to move: the rules are those of the file, and POSITION has to be of its piece set (E7). With `--values`, which needs `--db`,
then `win D N` and `loss D N`: how many of them are won or lost in D plies, the least D first. With `--levels` then a line `PLY N` for
each distance from POSITION, how many classes are reached in so many plies and in no fewer.

With `--json`: an object on a line, first `{\"classes\":39,\"open\":21,\"depth\":6}`, with `--db` also with `win`, `loss` and `draw`; then for
each value `{\"value\":\"win\",\"plies\":3,\"classes\":3}`, a draw first; then for each distance `{\"ply\":2,\"classes\":10}`.

It takes a bit of memory for each class of the piece set, and 4 bytes for each of the classes of two distances that follow
each other: 0.4 GB for the whole game, with `--db` 1.5 GB. That runs for minutes.

With `--progress` it says on standard error, before each distance, how many classes it has, as `ply 2: 17 classes`.

Example: dobutsu reach \"gl./.c./.../E.L - -\" prints `classes 443086`, `open 201898` and `depth 26`. `dobutsu value --help`
says how a position is written and what the rules A and B are.";

const BUILD: &str =
    "A piece set: three digits CEG, as `dobutsu count --help` says. Nodes: 1 to 16. Each works in a thread of
its own and owns a part of the positions; with more nodes than processors it works too, only slower.
Without `--nodes` there are as many as processors, 16 at most. The file is the same whatever their number.

The file has 2 bytes a class and 53 more, and its build takes some 9 bytes of memory a class.
`dobutsu count --set 111` gives the classes of a set: 765360 of three pieces, which take less than a second.
The whole game, `222`, has 588021930, which take some minutes, 5 GB of memory and 1.2 GB of disk.

The table is written to FILE with `.part` after it, and takes the place of FILE when it is whole and on
the disk: until then FILE is as it was, whatever happens. Another run that is to write FILE meanwhile is refused.
A pipe, a device or a link is written where it is.

The file says by which rules its values are, so that `dobutsu probe` and the others need no `--rules`. They read a position
by rules A; where the file is one of rules B they refuse a chick on its own far row (E26). `dobutsu value --help` says what
the rules are.

With `--progress` it says on standard error what memory it takes, before it takes it, and then, a line a second at most,
how far it is, as `12 s, 34 %, 23 s left`: the seconds since it began, what part is done, and the seconds that are left by the
speed so far. On a terminal the lines take each other's place.

Answers: `classes N`, `win N`, `loss N` and `draw N`, where a class is a position with its mirror image.

Example: dobutsu build --set 000 --out 000.db prints `classes 54`, `win 38`, `loss 12` and
`draw 4`. `dobutsu check --db 000.db` then says that the file is right.";

const PROBE: &str =
    "If `dobutsu check --db FILE` passes the file, its answers are correct; otherwise they are only what
it contains.

With `--each` in place of POSITION the positions come from standard input, one on each line, and each line is
answered by a line, in the same order. One that is refused is answered by its fault, as `E2 Letter`, and the
next by its own answer. The file is read and tested once, before the first answer.

Answers: `win D`, `loss D` or `draw`, where D is the distance in plies. With `--each` the status is 0 where
all lines were answered, and 1 where one was refused.

With `--json`: an object on a line, as `dobutsu look --help` says.

Example: dobutsu probe --db 000.db \"..l/.../L../... - -\" prints `win 3`. `dobutsu value --help` says
how a position is written. Two positions, the second with a malformed hand:

  printf '%s\\n' \"..l/.../L../... - -\" \"..l/.../L../... - x\" | dobutsu probe --db 000.db --each

prints `win 3` and `E3 Hand`, with status 1.";

const LINE: &str =
    "The moves of both sides, where the winner takes the shortest way and the loser the longest, each the
first such move: a piece's letter, its square, `-` or `x` for a capture, the square where it goes, and
`+` where a chick becomes a hen; or the letter of a piece in hand, `*` and a square. The moves of the
side that isn't to move first are in lower case.

The whole file is read and tested first, as by `dobutsu probe`. If `dobutsu check --db FILE` passes it, its answers are correct;
otherwise they are only what it contains.

With `--records` only the first 21 bytes of the file are read, the 2 bytes of the position, and for each move those of the
positions that can follow, so that a file of any size is asked at once. Its digest isn't read: damage isn't found, nor whether the
file is too long or too short.

With `--each` in place of POSITION the positions come from standard input, one on each line, and each line is answered in the
same order, as `dobutsu look --help` says, and by records, as if `--records` were given. With `--numbered` too an empty line stands
after each answer.

Answers: the moves, `draw` where neither side can force an end, or `end` where the side to move has
lost already. With `--numbered` each move stands on a line of its own after its number, as `1. La2-a3`. With `--each` the status
is 0 where all lines were answered, and 1 where one was refused.

With `--json`: an object on a line, with `position`, `value`, `plies` and `moves`, whose objects are as `dobutsu moves --help` says, without
`value` and `plies`. `--numbered` changes nothing then.

Example: dobutsu line --db 000.db \"..l/.../L../... - -\" prints `La2-a3 lc4-b4 La3xb4`.";

const CHECK: &str =
    "Each value of the file is compared with what follows from those one ply later, so that a file that is
passed holds the values by definition, whoever made it.

With `--progress` it says on standard error, a line a second at most, how far it is, as `12 s, 34 %, 23 s left`: the seconds
since the file is read, what part is done, and the seconds that are left by the speed so far. On a terminal the lines take each
other's place.

Answers: `consistent`; or `E21 Inconsistent class N` with the first class whose value doesn't follow.

Example: dobutsu check --db 000.db prints `consistent`.";

const LOOK: &str =
    "Of the file only its first 21 bytes and the 2 bytes of the position are read, each by its place: any file
size, immediately. Its digest isn't read: damage isn't found, nor whether the file is
too long or too short. `dobutsu probe` reads and tests it all.

With `--each` in place of POSITION the positions come from standard input, one on each line, and each line is answered by a
line, in the same order, as `dobutsu probe --help` says. The file is opened once, and of each position only its 2 bytes are read.

Answers: `win D`, `loss D` or `draw`, where D is the distance in plies. With `--each` the status is 0 where
all lines were answered, and 1 where one was refused.

With `--json`: an object on a line, `{\"position\":\"..l/.../L../... - -\",\"value\":\"win\",\"plies\":3}`, where the `plies` of a draw are `null`;
and `{\"fault\":\"E2 Letter\"}` for a line of `--each` that is refused.

Example: dobutsu look --db 000.db \"..l/.../L../... - -\" prints `win 3`. `dobutsu value --help` says
how a position is written.";

const SHOW: &str =
    "The board as the side to move sees it: rows 4 to 1 from top to bottom, columns a to c from left to right,
so that `b2` names the square where column b meets row 2. Capital letters are the pieces of the side to
move, which go up; small letters are those of the other side, which go down. A hand holds the pieces
that were captured and can be dropped again.

With `--db FILE` an empty line follows, then the position's value and its best play, as `dobutsu look` and
`dobutsu line --numbered` print them; the digest of the file isn't read. With `--svg OUT` the board is drawn as a picture
too, for a browser: the file OUT is made anew or overwritten, as `dobutsu build --help` says of its own.

Example: dobutsu show \"gle/.c./.C./ELG - -\" draws the board that a game begins with.
`dobutsu value --help` says how a position is written.";

const MOVES: &str =
    "A line for each move of the side to move, with what it comes to for that side: a win in so many plies from
here, a loss, or a draw. Wins come first, the soonest first; then draws; then losses, the latest first;
equal ones by the squares that they leave and reach. `dobutsu line --help` says how a move is written.

Of the file only its first 21 bytes are read, and 2 bytes for each move, for any file size, immediately. Its digest
isn't read, and damage isn't found: `dobutsu check` tests it all.

With `--each` in place of POSITION the positions come from standard input, one on each line, and each line is answered in the
same order by its moves, or by its fault as `E2 Letter`, and then by an empty line. The file is opened once.

Answers: `MOVE win D`, `MOVE loss D` or `MOVE draw`; where the other side's lion can be captured, just that
capture, `MOVE win 1`; and `end` where the side to move has lost already. With `--each` the status is 0 where all lines were
answered, and 1 where one was refused.

With `--json`: an object on a line, with `position` and `moves`, a list of objects with `move`, `kind` (`chick`, `hen`, `elephant`, `giraffe` or
`lion`, as it was before the move), `from` (`null` for a drop), `to`, `catch` (`true` or `false`), `value` and `plies`. The fault of a line
is an object too, as `dobutsu look --help` says, and no empty line stands after them.

Example: dobutsu moves --db 000.db \"..l/.../L../... - -\" prints `La2-a3 win 3` first.";

const BEST: &str =
    "The first of the lines that `dobutsu moves` prints: a move that the best play begins with, and what it comes to for the side
to move. It reads the same bytes as `dobutsu moves`.

With `--each` in place of POSITION the positions come from standard input, one on each line, and each line is answered by a
line, in the same order, as `dobutsu look --help` says.

Answers: `MOVE win D`, `MOVE loss D` or `MOVE draw`; and `end` where the side to move has lost already. With `--each` the status
is 0 where all lines were answered, and 1 where one was refused.

Example: dobutsu best --db 000.db \"..l/.../L../... - -\" prints `La2-a3 win 3`.";

const STATS: &str =
    "How hard a piece set is: how many of its classes are won and lost at each distance. A class is a position with its mirror
image; if `dobutsu check` passes the file, its answers are correct.

Answers: the lines of `dobutsu build`, `classes N`, `win N`, `loss N` and `draw N`; then `win D N` or `loss D N`
for each distance D in plies that occurs, the least first; then `longest win D POSITION` and `longest loss D POSITION`,
each with the first class of that distance, where there are wins and losses.

With `--csv`, for scripts: the line `value,classes`, and then a line for each value that occurs, `draw,N` first, where there are
draws, and then `win D,N` or `loss D,N`, the least distance first.

With `--json`: an object on a line for each value that occurs, `{\"value\":\"win\",\"plies\":3,\"classes\":12}`, in the order of `--csv`; where both are
given, `--json` counts.

Example: dobutsu stats --db 000.db prints `classes 54` first, and with `--csv` `draw,4` below `value,classes`.";

const ZUGZWANGS: &str =
    "Positions in which neither side wants to move. The turn of a position is the same board with the other side to move. A win is worth 1,
a draw 0 and a loss -1: where both can go on, and together are worth less than 0, whoever has to move would rather not. So they come
in pairs, a position and its turn, each with its mirror images counted once. If `dobutsu check` passes the file, its
answers are correct.

Answers: `lost by both N`, the pairs in which whoever has to move loses; `loss and draw N`, those in which one side loses where it has to
move, and the other draws; and `deepest POSITION  loss D  loss D`, where there are pairs lost by both. Of two pairs the deeper is the
one whose shorter loss is longer; if these are equal, whose longer loss is; then the first in the file. The values are that of
POSITION for the side to move, and that of its turn for the other side. With `--list N` then a line `POSITION  VALUE  VALUE` for each
of the first N pairs in the order of the file, of either kind; POSITION is the one of the two that stands first there.

Example: dobutsu zugzwangs --db 010.db, of one elephant, prints `lost by both 1`, `loss and draw 11` and
`deepest .../.l./.../LE. - -  loss 4  loss 8`.";

const PUZZLES: &str =
    "Exercises for a lesson: positions in which the side to move wins, with exactly one fastest winning move. All other moves are
slower, or don't win. D counts the plies of both sides up to the capture of the lion or the lion's safe arrival, so `3` is: move,
answer, win. If `dobutsu check` passes the file, its answers are correct.

Answers: a line for each position, `POSITION  MOVE`, its text, two spaces and that move, in the order of the file, the first N of
them; or `none`. Of a position and its mirror image only the one that stands first is printed. `dobutsu show POSITION` draws it,
and `dobutsu line --numbered --db FILE POSITION` plays it to its end. A D that is even or below 3 is a usage error (status 2).

With `--numbered` the number of its class and two spaces stand before each. With `--from CLASS` only those after the class of this
number are printed, never its own: with the number of the last one it goes on where the last call ended, so that no position comes
twice. After the last class, or a number that no class has, it prints `none`.

With `--random SEED` the classes are shuffled by the number SEED, in the same way on each machine, so that each such position is as
likely as any other to come next. No two of the positions that one call prints then have as many pieces of each kind on the board and the
lions on the same squares: of such ones the first is printed, and fewer than N where there are no more. `--from` goes on in this order
too, where both are given.

Example: dobutsu puzzles --db 000.db --plies 3 --count 1 prints `.../..l/L../... - -  La2-a3`.";

const MIGRATE: &str =
    "Reads the whole file FILE, in either format, and tests it as `dobutsu probe` does. Only then is OUT written, with the same
values, in the second format: its title is `DOBUTSU2`, its byte 12 says the rules, and it has 2 bytes a class and 53
more. A file of the first format is one of rules A. A damaged file is refused, and OUT stays as it was.

OUT may be FILE itself: it is written to OUT with `.part` after it, which takes the place of OUT when it is whole and on
the disk, as `dobutsu build --help` says.

Answers: `classes N`, where a class is a position with its mirror image.

Example: dobutsu migrate --db old.db --out new.db prints `classes 54` for lions alone.";

const CERTIFY: &str =
    "A certificate is a small file that proves a position's value without the database file: `dobutsu verify` checks it, whoever made it. It
lists classes that are lost, each within so many plies: a listed class has lost, or each of its moves is answered by capturing the lion, or by a
move to a class that has lost or is listed with at least two plies less. What is made passes that check before it is written: it is right even
where FILE isn't.

Without `--exact` it claims a win or a loss within so many plies. With `--exact` it claims so many and no fewer, by a second list, of classes that
aren't lost sooner: for a long win or loss of a set with six pieces that has tens of millions of entries, and takes minutes and 1.6 GB. A draw
is always exact.

With `--most N` it gives up with E39 as soon as there would be more than N entries. With `--progress` it says on standard error, a line a second at
most, how far it is, as `dobutsu build --help` says.

CERT is written with `.part` after its name first, as `dobutsu build --help` says of its file.

Answers: the line of `dobutsu verify`, for the position as it is given, then `lost N` and `held N`, the entries of the two lists.

Example: dobutsu certify --db 000.db --out 000.cert \"..l/.../L../... - -\" prints `..l/.../L../... - - win within 3`, `lost 1` and `held 0`.";

const VERIFY: &str =
    "What it prints is proved by the file alone and the rules of the game, whoever made it: each entry is tested by its moves, and then what is claimed
of the position by the entries. No database file is read. A position is printed as the first of itself and its mirror image.

With `--progress` it says on standard error, a line a second at most, how far it is, as `dobutsu check --help` says.

Answers: `POSITION loss within D` or `POSITION win within D`, where an exact certificate has no `within`, or `POSITION draw`; behind it ` by rules B`
where the certificate is one by rules B.

A file that proves nothing is refused, with status 1, by the first fault that it has: E15 to E17, E19, E20 and E27, as `dobutsu --help` says, or

  E30 Unsupported class N   the entry of class N isn't shown by the moves of its class
  E31 Claim                 the entries don't show what is claimed of the position
  E32 Version               the file is of another version
  E33 RootClass             its piece set has no class of the position's number
  E34 ClaimByte             unknown kind of claim
  E35 EntryCount            it counts more entries than there are classes
  E36 EntryNumber           an entry's number isn't in its fewest bytes
  E37 EntryOrder            an entry's class isn't above the one before it
  E38 EntryClass            its piece set has no class of an entry's number
  E42 EntryPlies            an entry of the lost list has 255 plies, which mean `ever`

`dobutsu certify` may end with E39 TooMany, where there would be more entries than `--most` allows, or E40 Unfit, where a distance is above 254
plies; and `dobutsu reply` with E41 Unlisted, where the certificate says nothing of the position.

Example: dobutsu verify --cert testdata/222_A.cert prints `gle/.c./.C./ELG - - loss within 78`: the second player wins.";

const REPLY: &str =
    "A certificate is a book for the winner: for each position that can come up while the loser plays anything, it has a winning move. The lost
list of CERT is checked first, as `dobutsu verify` checks it; so the move is a winning one, whoever made the file.

Answers: `MOVE win within D`, the move and in how many plies it wins at most; `loss within D` where the side to move is the one that is lost. Where
the other side's lion can be captured that capture, `MOVE win within 1`. Of a position of which the certificate says nothing it says E41 Unlisted, with
status 1. `dobutsu line --help` says how a move is written.

Example: dobutsu reply --cert 000.cert \"..l/.../L../... - -\" prints `La2-a3 win within 3`.";

const INFO: &str =
    "Of FILE only the header is read: the first 20 or 21 bytes of a database file, 28 of a certificate, which begins with `DOBUCERT`. What comes after
them isn't, so damage isn't found: `dobutsu check` and `dobutsu verify` test the whole.

Answers: of a database file `set CEG`, `rules A` or `rules B`, `format 2` or `format 1`, and `classes N`; of a certificate
`position POSITION`, `claim loss within D` or what else it claims, `rules A` or `rules B`, and `entries N`, those of both lists. A line each.

With `--json`: an object on a line, `{\"set\":\"000\",\"rules\":\"A\",\"format\":2,\"classes\":54}`, or
`{\"position\":\"gle/.c./.C./ELG - -\",\"claim\":\"loss within 78\",\"rules\":\"A\",\"entries\":176436}`.

A header that isn't right is refused, with status 1, by the first fault that it has: E15 to E18 and E27, as `dobutsu --help` says, and of a
certificate E32 to E35, as `dobutsu verify --help` says. A file that begins as neither of them does is E16 Magic.

Example: dobutsu info 000.db prints `set 000`, `rules A`, `format 2` and `classes 54`.";
