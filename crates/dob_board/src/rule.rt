// The rule of the board, and the names of its steps.
use crate::view::View;
use atomic_table::{Join, Play, Split, TableRule};

// The rule; the key is the number of nodes.
pub(crate) struct Order;

impl TableRule<(), View, usize> for Order {
    ghost use Rattle.dob_board.specs.Rule.{IsHeld, whole};

    ghost holds = { λ n s. IsHeld n s.words s.views };

    ghost first = { whole };
}

// One batch more is posted.
pub(crate) struct Posts;

impl Play<(), View> for Posts {
    ghost use Rattle.dob_board.specs.Plays.{Posted};

    ghost then = { Posted };
}

// A look at how many batches another node posted.
pub(crate) struct Looks;

impl Play<(), View> for Looks {
    ghost use Rattle.dob_board.specs.Plays.{Looked};

    ghost then = { Looked };
}

// One batch more is taken.
pub(crate) struct Takes;

impl Play<(), View> for Takes {
    ghost use Rattle.dob_board.specs.Plays.{Took};

    ghost then = { Took };
}

// A look for the token.
pub(crate) struct Meets;

impl Play<(), View> for Meets {
    ghost use Rattle.dob_board.specs.Plays.{Met};

    ghost then = { Met };
}

// The token is passed.
pub(crate) struct Passes;

impl Play<(), View> for Passes {
    ghost use Rattle.dob_board.specs.Plays.{Passed};

    ghost then = { Passed };
}

// A look at the halt word.
pub(crate) struct Halts;

impl Play<(), View> for Halts {
    ghost use Rattle.dob_board.specs.Plays.{Halted};

    ghost then = { Halted };
}

// The run fails, if it goes on.
pub(crate) struct Fails;

impl Play<(), View> for Fails {
    ghost use Rattle.dob_board.specs.Plays.{FailedRun};

    ghost then = { FailedRun };
}

// The end is announced, if the run goes on.
pub(crate) struct Announces;

impl Play<(), View> for Announces {
    ghost use Rattle.dob_board.specs.Plays.{Announced};

    ghost then = { Announced };
}

// The first node gets a seat of its own.
pub(crate) struct FirstNode;

impl Split<View> for FirstNode {
    ghost use Rattle.dob_board.specs.Plays.{others_of, first_of};

    ghost left = { others_of };

    ghost right = { first_of };
}

// A seat comes back, before the nodes that came back already.
pub(crate) struct Back;

impl Join<View> for Back {
    ghost use Rattle.dob_board.specs.Boards.{joined, nobody};

    ghost both = { joined };

    ghost spent = { nobody };
}

// A look at any word, once the board is closed.
pub(crate) struct Reads;

impl Play<(), View> for Reads {
    ghost use Rattle.dob_board.specs.Boards.{Read};

    ghost then = { Read };
}
