// The token that goes round the ring.

/// The token: the node that has it, its colour, and the sum of the counters of the nodes that passed it.
#[derive(Clone, Copy, PartialEq, Eq)]
pub struct Token {
    /// The node that has the token, 0 to 15.
    pub at: usize,
    /// Whether the token is black: then this probe can't show that the end has come.
    pub black: bool,
    /// The sum of the counters of the nodes that passed the token since the probe began, -2^48 to 2^48.
    pub sum: i64,
}

impl Token {
    ghost use Rattle.std.specs.Prelude.{◌≡◌};
    ghost use Rattle.dob_safra.specs.Tokens.{first_token};

    /// The token of a ring at its start: at node 0, black, with sum 0.
    pub fn first() -> Token
        ensures { result ≡ first_token }
    {
        Token {
            at: 0,
            black: true,
            sum: 0,
        }
    }
}
