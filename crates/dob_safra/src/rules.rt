// What an idle node that has the token may do: announce the end, or pass the token.
ghost use Rattle.std.specs.Prelude.{◌≡◌, ◌≢◌, ◌<◌, ◌^◌, ◌↔◌, IsTrue, pos, neg_ℤ, ◌+ℤ◌, ◌≤ℤ◌};
ghost use Rattle.dob_safra.specs.Tokens.{passed_on, MayAnnounce};

use crate::Token;

/// The token after an idle node with that counter and colour passed it, in a ring of `n` nodes, at least 1. Node 0 begins a
/// new probe with a white token and sum 0 at the last node. Any other node hands the token to the node below: the sum
/// grows by the counter, which must leave it in -2^48 to 2^48, and a black node blackens the token. The node itself is
/// white afterwards.
pub fn passed(token: Token, counter: i64, black: bool, n: usize) -> Token
    requires some { 0 < n }
    requires low { token.at ≢ 0 → neg_ℤ (pos (2 ^ 48)) ≤ℤ (token.sum +ℤ counter) }
    requires high { token.at ≢ 0 → (token.sum +ℤ counter) ≤ℤ pos (2 ^ 48) }
    ensures { result ≡ passed_on n token counter black }
{
    if token.at == 0 {
        Token {
            at: n - 1,
            black: false,
            sum: 0,
        }
    } else {
        Token {
            at: token.at - 1,
            black: token.black || black,
            sum: token.sum + counter,
        }
    }
}

/// Whether the end may be announced by the node that has this token, with that counter and colour, and idle or not: the
/// token is at node 0, token and node are white, the node is idle, and sum and counter add up to 0.
pub fn may_announce(token: Token, counter: i64, black: bool, idle: bool) -> bool
    ensures { IsTrue result ↔ MayAnnounce token counter black idle }
{
    let adds_up = token.sum.checked_add(counter) == Some(0);
    token.at == 0 && !token.black && !black && idle && adds_up
}
