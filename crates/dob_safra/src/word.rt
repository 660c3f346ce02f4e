// The token as one word of 64 bits, so that a thread hands it on by one store.
ghost use Rattle.std.specs.Prelude.{IfSome, IfNone};
ghost use Rattle.dob_safra.specs.declared.token.Token.{Token};
ghost use Rattle.dob_safra.specs.Tokens.{IsPacked, IsToken};

use crate::Token;
use crate::bounded::MAX_NODES;

// The sum stands in the low 50 bits with this much added, so that it is never negative.
const SUM_LIMIT: i64 = 1 << 48;

const BLACK: u64 = 1 << 50;

const NODE: u64 = 1 << 51;

/// The word of a token that is at one of 16 nodes and has a sum of -2^48 to 2^48.
pub fn pack(token: Token) -> u64
    requires { IsToken token }
    ensures { IsPacked token result }
{
    let sum = (token.sum + SUM_LIMIT) as u64;
    let colour = if token.black { BLACK } else { 0 };
    sum + colour + token.at as u64 * NODE
}

/// The token of the word; none if the word is no token's: a bit from 55 upwards is set, or the low 50 bits are above
/// 2^49.
pub fn unpack(word: u64) -> Option<Token>
    ensures some { IfSome result (λ token. IsPacked token word) }
    ensures none { IfNone result ((token : Token) → ¬ IsPacked token word) }
{
    let at = word / NODE;
    let sum = word % BLACK;
    if at >= MAX_NODES as u64 || sum > 1 << 49 {
        return None;
    }
    Some(Token {
        at: at as usize,
        black: word / BLACK % 2 == 1,
        sum: sum as i64 - SUM_LIMIT,
    })
}
