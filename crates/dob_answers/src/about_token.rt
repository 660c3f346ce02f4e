// Questions and answers about tokens of the ring: `passed AT COLOUR SUM COUNTER COLOUR N`, `mayannounce AT COLOUR SUM
// COUNTER COLOUR IDLE`, `pack AT COLOUR SUM`, `unpack WORD`. A colour is `white` or `black`, and IDLE `idle` or `busy`.
use dob_safra::{Token, may_announce, pack, passed, unpack};
use std::alloc::{AllocError, Global};
use std::str::SplitWhitespace;

const SUM_LIMIT: i64 = 1 << 48;

/// What is asked about tokens.
#[derive(Clone, Copy)]
pub(crate) enum OfToken {
    /// Which token it is after a pass by the node in a ring of N nodes.
    Passed(Visit, usize),
    /// Whether the node, idle or not, may announce the end.
    MayAnnounce(Visit, bool),
    /// Which word it has.
    Pack(Token),
    /// Which token has that word.
    Unpack(u64),
}

/// A token at a node with that counter and colour.
#[derive(Clone, Copy)]
pub(crate) struct Visit {
    token: Token,
    counter: i64,
    black: bool,
}

impl OfToken {
    /// The question with that first word; none if there is no such question.
    pub(crate) fn read(word: &str, rest: &str) -> Option<OfToken> {
        let mut words = rest.split_whitespace();
        match word {
            "passed" => read_passed(&mut words),
            "mayannounce" => read_may_announce(&mut words),
            "pack" => Some(OfToken::Pack(read_token(&mut words)?)),
            "unpack" => Some(OfToken::Unpack(words.next()?.parse::<u64>().ok()?)),
            _ => None,
        }
    }
}

fn read_passed(words: &mut SplitWhitespace<'_>) -> Option<OfToken> {
    let visit = read_visit(words)?;
    Some(OfToken::Passed(visit, read_index(words)?))
}

fn read_may_announce(words: &mut SplitWhitespace<'_>) -> Option<OfToken> {
    let visit = read_visit(words)?;
    Some(OfToken::MayAnnounce(visit, words.next()? == "idle"))
}

// The token of the next three words at the node of the two after them.
fn read_visit(words: &mut SplitWhitespace<'_>) -> Option<Visit> {
    let token = read_token(words)?;
    let counter = read_sum(words)?;
    let black = read_black(words)?;
    Some(Visit {
        token,
        counter,
        black,
    })
}

// The token of the next three words.
fn read_token(words: &mut SplitWhitespace<'_>) -> Option<Token> {
    let at = read_index(words)?;
    let black = read_black(words)?;
    let sum = read_sum(words)?;
    Some(Token { at, black, sum })
}

// The node, or the number of nodes, of the next word.
fn read_index(words: &mut SplitWhitespace<'_>) -> Option<usize> {
    words.next()?.parse::<usize>().ok()
}

// The sum or the counter of the next word.
fn read_sum(words: &mut SplitWhitespace<'_>) -> Option<i64> {
    words.next()?.parse::<i64>().ok()
}

// Whether the colour of the next word is black; none if it is no colour.
fn read_black(words: &mut SplitWhitespace<'_>) -> Option<bool> {
    match words.next()? {
        "black" => Some(true),
        "white" => Some(false),
        _ => None,
    }
}

/// What is asked about the token; `none` if there is no such token, word or pass.
pub(crate) fn about_token(alloc: Global, matter: OfToken) -> Result<String, AllocError> {
    match matter {
        OfToken::Passed(visit, nodes) => match pass_of(visit, nodes) {
            Some(token) => tell_token(alloc, token),
            None => none(alloc),
        },
        OfToken::MayAnnounce(visit, idle) => {
            may_announce(visit.token, visit.counter, visit.black, idle).to_string(alloc)
        }
        OfToken::Pack(token) => match word_of(token) {
            Some(word) => word.to_string(alloc),
            None => none(alloc),
        },
        OfToken::Unpack(word) => match unpack(word) {
            Some(token) => tell_token(alloc, token),
            None => none(alloc),
        },
    }
}

// The token after the pass, if the ring has 1 to 16 nodes and the sum stays in its bounds.
fn pass_of(visit: Visit, nodes: usize) -> Option<Token> {
    let Visit {
        token,
        counter,
        black,
    } = visit;
    let sum = token.sum.checked_add(counter)?;
    if nodes == 0 || nodes > 16 || sum < -SUM_LIMIT || sum > SUM_LIMIT {
        return None;
    }
    Some(passed(token, counter, black, nodes))
}

// The token's word, if it has one.
fn word_of(token: Token) -> Option<u64> {
    if token.at >= 16 || token.sum < -SUM_LIMIT || token.sum > SUM_LIMIT {
        return None;
    }
    Some(pack(token))
}

// `AT COLOUR SUM`.
fn tell_token(alloc: Global, token: Token) -> Result<String, AllocError> {
    let at = token.at;
    let colour = if token.black { "black" } else { "white" };
    let sum = token.sum;
    format!(in alloc; "{at} {colour} {sum}")
}

fn none(alloc: Global) -> Result<String, AllocError> {
    "none".to_string(alloc)
}
