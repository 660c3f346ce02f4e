// The lines of bytes, one after the other.
ghost use Rattle.std.specs.Prelude.{◌≡◌, ◌<◌, ◌==◌, ◌∷◌, [], MatchOption, length, position};
ghost use Rattle.std.specs.Str.Lines.{lines, strip_carriage_return};

/// The first line of the bytes, without its end, and what follows it; none if there are no bytes.
pub(crate) fn first_line(bytes: &[u8]) -> Option<(&[u8], &[u8])>
    ensures line { MatchOption result (lines bytes.now ≡ []) (λ first. lines bytes.now ≡ first.0.now ∷ lines first.1.now) }
    ensures shorter { MatchOption result (length bytes.now ≡ 0) (λ first. length first.1.now < length bytes.now) }
{
    if bytes.is_empty() {
        return None;
    }
    match line_feed_of(bytes) {
        Some(end) => Some((without_return(&bytes[..end]), &bytes[end + 1..])),
        None => Some((bytes, &[])),
    }
}

// The place of the first line feed.
pub(crate) fn line_feed_of(bytes: &[u8]) -> Option<usize>
    ensures { result ≡ position (λ b. b == 10) bytes.now }
{
    bytes.iter().position(|byte| *byte == b'\n')
}

// The line without the carriage return at its end, if it has one.
pub(crate) fn without_return(line: &[u8]) -> &[u8]
    ensures { result.now ≡ strip_carriage_return line.now }
{
    match line {
        [front @ .., b'\r'] => front,
        _ => line,
    }
}
