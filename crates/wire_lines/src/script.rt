//! The lines of a script.
ghost use Rattle.std.specs.Prelude.{◌≡◌, ◌<◌, ◌∷◌, ◌==◌, [], length, MatchOption};
ghost use Rattle.std.specs.List.{position};
ghost use Rattle.std.specs.Str.Lines.{lines, strip_carriage_return};

/// The place of the first line feed.
fn first_newline(script: &[u8]) -> Option<usize>
    ensures { result ≡ position (λ b. b == 10) script.now }
{
    script.iter().position(|b| *b == b'\n')
}

/// The line without the carriage return that ends it, if one does.
fn without_return(line: &[u8]) -> &[u8]
    ensures { result.now ≡ strip_carriage_return line.now }
{
    match line {
        [front @ .., b'\r'] => front,
        _ => line,
    }
}

/// The first line, and the text after it; None if the script is empty. It does not allocate.
///
/// A line ends with LF, before which one CR is dropped. The last LF may be missing, and then a CR at the end stays.
pub fn split_line(script: &[u8]) -> Option<(&[u8], &[u8])>
    ensures split { MatchOption result (lines script.now ≡ []) (λ p. lines script.now ≡ p.0.now ∷ lines p.1.now) }
    ensures shorter { MatchOption result (script.now ≡ []) (λ p. length p.1.now < length script.now) }
{
    match first_newline(script) {
        Some(at) => Some((without_return(&script[..at]), &script[at + 1..])),
        None => if script.is_empty() {
            None
        } else {
            Some((script, &script[..0]))
        },
    }
}
