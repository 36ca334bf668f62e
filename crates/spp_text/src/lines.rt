//! Lines of a text, one after the other.

ghost use Rattle.std.specs.Prelude.{◌≡◌, ◌∷◌, ◌<◌, length};
ghost use Rattle.std.specs.Str.Lines.{lines, strip_carriage_return};

/// A line without the one carriage return before its line feed.
fn without_return(line: &[u8]) -> &[u8]
    ensures { result.now ≡ strip_carriage_return line.now }
{
    match line {
        [front @ .., b'\r'] => front,
        _ => line,
    }
}

/// The first line of a non-empty text, and what follows it. It is looked for eight bytes at a time.
pub(crate) fn first_line(text: &str) -> (&[u8], &str)
    requires { 0 < length text.now }
    ensures first { lines text.now ≡ result.0.now ∷ lines result.1.now }
    ensures shorter { length result.1.now < length text.now }
{
    match text.split_once('\n') {
        Some((line, rest)) => (without_return(line.as_bytes()), rest),
        None => (text.as_bytes(), ""),
    }
}
