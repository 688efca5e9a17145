// The lines of a text.
ghost use Rattle.std.specs.Prelude.{◌≡◌, ◌+◌, suc, length, ◌∷◌};
ghost use Rattle.lp_session.specs.Lines.{lines_of, lines_behind, left, is_blank_byte, is_blank};

/// The first line of a text, and what stands behind its line feed, where it has one.
pub(crate) fn first_line(text: &[u8]) -> (&[u8], Option<&[u8]>)
    ensures lines { lines_of text.now ≡ result.0.now ∷ lines_behind result.1 }
    ensures left { suc (length result.0.now + left result.1) ≡ suc (length text.now) }
{
    'feed: for at in 0..text.len() {
        if text[at] == b'\n' {
            return (&text[..at], Some(&text[at + 1..]));
        }
    }
    (text, None)
}

fn is_blank_byte(b: u8) -> bool
    ensures { result ≡ is_blank_byte b }
{
    b == b' ' || b == b'\t' || b == b'\r'
}

/// Nothing but blanks.
pub(crate) fn is_blank(line: &[u8]) -> bool
    ensures { result ≡ is_blank line.now }
{
    'blanks: for at in 0..line.len() {
        if !is_blank_byte(line[at]) {
            return false;
        }
    }
    true
}
