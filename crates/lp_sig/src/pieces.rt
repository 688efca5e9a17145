// The words of a text.
ghost use Rattle.std.specs.Prelude.{◌≡◌};
ghost use Rattle.lp_sig.specs.Pieces.{spelled, begins_variable};

use lp_base::Spot;

/// The bytes of a spot, as far as there are any.
pub fn spelled_at(source: &[u8], spot: Spot) -> &[u8]
    ensures { result.now ≡ spelled source.now spot }
{
    let end = spot.to.min(source.len());
    if spot.from < end {
        &source[spot.from..end]
    } else {
        &source[..0]
    }
}

/// Whether a word is a variable or a type variable: it begins with an upper-case letter or `_`.
pub fn is_variable(word: &[u8]) -> bool
    ensures { result ≡ begins_variable word.now }
{
    match word.first() {
        Some(b) => *b == b'_' || (b'A' <= *b && *b <= b'Z'),
        None => false,
    }
}
