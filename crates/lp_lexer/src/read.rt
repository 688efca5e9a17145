ghost use Rattle.std.specs.Prelude.{◌≡◌, ◌≤◌, ◌<◌, ◌+◌, ◌^◌, length, MatchResult, IfOk, drop};
ghost use Rattle.lp_lexer.specs.Lexis.{past, moved, place_at, HasTokens, HasFault};

use crate::front::front;
use crate::token::{LexFault, Piece, Token};
use lp_base::Place;
use std::alloc::{AllocError, AllocFailed, Global};

impl From<AllocError> for LexFault {
    ghost use Rattle.std.specs.Prelude.{◌≡◌};
    ghost use Rattle.lp_lexer.specs.declared.token.LexFault.TheVariants.{Memory};

    ghost from_gives = { λ _ e. e ≡ Memory };

    fn from(_error: AllocError) -> LexFault {
        LexFault::Memory
    }
}

impl<T: Drop> From<AllocFailed<T>> for LexFault {
    ghost use Rattle.std.specs.Prelude.{◌≡◌};
    ghost use Rattle.lp_lexer.specs.declared.token.LexFault.TheVariants.{Memory};

    ghost from_gives = { λ _ e. e ≡ Memory };

    fn from(_error: AllocFailed<T>) -> LexFault {
        LexFault::Memory
    }
}

// The place behind a byte.
fn past(place: Place, b: u8) -> Place
    requires line { place.line + 1 < 2 ^ 64 }
    requires column { place.column + 1 < 2 ^ 64 }
    ensures place { result ≡ past place b }
    ensures line { result.line ≤ place.line + 1 }
    ensures column { result.column ≤ place.column + 1 }
{
    if b == 10 {
        Place {
            line: place.line + 1,
            column: 1,
        }
    } else {
        Place {
            line: place.line,
            column: place.column + 1,
        }
    }
}

// The place behind these bytes.
fn moved(place: Place, bytes: &[u8]) -> Place
    requires line { place.line + length bytes.now < 2 ^ 64 }
    requires column { place.column + length bytes.now < 2 ^ 64 }
    ensures place { result ≡ moved place bytes.now }
    ensures line { result.line ≤ place.line + length bytes.now }
    ensures column { result.column ≤ place.column + length bytes.now }
{
    let mut at = place;
    for b in bytes {
        at = past(at, *b);
    }
    at
}

/// The tokens of a text in order, or its first fault. From the left to the right, what is taken at each place is the longest token or the longest gap
/// there (`tokens_are_longest`); a text has one reading (`one_reading`, `some_reading`). Spans are in bytes from 0; lines and columns count from 1,
/// columns in bytes. `Memory` may come at any text that has a token.
pub fn tokens(alloc: Global, text: &[u8]) -> Result<Vec<Token>, LexFault>
    ensures { MatchResult result (λ v. HasTokens text.now v.items) (HasFault text.now) }
{
    let mut out = Vec::new(alloc);
    let mut at: usize = 0;
    let mut place = Place { line: 1, column: 1 };
    'over: while at < text.len() {
        match front(&text[at..]) {
            Piece::Skip(n) => {
                place = moved(place, &text[at..at + n]);
                at += n;
            }
            Piece::Found(kind, n) => {
                out.push(Token {
                    kind,
                    at: place,
                    from: at,
                    to: at + n,
                })?;
                place = moved(place, &text[at..at + n]);
                at += n;
            }
            Piece::Bad(n) => return Err(LexFault::BadByte(moved(place, &text[at..at + n]))),
            Piece::OpenText => return Err(LexFault::OpenText(place)),
            Piece::OpenComment => return Err(LexFault::OpenComment(place)),
            Piece::BigNumber => return Err(LexFault::BigNumber(place)),
        }
    }
    Ok(out)
}

/// The place behind a text.
pub fn end_place(text: &[u8]) -> Place
    ensures { result ≡ place_at text.now (length text.now) }
{
    moved(Place { line: 1, column: 1 }, text)
}
