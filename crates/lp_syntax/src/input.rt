// A text with its tokens, by their numbers.
ghost use Rattle.std.specs.Prelude.{◌≡◌, ◌≢◌, ◌≤◌, ◌+◌, length, true, false, None, IfOk};
ghost use Rattle.lp_syntax.specs.declared.class.Class.TheVariants.{Dot};
ghost use Rattle.std.specs.Prelude.{IfErr};
ghost use Rattle.lp_syntax.specs.Tokens.{piece, lexemes, bytes_at, class_at, spot_at};
ghost use Rattle.lp_syntax.specs.Faults.{refused};

use crate::class::{Class, class_of};
use crate::fault::SyntaxFault;
use lp_base::Spot;
use lp_lexer::{Token, end_place};

/// A text with its tokens and the number of its file.
#[derive(Clone, Copy)]
pub struct Input<'a> {
    pub source: &'a [u8],
    pub tokens: &'a [Token],
    pub file: u32,
}

// A full stop.
pub fn is_dot(class: Class) -> bool
    ensures yes { result ≡ true → class ≡ Dot }
    ensures no { result ≡ false → class ≢ Dot }
{
    matches!(class, Class::Dot)
}

impl<'a> Input<'a> {
    // These bytes, none where they do not lie in the text.
    #[tactic(auto, unfolding(crate::specs::Tokens::piece))]
    pub fn piece(&self, from: usize, to: usize) -> &'a [u8]
        ensures { result.now ≡ piece self.now.source.now from to }
    {
        match self.source.get(from..to) {
            None => &[],
            Some(text) => text,
        }
    }

    // The bytes of a token, none behind the last one.
    #[tactic(auto, unfolding(crate::specs::Tokens::bytes_at))]
    pub fn text(&self, at: usize) -> &'a [u8]
        ensures { result.now ≡ bytes_at (lexemes self.now.source.now self.now.tokens.now) at }
    {
        match self.tokens.get(at) {
            None => &[],
            Some(token) => self.piece(token.from, token.to),
        }
    }

    #[tactic(auto, unfolding(crate::specs::Tokens::class_at))]
    pub fn class(&self, at: usize) -> Class
        ensures { result ≡ class_at (lexemes self.now.source.now self.now.tokens.now) at }
    {
        match self.tokens.get(at) {
            None => Class::End,
            Some(token) => class_of(token.kind, self.piece(token.from, token.to)),
        }
    }

    // The spot of a token; behind the last one, the place behind the text.
    #[tactic(auto, unfolding(crate::specs::Tokens::spot_at))]
    pub fn spot(&self, at: usize) -> Spot
        ensures { result ≡ spot_at self.now.file self.now.source.now self.now.tokens.now at }
    {
        match self.tokens.get(at) {
            None => Spot {
                file: self.file,
                from: self.source.len(),
                to: self.source.len(),
                at: end_place(self.source),
            },
            Some(token) => Spot {
                file: self.file,
                from: token.from,
                to: token.to,
                at: token.at,
            },
        }
    }

    // Why this token does not go on, with the number of the innermost open bracket.
    pub fn refusal(&self, at: usize, bracket: Option<usize>) -> SyntaxFault
        ensures { result ≡ refused (spot_at self.now.file self.now.source.now self.now.tokens.now) at bracket (class_at (lexemes self.now.source.now self.now.tokens.now) at) }
    {
        match self.class(at) {
            Class::Unsupported => SyntaxFault::Unsupported(self.spot(at)),
            Class::End => match bracket {
                None => SyntaxFault::Unexpected(self.spot(at)),
                Some(number) => SyntaxFault::Unclosed(self.spot(number)),
            },
            _ => SyntaxFault::Unexpected(self.spot(at)),
        }
    }

    // The number behind a full stop that is due here.
    pub fn dot(&self, at: usize) -> Result<usize, SyntaxFault>
        ensures further { IfOk result (λ end. end ≡ at + 1) }
        ensures within { IfOk result (λ end. end ≤ length self.now.tokens.now) }
        ensures dot { IfOk result (λ _. class_at (lexemes self.now.source.now self.now.tokens.now) at ≡ Dot) }
        ensures none { IfErr result (λ _. class_at (lexemes self.now.source.now self.now.tokens.now) at ≢ Dot) }
        ensures refused { IfErr result (λ fault. fault ≡ refused (spot_at self.now.file self.now.source.now self.now.tokens.now) at None (class_at (lexemes self.now.source.now self.now.tokens.now) at)) }
    {
        if at >= self.tokens.len() {
            return Err(self.refusal(at, None));
        }
        if is_dot(self.class(at)) {
            return Ok(at + 1);
        }
        Err(self.refusal(at, None))
    }
}
