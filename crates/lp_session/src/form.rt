// What a line asks for: all that a query shows, or some of it.
ghost use Rattle.std.specs.Prelude.{◌≡◌, ◌<◌, ◌-◌, ◌++◌, length, map, take, drop, replicate, IfOk, nat_lt, ◌&&◌};
ghost use Rattle.lp_session.specs.Form.{piece, is_upper, is_lower, is_dot, is_print, is_shown, form_of, IsWithin};

use lp_base::Memory;
use lp_lexer::{Token, TokenKind};
use std::alloc::Global;

/// What a line asks for.
#[derive(Clone, Copy)]
pub(crate) enum Form {
    /// A query.
    Plain,
    /// `print`, names, a dot and a query: the dot is the token of this number and ends at this byte.
    Printed(usize, usize),
    /// `print`, and at this byte something that does not fit.
    Unfit(usize),
}

/// The bytes between two numbers, none where they do not lie in the line.
pub(crate) fn piece(line: &[u8], from: usize, to: usize) -> &[u8]
    ensures { result.now ≡ piece line.now from to }
{
    let end = to.min(line.len());
    if from < end {
        &line[from..end]
    } else {
        &line[..0]
    }
}

fn is_upper(kind: TokenKind) -> bool
    ensures { result ≡ is_upper kind }
{
    matches!(kind, TokenKind::Upper)
}

fn is_lower(kind: TokenKind) -> bool
    ensures { result ≡ is_lower kind }
{
    matches!(kind, TokenKind::Lower)
}

fn is_dot(kind: TokenKind) -> bool
    ensures { result ≡ is_dot kind }
{
    matches!(kind, TokenKind::Dot)
}

// The word `print`.
fn is_print(line: &[u8], token: Token) -> bool
    ensures { result ≡ is_print line.now token }
{
    is_lower(token.kind) && piece(line, token.from, token.to) == b"print".as_slice()
}

// The name of a variable, other than `_`.
fn is_shown(line: &[u8], token: Token) -> bool
    ensures { result ≡ is_shown line.now token }
{
    is_upper(token.kind) && piece(line, token.from, token.to) != b"_".as_slice()
}

// The dot behind the names.
fn is_end(at: usize, kind: TokenKind) -> bool
    ensures { result ≡ (nat_lt 1 at && is_dot kind) }
{
    1 < at && is_dot(kind)
}

/// What a line of these tokens asks for.
pub(crate) fn form_of(line: &[u8], tokens: &[Token]) -> Form
    ensures form { result ≡ form_of line.now tokens.now }
    ensures within { IsWithin (length tokens.now) result }
{
    if tokens.is_empty() {
        return Form::Plain;
    }
    if !is_print(line, tokens[0]) {
        return Form::Plain;
    }
    'names: for at in 1..tokens.len() {
        let token = tokens[at];
        if is_shown(line, token) {
            continue;
        }
        if is_end(at, token.kind) {
            return Form::Printed(at, token.to);
        }
        return Form::Unfit(token.from);
    }
    Form::Unfit(line.len())
}

/// The names as they are written.
pub(crate) fn names_of(alloc: Global, line: &[u8], tokens: &[Token]) -> Result<Vec<Vec<u8>>, Memory>
    ensures { IfOk result (λ names. map (λ n. n.items) names.items ≡ map (λ t. piece line.now t.from t.to) tokens.now) }
{
    let mut names = Vec::new(alloc);
    'names: for at in 0..tokens.len() {
        let token = tokens[at];
        let name = piece(line, token.from, token.to).to_vec(alloc)?;
        names.push(name)?;
    }
    Ok(names)
}

/// The line with spaces in place of its first bytes.
pub(crate) fn query_of(alloc: Global, line: &[u8], from: usize) -> Result<Vec<u8>, Memory>
    ensures { IfOk result (λ query. query.items ≡ replicate from 32 ++ drop from line.now) }
{
    let mut query = Vec::from_elem(alloc, b' ', from)?;
    query.extend_from_slice(piece(line, from, line.len()))?;
    Ok(query)
}
