// The tokens as the grammar tells them apart.
ghost use Rattle.std.specs.Prelude.{◌≡◌, ◌≢◌, true, false};
ghost use Rattle.std.specs.Str.{bytes_eq};
ghost use Rattle.lp_syntax.specs.Classes.{is_among, entry, unsupported, fixities, keywords, lower, symbol, class_of};

use lp_fixity::Fixity;
use lp_lexer::TokenKind;

/// A reserved word that begins or makes a part of a sentence.
#[derive(Clone, Copy, Debug, PartialEq, Eq)]
pub enum Keyword {
    Sig,
    Module,
    Kind,
    Type,
    Typeabbrev,
    Local,
    Localkind,
    Accumulate,
    AccumSig,
    Fixity(Fixity),
}

/// What a token is to the grammar.
#[derive(Clone, Copy, Debug, PartialEq, Eq)]
pub enum Class {
    /// A lower-case word that is not reserved.
    Lower,
    Upper,
    /// A symbol other than the next three.
    Symbol,
    Comma,
    Colon,
    Arrow,
    Number(i64),
    Text,
    Open,
    Close,
    OpenList,
    CloseList,
    Bar,
    Dot,
    Backslash,
    Keyword(Keyword),
    /// A real, or a word that is kept for what is not supported.
    Unsupported,
    /// Behind the last token.
    End,
}

/// The class of a token with this text.
pub fn class_of(kind: TokenKind, text: &[u8]) -> Class
    ensures { result ≡ class_of kind text.now }
{
    match kind {
        TokenKind::Lower => lower(text),
        TokenKind::Upper => Class::Upper,
        TokenKind::Symbol => symbol(text),
        TokenKind::Number(n) => Class::Number(n),
        TokenKind::Real => Class::Unsupported,
        TokenKind::Text => Class::Text,
        TokenKind::Open => Class::Open,
        TokenKind::Close => Class::Close,
        TokenKind::OpenList => Class::OpenList,
        TokenKind::CloseList => Class::CloseList,
        TokenKind::Bar => Class::Bar,
        TokenKind::Dot => Class::Dot,
        TokenKind::Backslash => Class::Backslash,
    }
}

// The text is this word.
pub fn is(text: &[u8], word: &[u8]) -> bool
    ensures { result ≡ bytes_eq text.now word.now }
{
    text == word
}

#[tactic(auto, unfolding(crate::specs::Classes::symbol))]
fn symbol(text: &[u8]) -> Class
    ensures { result ≡ symbol text.now }
{
    if is(text, b",") {
        return Class::Comma;
    }
    if is(text, b":") {
        return Class::Colon;
    }
    if is(text, b"->") {
        return Class::Arrow;
    }
    Class::Symbol
}

#[tactic(auto, unfolding(crate::specs::Classes::lower))]
fn lower(text: &[u8]) -> Class
    ensures { result ≡ lower text.now }
{
    if is_unsupported(text) {
        return Class::Unsupported;
    }
    if let Some(fixity) = fixity(text) {
        return Class::Keyword(Keyword::Fixity(fixity));
    }
    match keyword_of(text) {
        None => Class::Lower,
        Some(word) => Class::Keyword(word),
    }
}

fn is_unsupported(text: &[u8]) -> bool
    ensures { result ≡ is_among unsupported text.now }
{
    is(text, b"import")
        || is(text, b"use_sig")
        || is(text, b"useonly")
        || is(text, b"exportdef")
        || is(text, b"closed")
        || is(text, b"print")
}

fn fixity(text: &[u8]) -> Option<Fixity>
    ensures { result ≡ entry fixities text.now }
{
    if is(text, b"infix") {
        return Some(Fixity::Infix);
    }
    if is(text, b"infixl") {
        return Some(Fixity::Infixl);
    }
    if is(text, b"infixr") {
        return Some(Fixity::Infixr);
    }
    if is(text, b"prefix") {
        return Some(Fixity::Prefix);
    }
    if is(text, b"prefixr") {
        return Some(Fixity::Prefixr);
    }
    if is(text, b"postfix") {
        return Some(Fixity::Postfix);
    }
    if is(text, b"postfixl") {
        return Some(Fixity::Postfixl);
    }
    None
}

fn keyword_of(text: &[u8]) -> Option<Keyword>
    ensures { result ≡ entry keywords text.now }
{
    if is(text, b"sig") {
        return Some(Keyword::Sig);
    }
    if is(text, b"module") {
        return Some(Keyword::Module);
    }
    if is(text, b"kind") {
        return Some(Keyword::Kind);
    }
    if is(text, b"type") {
        return Some(Keyword::Type);
    }
    if is(text, b"typeabbrev") {
        return Some(Keyword::Typeabbrev);
    }
    if is(text, b"local") {
        return Some(Keyword::Local);
    }
    if is(text, b"localkind") {
        return Some(Keyword::Localkind);
    }
    if is(text, b"accumulate") {
        return Some(Keyword::Accumulate);
    }
    if is(text, b"accum_sig") {
        return Some(Keyword::AccumSig);
    }
    None
}
