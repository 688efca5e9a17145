ghost use Rattle.std.specs.Prelude.{◌≡◌, ◌≤◌, ◌<◌, ◌+◌, length, take, drop, slice_index, All, IsTrue, IfSome, nat_eq, ◌&&◌};
ghost use Rattle.lp_lexer.specs.Bytes.{is_in, run};
ghost use Rattle.lp_lexer.specs.Front.{comment_len, text_end, closes, symbol_len, decimal_from, number_of, number_at, comment_at, text_at, mark_at, front, IsEndWithin, IsWithin};

use crate::class::{Class, is_in, run_len};
use crate::token::{Ended, Piece, TokenKind};

// The bytes up to the end of a comment, behind its opening.

fn comment_len(bytes: &[u8]) -> Option<usize>
    ensures len { result ≡ comment_len 1 bytes.now }
    ensures within { IfSome result (λ n. n ≤ length bytes.now) }
{
    let mut depth: usize = 1;
    let mut n: usize = 0;
    'over: while n + 1 < bytes.len() {
        let b = bytes[n];
        let c = bytes[n + 1];
        if b == 47 && c == 42 {
            depth += 1;
            n += 2;
            continue;
        }
        if b == 42 && c == 47 {
            if depth == 1 {
                return Some(n + 2);
            }
            depth -= 1;
            n += 2;
            continue;
        }
        n += 1;
    }
    None
}

// Where a string ends, behind its opening quote.
fn text_end(bytes: &[u8]) -> Ended
    ensures end { result ≡ text_end bytes.now }
    ensures within { IsEndWithin (length bytes.now) result }
{
    let mut n: usize = 0;
    'over: while n < bytes.len() {
        let b = bytes[n];
        if b == 34 {
            return Ended::Closed(n + 1);
        }
        if b == 10 {
            return Ended::Open;
        }
        if b == 92 {
            if n + 1 < bytes.len() && is_in(Class::Escaped, bytes[n + 1]) {
                n += 2;
                continue;
            }
            return Ended::BadAt(n);
        }
        if !is_in(Class::Inside, b) {
            return Ended::BadAt(n);
        }
        n += 1;
    }
    Ended::Open
}

// Whether an escape stands behind so many bytes.
#[tactic(auto, using(crate::proofs::Steps::no_escape_past, std::proofs::lemmas::Grind::common_steps))]
fn is_escape(n: usize, bytes: &[u8]) -> bool
    requires { n ≤ length bytes.now }
    ensures is { result ≡ (nat_eq (slice_index bytes.now n) 92 && is_in Class.Escaped (slice_index bytes.now (n + 1))) }
    ensures within { IsTrue result → n + 1 < length bytes.now }
{
    if n + 1 >= bytes.len() {
        return false;
    }
    bytes[n] == 92 && is_in(Class::Escaped, bytes[n + 1])
}

// Whether a quote closes the string on its line.
fn closes(bytes: &[u8]) -> bool
    ensures { result ≡ closes bytes.now }
{
    let mut n: usize = 0;
    'over: while n < bytes.len() {
        let b = bytes[n];
        if b == 34 {
            return true;
        }
        if b == 10 {
            return false;
        }
        if is_escape(n, bytes) {
            n += 2;
            continue;
        }
        n += 1;
    }
    false
}

// A string, or what stops it: the closing quote goes before a bad byte.
fn text_at(bytes: &[u8]) -> Piece
    ensures is { result ≡ text_at (text_end bytes.now) bytes.now }
    ensures within { IsWithin (1 + length bytes.now) result }
{
    match text_end(bytes) {
        Ended::Closed(n) => Piece::Found(TokenKind::Text, 1 + n),
        Ended::BadAt(n) => {
            if closes(&bytes[n..]) {
                return Piece::Bad(1 + n);
            }
            Piece::OpenText
        }
        Ended::Open => Piece::OpenText,
    }
}

// How many bytes of a symbol are at the front.
fn symbol_len(bytes: &[u8]) -> usize
    ensures len { result ≡ symbol_len bytes.now }
    ensures within { result ≤ length bytes.now }
    ensures some { IsTrue (is_in Class.Symbol (slice_index bytes.now 0)) → 0 < length bytes.now → (slice_index bytes.now 0 ≡ 47 → slice_index bytes.now 1 ≡ 42 → ⊥) → 0 < result }
{
    let mut n: usize = 0;
    'over: while n < bytes.len() && is_in(Class::Symbol, bytes[n]) {
        if bytes[n] == 47 && n + 1 < bytes.len() && bytes[n + 1] == 42 {
            return n;
        }
        n += 1;
    }
    n
}

// A number of so many digits.
fn number_of(digits: &[u8]) -> Piece
    requires { All (λ d. IsTrue (is_in Class.Digit d)) digits.now }
    ensures { result ≡ number_of (length digits.now) (decimal_from 0 digits.now) }
{
    let mut value: u64 = 0;
    for d in digits {
        if value > 922337203685477580 {
            return Piece::BigNumber;
        }
        value = value * 10 + (*d - 48) as u64;
        if value > 9223372036854775807 {
            return Piece::BigNumber;
        }
    }
    Piece::Found(TokenKind::Number(value as i64), digits.len())
}

// A . and a digit stand behind so many bytes.
#[tactic(auto, using(crate::proofs::Steps::no_digit_past, std::proofs::lemmas::Grind::common_steps))]
fn has_fraction(digits: usize, bytes: &[u8]) -> bool
    requires { digits ≤ length bytes.now }
    ensures is { result ≡ (nat_eq (slice_index bytes.now digits) 46 && is_in Class.Digit (slice_index bytes.now (digits + 1))) }
    ensures within { IsTrue result → digits + 1 < length bytes.now }
{
    if digits + 1 >= bytes.len() {
        return false;
    }
    bytes[digits] == 46 && is_in(Class::Digit, bytes[digits + 1])
}

// A number or a real, of so many digits first.
fn number_at(digits: usize, bytes: &[u8]) -> Piece
    requires first { 0 < digits }
    requires within { digits ≤ length bytes.now }
    requires each { All (λ d. IsTrue (is_in Class.Digit d)) (take digits bytes.now) }
    ensures is { result ≡ number_at digits bytes.now }
    ensures within { IsWithin (length bytes.now) result }
{
    if has_fraction(digits, bytes) {
        let after = run_len(Class::Digit, &bytes[digits + 1..]);
        return Piece::Found(TokenKind::Real, digits + 1 + after);
    }
    number_of(&bytes[..digits])
}

fn mark_at(b: u8) -> Piece
    ensures { result ≡ mark_at b }
{
    match b {
        40 => Piece::Found(TokenKind::Open, 1),
        41 => Piece::Found(TokenKind::Close, 1),
        91 => Piece::Found(TokenKind::OpenList, 1),
        93 => Piece::Found(TokenKind::CloseList, 1),
        124 => Piece::Found(TokenKind::Bar, 1),
        46 => Piece::Found(TokenKind::Dot, 1),
        92 => Piece::Found(TokenKind::Backslash, 1),
        _ => Piece::Bad(0),
    }
}

// What stands at the front.
#[tactic(auto, unfolding(crate::specs::Front::front))]
pub fn front(bytes: &[u8]) -> Piece
    requires { 0 < length bytes.now }
    ensures is { result ≡ front bytes.now }
    ensures within { IsWithin (length bytes.now) result }
{
    let b = bytes[0];
    if is_in(Class::Blank, b) {
        return Piece::Skip(run_len(Class::Blank, bytes));
    }
    if b == 37 {
        return Piece::Skip(run_len(Class::Line, bytes));
    }
    if b == 47 && bytes.len() > 1 && bytes[1] == 42 {
        return match comment_len(&bytes[2..]) {
            None => Piece::OpenComment,
            Some(n) => Piece::Skip(2 + n),
        };
    }
    if is_in(Class::Lower, b) {
        return Piece::Found(TokenKind::Lower, run_len(Class::Word, bytes));
    }
    if is_in(Class::Upper, b) {
        return Piece::Found(TokenKind::Upper, run_len(Class::Word, bytes));
    }
    if is_in(Class::Digit, b) {
        return number_at(run_len(Class::Digit, bytes), bytes);
    }
    if b == 34 {
        return text_at(&bytes[1..]);
    }
    if is_in(Class::Symbol, b) {
        return Piece::Found(TokenKind::Symbol, symbol_len(bytes));
    }
    if is_in(Class::Alone, b) {
        return Piece::Found(TokenKind::Symbol, 1);
    }
    mark_at(b)
}
