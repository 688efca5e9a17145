// The parts of declarations: lists of names and words, kinds, types.
ghost use Rattle.std.specs.Prelude.{◌≡◌, ◌≢◌, ◌<◌, ◌≤◌, ◌+◌, length, None, ℕ, ℤ, IfOk, IfErr, true, false};
ghost use Rattle.lp_syntax.specs.Faults.{refused};
ghost use Rattle.lp_base.specs.declared.limit.Limit.TheVariants.{Nesting};
ghost use Rattle.lp_syntax.specs.declared.fault.SyntaxFault.TheVariants as fault;
ghost use Rattle.lp_syntax.specs.declared.class.Keyword.{Keyword as Word};
ghost use Rattle.lp_syntax.specs.declared.class.Keyword.TheVariants as keyword;
ghost use Rattle.lp_syntax.specs.declared.class.Class.TheVariants as class;
ghost use Rattle.lp_syntax.specs.Tokens.{lexemes, class_at, spot_at};
ghost use Rattle.lp_base.specs.declared.place.Spot.{Spot as Place};
ghost use Rattle.lp_base.specs.declared.limits.TheConstants.{MAX_TYPE_DEPTH};
ghost use Rattle.lp_syntax.specs.Types.{TypeTree};
ghost use Rattle.lp_syntax.specs.Depth.{type_depth, counted};
ghost use Rattle.lp_syntax.specs.TypeMachine.{Ends};
ghost use Rattle.lp_syntax.specs.TypeViews.{ComesTo};
ghost use Rattle.lp_syntax.specs.Terms.{MemoryOr};
ghost use Rattle.lp_syntax.specs.LineMachine.{AtName, AtKind, AtHead, AtHeadName, InType, lists_words, no_type, StopsIn};
ghost use Rattle.lp_syntax.specs.Declarations.{is_name, is_word, is_listed, one_more, saturated, AreListed, IsKindText, IsHead, HasNumber, IsTypeAt, IsShownType};

use crate::class::{Class, Keyword};
use crate::depth::type_depth;
use crate::fault::SyntaxFault;
use crate::input::Input;
use crate::text::RawType;
use crate::types::{TypeEnd, read_type};
use lp_base::{Limit, MAX_TYPE_DEPTH, Spot};
use std::alloc::Global;

/// A type of a declaration, which is refused where it is too deep, directly behind its sentence.
#[derive(Drop)]
pub struct TypeText {
    pub text: RawType,
    pub depth: usize,
}

impl TypeText {
    pub fn within(self) -> Result<RawType, SyntaxFault>
        ensures text { IfOk result (λ ty. ty ≡ self.text) }
        ensures fits { IfOk result (λ ty. self.depth ≤ MAX_TYPE_DEPTH) }
        ensures limit { IfErr result (λ f. f ≡ fault.Limit Nesting) }
        ensures deep { IfErr result (λ f. MAX_TYPE_DEPTH < self.depth) }
    {
        if self.depth > MAX_TYPE_DEPTH {
            return Err(SyntaxFault::Limit(Limit::Nesting));
        }
        Ok(self.text)
    }
}

fn is_name(class: Class) -> bool
    ensures { result ≡ is_name class }
{
    matches!(class, Class::Lower | Class::Symbol | Class::Comma)
}

fn is_word(class: Class) -> bool
    ensures { result ≡ is_word class }
{
    matches!(class, Class::Lower | Class::Upper)
}

fn is_listed(class: Class, words: bool) -> bool
    ensures { result ≡ is_listed words class }
{
    if words {
        is_word(class)
    } else {
        is_name(class)
    }
}

// A name, or a word.
fn listed(input: &Input<'_>, at: usize, words: bool) -> bool
    ensures within { result ≡ true → at < length input.now.tokens.now }
    ensures is { result ≡ is_listed words (class_at (lexemes input.now.source.now input.now.tokens.now) at) }
{
    is_listed(input.class(at), words)
}

// One or more names, or words, with commas between, and the number of the token behind them. A comma may be a name itself:
// names and commas alternate.
fn list(
    alloc: Global,
    input: &Input<'_>,
    from: usize,
    words: bool,
) -> Result<(Vec<Spot>, usize), SyntaxFault>
    requires { from ≤ length input.now.tokens.now }
    ensures within { IfOk result (λ r. r.1 ≤ length input.now.tokens.now) }
    ensures further { IfOk result (λ r. from < r.1) }
    ensures listed { IfOk result (λ r. AreListed (spot_at input.now.file input.now.source.now input.now.tokens.now) (lexemes input.now.source.now input.now.tokens.now) words from r.1 r.0.items) }
    ensures no_comma { IfOk result (λ r. class_at (lexemes input.now.source.now input.now.tokens.now) r.1 ≢ class.Comma) }
    ensures fault { (k : Word) → lists_words k ≡ words → IfErr result (λ f. MemoryOr f (StopsIn (spot_at input.now.file input.now.source.now input.now.tokens.now) (lexemes input.now.source.now input.now.tokens.now) (AtName k) from f)) }
{
    let mut spots = Vec::new(alloc);
    let mut at = from;
    'over: while listed(input, at, words) {
        spots.push(input.spot(at))?;
        at += 1;
        if !is_comma(input, at) {
            return Ok((spots, at));
        }
        at += 1;
    }
    Err(input.refusal(at, None))
}

/// `names`: one or more names with commas between, and the number of the token behind them.
pub fn names(
    alloc: Global,
    input: &Input<'_>,
    from: usize,
) -> Result<(Vec<Spot>, usize), SyntaxFault>
    requires { from ≤ length input.now.tokens.now }
    ensures within { IfOk result (λ r. r.1 ≤ length input.now.tokens.now) }
    ensures further { IfOk result (λ r. from < r.1) }
    ensures listed { IfOk result (λ r. AreListed (spot_at input.now.file input.now.source.now input.now.tokens.now) (lexemes input.now.source.now input.now.tokens.now) false from r.1 r.0.items) }
    ensures no_comma { IfOk result (λ r. class_at (lexemes input.now.source.now input.now.tokens.now) r.1 ≢ class.Comma) }
    ensures fault { (k : Word) → lists_words k ≡ false → IfErr result (λ f. MemoryOr f (StopsIn (spot_at input.now.file input.now.source.now input.now.tokens.now) (lexemes input.now.source.now input.now.tokens.now) (AtName k) from f)) }
{
    list(alloc, input, from, false)
}

/// `words`: one or more words with commas between, and the number of the token behind them.
pub fn words(
    alloc: Global,
    input: &Input<'_>,
    from: usize,
) -> Result<(Vec<Spot>, usize), SyntaxFault>
    requires { from ≤ length input.now.tokens.now }
    ensures within { IfOk result (λ r. r.1 ≤ length input.now.tokens.now) }
    ensures further { IfOk result (λ r. from < r.1) }
    ensures listed { IfOk result (λ r. AreListed (spot_at input.now.file input.now.source.now input.now.tokens.now) (lexemes input.now.source.now input.now.tokens.now) true from r.1 r.0.items) }
    ensures no_comma { IfOk result (λ r. class_at (lexemes input.now.source.now input.now.tokens.now) r.1 ≢ class.Comma) }
    ensures fault { (k : Word) → lists_words k ≡ true → IfErr result (λ f. MemoryOr f (StopsIn (spot_at input.now.file input.now.source.now input.now.tokens.now) (lexemes input.now.source.now input.now.tokens.now) (AtName k) from f)) }
{
    list(alloc, input, from, true)
}

fn is_type(input: &Input<'_>, at: usize) -> bool
    ensures within { result ≡ true → at < length input.now.tokens.now }
    ensures class { result ≡ true → class_at (lexemes input.now.source.now input.now.tokens.now) at ≡ class.Keyword keyword.Type }
    ensures no { result ≡ false → class_at (lexemes input.now.source.now input.now.tokens.now) at ≢ (class.Keyword keyword.Type) }
{
    matches!(input.class(at), Class::Keyword(Keyword::Type))
}

fn is_arrow(input: &Input<'_>, at: usize) -> bool
    ensures within { result ≡ true → at < length input.now.tokens.now }
    ensures class { result ≡ true → class_at (lexemes input.now.source.now input.now.tokens.now) at ≡ class.Arrow }
    ensures no { result ≡ false → class_at (lexemes input.now.source.now input.now.tokens.now) at ≢ class.Arrow }
{
    matches!(input.class(at), Class::Arrow)
}

fn is_comma(input: &Input<'_>, at: usize) -> bool
    ensures within { result ≡ true → at < length input.now.tokens.now }
    ensures class { result ≡ true → class_at (lexemes input.now.source.now input.now.tokens.now) at ≡ class.Comma }
    ensures no { result ≡ false → class_at (lexemes input.now.source.now input.now.tokens.now) at ≢ class.Comma }
{
    matches!(input.class(at), Class::Comma)
}

fn is_lower(input: &Input<'_>, at: usize) -> bool
    ensures within { result ≡ true → at < length input.now.tokens.now }
    ensures class { result ≡ true → class_at (lexemes input.now.source.now input.now.tokens.now) at ≡ class.Lower }
    ensures no { result ≡ false → class_at (lexemes input.now.source.now input.now.tokens.now) at ≢ class.Lower }
{
    matches!(input.class(at), Class::Lower)
}

fn is_upper(input: &Input<'_>, at: usize) -> bool
    ensures within { result ≡ true → at < length input.now.tokens.now }
    ensures class { result ≡ true → class_at (lexemes input.now.source.now input.now.tokens.now) at ≡ class.Upper }
    ensures no { result ≡ false → class_at (lexemes input.now.source.now input.now.tokens.now) at ≢ class.Upper }
{
    matches!(input.class(at), Class::Upper)
}

fn is_close(input: &Input<'_>, at: usize) -> bool
    ensures within { result ≡ true → at < length input.now.tokens.now }
    ensures class { result ≡ true → class_at (lexemes input.now.source.now input.now.tokens.now) at ≡ class.Close }
    ensures no { result ≡ false → class_at (lexemes input.now.source.now input.now.tokens.now) at ≢ class.Close }
{
    matches!(input.class(at), Class::Close)
}

/// The count of arguments of a kind, and the number of the token behind it.
pub fn kind(input: &Input<'_>, from: usize) -> Result<(u32, usize), SyntaxFault>
    requires { from ≤ length input.now.tokens.now }
    ensures within { IfOk result (λ r. r.1 ≤ length input.now.tokens.now) }
    ensures further { IfOk result (λ r. from ≤ r.1) }
    ensures kind { IfOk result (λ r. IsKindText (lexemes input.now.source.now input.now.tokens.now) from r.1 r.0) }
    ensures no_arrow { IfOk result (λ r. class_at (lexemes input.now.source.now input.now.tokens.now) r.1 ≢ class.Arrow) }
    ensures fault { IfErr result (λ f. StopsIn (spot_at input.now.file input.now.source.now input.now.tokens.now) (lexemes input.now.source.now input.now.tokens.now) AtKind from f) }
{
    let mut arguments: u32 = 0;
    let mut at = from;
    'over: while is_type(input, at) {
        at += 1;
        if !is_arrow(input, at) {
            return Ok((arguments, at));
        }
        arguments = arguments.saturating_add(1);
        at += 1;
    }
    Err(input.refusal(at, None))
}

/// A type, and the number of the token behind it.
pub fn declared_type(
    alloc: Global,
    input: &Input<'_>,
    from: usize,
) -> Result<(TypeText, usize), SyntaxFault>
    requires { from ≤ length input.now.tokens.now }
    ensures within { IfOk result (λ r. r.1 ≤ length input.now.tokens.now) }
    ensures further { IfOk result (λ r. from ≤ r.1) }
    ensures typed { IfOk result (λ r. IsTypeAt (spot_at input.now.file input.now.source.now input.now.tokens.now) (lexemes input.now.source.now input.now.tokens.now) from r.1 r.0.text) }
    ensures end { IfOk result (λ r. ComesTo (lexemes input.now.source.now input.now.tokens.now) from r.1 Ends) }
    ensures depth { IfOk result (λ r. (spot : ℕ → Place) (t : TypeTree) → IsShownType spot r.0.text t → r.0.depth ≡ counted (type_depth t)) }
    ensures fault { IfErr result (λ f. MemoryOr f (StopsIn (spot_at input.now.file input.now.source.now input.now.tokens.now) (lexemes input.now.source.now input.now.tokens.now) (InType no_type) from f)) }
{
    match read_type(alloc, input, from)? {
        TypeEnd::Stopped(at, open) => Err(input.refusal(at, open)),
        TypeEnd::Read(text, end) => {
            let depth = type_depth(alloc, &text.nodes, text.root)?;
            Ok((TypeText { text, depth }, end))
        }
    }
}

/// The name and the parameters of an abbreviation, and the number of the token behind them.
pub fn abbreviated(
    alloc: Global,
    input: &Input<'_>,
    from: usize,
) -> Result<(Spot, Vec<Spot>, usize), SyntaxFault>
    requires { from ≤ length input.now.tokens.now }
    ensures within { IfOk result (λ r. r.2 ≤ length input.now.tokens.now) }
    ensures further { IfOk result (λ r. from ≤ r.2) }
    ensures head { IfOk result (λ r. IsHead (spot_at input.now.file input.now.source.now input.now.tokens.now) (lexemes input.now.source.now input.now.tokens.now) from r.2 r.0 r.1.items) }
    ensures fault { IfErr result (λ f. MemoryOr f (StopsIn (spot_at input.now.file input.now.source.now input.now.tokens.now) (lexemes input.now.source.now input.now.tokens.now) AtHead from f)) }
{
    if from >= input.tokens.len() {
        return Err(input.refusal(from, None));
    }
    match input.class(from) {
        Class::Lower => Ok((input.spot(from), Vec::new(alloc), from + 1)),
        Class::Open => parameters(alloc, input, from),
        _ => Err(input.refusal(from, None)),
    }
}

// From the bracket on.
fn parameters(
    alloc: Global,
    input: &Input<'_>,
    from: usize,
) -> Result<(Spot, Vec<Spot>, usize), SyntaxFault>
    requires within { from < length input.now.tokens.now }
    requires bracket { class_at (lexemes input.now.source.now input.now.tokens.now) from ≡ class.Open }
    ensures within { IfOk result (λ r. r.2 ≤ length input.now.tokens.now) }
    ensures further { IfOk result (λ r. from ≤ r.2) }
    ensures head { IfOk result (λ r. IsHead (spot_at input.now.file input.now.source.now input.now.tokens.now) (lexemes input.now.source.now input.now.tokens.now) from r.2 r.0 r.1.items) }
    ensures fault { IfErr result (λ f. MemoryOr f (StopsIn (spot_at input.now.file input.now.source.now input.now.tokens.now) (lexemes input.now.source.now input.now.tokens.now) AtHead from f)) }
{
    let mut parameters = Vec::new(alloc);
    let mut at = from + 1;
    if !is_lower(input, at) {
        return Err(input.refusal(at, Some(from)));
    }
    let name = input.spot(at);
    at += 1;
    'over: while is_upper(input, at) {
        parameters.push(input.spot(at))?;
        at += 1;
    }
    if !is_close(input, at) {
        return Err(input.refusal(at, Some(from)));
    }
    Ok((name, parameters, at + 1))
}

/// The number of a fixity line, u32's greatest value where it is greater, and the number of the token behind it.
pub fn number(input: &Input<'_>, at: usize) -> Result<(u32, usize), SyntaxFault>
    requires { at ≤ length input.now.tokens.now }
    ensures within { IfOk result (λ r. r.1 ≤ length input.now.tokens.now) }
    ensures further { IfOk result (λ r. at ≤ r.1) }
    ensures number { IfOk result (λ r. HasNumber (lexemes input.now.source.now input.now.tokens.now) at r.0) }
    ensures end { IfOk result (λ r. r.1 ≡ at + 1) }
    ensures none { IfErr result (λ _. (n : ℤ) → class_at (lexemes input.now.source.now input.now.tokens.now) at ≢ class.Number n) }
    ensures refused { IfErr result (λ f. f ≡ refused (spot_at input.now.file input.now.source.now input.now.tokens.now) at None (class_at (lexemes input.now.source.now input.now.tokens.now) at)) }
{
    if at >= input.tokens.len() {
        return Err(input.refusal(at, None));
    }
    match input.class(at) {
        Class::Number(n) => Ok((saturated(n), at + 1)),
        _ => Err(input.refusal(at, None)),
    }
}

fn saturated(n: i64) -> u32
    ensures { result ≡ saturated n }
{
    if n < 0 {
        return 0;
    }
    if n > 4294967295 {
        return 4294967295;
    }
    n as u32
}
