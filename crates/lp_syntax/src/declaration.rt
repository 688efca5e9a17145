// Declarations, from the word behind their keyword to their full stop.
ghost use Rattle.std.specs.Prelude.{◌≡◌, ◌≢◌, ◌<◌, ◌≤◌, ◌+◌, ◌⊎◌, length, IfOk, IfErr, true, false};
ghost use Rattle.lp_syntax.specs.declared.class.Keyword.TheVariants as keyword;
ghost use Rattle.lp_syntax.specs.declared.class.Class.TheVariants as class;
ghost use Rattle.lp_syntax.specs.Tokens.{lexemes, class_at, spot_at};
ghost use Rattle.lp_syntax.specs.Declarations.{IsDeclared};
ghost use Rattle.lp_syntax.specs.Terms.{MemoryOr};
ghost use Rattle.lp_syntax.specs.LineMachine.{AtStart, AtName, AtHead, StopsIn, IsTooDeep};

use crate::class::{Class, Keyword};
use crate::fault::SyntaxFault;
use crate::input::Input;
use crate::parts::{abbreviated, declared_type, kind, names, number, words};
use crate::text::Declaration;
use lp_fixity::Fixity;
use std::alloc::Global;

fn kinds(alloc: Global, input: &Input<'_>, from: usize) -> Result<(Declaration, usize), SyntaxFault>
    requires { from ≤ length input.now.tokens.now }
    ensures within { IfOk result (λ r. r.1 ≤ length input.now.tokens.now) }
    ensures further { IfOk result (λ r. from < r.1) }
    ensures declared { IfOk result (λ r. IsDeclared (spot_at input.now.file input.now.source.now input.now.tokens.now) (lexemes input.now.source.now input.now.tokens.now) keyword.Kind from r.1 r.0) }
    ensures fault { IfErr result (λ f. MemoryOr f (StopsIn (spot_at input.now.file input.now.source.now input.now.tokens.now) (lexemes input.now.source.now input.now.tokens.now) (AtName keyword.Kind) from f)) }
{
    let (names, at) = names(alloc, input, from)?;
    let (arguments, at) = kind(input, at)?;
    let end = input.dot(at)?;
    Ok((Declaration::Kinds(names, arguments), end))
}

fn is_dot(input: &Input<'_>, at: usize) -> bool
    ensures within { result ≡ true → at < length input.now.tokens.now }
    ensures class { result ≡ true → class_at (lexemes input.now.source.now input.now.tokens.now) at ≡ class.Dot }
    ensures no { result ≡ false → class_at (lexemes input.now.source.now input.now.tokens.now) at ≢ class.Dot }
{
    matches!(input.class(at), Class::Dot)
}

fn local_kinds(
    alloc: Global,
    input: &Input<'_>,
    from: usize,
) -> Result<(Declaration, usize), SyntaxFault>
    requires { from ≤ length input.now.tokens.now }
    ensures within { IfOk result (λ r. r.1 ≤ length input.now.tokens.now) }
    ensures further { IfOk result (λ r. from < r.1) }
    ensures declared { IfOk result (λ r. IsDeclared (spot_at input.now.file input.now.source.now input.now.tokens.now) (lexemes input.now.source.now input.now.tokens.now) keyword.Localkind from r.1 r.0) }
    ensures fault { IfErr result (λ f. MemoryOr f (StopsIn (spot_at input.now.file input.now.source.now input.now.tokens.now) (lexemes input.now.source.now input.now.tokens.now) (AtName keyword.Localkind) from f)) }
{
    let (names, at) = names(alloc, input, from)?;
    if is_dot(input, at) {
        return Ok((Declaration::LocalKinds(names, None), at + 1));
    }
    let (arguments, at) = kind(input, at)?;
    let end = input.dot(at)?;
    Ok((Declaration::LocalKinds(names, Some(arguments)), end))
}

fn constants(
    alloc: Global,
    input: &Input<'_>,
    from: usize,
) -> Result<(Declaration, usize), SyntaxFault>
    requires { from ≤ length input.now.tokens.now }
    ensures within { IfOk result (λ r. r.1 ≤ length input.now.tokens.now) }
    ensures further { IfOk result (λ r. from < r.1) }
    ensures declared { IfOk result (λ r. IsDeclared (spot_at input.now.file input.now.source.now input.now.tokens.now) (lexemes input.now.source.now input.now.tokens.now) keyword.Type from r.1 r.0) }
    ensures fault { IfErr result (λ f. MemoryOr f (IsTooDeep (lexemes input.now.source.now input.now.tokens.now) keyword.Type from f ⊎ StopsIn (spot_at input.now.file input.now.source.now input.now.tokens.now) (lexemes input.now.source.now input.now.tokens.now) (AtName keyword.Type) from f)) }
{
    let (names, at) = names(alloc, input, from)?;
    let (text, at) = declared_type(alloc, input, at)?;
    let end = input.dot(at)?;
    let ty = text.within()?;
    Ok((Declaration::Constants(names, ty), end))
}

fn locals(
    alloc: Global,
    input: &Input<'_>,
    from: usize,
) -> Result<(Declaration, usize), SyntaxFault>
    requires { from ≤ length input.now.tokens.now }
    ensures within { IfOk result (λ r. r.1 ≤ length input.now.tokens.now) }
    ensures further { IfOk result (λ r. from < r.1) }
    ensures declared { IfOk result (λ r. IsDeclared (spot_at input.now.file input.now.source.now input.now.tokens.now) (lexemes input.now.source.now input.now.tokens.now) keyword.Local from r.1 r.0) }
    ensures fault { IfErr result (λ f. MemoryOr f (IsTooDeep (lexemes input.now.source.now input.now.tokens.now) keyword.Local from f ⊎ StopsIn (spot_at input.now.file input.now.source.now input.now.tokens.now) (lexemes input.now.source.now input.now.tokens.now) (AtName keyword.Local) from f)) }
{
    let (names, at) = names(alloc, input, from)?;
    if is_dot(input, at) {
        return Ok((Declaration::Locals(names, None), at + 1));
    }
    let (text, at) = declared_type(alloc, input, at)?;
    let end = input.dot(at)?;
    let ty = text.within()?;
    Ok((Declaration::Locals(names, Some(ty)), end))
}

fn abbreviation(
    alloc: Global,
    input: &Input<'_>,
    from: usize,
) -> Result<(Declaration, usize), SyntaxFault>
    requires { from ≤ length input.now.tokens.now }
    ensures within { IfOk result (λ r. r.1 ≤ length input.now.tokens.now) }
    ensures further { IfOk result (λ r. from < r.1) }
    ensures declared { IfOk result (λ r. IsDeclared (spot_at input.now.file input.now.source.now input.now.tokens.now) (lexemes input.now.source.now input.now.tokens.now) keyword.Typeabbrev from r.1 r.0) }
    ensures fault { IfErr result (λ f. MemoryOr f (IsTooDeep (lexemes input.now.source.now input.now.tokens.now) keyword.Typeabbrev from f ⊎ StopsIn (spot_at input.now.file input.now.source.now input.now.tokens.now) (lexemes input.now.source.now input.now.tokens.now) AtHead from f)) }
{
    let (name, parameters, at) = abbreviated(alloc, input, from)?;
    let (text, at) = declared_type(alloc, input, at)?;
    let end = input.dot(at)?;
    let body = text.within()?;
    Ok((Declaration::Abbreviation(name, parameters, body), end))
}

fn accumulate(
    alloc: Global,
    input: &Input<'_>,
    from: usize,
) -> Result<(Declaration, usize), SyntaxFault>
    requires { from ≤ length input.now.tokens.now }
    ensures within { IfOk result (λ r. r.1 ≤ length input.now.tokens.now) }
    ensures further { IfOk result (λ r. from < r.1) }
    ensures declared { IfOk result (λ r. IsDeclared (spot_at input.now.file input.now.source.now input.now.tokens.now) (lexemes input.now.source.now input.now.tokens.now) keyword.Accumulate from r.1 r.0) }
    ensures fault { IfErr result (λ f. MemoryOr f (StopsIn (spot_at input.now.file input.now.source.now input.now.tokens.now) (lexemes input.now.source.now input.now.tokens.now) (AtName keyword.Accumulate) from f)) }
{
    let (words, at) = words(alloc, input, from)?;
    let end = input.dot(at)?;
    Ok((Declaration::Accumulate(words), end))
}

fn accum_sig(
    alloc: Global,
    input: &Input<'_>,
    from: usize,
) -> Result<(Declaration, usize), SyntaxFault>
    requires { from ≤ length input.now.tokens.now }
    ensures within { IfOk result (λ r. r.1 ≤ length input.now.tokens.now) }
    ensures further { IfOk result (λ r. from < r.1) }
    ensures declared { IfOk result (λ r. IsDeclared (spot_at input.now.file input.now.source.now input.now.tokens.now) (lexemes input.now.source.now input.now.tokens.now) keyword.AccumSig from r.1 r.0) }
    ensures fault { IfErr result (λ f. MemoryOr f (StopsIn (spot_at input.now.file input.now.source.now input.now.tokens.now) (lexemes input.now.source.now input.now.tokens.now) (AtName keyword.AccumSig) from f)) }
{
    let (words, at) = words(alloc, input, from)?;
    let end = input.dot(at)?;
    Ok((Declaration::AccumSig(words), end))
}

fn fixities(
    alloc: Global,
    input: &Input<'_>,
    from: usize,
    fixity: Fixity,
) -> Result<(Declaration, usize), SyntaxFault>
    requires { from ≤ length input.now.tokens.now }
    ensures within { IfOk result (λ r. r.1 ≤ length input.now.tokens.now) }
    ensures further { IfOk result (λ r. from < r.1) }
    ensures declared { IfOk result (λ r. IsDeclared (spot_at input.now.file input.now.source.now input.now.tokens.now) (lexemes input.now.source.now input.now.tokens.now) (keyword.Fixity fixity) from r.1 r.0) }
    ensures fault { IfErr result (λ f. MemoryOr f (StopsIn (spot_at input.now.file input.now.source.now input.now.tokens.now) (lexemes input.now.source.now input.now.tokens.now) (AtName (keyword.Fixity fixity)) from f)) }
{
    let (names, at) = names(alloc, input, from)?;
    let (number, at) = number(input, at)?;
    let end = input.dot(at)?;
    Ok((Declaration::Fixities(names, fixity, number), end))
}

/// The declaration whose keyword stands at `from`, and the number of the token behind its full stop.
pub fn declaration(
    alloc: Global,
    input: &Input<'_>,
    from: usize,
    keyword: Keyword,
) -> Result<(Declaration, usize), SyntaxFault>
    requires { from < length input.now.tokens.now }
    ensures within { IfOk result (λ r. r.1 ≤ length input.now.tokens.now) }
    ensures further { IfOk result (λ r. from < r.1) }
    ensures declared { IfOk result (λ r. IsDeclared (spot_at input.now.file input.now.source.now input.now.tokens.now) (lexemes input.now.source.now input.now.tokens.now) keyword (from + 1) r.1 r.0) }
    ensures fault { class_at (lexemes input.now.source.now input.now.tokens.now) from ≡ class.Keyword keyword → IfErr result (λ f. MemoryOr f (IsTooDeep (lexemes input.now.source.now input.now.tokens.now) keyword (from + 1) f ⊎ StopsIn (spot_at input.now.file input.now.source.now input.now.tokens.now) (lexemes input.now.source.now input.now.tokens.now) AtStart from f)) }
{
    match keyword {
        Keyword::Sig => Err(input.refusal(from, None)),
        Keyword::Module => Err(input.refusal(from, None)),
        Keyword::Kind => kinds(alloc, input, from + 1),
        Keyword::Localkind => local_kinds(alloc, input, from + 1),
        Keyword::Type => constants(alloc, input, from + 1),
        Keyword::Local => locals(alloc, input, from + 1),
        Keyword::Typeabbrev => abbreviation(alloc, input, from + 1),
        Keyword::Accumulate => accumulate(alloc, input, from + 1),
        Keyword::AccumSig => accum_sig(alloc, input, from + 1),
        Keyword::Fixity(fixity) => fixities(alloc, input, from + 1, fixity),
    }
}
