// What a text says of other files and of operators, whatever else it holds: its sentences are cut at the full stops, and each
// is taken that is well formed by itself.
ghost use Rattle.std.specs.Prelude.{◌≡◌, ◌≢◌, ◌<◌, ◌≤◌, ◌++◌, [], ℕ, length, map, IfOk, OnOk};
ghost use Rattle.lp_syntax.specs.declared.fault.SyntaxFault.TheVariants as fault;
ghost use Rattle.lp_syntax.specs.Tokens.{lexemes, spot_at};
ghost use Rattle.lp_syntax.specs.References.{refers_word, words_in, sig_words_in, entries_in, entry_for, NextSentence, IsReferenceAt, AreReferences};

use crate::class::{Class, Keyword};
use crate::declaration::declaration;
use crate::fault::SyntaxFault;
use crate::input::{Input, is_dot};
use crate::text::{Declaration, FixityLine, References};
use lp_base::{Memory, Spot};
use lp_fixity::Fixity;
use lp_lexer::Token;
use std::alloc::{AllocError, Global};

impl References {
    fn new(alloc: Global) -> References
        ensures accumulate { result.accumulate.items ≡ [] }
        ensures accum_sig { result.accum_sig.items ≡ [] }
        ensures fixities { result.fixities.items ≡ [] }
    {
        References {
            accumulate: Vec::new(alloc),
            accum_sig: Vec::new(alloc),
            fixities: Vec::new(alloc),
        }
    }

    fn add(&mut self, line: Declaration) -> Result<(), Memory>
        ensures accumulate { OnOk result (self.new.accumulate.items ≡ self.old.accumulate.items ++ words_in line) }
        ensures accum_sig { OnOk result (self.new.accum_sig.items ≡ self.old.accum_sig.items ++ sig_words_in line) }
        ensures fixities { OnOk result (self.new.fixities.items ≡ self.old.fixities.items ++ entries_in line) }
    {
        match line {
            Declaration::Accumulate(words) => Ok(self.accumulate.extend_from_slice(&words)?),
            Declaration::AccumSig(words) => Ok(self.accum_sig.extend_from_slice(&words)?),
            Declaration::Fixities(names, fixity, number) => {
                add_fixities(&mut self.fixities, &names, fixity, number)
            }
            _ => Ok(()),
        }
    }
}

fn add_fixities(
    fixities: &mut Vec<FixityLine>,
    names: &[Spot],
    fixity: Fixity,
    number: u32,
) -> Result<(), Memory>
    ensures { OnOk result (fixities.new.items ≡ fixities.old.items ++ map (entry_for fixity number) names.now) }
{
    for name in names.iter().copied() {
        fixities.push(FixityLine {
            name,
            fixity,
            number,
        })?;
    }
    Ok(())
}

fn refers(keyword: Keyword) -> bool
    ensures { result ≡ refers_word keyword }
{
    matches!(
        keyword,
        Keyword::Accumulate | Keyword::AccumSig | Keyword::Fixity(_)
    )
}

fn unless_memory(found: SyntaxFault) -> Result<(), Memory>
    ensures { OnOk result (found ≢ fault.Memory) }
{
    match found {
        SyntaxFault::Memory => Err(Memory),
        _ => Ok(()),
    }
}

// The sentence from a token on, if it is one of these.
fn reference(alloc: Global, input: &Input<'_>, at: usize) -> Result<Option<Declaration>, Memory>
    requires { at < length input.now.tokens.now }
    ensures { IfOk result (IsReferenceAt (spot_at input.now.file input.now.source.now input.now.tokens.now) (lexemes input.now.source.now input.now.tokens.now) at) }
{
    let Class::Keyword(keyword) = input.class(at) else {
        return Ok(None);
    };
    if !refers(keyword) {
        return Ok(None);
    }
    match declaration(alloc, input, at, keyword) {
        Ok((line, _)) => Ok(Some(line)),
        Err(fault) => {
            unless_memory(fault)?;
            Ok(None)
        }
    }
}

// Takes the sentence from a token on, if it is one of these.
fn take(alloc: Global, input: &Input<'_>, found: &mut References, at: usize) -> Result<(), Memory>
    requires { at < length input.now.tokens.now }
    ensures { OnOk result ((j : ℕ) → NextSentence (lexemes input.now.source.now input.now.tokens.now) at j → AreReferences (spot_at input.now.file input.now.source.now input.now.tokens.now) (lexemes input.now.source.now input.now.tokens.now) at found.old → AreReferences (spot_at input.now.file input.now.source.now input.now.tokens.now) (lexemes input.now.source.now input.now.tokens.now) j found.new) }
{
    match reference(alloc, input, at)? {
        None => Ok(()),
        Some(line) => found.add(line),
    }
}

// The number behind the next full stop, or behind the text.
fn next(input: &Input<'_>, from: usize) -> usize
    requires { from < length input.now.tokens.now }
    ensures further { from < result }
    ensures within { result ≤ length input.now.tokens.now }
    ensures next { NextSentence (lexemes input.now.source.now input.now.tokens.now) from result }
{
    let mut at = from;
    'over: while at < input.tokens.len() {
        if is_dot(input.class(at)) {
            return at + 1;
        }
        at += 1;
    }
    at
}

/// The well-formed sentences that name other files or declare fixities, in order.
///
/// # Errors
/// Want of memory alone.
pub fn references(
    alloc: Global,
    source: &[u8],
    tokens: &[Token],
    file: u32,
) -> Result<References, Memory>
    ensures { IfOk result (AreReferences (spot_at file source.now tokens.now) (lexemes source.now tokens.now) (length tokens.now)) }
{
    let input = Input {
        source,
        tokens,
        file,
    };
    let mut found = References::new(alloc);
    let mut at = 0;
    'over: while at < tokens.len() {
        take(alloc, &input, &mut found, at)?;
        at = next(&input, at);
    }
    Ok(found)
}
