// Negations, of which no certificate speaks.
ghost use Rattle.std.specs.Prelude.{◌≡◌, ◌≢◌, List, ℕ, Option, MatchOption, IfOk, IfErr, OnOk, codes, false};
ghost use Rattle.lp_base.specs.Held.{Held};
ghost use Rattle.lp_lexer.specs.declared.token.LexFault.TheVariants.{Memory as Want};
ghost use Rattle.lp_syntax.specs.Tokens.{piece};
ghost use Rattle.lp_build.specs.Reads.{AreRead};
ghost use Rattle.lp_build.specs.Told.{AreLoaded};
ghost use Rattle.lp_build.specs.declared.sources.File.{File};
ghost use Rattle.lp_lines.specs.Placed.{IfSource, IsOfText};
ghost use Rattle.lp_lines.specs.Refusals.{IsTextRefusal};
ghost use Rattle.lp_load.specs.Placed.{IsOfFile, IsPlaced};
ghost use Rattle.lp_judge.specs.Negated.{AreWithoutNot, HasFirst, HasNone, TellsFirstNot, first_among, is_word, texts_of};
ghost use Rattle.lp_judge.specs.inner.Negations.{AreFilesWithout, HasFirstFile, spot_of};

use lp_base::{Memory, Spot};
use lp_build::Sources;
use lp_lexer::{LexFault, Token, TokenKind, tokens};
use lp_lines::{Refusal, named, query_refused};
use lp_load::text_refused;
use std::alloc::Global;

// The bytes of a text between two numbers, none where they do not lie in it.
#[tactic(auto, unfolding(lp_syntax::specs::Tokens::piece))]
fn piece(text: &[u8], from: usize, to: usize) -> &[u8]
    ensures { result.now ≡ piece text.now from to }
{
    match text.get(from..to) {
        Some(word) => word,
        None => &[],
    }
}

fn is_not(text: &[u8], token: Token) -> bool
    ensures { result ≡ is_word token.kind (piece text.now token.from token.to) }
{
    match token.kind {
        TokenKind::Lower => piece(text, token.from, token.to) == b"not".as_slice(),
        _ => false,
    }
}

// The first of the tokens of a text that is the word.
fn first_of(text: &[u8], tokens: &[Token]) -> Option<Token>
    ensures { result ≡ first_among text.now tokens.now }
{
    for at in 0..tokens.len() {
        let token = tokens[at];
        if is_not(text, token) {
            return Some(token);
        }
    }
    None
}

fn is_want(fault: LexFault) -> bool
    ensures { result ≡ false → fault ≢ Want }
{
    matches!(fault, LexFault::Memory)
}

// The first token `not` of a text. A text without tokens has none.
fn not_in(alloc: Global, text: &[u8]) -> Result<Option<Token>, Memory>
    ensures { IfOk result (λ found. MatchOption found (HasNone text.now) (HasFirst text.now)) }
{
    match tokens(alloc, text) {
        Ok(tokens) => Ok(first_of(text, tokens.as_slice())),
        Err(fault) => {
            if is_want(fault) {
                return Err(Memory);
            }
            Ok(None)
        }
    }
}

// Where a token of a file stands.
fn spot_of(file: u32, token: Token) -> Spot
    ensures { result ≡ spot_of file token }
{
    Spot {
        file,
        from: token.from,
        to: token.to,
        at: token.at,
    }
}

// The first token `not` of the files in load order.
fn not_in_files(alloc: Global, sources: &Sources) -> Result<Option<Spot>, Memory>
    ensures { AreRead sources.now → IfOk result (λ found. MatchOption found (AreFilesWithout sources.now.files.items) (HasFirstFile sources.now.files.items)) }
{
    for number in 0..u32::MAX {
        let Some((_, text)) = sources.file(number) else {
            return Ok(None);
        };
        if let Some(token) = not_in(alloc, text)? {
            return Ok(Some(spot_of(number, token)));
        }
    }
    Ok(None)
}

fn without_not_in_files(alloc: Global, sources: &Sources) -> Result<(), Refusal>
    ensures refused { IfErr result IsTextRefusal }
    ensures placed { (told : Option Held) → AreLoaded told sources.now → IfErr result (IfSource (IsOfFile told)) }
    ensures none { AreRead sources.now → OnOk result (AreFilesWithout sources.now.files.items) }
    ensures first { AreRead sources.now → (query : List ℕ) → IfErr result (IfSource (TellsFirstNot (texts_of sources.now.files.items query))) }
{
    match not_in_files(alloc, sources) {
        Ok(None) => Ok(()),
        Ok(Some(spot)) => Err(text_refused(alloc, sources, named("unsupported", spot))),
        Err(Memory) => Err(Refusal::Memory),
    }
}

fn without_not_in_query(alloc: Global, query: &str) -> Result<(), Refusal>
    ensures refused { IfErr result IsTextRefusal }
    ensures placed { IfErr result (IfSource (IsOfText (codes "query") query.now)) }
    ensures none { OnOk result (HasNone query.now) }
    ensures first { (files : List File) → AreFilesWithout files → IfErr result (IfSource (TellsFirstNot (texts_of files query.now))) }
{
    match not_in(alloc, query.as_bytes()) {
        Ok(None) => Ok(()),
        Ok(Some(token)) => {
            let cause = named("unsupported", spot_of(0, token));
            Err(query_refused(alloc, query.as_bytes(), cause))
        }
        Err(Memory) => Err(Refusal::Memory),
    }
}

/// Refuses texts with a token `not` in them: the first one in load order, that of the query last.
pub(crate) fn first_not(alloc: Global, sources: &Sources, query: &str) -> Result<(), Refusal>
    ensures refused { IfErr result IsTextRefusal }
    ensures placed { (told : Option Held) → AreLoaded told sources.now → IfErr result (IfSource (IsPlaced told query.now)) }
    ensures none { AreRead sources.now → OnOk result (AreWithoutNot (texts_of sources.now.files.items query.now)) }
    ensures first { AreRead sources.now → IfErr result (IfSource (TellsFirstNot (texts_of sources.now.files.items query.now))) }
{
    match without_not_in_files(alloc, sources) {
        Ok(()) => {}
        Err(refusal) => return Err(refusal),
    }
    match without_not_in_query(alloc, query) {
        Ok(()) => Ok(()),
        Err(refusal) => Err(refusal),
    }
}
