// Whole texts: signatures, modules and queries.
ghost use Rattle.std.specs.Prelude.{◌≡◌, ◌≢◌, ◌<◌, ◌≤◌, List, length, true, false, IfOk};
ghost use Rattle.lp_syntax.specs.declared.class.Keyword.TheVariants as keyword;
ghost use Rattle.lp_syntax.specs.declared.class.Class.TheVariants as class;
ghost use Rattle.lp_syntax.specs.Declarations.{Line, is_word};
ghost use Rattle.lp_syntax.specs.LineMachine.{AtHeader, StopsIn};
ghost use Rattle.std.specs.Prelude.{ℕ, map, take, OnOk, OnErr};
ghost use Rattle.lp_fixity.specs.declared.fault.FixFault.{FixFault};
ghost use Rattle.lp_syntax.specs.declared.class.Keyword.{Keyword as Word};
ghost use Rattle.lp_syntax.specs.declared.fault.SyntaxFault.TheVariants as fault;
ghost use Rattle.lp_syntax.specs.Terms.{MemoryOr};
ghost use Rattle.lp_syntax.specs.Modules.{IsFixFault, DeclaresOne, DeclaresAll, NameFault, LineFollows, LineRefuses, SentenceFollows, SentenceRefuses, IsSentenceText, IsSentenceRefusal, Clause, IsModule, IsModuleText, IsModuleRefusal, IsGivenModule, IsLeft, LineLeft, SentenceLeft, bytes_of};
ghost use Rattle.lp_syntax.specs.Signatures.{title, is_local_word, IsHeader, IsLineText, IsLineRefusal, IsSignature, IsSignatureText, IsSignatureRefusal, IsGivenLines};
ghost use Rattle.std.specs.Prelude.{IfErr};
ghost use Rattle.lp_fixity.specs.Table.{Extends, entry_of};
ghost use Rattle.lp_syntax.specs.Tokens.{Operators, lexemes, class_at, spot_at, piece};
ghost use Rattle.lp_syntax.specs.Symbols.{Tree};
ghost use Rattle.lp_syntax.specs.Queries.{IsQuery, IsQueryText, IsQueryRefusal, IsGiven};

use crate::class::{Class, Keyword};
use crate::declaration::declaration;
use crate::fault::SyntaxFault;
use crate::input::Input;
use crate::term::read_term;
use crate::text::{Declaration, ModuleText, RawQuery, Sentence, SignatureText};
use lp_base::Spot;
use lp_fixity::{FixFault, Fixity, Table};
use lp_lexer::Token;
use std::alloc::Global;

fn is_word(class: Class) -> bool
    ensures { result ≡ is_word class }
{
    matches!(class, Class::Lower | Class::Upper)
}

fn is_sig(found: Class) -> bool
    ensures yes { result ≡ true → found ≡ class.Keyword keyword.Sig }
    ensures no { result ≡ false → found ≢ class.Keyword keyword.Sig }
{
    matches!(found, Class::Keyword(Keyword::Sig))
}

fn is_module(found: Class) -> bool
    ensures yes { result ≡ true → found ≡ class.Keyword keyword.Module }
    ensures no { result ≡ false → found ≢ class.Keyword keyword.Module }
{
    matches!(found, Class::Keyword(Keyword::Module))
}

// `sig` or `module`.
fn is_title(found: Class, signature: bool) -> bool
    ensures yes { result ≡ true → found ≡ class.Keyword (title signature) }
    ensures no { result ≡ false → found ≢ class.Keyword (title signature) }
{
    if signature {
        return is_sig(found);
    }
    is_module(found)
}

// The name in the header, and the number of the token behind its full stop.
fn header(input: &Input<'_>, signature: bool) -> Result<(Spot, usize), SyntaxFault>
    ensures within { IfOk result (λ r. r.1 ≤ length input.now.tokens.now) }
    ensures end { IfOk result (λ r. r.1 ≡ 3) }
    ensures name { IfOk result (λ r. r.0 ≡ spot_at input.now.file input.now.source.now input.now.tokens.now 1) }
    ensures header { IfOk result (λ r. IsHeader (lexemes input.now.source.now input.now.tokens.now) (title signature)) }
    ensures fault { IfErr result (λ f. StopsIn (spot_at input.now.file input.now.source.now input.now.tokens.now) (lexemes input.now.source.now input.now.tokens.now) (AtHeader (title signature)) 0 f) }
{
    if !is_title(input.class(0), signature) {
        return Err(input.refusal(0, None));
    }
    if !is_word(input.class(1)) {
        return Err(input.refusal(1, None));
    }
    let end = input.dot(2)?;
    Ok((input.spot(1), end))
}

// What a module has and a signature has not.
fn is_local(keyword: Keyword) -> bool
    ensures { result ≡ is_local_word keyword }
{
    matches!(
        keyword,
        Keyword::Local | Keyword::Localkind | Keyword::Accumulate
    )
}

// A declaration of a signature.
fn signature_line(
    alloc: Global,
    input: &Input<'_>,
    at: usize,
) -> Result<(Declaration, usize), SyntaxFault>
    requires { at < length input.now.tokens.now }
    ensures within { IfOk result (λ r. r.1 ≤ length input.now.tokens.now) }
    ensures further { IfOk result (λ r. at < r.1) }
    ensures line { IfOk result (λ r. IsLineText (spot_at input.now.file input.now.source.now input.now.tokens.now) (lexemes input.now.source.now input.now.tokens.now) at r.1 r.0) }
    ensures fault { IfErr result (IsLineRefusal (spot_at input.now.file input.now.source.now input.now.tokens.now) (lexemes input.now.source.now input.now.tokens.now) at) }
{
    match input.class(at) {
        Class::Keyword(keyword) => {
            if is_local(keyword) {
                return Err(input.refusal(at, None));
            }
            declaration(alloc, input, at, keyword)
        }
        _ => Err(input.refusal(at, None)),
    }
}

// The signature that these tokens are.
fn read_signature(
    alloc: Global,
    source: &[u8],
    tokens: &[Token],
    file: u32,
) -> Result<SignatureText, SyntaxFault>
    ensures tree { IfOk result (IsSignatureText (spot_at file source.now tokens.now) (lexemes source.now tokens.now)) }
    ensures fault { IfErr result (IsSignatureRefusal (spot_at file source.now tokens.now) (lexemes source.now tokens.now)) }
{
    let input = Input {
        source,
        tokens,
        file,
    };
    let (header, first) = header(&input, true)?;
    let mut lines = Vec::new(alloc);
    let mut at = first;
    'over: while at < tokens.len() {
        let (line, end) = signature_line(alloc, &input, at)?;
        lines.push(line)?;
        at = end;
    }
    Ok(SignatureText { header, lines })
}

/// The signature that these tokens are.
///
/// # Errors
/// The first fault of the text, the limit of nesting behind the line of a type, or want of memory.
pub fn signature_text(
    alloc: Global,
    source: &[u8],
    tokens: &[Token],
    file: u32,
) -> Result<SignatureText, SyntaxFault>
    ensures tree { IfOk result (IsSignatureText (spot_at file source.now tokens.now) (lexemes source.now tokens.now)) }
    ensures only { (ds : List Line) → IsSignature (lexemes source.now tokens.now) ds → IsGivenLines (spot_at file source.now tokens.now) (lexemes source.now tokens.now) ds result }
    ensures fault { IfErr result (IsSignatureRefusal (spot_at file source.now tokens.now) (lexemes source.now tokens.now)) }
{
    read_signature(alloc, source, tokens, file)
}

fn declare_one(
    input: &Input<'_>,
    table: &mut Table,
    name: Spot,
    fixity: Fixity,
    number: u32,
) -> Result<(), SyntaxFault>
    ensures extends { Extends table.old table.new }
    ensures declared { OnOk result (DeclaresOne (piece input.now.source.now name.from name.to) (fixity, number) (entry_of table.old) (entry_of table.new)) }
    ensures kept { OnErr result ((other : List ℕ) → entry_of table.new other ≡ entry_of table.old other) }
    ensures fault { IfErr result (λ f. MemoryOr f ((c : FixFault) × IsFixFault (entry_of table.old) (piece input.now.source.now name.from name.to) (fixity, number) c × (f ≡ fault.Operator c name))) }
{
    let text = input.piece(name.from, name.to);
    match table.declare(text, fixity, number) {
        Ok(()) => {
            return Ok(());
        }
        Err(FixFault::Memory) => {
            return Err(SyntaxFault::Memory);
        }
        Err(FixFault::TooHigh(n)) => {
            return Err(SyntaxFault::Operator(FixFault::TooHigh(n), name));
        }
        Err(FixFault::Otherwise) => {
            return Err(SyntaxFault::Operator(FixFault::Otherwise, name));
        }
    }
}

fn declare_all(
    input: &Input<'_>,
    table: &mut Table,
    names: &Vec<Spot>,
    fixity: Fixity,
    number: u32,
) -> Result<(), SyntaxFault>
    ensures extends { Extends table.old table.new }
    ensures declared { OnOk result (DeclaresAll (fixity, number) (entry_of table.old) (map (bytes_of input.now.source.now) names.now.items) (entry_of table.new)) }
    ensures left { OnErr result ((n : ℕ) × DeclaresAll (fixity, number) (entry_of table.old) (map (bytes_of input.now.source.now) (take n names.now.items)) (entry_of table.new)) }
    ensures fault { IfErr result (λ f. MemoryOr f (NameFault input.now.source.now names.now.items (fixity, number) (entry_of table.old) f)) }
{
    let mut place = 0;
    'over: while place < names.len() {
        let Some(name) = names.get(place) else {
            return Ok(());
        };
        declare_one(input, table, *name, fixity, number)?;
        place += 1;
    }
    Ok(())
}

// The fixities of a sentence are in force behind it.
fn declare(input: &Input<'_>, table: &mut Table, line: &Declaration) -> Result<(), SyntaxFault>
    ensures extends { Extends table.old table.new }
    ensures declared { OnOk result (LineFollows input.now.source.now line.now (entry_of table.old) (entry_of table.new)) }
    ensures left { OnErr result (LineLeft input.now.source.now line.now (entry_of table.old) (entry_of table.new)) }
    ensures fault { IfErr result (λ f. MemoryOr f (LineRefuses input.now.source.now line.now (entry_of table.old) f)) }
{
    match line {
        Declaration::Fixities(names, fixity, number) => {
            declare_all(input, table, names, *fixity, *number)
        }
        _ => Ok(()),
    }
}

fn follow_line(input: &Input<'_>, table: &mut Table, line: &Sentence) -> Result<(), SyntaxFault>
    ensures extends { Extends table.old table.new }
    ensures declared { OnOk result (SentenceFollows input.now.source.now line.now (entry_of table.old) (entry_of table.new)) }
    ensures left { OnErr result (SentenceLeft input.now.source.now line.now (entry_of table.old) (entry_of table.new)) }
    ensures fault { IfErr result (λ f. MemoryOr f (SentenceRefuses input.now.source.now line.now (entry_of table.old) f)) }
{
    match line {
        Sentence::Declares(declared) => declare(input, table, declared),
        Sentence::Says(_) => Ok(()),
    }
}

// A declaration.
fn declares(
    alloc: Global,
    input: &Input<'_>,
    at: usize,
    keyword: Keyword,
) -> Result<(Sentence, usize), SyntaxFault>
    requires { at < length input.now.tokens.now }
    ensures within { IfOk result (λ r. r.1 ≤ length input.now.tokens.now) }
    ensures further { IfOk result (λ r. at < r.1) }
    ensures sentence { (ops : Operators) → class_at (lexemes input.now.source.now input.now.tokens.now) at ≡ class.Keyword keyword → IfOk result (λ r. IsSentenceText (spot_at input.now.file input.now.source.now input.now.tokens.now) ops (lexemes input.now.source.now input.now.tokens.now) at r.1 r.0) }
    ensures fault { (ops : Operators) → class_at (lexemes input.now.source.now input.now.tokens.now) at ≡ class.Keyword keyword → IfErr result (IsSentenceRefusal (spot_at input.now.file input.now.source.now input.now.tokens.now) ops (lexemes input.now.source.now input.now.tokens.now) at) }
{
    let (line, end) = declaration(alloc, input, at, keyword)?;
    Ok((Sentence::Declares(line), end))
}

// A term with its full stop.
fn says(
    alloc: Global,
    input: &Input<'_>,
    table: &Table,
    at: usize,
) -> Result<(Sentence, usize), SyntaxFault>
    requires { at < length input.now.tokens.now }
    ensures within { IfOk result (λ r. r.1 ≤ length input.now.tokens.now) }
    ensures further { IfOk result (λ r. at < r.1) }
    ensures sentence { IfOk result (λ r. IsSentenceText (spot_at input.now.file input.now.source.now input.now.tokens.now) (entry_of table.now) (lexemes input.now.source.now input.now.tokens.now) at r.1 r.0) }
    ensures fault { ((k : Word) → class_at (lexemes input.now.source.now input.now.tokens.now) at ≡ class.Keyword k → ⊥) → IfErr result (IsSentenceRefusal (spot_at input.now.file input.now.source.now input.now.tokens.now) (entry_of table.now) (lexemes input.now.source.now input.now.tokens.now) at) }
{
    let text = read_term(alloc, input, table, at)?;
    let end = input.dot(text.end)?;
    let term = text.within()?;
    Ok((Sentence::Says(term), end))
}

// A declaration, or a term with its full stop.
fn module_line(
    alloc: Global,
    input: &Input<'_>,
    table: &Table,
    at: usize,
) -> Result<(Sentence, usize), SyntaxFault>
    requires { at < length input.now.tokens.now }
    ensures within { IfOk result (λ r. r.1 ≤ length input.now.tokens.now) }
    ensures further { IfOk result (λ r. at < r.1) }
    ensures sentence { IfOk result (λ r. IsSentenceText (spot_at input.now.file input.now.source.now input.now.tokens.now) (entry_of table.now) (lexemes input.now.source.now input.now.tokens.now) at r.1 r.0) }
    ensures fault { IfErr result (IsSentenceRefusal (spot_at input.now.file input.now.source.now input.now.tokens.now) (entry_of table.now) (lexemes input.now.source.now input.now.tokens.now) at) }
{
    match input.class(at) {
        Class::Keyword(keyword) => declares(alloc, input, at, keyword),
        _ => says(alloc, input, table, at),
    }
}

// The module that these tokens are.
fn read_module(
    alloc: Global,
    source: &[u8],
    tokens: &[Token],
    file: u32,
    table: &mut Table,
) -> Result<ModuleText, SyntaxFault>
    ensures extends { Extends table.old table.new }
    ensures tree { IfOk result (IsModuleText (spot_at file source.now tokens.now) (entry_of table.old) (entry_of table.new) (lexemes source.now tokens.now)) }
    ensures left { OnErr result (IsLeft (lexemes source.now tokens.now) (entry_of table.old) (entry_of table.new)) }
    ensures fault { IfErr result (IsModuleRefusal (spot_at file source.now tokens.now) (entry_of table.old) (lexemes source.now tokens.now)) }
{
    let input = Input {
        source,
        tokens,
        file,
    };
    let (header, first) = header(&input, false)?;
    let mut lines = Vec::new(alloc);
    let mut at = first;
    'over: while at < tokens.len() {
        let (line, end) = module_line(alloc, &input, table, at)?;
        follow_line(&input, table, &line)?;
        lines.push(line)?;
        at = end;
    }
    Ok(ModuleText { header, lines })
}

/// The module that these tokens are. Its own fixities are added to the table, each behind its sentence.
///
/// # Errors
/// The first fault of the text, the limit of nesting behind a sentence, or want of memory. The table then has the
/// fixities of the sentences before the fault, and of the names before one that cannot be declared.
pub fn module_text(
    alloc: Global,
    source: &[u8],
    tokens: &[Token],
    file: u32,
    table: &mut Table,
) -> Result<ModuleText, SyntaxFault>
    ensures extends { Extends table.old table.new }
    ensures tree { IfOk result (IsModuleText (spot_at file source.now tokens.now) (entry_of table.old) (entry_of table.new) (lexemes source.now tokens.now)) }
    ensures only { (ss : List Clause) (after : Operators) → IsModule (entry_of table.old) (lexemes source.now tokens.now) ss after → IsGivenModule (spot_at file source.now tokens.now) (lexemes source.now tokens.now) ss after (entry_of table.new) result }
    ensures left { OnErr result (IsLeft (lexemes source.now tokens.now) (entry_of table.old) (entry_of table.new)) }
    ensures fault { IfErr result (IsModuleRefusal (spot_at file source.now tokens.now) (entry_of table.old) (lexemes source.now tokens.now)) }
{
    read_module(alloc, source, tokens, file, table)
}

// The query that these tokens are.
fn read_query(
    alloc: Global,
    source: &[u8],
    tokens: &[Token],
    table: &Table,
) -> Result<RawQuery, SyntaxFault>
    ensures tree { IfOk result (IsQueryText (spot_at 0 source.now tokens.now) (entry_of table.now) (lexemes source.now tokens.now)) }
    ensures fault { IfErr result (IsQueryRefusal (spot_at 0 source.now tokens.now) (entry_of table.now) (lexemes source.now tokens.now)) }
{
    let input = Input {
        source,
        tokens,
        file: 0,
    };
    let text = read_term(alloc, &input, table, 0)?;
    if text.end >= tokens.len() {
        return Ok(RawQuery {
            term: text.within()?,
        });
    }
    let end = text.end + 1;
    if end < tokens.len() {
        return Err(input.refusal(end, None));
    }
    Ok(RawQuery {
        term: text.within()?,
    })
}

/// The query that these tokens are. A full stop may end it.
///
/// # Errors
/// The first fault of the text, the limit of nesting behind it, or want of memory.
pub fn query_text(
    alloc: Global,
    source: &[u8],
    tokens: &[Token],
    table: &Table,
) -> Result<RawQuery, SyntaxFault>
    ensures tree { IfOk result (IsQueryText (spot_at 0 source.now tokens.now) (entry_of table.now) (lexemes source.now tokens.now)) }
    ensures only { (t : Tree) → IsQuery (entry_of table.now) (lexemes source.now tokens.now) t → IsGiven (spot_at 0 source.now tokens.now) (lexemes source.now tokens.now) t result }
    ensures fault { IfErr result (IsQueryRefusal (spot_at 0 source.now tokens.now) (entry_of table.now) (lexemes source.now tokens.now)) }
{
    read_query(alloc, source, tokens, table)
}
