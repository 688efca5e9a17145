// The reader of terms: one symbol at a time, what waits on a stack.
ghost use Rattle.std.specs.Prelude.{◌≡◌, ◌≢◌, ◌<◌, ◌≤◌, ◌+◌, length, true, false, None, IfOk, IfErr};
ghost use Rattle.lp_fixity.specs.Table.{entry_of};
ghost use Rattle.lp_base.specs.declared.limit.Limit.TheVariants.{Nesting};
ghost use Rattle.lp_base.specs.declared.limits.TheConstants.{MAX_TERM_DEPTH};
ghost use Rattle.lp_syntax.specs.declared.class.Class.TheVariants.{Colon, Backslash, Dot};
ghost use Rattle.lp_syntax.specs.declared.fault.SyntaxFault.TheVariants as fault;
ghost use Rattle.lp_syntax.specs.Tokens.{lexemes, spot_at, class_at, bytes_at, named, symbol_at};
ghost use Rattle.lp_syntax.specs.TypeMachine.{Ends};
ghost use Rattle.lp_syntax.specs.TypeViews.{ComesTo};
ghost use Rattle.lp_syntax.specs.Terms.{TermFault, MemoryOr};
ghost use Rattle.lp_syntax.specs.TermViews.{IsReading, IsNew, IsOver, IsTermText, NoteFault, MayBind};

use crate::brackets::{follow, innermost};
use crate::class::Class;
use crate::depth::term_depth;
use crate::fault::SyntaxFault;
use crate::finish::{finish, raw_nodes};
use crate::held::{Doing, Held, Step};
use crate::input::{Input, is_dot};
use crate::node::Node;
use crate::step::step;
use crate::symbol::{Fault, Oper, Sym};
use crate::text::RawTerm;
use crate::types::{TypeEnd, read_type};
use lp_base::{Limit, MAX_TERM_DEPTH};
use lp_fixity::Table;
use std::alloc::Global;

/// A term with its depth, and the number of the token behind it.
#[derive(Drop)]
pub struct TermText {
    pub term: RawTerm,
    pub depth: usize,
    pub end: usize,
}

impl TermText {
    // A term is refused directly behind its sentence where it is too deep.
    pub fn within(self) -> Result<RawTerm, SyntaxFault>
        ensures term { IfOk result (λ term. term ≡ self.term) }
        ensures fits { IfOk result (λ term. self.depth ≤ MAX_TERM_DEPTH) }
        ensures limit { IfErr result (λ f. f ≡ fault.Limit Nesting) }
        ensures deep { IfErr result (λ f. MAX_TERM_DEPTH < self.depth) }
    {
        if self.depth > MAX_TERM_DEPTH {
            return Err(SyntaxFault::Limit(Limit::Nesting));
        }
        Ok(self.term)
    }
}

/// What is read of the term that begins at a token.
#[derive(Drop)]
pub struct Reader {
    pub from: usize,
    pub nodes: Vec<Node>,
    pub frames: Vec<Held>,
    /// The numbers of the open brackets.
    pub opens: Vec<usize>,
}

// A name that may be an operator.
fn named(input: &Input<'_>, table: &Table, at: usize, comma: bool, other: Sym) -> Sym
    ensures { result ≡ named at comma other (entry_of table.now (bytes_at (lexemes input.now.source.now input.now.tokens.now) at)) }
{
    match table.of(input.text(at)) {
        None => other,
        Some((fixity, number)) => Sym::Op(Oper {
            spot: at,
            fixity,
            number,
            comma,
        }),
    }
}

// What the grammar of terms sees of a token.
#[tactic(auto, unfolding(crate::specs::Tokens::symbol_at))]
fn symbol(input: &Input<'_>, table: &Table, at: usize) -> Sym
    ensures { result ≡ symbol_at (entry_of table.now) (lexemes input.now.source.now input.now.tokens.now) at }
{
    match input.class(at) {
        Class::Lower => named(input, table, at, false, Sym::Word(at)),
        Class::Upper => Sym::Word(at),
        Class::Symbol => named(input, table, at, false, Sym::Atom(at)),
        Class::Comma => named(input, table, at, true, Sym::Atom(at)),
        Class::Number(_) | Class::Text => Sym::Atom(at),
        Class::Open => Sym::Opens,
        Class::Close => Sym::Closes,
        Class::OpenList => Sym::OpensList(at),
        Class::CloseList => Sym::ClosesList(at),
        Class::Bar => Sym::Bar,
        Class::Backslash => Sym::Binds(None),
        _ => Sym::Other,
    }
}

fn is_colon(class: Class) -> bool
    ensures yes { result ≡ true → class ≡ Colon }
    ensures no { result ≡ false → class ≢ Colon }
{
    matches!(class, Class::Colon)
}

fn is_backslash(class: Class) -> bool
    ensures yes { result ≡ true → class ≡ Backslash }
    ensures no { result ≡ false → class ≢ Backslash }
{
    matches!(class, Class::Backslash)
}

fn may_bind(doing: Doing) -> bool
    ensures yes { result ≡ true → MayBind doing }
    ensures no { result ≡ false → MayBind doing → ⊥ }
{
    matches!(doing, Doing::Has(_, _, Some(_)))
}

impl Reader {
    fn new(alloc: Global, from: usize) -> Reader
        ensures from { result.from ≡ from }
        ensures reading { IsNew result }
    {
        Reader {
            from,
            nodes: Vec::new(alloc),
            frames: Vec::new(alloc),
            opens: Vec::new(alloc),
        }
    }

    // An annotation from its colon to its backslash: the number of the backslash.
    fn annotation(&self, alloc: Global, input: &Input<'_>, at: usize) -> Result<usize, SyntaxFault>
        requires at { at < length input.now.tokens.now }
        ensures further { IfOk result (λ end. at < end) }
        ensures within { IfOk result (λ end. end < length input.now.tokens.now) }
        ensures note { IfOk result (λ end. ComesTo (lexemes input.now.source.now input.now.tokens.now) (at + 1) end Ends) }
        ensures mark { IfOk result (λ end. class_at (lexemes input.now.source.now input.now.tokens.now) end ≡ Backslash) }
        ensures fault { IfErr result (λ f. MemoryOr f (NoteFault (spot_at input.now.file input.now.source.now input.now.tokens.now) (lexemes input.now.source.now input.now.tokens.now) self.now.opens.items at f)) }
    {
        match read_type(alloc, input, at + 1)? {
            TypeEnd::Stopped(stop, None) => {
                return Err(input.refusal(stop, innermost(&self.opens)));
            }
            TypeEnd::Stopped(stop, Some(bracket)) => {
                return Err(input.refusal(stop, Some(bracket)));
            }
            TypeEnd::Read(_, end) => {
                if end >= input.tokens.len() {
                    return Err(input.refusal(end, innermost(&self.opens)));
                }
                if !is_backslash(input.class(end)) {
                    return Err(input.refusal(end, innermost(&self.opens)));
                }
                Ok(end)
            }
        }
    }

    // Takes an annotation with its backslash, behind a word; gives the number of the token behind it too.
    fn note(
        &mut self,
        alloc: Global,
        input: &Input<'_>,
        table: &Table,
        doing: Doing,
        at: usize,
    ) -> Result<(Doing, usize), SyntaxFault>
        requires at { at < length input.now.tokens.now }
        requires colon { class_at (lexemes input.now.source.now input.now.tokens.now) at ≡ Colon }
        requires binds { MayBind doing }
        requires reading { IsReading (entry_of table.now) (lexemes input.now.source.now input.now.tokens.now) self.old doing at }
        ensures from { self.new.from ≡ self.old.from }
        ensures further { IfOk result (λ r. at < r.1) }
        ensures within { IfOk result (λ r. r.1 ≤ length input.now.tokens.now) }
        ensures reading { IfOk result (λ r. IsReading (entry_of table.now) (lexemes input.now.source.now input.now.tokens.now) self.new r.0 r.1) }
        ensures fault { IfErr result (λ f. MemoryOr f (TermFault (spot_at input.now.file input.now.source.now input.now.tokens.now) (entry_of table.now) (lexemes input.now.source.now input.now.tokens.now) self.old.from f)) }
    {
        let end = self.annotation(alloc, input, at)?;
        match step(
            alloc,
            &mut self.nodes,
            &mut self.frames,
            doing,
            Sym::Binds(Some(at)),
        )? {
            Step::Goes(next) => Ok((next, end + 1)),
            Step::Stops(_) => Err(input.refusal(at, innermost(&self.opens))),
        }
    }

    // Takes one token that is no colon.
    fn token(
        &mut self,
        alloc: Global,
        input: &Input<'_>,
        table: &Table,
        doing: Doing,
        at: usize,
    ) -> Result<Doing, SyntaxFault>
        requires at { at < length input.now.tokens.now }
        requires plain { class_at (lexemes input.now.source.now input.now.tokens.now) at ≢ Colon }
        requires dot { class_at (lexemes input.now.source.now input.now.tokens.now) at ≢ Dot }
        requires reading { IsReading (entry_of table.now) (lexemes input.now.source.now input.now.tokens.now) self.old doing at }
        ensures from { self.new.from ≡ self.old.from }
        ensures reading { IfOk result (λ next. IsReading (entry_of table.now) (lexemes input.now.source.now input.now.tokens.now) self.new next (at + 1)) }
        ensures fault { IfErr result (λ f. MemoryOr f (TermFault (spot_at input.now.file input.now.source.now input.now.tokens.now) (entry_of table.now) (lexemes input.now.source.now input.now.tokens.now) self.old.from f)) }
    {
        match step(
            alloc,
            &mut self.nodes,
            &mut self.frames,
            doing,
            symbol(input, table, at),
        )? {
            Step::Goes(next) => {
                follow(&mut self.opens, input.class(at), at)?;
                Ok(next)
            }
            Step::Stops(Fault::Unexpected) => Err(input.refusal(at, innermost(&self.opens))),
            Step::Stops(Fault::Ambiguous) => Err(SyntaxFault::Ambiguous(input.spot(at))),
        }
    }

    // Takes one token, or an annotation with its backslash; gives the number of the token behind it too.
    fn turn(
        &mut self,
        alloc: Global,
        input: &Input<'_>,
        table: &Table,
        doing: Doing,
        at: usize,
    ) -> Result<(Doing, usize), SyntaxFault>
        requires at { at < length input.now.tokens.now }
        requires dot { class_at (lexemes input.now.source.now input.now.tokens.now) at ≢ Dot }
        requires reading { IsReading (entry_of table.now) (lexemes input.now.source.now input.now.tokens.now) self.old doing at }
        ensures from { self.new.from ≡ self.old.from }
        ensures further { IfOk result (λ r. at < r.1) }
        ensures within { IfOk result (λ r. r.1 ≤ length input.now.tokens.now) }
        ensures reading { IfOk result (λ r. IsReading (entry_of table.now) (lexemes input.now.source.now input.now.tokens.now) self.new r.0 r.1) }
        ensures fault { IfErr result (λ f. MemoryOr f (TermFault (spot_at input.now.file input.now.source.now input.now.tokens.now) (entry_of table.now) (lexemes input.now.source.now input.now.tokens.now) self.old.from f)) }
    {
        if is_colon(input.class(at)) {
            if may_bind(doing) {
                return self.note(alloc, input, table, doing, at);
            }
            return Err(input.refusal(at, innermost(&self.opens)));
        }
        let next = self.token(alloc, input, table, doing, at)?;
        Ok((next, at + 1))
    }

    // The term that ends before a token.
    fn ends(
        mut self,
        alloc: Global,
        input: &Input<'_>,
        table: &Table,
        doing: Doing,
        at: usize,
    ) -> Result<TermText, SyntaxFault>
        requires reading { IsReading (entry_of table.now) (lexemes input.now.source.now input.now.tokens.now) self doing at }
        requires over { IsOver (lexemes input.now.source.now input.now.tokens.now) at }
        ensures end { IfOk result (λ text. text.end ≡ at) }
        ensures term { IfOk result (λ text. IsTermText (spot_at input.now.file input.now.source.now input.now.tokens.now) (entry_of table.now) (lexemes input.now.source.now input.now.tokens.now) self.from text) }
        ensures fault { IfErr result (λ f. MemoryOr f (TermFault (spot_at input.now.file input.now.source.now input.now.tokens.now) (entry_of table.now) (lexemes input.now.source.now input.now.tokens.now) self.from f)) }
    {
        match finish(&mut self.nodes, &mut self.frames, doing)? {
            None => Err(input.refusal(at, innermost(&self.opens))),
            Some(root) => {
                let nodes = raw_nodes(alloc, input, &self.nodes)?;
                let depth = term_depth(alloc, &nodes, root)?;
                Ok(TermText {
                    term: RawTerm {
                        nodes,
                        root,
                        first: input.spot(self.from),
                    },
                    depth,
                    end: at,
                })
            }
        }
    }
}

/// The term from a token on, up to a full stop or the end of the text.
pub fn read_term(
    alloc: Global,
    input: &Input<'_>,
    table: &Table,
    from: usize,
) -> Result<TermText, SyntaxFault>
    requires { from ≤ length input.now.tokens.now }
    ensures within { IfOk result (λ text. text.end ≤ length input.now.tokens.now) }
    ensures further { IfOk result (λ text. from ≤ text.end) }
    ensures over { IfOk result (λ text. IsOver (lexemes input.now.source.now input.now.tokens.now) text.end) }
    ensures term { IfOk result (λ text. IsTermText (spot_at input.now.file input.now.source.now input.now.tokens.now) (entry_of table.now) (lexemes input.now.source.now input.now.tokens.now) from text) }
    ensures fault { IfErr result (λ f. MemoryOr f (TermFault (spot_at input.now.file input.now.source.now input.now.tokens.now) (entry_of table.now) (lexemes input.now.source.now input.now.tokens.now) from f)) }
{
    let mut reader = Reader::new(alloc, from);
    let mut doing = Doing::Wants;
    let mut at = from;
    'over: while at < input.tokens.len() && !is_dot(input.class(at)) {
        let (next, end) = reader.turn(alloc, input, table, doing, at)?;
        doing = next;
        at = end;
    }
    reader.ends(alloc, input, table, doing, at)
}
