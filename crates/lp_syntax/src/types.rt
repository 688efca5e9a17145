// The reader of types: one token at a time, what waits on a stack.
ghost use Rattle.std.specs.Prelude.{◌≡◌, ◌<◌, ◌≤◌, length, List, [], ◌∷◌, IfOk, OnOk, ℕ};
ghost use Rattle.lp_syntax.specs.Ends.{IsFrom, IsUpTo};
ghost use Rattle.std.specs.Prelude.{◌++◌, suc, slice_get, Some};
ghost use Rattle.lp_syntax.specs.declared.class.Class.TheVariants.{Close};
ghost use Rattle.lp_syntax.specs.declared.text.RawTypeNode.TheVariants.{Word, Arrow};
ghost use Rattle.lp_syntax.specs.declared.types.Turn.TheVariants as turn;
ghost use Rattle.lp_syntax.specs.declared.types.Due.TheVariants as due;
ghost use Rattle.lp_syntax.specs.declared.types.Waiting.TheVariants as waiting;
ghost use Rattle.lp_syntax.specs.Tokens.{Lexeme, lexemes, class_at, spot_at};
ghost use Rattle.lp_syntax.specs.Types.{Argument, Named, IsType};
ghost use Rattle.lp_syntax.specs.TypeHeld.{TypeText, type_text, AreKept, IsHeld, IsApplied, IsBuilt, IsWhole, IsRoot, IsDue, IsFolded, IsTurned, IsTypeText};
ghost use Rattle.lp_syntax.specs.TypeMachine.{Ends, closed, left, type_wants, type_has, type_applies, type_step_in, Goes, ts, Wants, Applies, AtArrow};
ghost use Rattle.lp_syntax.specs.TypeViews.{wait_of, waits_of, need_of, turn_of, closed_by, left_by, ComesTo, IsTypeEnd};

use crate::brackets::{follow, innermost};
use crate::class::Class;
use crate::input::Input;
use crate::text::{RawType, RawTypeNode};
use lp_base::Spot;
use std::alloc::{AllocError, Global};

// What waits for the type that is read.
#[derive(Drop)]
pub enum Waiting {
    /// An arrow with its left side.
    Arrow(usize),
    /// A bracket.
    Group,
    /// A bracket round an argument, with the word and the arguments before it.
    Argument(Spot, Vec<usize>),
}

#[derive(Drop)]
pub enum Due {
    Wants,
    /// Behind a word that takes arguments.
    Applies(Spot, Vec<usize>),
    Has(usize),
}

#[derive(Drop)]
pub enum Turn {
    Goes(Due),
    /// The type ends before this token.
    Ends(usize),
    Stops,
}

#[derive(Drop)]
pub enum Folded {
    Whole(usize),
    Group(usize),
    Argument(Spot, Vec<usize>, usize),
}

/// How the reading of a type ended.
#[derive(Drop)]
pub enum TypeEnd {
    /// The type, and the number of the token behind it.
    Read(RawType, usize),
    /// The token that does not go on, and the innermost open bracket of the type.
    Stopped(usize, Option<usize>),
}

#[derive(Drop)]
struct TypeReader {
    nodes: Vec<RawTypeNode>,
    waiting: Vec<Waiting>,
}

impl TypeReader {
    fn new(alloc: Global) -> TypeReader
        ensures { waits_of result.waiting.items ≡ [] }
    {
        TypeReader {
            nodes: Vec::new(alloc),
            waiting: Vec::new(alloc),
        }
    }

    fn word(&mut self, spot: Spot, arguments: Vec<usize>) -> Result<usize, AllocError>
        ensures waiting { self.new.waiting ≡ self.old.waiting }
        ensures kept { OnOk result (AreKept self.old.nodes.items self.new.nodes.items) }
        ensures number { IfOk result (λ n. n ≡ length self.old.nodes.items) }
        ensures below { IfOk result (λ n. n < length self.new.nodes.items) }
        ensures node { IfOk result (λ n. slice_get self.new.nodes.items n ≡ Some (Word spot arguments)) }
    {
        let number = self.nodes.len();
        self.nodes.push(RawTypeNode::Word(spot, arguments))?;
        Ok(number)
    }

    fn arrow(&mut self, left: usize, right: usize) -> Result<usize, AllocError>
        ensures waiting { self.new.waiting ≡ self.old.waiting }
        ensures kept { OnOk result (AreKept self.old.nodes.items self.new.nodes.items) }
        ensures number { IfOk result (λ n. n ≡ length self.old.nodes.items) }
        ensures below { IfOk result (λ n. n < length self.new.nodes.items) }
        ensures node { IfOk result (λ n. slice_get self.new.nodes.items n ≡ Some (Arrow left right)) }
    {
        let number = self.nodes.len();
        self.nodes.push(RawTypeNode::Arrow(left, right))?;
        Ok(number)
    }

    // Gives the waiting arrows their right sides, up to the innermost bracket.
    fn fold(&mut self, last: usize) -> Result<Folded, AllocError>
        ensures closed { IfOk result (λ r. closed_by (waits_of self.new.waiting.items) r ≡ closed (waits_of self.old.waiting.items)) }
        ensures left { IfOk result (λ r. left_by r ≡ left (waits_of self.old.waiting.items)) }
        ensures held { (x : TypeText) (at : ℕ) → IsWhole x self.old.nodes.items self.old.waiting.items at last → IfOk result (IsFolded x self.new.nodes.items self.new.waiting.items at) }
    {
        let mut node = last;
        'over: loop {
            match self.waiting.pop() {
                None => return Ok(Folded::Whole(node)),
                Some(Waiting::Arrow(left)) => {
                    node = self.arrow(left, node)?;
                }
                Some(Waiting::Group) => return Ok(Folded::Group(node)),
                Some(Waiting::Argument(spot, arguments)) => return Ok(Folded::Argument(
                    spot, arguments, node,
                )),
            }
        }
    }

    fn closes(&mut self, node: usize) -> Result<Turn, AllocError>
        ensures moves { IfOk result (λ r. turn_of self.new.waiting.items r ≡ closed (waits_of self.old.waiting.items)) }
        ensures held { (x : TypeText) (at : ℕ) → IsWhole x self.old.nodes.items self.old.waiting.items at node → class_at x.lexemes at ≡ Close → IfOk result (IsTurned x self.new.nodes.items self.new.waiting.items at) }
    {
        match self.fold(node)? {
            Folded::Whole(root) => Ok(Turn::Ends(root)),
            Folded::Group(inner) => Ok(Turn::Goes(Due::Has(inner))),
            Folded::Argument(spot, mut arguments, inner) => {
                arguments.push(inner)?;
                Ok(Turn::Goes(Due::Applies(spot, arguments)))
            }
        }
    }

    fn ends(&mut self, node: usize) -> Result<Turn, AllocError>
        ensures moves { IfOk result (λ r. turn_of self.new.waiting.items r ≡ left (waits_of self.old.waiting.items)) }
        ensures held { (x : TypeText) (at : ℕ) → IsWhole x self.old.nodes.items self.old.waiting.items at node → IfOk result (IsTurned x self.new.nodes.items self.new.waiting.items at) }
    {
        match self.fold(node)? {
            Folded::Whole(root) => {
                return Ok(Turn::Ends(root));
            }
            Folded::Group(_) => {
                return Ok(Turn::Stops);
            }
            Folded::Argument(_, _, _) => Ok(Turn::Stops),
        }
    }

    fn opens(&mut self, waiting: Waiting) -> Result<Turn, AllocError>
        ensures moves { IfOk result (λ r. turn_of self.new.waiting.items r ≡ Goes (ts (wait_of waiting ∷ waits_of self.old.waiting.items) Wants)) }
        ensures nodes { self.new.nodes ≡ self.old.nodes }
        ensures pushed { IfOk result (λ r. self.new.waiting.items ≡ self.old.waiting.items ++ waiting ∷ []) }
        ensures goes { IfOk result (λ r. r ≡ turn.Goes due.Wants) }
    {
        self.waiting.push(waiting)?;
        Ok(Turn::Goes(Due::Wants))
    }

    fn arrows(&mut self, node: usize) -> Result<Turn, AllocError>
        ensures moves { IfOk result (λ r. turn_of self.new.waiting.items r ≡ Goes (ts (AtArrow ∷ waits_of self.old.waiting.items) Wants)) }
        ensures nodes { self.new.nodes ≡ self.old.nodes }
        ensures pushed { IfOk result (λ r. self.new.waiting.items ≡ self.old.waiting.items ++ waiting.Arrow node ∷ []) }
        ensures goes { IfOk result (λ r. r ≡ turn.Goes due.Wants) }
    {
        self.waiting.push(Waiting::Arrow(node))?;
        Ok(Turn::Goes(Due::Wants))
    }

    fn wants(&mut self, alloc: Global, input: &Input<'_>, at: usize) -> Result<Turn, AllocError>
        ensures moves { IfOk result (λ r. turn_of self.new.waiting.items r ≡ type_wants (waits_of self.old.waiting.items) (class_at (lexemes input.now.source.now input.now.tokens.now) at)) }
        ensures held { (from : ℕ) → IsHeld (type_text (spot_at input.now.file input.now.source.now input.now.tokens.now) (lexemes input.now.source.now input.now.tokens.now) from) self.old.nodes.items self.old.waiting.items at → IfOk result (IsTurned (type_text (spot_at input.now.file input.now.source.now input.now.tokens.now) (lexemes input.now.source.now input.now.tokens.now) from) self.new.nodes.items self.new.waiting.items at) }
    {
        match input.class(at) {
            Class::Lower => Ok(Turn::Goes(Due::Applies(input.spot(at), Vec::new(alloc)))),
            Class::Upper => {
                let node = self.word(input.spot(at), Vec::new(alloc))?;
                Ok(Turn::Goes(Due::Has(node)))
            }
            Class::Open => self.opens(Waiting::Group),
            _ => Ok(Turn::Stops),
        }
    }

    fn argument(
        &mut self,
        alloc: Global,
        input: &Input<'_>,
        at: usize,
        spot: Spot,
        mut arguments: Vec<usize>,
    ) -> Result<Turn, AllocError>
        ensures moves { IfOk result (λ r. turn_of self.new.waiting.items r ≡ Goes (ts (waits_of self.old.waiting.items) Applies)) }
        ensures held { (from : ℕ) → IsApplied (type_text (spot_at input.now.file input.now.source.now input.now.tokens.now) (lexemes input.now.source.now input.now.tokens.now) from) self.old.nodes.items self.old.waiting.items at spot arguments → IsType (lexemes input.now.source.now input.now.tokens.now) Argument at (suc at) (Named at) → IfOk result (IsTurned (type_text (spot_at input.now.file input.now.source.now input.now.tokens.now) (lexemes input.now.source.now input.now.tokens.now) from) self.new.nodes.items self.new.waiting.items at) }
    {
        let node = self.word(input.spot(at), Vec::new(alloc))?;
        arguments.push(node)?;
        Ok(Turn::Goes(Due::Applies(spot, arguments)))
    }

    fn applies(
        &mut self,
        alloc: Global,
        input: &Input<'_>,
        at: usize,
        spot: Spot,
        arguments: Vec<usize>,
    ) -> Result<Turn, AllocError>
        ensures moves { IfOk result (λ r. turn_of self.new.waiting.items r ≡ type_applies (waits_of self.old.waiting.items) (class_at (lexemes input.now.source.now input.now.tokens.now) at)) }
        ensures held { (from : ℕ) → IsApplied (type_text (spot_at input.now.file input.now.source.now input.now.tokens.now) (lexemes input.now.source.now input.now.tokens.now) from) self.old.nodes.items self.old.waiting.items at spot arguments → IfOk result (IsTurned (type_text (spot_at input.now.file input.now.source.now input.now.tokens.now) (lexemes input.now.source.now input.now.tokens.now) from) self.new.nodes.items self.new.waiting.items at) }
    {
        match input.class(at) {
            Class::Lower => self.argument(alloc, input, at, spot, arguments),
            Class::Upper => self.argument(alloc, input, at, spot, arguments),
            Class::Open => self.opens(Waiting::Argument(spot, arguments)),
            _ => {
                let node = self.word(spot, arguments)?;
                self.has(input, at, node)
            }
        }
    }

    fn has(&mut self, input: &Input<'_>, at: usize, node: usize) -> Result<Turn, AllocError>
        ensures moves { IfOk result (λ r. turn_of self.new.waiting.items r ≡ type_has (waits_of self.old.waiting.items) (class_at (lexemes input.now.source.now input.now.tokens.now) at)) }
        ensures held { (from : ℕ) → IsBuilt (type_text (spot_at input.now.file input.now.source.now input.now.tokens.now) (lexemes input.now.source.now input.now.tokens.now) from) self.old.nodes.items self.old.waiting.items at node → IfOk result (IsTurned (type_text (spot_at input.now.file input.now.source.now input.now.tokens.now) (lexemes input.now.source.now input.now.tokens.now) from) self.new.nodes.items self.new.waiting.items at) }
    {
        match input.class(at) {
            Class::Arrow => self.arrows(node),
            Class::Close => self.closes(node),
            _ => self.ends(node),
        }
    }

    fn turn(
        &mut self,
        alloc: Global,
        input: &Input<'_>,
        at: usize,
        due: Due,
    ) -> Result<Turn, AllocError>
        ensures moves { IfOk result (λ r. turn_of self.new.waiting.items r ≡ type_step_in (waits_of self.old.waiting.items) (need_of due) (class_at (lexemes input.now.source.now input.now.tokens.now) at)) }
        ensures held { (from : ℕ) → IsDue (type_text (spot_at input.now.file input.now.source.now input.now.tokens.now) (lexemes input.now.source.now input.now.tokens.now) from) self.old.nodes.items self.old.waiting.items at due → IfOk result (IsTurned (type_text (spot_at input.now.file input.now.source.now input.now.tokens.now) (lexemes input.now.source.now input.now.tokens.now) from) self.new.nodes.items self.new.waiting.items at) }
    {
        match due {
            Due::Wants => self.wants(alloc, input, at),
            Due::Applies(spot, arguments) => self.applies(alloc, input, at, spot, arguments),
            Due::Has(node) => self.has(input, at, node),
        }
    }

    // The type that ends before a token.
    fn read(self, root: usize, at: usize) -> TypeEnd
        ensures from { (n : ℕ) → n ≤ at → IsFrom n result }
        ensures up_to { (n : ℕ) → at ≤ n → IsUpTo n result }
        ensures end { (ls : List Lexeme) (from : ℕ) → ComesTo ls from at Ends → IsTypeEnd ls from result }
        ensures root { (x : TypeText) → IsRoot x self.nodes.items at root → IsTypeText x result }
    {
        TypeEnd::Read(
            RawType {
                nodes: self.nodes,
                root,
            },
            at,
        )
    }
}

/// The longest type from a token on.
pub fn read_type(alloc: Global, input: &Input<'_>, from: usize) -> Result<TypeEnd, AllocError>
    requires within { from ≤ length input.now.tokens.now }
    ensures further { IfOk result (IsFrom from) }
    ensures within { IfOk result (IsUpTo (length input.now.tokens.now)) }
    ensures end { IfOk result (IsTypeEnd (lexemes input.now.source.now input.now.tokens.now) from) }
    ensures tree { IfOk result (IsTypeText (type_text (spot_at input.now.file input.now.source.now input.now.tokens.now) (lexemes input.now.source.now input.now.tokens.now) from)) }
{
    let mut reader = TypeReader::new(alloc);
    let mut open = Vec::new(alloc);
    let mut due = Due::Wants;
    let mut at = from;
    'over: while at < input.tokens.len() {
        match reader.turn(alloc, input, at, due)? {
            Turn::Goes(next) => {
                follow(&mut open, input.class(at), at)?;
                due = next;
                at += 1;
            }
            Turn::Ends(root) => return Ok(reader.read(root, at)),
            Turn::Stops => return Ok(TypeEnd::Stopped(at, innermost(&open))),
        }
    }
    match reader.turn(alloc, input, at, due)? {
        Turn::Ends(root) => Ok(reader.read(root, at)),
        Turn::Goes(_) => Ok(TypeEnd::Stopped(at, innermost(&open))),
        Turn::Stops => Ok(TypeEnd::Stopped(at, innermost(&open))),
    }
}
