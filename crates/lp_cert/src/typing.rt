// Whether a closed term has a type: the equations of its nodes have a solution.
ghost use Rattle.std.specs.Prelude.{◌≡◌, ◌<◌, ◌≤◌, ℕ, suc, List, [], ◌∷◌, length, map, All, IfOk, OnOk, true, false};
ghost use Rattle.lp_calculus.specs.Types.{Ty, var, con, no_types};
ghost use Rattle.lp_calculus.specs.Term.{apply, index, atom, abs, constant, eigen};
ghost use Rattle.lp_calculus.specs.Closed.{AllAtoms, AreClosed, IsClosedType};
ghost use Rattle.lp_calculus.specs.Typing.{Typed};
ghost use Rattle.lp_standard.specs.Kinds as kinds;
ghost use Rattle.lp_type_laws.specs.Equations.{AllHold, HaveNoSolution};
ghost use Rattle.lp_term.specs.Nodes.{Extends, Nodes, tree, type_tree};
ghost use Rattle.lp_model.specs.Proofs.{under};
ghost use Rattle.lp_model.specs.Readings.{declared_by};
ghost use Rattle.lp_type_unify.specs.Reading.{IsPair, read_pairs};
ghost use Rattle.lp_cert.specs.Facts.{AreInside, IsKnown};
ghost use Rattle.lp_cert.specs.Inside.{AreDeclaredInside};
ghost use Rattle.lp_cert.specs.Same.{types_in};
ghost use Rattle.lp_cert.specs.inner.Derives.{Applies, Derives, IsEquated, IsGrown, IsHeld, IsPushed, IsTaskIn, IsTidy, IsTypeBelow, Keeps, KeepsApplied, Moves, Pushes, Solves, Taken, applying, closing, filled_types, step_of, visiting};
ghost use Rattle.lp_cert.specs.inner.Named.{HasClosedTypes};

use crate::form::is_inside;
use crate::known::Known;
use crate::schemes::constant_type;
use lp_base::Memory;
use lp_model::Declared;
use lp_standard::Kind;
use lp_term::{
    Bank, TermId, TermNode, TypeId, TypeNode, put_arrow, put_constructor, put_type_variable,
};
use lp_type_unify::{Pair, unify};
use std::alloc::Global;

// What is left to do: to find the type of a term, to end an abstraction whose body has its type, or to apply a head to an argument.
#[derive(Clone, Copy)]
enum Task {
    Visit(TermId),
    Close,
    Apply,
}

// The types of the indices, the newest last; those of the terms so far, the newest last; the equations; and the number of the next type variable.
#[derive(Drop)]
struct Typing<'a, 'b> {
    alloc: Global,
    constants: &'a [Declared],
    eigens: &'b [TypeId],
    context: Vec<TypeId>,
    stack: Vec<TypeId>,
    pairs: Vec<Pair>,
    tasks: Vec<Task>,
    next: u64,
}

// Whether a type stands in the bank.
pub(crate) fn is_type_inside(bank: &Bank, of: TypeId) -> bool
    ensures inside { result ≡ true → of.0 < length bank.now.types }
    ensures outside { result ≡ false → length bank.now.types ≤ of.0 }
{
    of.0 < bank.type_count()
}

impl Typing<'_, '_> {
    fn new_variable(&mut self, bank: &mut Bank) -> Result<TypeId, Memory>
        ensures kept { Extends bank.old bank.new }
        ensures within { IfOk result (λ made. made.0 < length bank.new.types) }
        ensures grown { OnOk result (IsGrown self.old self.new) }
        ensures fresh { IfOk result (λ made. type_tree bank.new made.0 ≡ var self.old.next) }
        ensures next { OnOk result (self.new.next ≡ suc self.old.next) }
    {
        let number = self.next;
        let Some(next) = number.checked_add(1) else {
            return Err(Memory);
        };
        let id = put_type_variable(bank, number)?;
        self.next = next;
        Ok(id)
    }

    // A type without type variables, if it has none.
    fn closed(&mut self, known: &mut Known, bank: &Bank, of: TypeId) -> Result<bool, Memory>
        requires known { IsKnown bank.now known.old }
        ensures known { OnOk result (IsKnown bank.now known.new) }
        ensures pushes { IfOk result (λ yes. yes ≡ true → Pushes bank.now self.old self.new (λ b. type_tree b of.0)) }
        ensures held { IfOk result (λ yes. IsClosedType (type_tree bank.now of.0) → (yes ≡ true) × IsHeld self.old self.new of) }
    {
        if !known.is_closed_type(bank, of)? {
            return Ok(false);
        }
        self.stack.push(of)?;
        Ok(true)
    }

    fn index(&mut self, at: u64) -> Result<bool, Memory>
        ensures moves { IfOk result (λ yes. yes ≡ true → (now : Nodes) → Moves now self.old self.new (λ b. visiting (index at))) }
        ensures keeps { IfOk result (λ yes. (now : Nodes) → IsTidy now self.old → Keeps now self.old self.new (λ b. visiting (index at) ∷ []) yes) }
    {
        let count = self.context.len() as u64;
        if at >= count {
            return Ok(false);
        }
        let of = self.context[(count - 1 - at) as usize];
        self.stack.push(of)?;
        Ok(true)
    }

    fn constant(
        &mut self,
        known: &mut Known,
        bank: &mut Bank,
        number: u32,
        types: &[TypeId],
    ) -> Result<bool, Memory>
        requires known { IsKnown bank.old known.old }
        ensures kept { Extends bank.old bank.new }
        ensures known { OnOk result (IsKnown bank.new known.new) }
        ensures moves { IfOk result (λ yes. yes ≡ true → AreInside (length bank.old.types) types.now → Moves bank.new self.old self.new (λ b. visiting (atom (constant number (types_in b types.now))))) }
        ensures keeps { IfOk result (λ yes. IsTidy bank.old self.old → AreClosed (types_in bank.old types.now) → Keeps bank.new self.old self.new (λ b. visiting (atom (constant number (types_in b types.now))) ∷ []) yes) }
    {
        let found = constant_type(self.alloc, bank, self.constants, number, types)?;
        match found {
            Some(of) => self.closed(known, bank, of),
            None => Ok(false),
        }
    }

    fn kind(&mut self, known: &mut Known, bank: &mut Bank, kind: Kind) -> Result<bool, Memory>
        requires known { IsKnown bank.old known.old }
        ensures kept { Extends bank.old bank.new }
        ensures known { OnOk result (IsKnown bank.new known.new) }
        ensures pushes { IfOk result (λ yes. yes ≡ true → Pushes bank.new self.old self.new (λ b. con (kinds.number kind) no_types)) }
        ensures held { IfOk result (λ yes. (yes ≡ true) × ((of : TypeId) × IsHeld self.old self.new of × (type_tree bank.new of.0 ≡ con (kinds.number kind) no_types))) }
    {
        let of = put_constructor(bank, kind.number(), &[])?;
        self.closed(known, bank, of)
    }

    fn eigen(&mut self, known: &mut Known, bank: &Bank, level: u64) -> Result<bool, Memory>
        requires known { IsKnown bank.now known.old }
        ensures known { OnOk result (IsKnown bank.now known.new) }
        ensures moves { IfOk result (λ yes. yes ≡ true → Moves bank.now self.old self.new (λ b. visiting (atom (eigen level)))) }
        ensures keeps { IfOk result (λ yes. IsTidy bank.now self.old → Keeps bank.now self.old self.new (λ b. visiting (atom (eigen level)) ∷ []) yes) }
    {
        if level == 0 {
            return Ok(false);
        }
        match self.eigens.get((level - 1) as usize) {
            Some(of) => self.closed(known, bank, *of),
            None => Ok(false),
        }
    }

    fn abstraction(&mut self, bank: &mut Bank, body: TermId) -> Result<bool, Memory>
        ensures kept { Extends bank.old bank.new }
        ensures moves { IfOk result (λ yes. yes ≡ true → Moves bank.new self.old self.new (λ b. visiting (abs (tree b body.0)))) }
        ensures keeps { IfOk result (λ yes. IsTidy bank.old self.old → IsTaskIn bank.old (Task.Visit body) → Keeps bank.new self.old self.new (λ b. visiting (abs (tree b body.0)) ∷ []) yes) }
    {
        let from = self.new_variable(bank)?;
        self.context.push(from)?;
        self.tasks.push(Task::Close)?;
        self.tasks.push(Task::Visit(body))?;
        Ok(true)
    }

    fn application(&mut self, head: TermId, arguments: &[TermId]) -> Result<bool, Memory>
        ensures moves { IfOk result (λ yes. yes ≡ true → (now : Nodes) → Moves now self.old self.new (λ b. visiting (apply (tree b head.0) (map (λ t. tree b t.0) arguments.now)))) }
        ensures keeps { IfOk result (λ yes. (now : Nodes) → IsTidy now self.old → IsTaskIn now (Task.Visit head) → All (λ t. IsTaskIn now (Task.Visit t)) arguments.now → Keeps now self.old self.new (λ b. visiting (apply (tree b head.0) (map (λ t. tree b t.0) arguments.now)) ∷ []) yes) }
    {
        for at in 0..arguments.len() {
            let argument = arguments[arguments.len() - 1 - at];
            self.tasks.push(Task::Apply)?;
            self.tasks.push(Task::Visit(argument))?;
        }
        self.tasks.push(Task::Visit(head))?;
        Ok(true)
    }

    fn visit(&mut self, known: &mut Known, bank: &mut Bank, term: TermId) -> Result<bool, Memory>
        requires known { IsKnown bank.old known.old }
        ensures kept { Extends bank.old bank.new }
        ensures known { OnOk result (IsKnown bank.new known.new) }
        ensures moves { IfOk result (λ yes. yes ≡ true → Moves bank.new self.old self.new (λ b. visiting (tree b term.0))) }
        ensures keeps { IfOk result (λ yes. IsTidy bank.old self.old → IsTaskIn bank.old (Task.Visit term) → Keeps bank.new self.old self.new (λ b. visiting (tree b term.0) ∷ []) yes) }
    {
        if !is_inside(bank, term) {
            return Ok(false);
        }
        match bank.term_node(term) {
            TermNode::Index(at) => self.index(at),
            TermNode::Const(number, types) => {
                let copy = Vec::from_slice(self.alloc, types)?;
                self.constant(known, bank, number, copy.as_slice())
            }
            TermNode::Int(_) => self.kind(known, bank, Kind::Integer),
            TermNode::Text(_) => self.kind(known, bank, Kind::String),
            TermNode::Eigen(level) => self.eigen(known, bank, level),
            TermNode::Logic { .. } => Ok(false),
            TermNode::Param(_, of) => self.closed(known, bank, of),
            TermNode::Abs(body) => self.abstraction(bank, body),
            TermNode::App(head, arguments) => self.application(head, arguments),
        }
    }

    fn close(&mut self, bank: &mut Bank) -> Result<bool, Memory>
        ensures kept { Extends bank.old bank.new }
        ensures moves { IfOk result (λ yes. yes ≡ true → Moves bank.new self.old self.new (λ b. closing)) }
        ensures keeps { IfOk result (λ yes. IsTidy bank.old self.old → Keeps bank.new self.old self.new (λ b. closing ∷ []) yes) }
    {
        let Some(to) = self.stack.pop() else {
            return Ok(false);
        };
        let Some(from) = self.context.pop() else {
            return Ok(false);
        };
        if !is_type_inside(bank, from) {
            return Ok(false);
        }
        if !is_type_inside(bank, to) {
            return Ok(false);
        }
        let of = put_arrow(bank, from, to)?;
        self.stack.push(of)?;
        Ok(true)
    }

    // An equation; two types of one number are equal already.
    fn equate(&mut self, left: TypeId, right: TypeId) -> Result<(), Memory>
        ensures grown { OnOk result (Taken self.old self.new left right) }
        ensures equated { OnOk result (IsEquated self.old self.new left right) }
    {
        if left.0 == right.0 {
            return Ok(());
        }
        self.pairs.push(Pair { left, right })?;
        Ok(())
    }

    // A head that may be a function of any type.
    fn apply_any(&mut self, bank: &mut Bank, head: TypeId, argument: TypeId) -> Result<bool, Memory>
        requires argument { argument.0 < length bank.old.types }
        ensures kept { Extends bank.old bank.new }
        ensures applies { IfOk result (λ yes. yes ≡ true → Applies bank.new self.old self.new head argument) }
        ensures keeps { IfOk result (λ yes. IsTidy bank.old self.old → IsTypeBelow bank.old self.old.next head → IsTypeBelow bank.old self.old.next argument → (yes ≡ true) × KeepsApplied bank.new self.old self.new head argument) }
    {
        let to = self.new_variable(bank)?;
        let of = put_arrow(bank, argument, to)?;
        self.equate(head, of)?;
        self.stack.push(to)?;
        Ok(true)
    }

    fn apply(&mut self, bank: &mut Bank) -> Result<bool, Memory>
        ensures kept { Extends bank.old bank.new }
        ensures moves { IfOk result (λ yes. yes ≡ true → Moves bank.new self.old self.new (λ b. applying)) }
        ensures keeps { IfOk result (λ yes. IsTidy bank.old self.old → Keeps bank.new self.old self.new (λ b. applying ∷ []) yes) }
    {
        let Some(argument) = self.stack.pop() else {
            return Ok(false);
        };
        let Some(head) = self.stack.pop() else {
            return Ok(false);
        };
        if !is_type_inside(bank, argument) {
            return Ok(false);
        }
        match bank.type_node(head) {
            TypeNode::Arrow(from, to) => {
                self.equate(from, argument)?;
                self.stack.push(to)?;
                Ok(true)
            }
            _ => self.apply_any(bank, head, argument),
        }
    }

    fn take(&mut self, known: &mut Known, bank: &mut Bank, task: Task) -> Result<bool, Memory>
        requires known { IsKnown bank.old known.old }
        ensures kept { Extends bank.old bank.new }
        ensures known { OnOk result (IsKnown bank.new known.new) }
        ensures moves { IfOk result (λ yes. yes ≡ true → Moves bank.new self.old self.new (λ b. step_of b task)) }
        ensures keeps { IfOk result (λ yes. IsTidy bank.old self.old → IsTaskIn bank.old task → Keeps bank.new self.old self.new (λ b. step_of b task ∷ []) yes) }
    {
        match task {
            Task::Visit(term) => self.visit(known, bank, term),
            Task::Close => self.close(bank),
            Task::Apply => self.apply(bank),
        }
    }

    // Whether all that is left to do can be done.
    fn finish(&mut self, known: &mut Known, bank: &mut Bank) -> Result<bool, Memory>
        requires known { IsKnown bank.old known.old }
        ensures kept { Extends bank.old bank.new }
        ensures known { OnOk result (IsKnown bank.new known.new) }
        ensures derives { IfOk result (λ yes. yes ≡ true → (b : Nodes) → Extends bank.new b → (θ : ℕ → Ty) → (T : Ty) → (R : List Ty) → Solves b θ self.new.pairs.items → filled_types b θ self.new.stack.items ≡ T ∷ R → Derives b θ self.old T) }
        ensures keeps { IfOk result (λ yes. IsTidy bank.old self.old → Keeps bank.new self.old self.new (λ b. []) yes) }
        ensures ended { IfOk result (λ yes. yes ≡ true → self.new.tasks.items ≡ []) }
    {
        for _ in 0..u64::MAX {
            let Some(task) = self.tasks.pop() else {
                return Ok(true);
            };
            if !self.take(known, bank, task)? {
                return Ok(false);
            }
        }
        Err(Memory)
    }
}

// Whether both types are in the bank.
fn is_pair(bank: &Bank, pair: Pair) -> bool
    ensures inside { result ≡ true → IsPair (length bank.now.types) pair }
    ensures outside { result ≡ false → IsPair (length bank.now.types) pair → ⊥ }
{
    if !is_type_inside(bank, pair.left) {
        return false;
    }
    is_type_inside(bank, pair.right)
}

// Whether the types of all pairs are in the bank.
fn are_pairs(bank: &Bank, pairs: &[Pair]) -> bool
    ensures inside { result ≡ true → All (IsPair (length bank.now.types)) pairs.now }
    ensures outside { result ≡ false → All (IsPair (length bank.now.types)) pairs.now → ⊥ }
{
    for at in 0..pairs.len() {
        if !is_pair(bank, pairs[at]) {
            return false;
        }
    }
    true
}

// Whether the pairs have a solution; they have none where a type is not in the bank.
pub(crate) fn have_solution(alloc: Global, bank: &Bank, pairs: &[Pair]) -> Result<bool, Memory>
    ensures inside { IfOk result (λ yes. yes ≡ true → All (IsPair (length bank.now.types)) pairs.now) }
    ensures solved { IfOk result (λ yes. yes ≡ true → (θ : ℕ → Ty) × AllHold θ (read_pairs (type_tree bank.now) var pairs.now)) }
    ensures none { IfOk result (λ yes. yes ≡ false → All (IsPair (length bank.now.types)) pairs.now → HaveNoSolution (read_pairs (type_tree bank.now) var pairs.now)) }
{
    if !are_pairs(bank, pairs) {
        return Ok(false);
    }
    let Some(_bindings) = unify(alloc, bank, pairs)? else {
        return Ok(false);
    };
    Ok(true)
}

// Whether a closed term has the closed type, where the eigenconstants have these types.
pub(crate) fn has_type(
    alloc: Global,
    bank: &mut Bank,
    known: &mut Known,
    constants: &[Declared],
    eigens: &[TypeId],
    term: TermId,
    of: TypeId,
) -> Result<bool, Memory>
    requires known { IsKnown bank.old known.old }
    ensures kept { Extends bank.old bank.new }
    ensures known { OnOk result (IsKnown bank.new known.new) }
    ensures typed { IfOk result (λ yes. yes ≡ true → IsClosedType (type_tree bank.old of.0) → (b : Nodes) → Extends bank.new b → Typed (under (declared_by b constants.now) (types_in b eigens.now)) [] (tree b term.0) (type_tree b of.0)) }
    ensures untyped { IfOk result (λ yes. yes ≡ false → AllAtoms HasClosedTypes (tree bank.old term.0) → term.0 < length bank.old.terms → IsClosedType (type_tree bank.old of.0) → AreClosed (types_in bank.old eigens.now) → AreDeclaredInside (length bank.old.types) constants.now →
        (b : Nodes) → Extends bank.new b → Typed (under (declared_by b constants.now) (types_in b eigens.now)) [] (tree b term.0) (type_tree b of.0) → ⊥) }
{
    let mut typing = Typing {
        alloc,
        constants,
        eigens,
        context: Vec::new(alloc),
        stack: Vec::new(alloc),
        pairs: Vec::new(alloc),
        tasks: Vec::new(alloc),
        next: 0,
    };
    typing.tasks.push(Task::Visit(term))?;
    if !typing.finish(known, bank)? {
        return Ok(false);
    }
    let Some(found) = typing.stack.pop() else {
        return Ok(false);
    };
    typing.equate(found, of)?;
    have_solution(alloc, bank, typing.pairs.as_slice())
}
