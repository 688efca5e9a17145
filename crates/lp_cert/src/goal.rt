// Nodes that prove a goal.
ghost use Rattle.std.specs.Prelude.{◌≡◌, ◌<◌, ◌⊎◌, Some, slice_get, List, [], ◌∷◌, None, length, IfOk, IfSome, OnOk, All, true, false};
ghost use Rattle.lp_calculus.specs.Types.{Ty};
ghost use Rattle.lp_calculus.specs.Term.{Term, app, atom, constant};
ghost use Rattle.lp_calculus.specs.Spine.{head_of};
ghost use Rattle.lp_calculus.specs.Instance.{instance_term};
ghost use Rattle.lp_calculus.specs.Typing.{type_at};
ghost use Rattle.lp_standard.specs.Connectives.{cut, pi_of, truth, two};
ghost use Rattle.lp_standard.specs.Constants.{number};
ghost use Rattle.lp_standard.specs.Numbers.{And, Cut, Equal, True};
ghost use Rattle.lp_term.specs.Nodes.{Extends, Nodes, tree, type_tree};
ghost use Rattle.lp_model.specs.Proofs.{IsAtomHead, IsImplication};
ghost use Rattle.lp_cert.specs.Facts.{AreInside, IsKnown};
ghost use Rattle.lp_cert.specs.Same.{types_in};
ghost use Rattle.lp_cert.specs.Shape.{IsEquation};
ghost use Rattle.lp_calculus.specs.Closed.{AreClosed};
ghost use Rattle.lp_cert.specs.Written.{Node, assuming, back_to, converted, equated, general, left_side, node_of, pair, right_side, witness};
ghost use Rattle.lp_cert.specs.Run.{proving};
ghost use Rattle.lp_model.specs.declared.program.ClauseFormula.{ClauseFormula};
ghost use Rattle.lp_cert.specs.inner.Turned.{IsReady, IsReadyWork, IsTurned, Pushes};
ghost use Rattle.lp_cert.specs.Standing.{IsClauseInside, IsNodeInside};
ghost use Rattle.lp_cert.specs.inner.Left.{Goes, IsClauseIn, IsDeclared, Left, LeftWith, Stays};

use crate::arithmetic::computed;
use crate::form::{Compared, is_inside};
use crate::instance::{put_proposition, term_at};
use crate::shape::{one_of, two_of};
use crate::work::{Task, Turn, Work};
use lp_base::Memory;
use lp_model::{ClauseFormula, ProofNode};
use lp_standard::{Constant, FIRST_CONSTANT};
use lp_term::{Bank, TermId, TermNode, TypeId, head_of, put_applied, put_eigen};
use std::alloc::Global;

// The two sides of a formula with this constant, which has no types, at its top.
fn sides(bank: &Bank, formula: TermId, constant: Constant) -> Option<(TermId, TermId)>
    ensures later { IfSome result (λ p. (b : Nodes) → Extends bank.now b → tree b formula.0 ≡ two (number constant) [] (tree b p.0.0) (tree b p.1.0)) }
    ensures inside { IfSome result (λ p. (p.0.0 < length bank.now.terms) × (p.1.0 < length bank.now.terms)) }
    ensures none { result ≡ None → (A B : Term) → tree bank.now formula.0 ≡ two (number constant) [] A B → ⊥ }
{
    let Some(found) = two_of(bank, formula) else {
        return None;
    };
    let wanted = constant.number();
    if found.constant != wanted {
        return None;
    }
    if found.types.len() != 0 {
        return None;
    }
    Some((found.left, found.right))
}

// The type and the term of a formula with this quantifier at its top.
fn quantified(bank: &Bank, formula: TermId, quantifier: Constant) -> Option<(TypeId, TermId)>
    ensures later { IfSome result (λ p. (b : Nodes) → Extends bank.now b → tree b formula.0 ≡ app (atom (constant (number quantifier) (type_tree b p.0.0 ∷ []))) (tree b p.1.0)) }
    ensures inside { IfSome result (λ p. p.1.0 < length bank.now.terms) }
    ensures none { result ≡ None → (T : Ty) (s : Term) → tree bank.now formula.0 ≡ app (atom (constant (number quantifier) (T ∷ []))) s → ⊥ }
{
    let Some(found) = one_of(bank, formula) else {
        return None;
    };
    let wanted = quantifier.number();
    if found.constant != wanted {
        return None;
    }
    if found.types.len() != 1 {
        return None;
    }
    Some((found.types[0], found.on))
}

// The two sides of a formula with this constant, which has one type, at its top.
pub(crate) fn typed_sides(
    bank: &Bank,
    formula: TermId,
    constant: Constant,
) -> Option<(TermId, TermId)>
    ensures later { IfSome result (λ p. (b : Nodes) → Extends bank.now b → (of : Ty) × (tree b formula.0 ≡ two (number constant) (of ∷ []) (tree b p.0.0) (tree b p.1.0))) }
    ensures inside { IfSome result (λ p. (p.0.0 < length bank.now.terms) × (p.1.0 < length bank.now.terms)) }
    ensures none { result ≡ None → (T : Ty) (A B : Term) → tree bank.now formula.0 ≡ two (number constant) (T ∷ []) A B → ⊥ }
{
    let Some(found) = two_of(bank, formula) else {
        return None;
    };
    let wanted = constant.number();
    if found.constant != wanted {
        return None;
    }
    if found.types.len() != 1 {
        return None;
    }
    Some((found.left, found.right))
}

// The sides of an equation.
fn equation(bank: &Bank, formula: TermId) -> Option<(TermId, TermId)>
    ensures later { IfSome result (λ p. (b : Nodes) → Extends bank.now b → (of : Ty) × (tree b formula.0 ≡ two Equal (of ∷ []) (tree b p.0.0) (tree b p.1.0))) }
    ensures inside { IfSome result (λ p. (p.0.0 < length bank.now.terms) × (p.1.0 < length bank.now.terms)) }
    ensures none { result ≡ None → (T : Ty) (A B : Term) → tree bank.now formula.0 ≡ two Equal (T ∷ []) A B → ⊥ }
{
    typed_sides(bank, formula, Constant::Equal)
}

// The clause and the goal of an implication: of `D => G`, or of `G :- D`.
pub(crate) fn implication(bank: &Bank, formula: TermId) -> Option<(TermId, TermId)>
    ensures later { IfSome result (λ p. (b : Nodes) → Extends bank.now b → IsImplication (tree b formula.0) (tree b p.0.0) (tree b p.1.0)) }
    ensures inside { IfSome result (λ p. (p.0.0 < length bank.now.terms) × (p.1.0 < length bank.now.terms)) }
    ensures none { result ≡ None → (D A : Term) → IsImplication (tree bank.now formula.0) D A → ⊥ }
{
    if let Some((clause, goal)) = sides(bank, formula, Constant::Implies) {
        return Some((clause, goal));
    }
    let Some((goal, clause)) = sides(bank, formula, Constant::If) else {
        return None;
    };
    Some((clause, goal))
}

pub(crate) fn conjunction(bank: &Bank, formula: TermId) -> Option<(TermId, TermId)>
    ensures later { IfSome result (λ p. (b : Nodes) → Extends bank.now b → tree b formula.0 ≡ two And [] (tree b p.0.0) (tree b p.1.0)) }
    ensures inside { IfSome result (λ p. (p.0.0 < length bank.now.terms) × (p.1.0 < length bank.now.terms)) }
    ensures none { result ≡ None → (A B : Term) → tree bank.now formula.0 ≡ two And [] A B → ⊥ }
{
    sides(bank, formula, Constant::And)
}

pub(crate) fn universal(bank: &Bank, formula: TermId) -> Option<(TypeId, TermId)>
    ensures later { IfSome result (λ p. (b : Nodes) → Extends bank.now b → tree b formula.0 ≡ pi_of (type_tree b p.0.0) (tree b p.1.0)) }
    ensures inside { IfSome result (λ p. p.1.0 < length bank.now.terms) }
    ensures none { result ≡ None → (T : Ty) (s : Term) → tree bank.now formula.0 ≡ pi_of T s → ⊥ }
{
    quantified(bank, formula, Constant::ForAll)
}

fn is_true_or_cut(constant: u32) -> bool
    ensures yes { result ≡ true → (constant ≡ True) ⊎ (constant ≡ Cut) }
    ensures no { result ≡ false → (constant ≡ True) ⊎ (constant ≡ Cut) → ⊥ }
{
    if constant == Constant::True.number() {
        return true;
    }
    constant == Constant::Cut.number()
}

// Whether the goal is `true` or `!`.
fn is_trivial(bank: &Bank, goal: TermId) -> bool
    ensures yes { result ≡ true → (b : Nodes) → Extends bank.now b → (tree b goal.0 ≡ truth) ⊎ (tree b goal.0 ≡ cut) }
    ensures no { result ≡ false → (tree bank.now goal.0 ≡ truth) ⊎ (tree bank.now goal.0 ≡ cut) → ⊥ }
{
    match bank.term_node(goal) {
        TermNode::Const(constant, types) => {
            if types.len() != 0 {
                return false;
            }
            is_true_or_cut(constant)
        }
        TermNode::Index(_) => false,
        TermNode::Int(_) => false,
        TermNode::Text(_) => false,
        TermNode::Eigen(_) => false,
        TermNode::Logic { .. } => false,
        TermNode::Param(_, _) => false,
        TermNode::Abs(_) => false,
        TermNode::App(_, _) => false,
    }
}

// Whether the head is a declared constant or an eigenconstant.
fn is_atom_head(bank: &Bank, head: TermId) -> bool
    ensures yes { result ≡ true → (b : Nodes) → Extends bank.now b → IsAtomHead (tree b head.0) }
    ensures no { result ≡ false → IsAtomHead (tree bank.now head.0) → ⊥ }
{
    match bank.term_node(head) {
        TermNode::Const(constant, _) => constant >= FIRST_CONSTANT,
        TermNode::Eigen(_) => true,
        TermNode::Index(_) => false,
        TermNode::Int(_) => false,
        TermNode::Text(_) => false,
        TermNode::Logic { .. } => false,
        TermNode::Param(_, _) => false,
        TermNode::Abs(_) => false,
        TermNode::App(_, _) => false,
    }
}

// Whether the head of the goal, which stands in the bank, is a declared constant or an eigenconstant.
fn is_atom(bank: &Bank, goal: TermId) -> bool
    ensures yes { result ≡ true → (b : Nodes) → Extends bank.now b → IsAtomHead (head_of (tree b goal.0)) }
    ensures no { result ≡ false → IsAtomHead (head_of (tree bank.now goal.0)) → ⊥ }
{
    if !is_inside(bank, goal) {
        return false;
    }
    is_atom_head(bank, head_of(bank, goal))
}

// The formula with the types for its type variables, if it stands in the bank and has as many.
fn formula_at(
    alloc: Global,
    bank: &mut Bank,
    formula: TermId,
    count: u64,
    types: &[TypeId],
) -> Result<Option<TermId>, Memory>
    ensures kept { Extends bank.old bank.new }
    ensures formula { IfOk result (λ found. IfSome found (λ made. (length types.now ≡ count) × (AreInside (length bank.old.types) types.now → (b : Nodes) → Extends bank.new b → tree b made.0 ≡ instance_term (type_at (types_in b types.now)) (tree b formula.0)))) }
    ensures within { IfOk result (λ found. IfSome found (λ made. made.0 < length bank.new.terms)) }
    ensures none { IfOk result (λ found. found ≡ None → formula.0 < length bank.old.terms → length types.now ≡ count → ⊥) }
{
    if types.len() as u64 != count {
        return Ok(None);
    }
    if !is_inside(bank, formula) {
        return Ok(None);
    }
    let made = term_at(alloc, bank, types, formula)?;
    Ok(Some(made))
}

// The clause at this place with the types for its type variables, if it has as many.
fn declared_clause(
    alloc: Global,
    bank: &mut Bank,
    clauses: &[ClauseFormula],
    place: usize,
    types: &[TypeId],
) -> Result<Option<TermId>, Memory>
    ensures kept { Extends bank.old bank.new }
    ensures clause { IfOk result (λ found. IfSome found (λ made. AreInside (length bank.old.types) types.now → (b : Nodes) → Extends bank.new b → IsDeclared b clauses.now place types.now (tree b made.0))) }
    ensures within { IfOk result (λ found. IfSome found (λ made. made.0 < length bank.new.terms)) }
    ensures none { IfOk result (λ found. found ≡ None → (c : ClauseFormula) → slice_get clauses.now place ≡ Some c → c.formula.0 < length bank.old.terms → length types.now ≡ c.type_vars → ⊥) }
{
    match clauses.get(place) {
        Some(clause) => {
            let count = clause.type_vars as u64;
            formula_at(alloc, bank, clause.formula, count, types)
        }
        None => Ok(None),
    }
}

pub(crate) fn turn_where(holds: bool) -> Turn
    ensures on { result ≡ Turn.On → holds ≡ true }
    ensures no { result ≡ Turn.No → holds ≡ false }
    ensures deep { result ≡ Turn.Deep → ⊥ }
{
    if holds { Turn::On } else { Turn::No }
}

impl Work<'_> {
    fn go_on(&mut self, goal: TermId) -> Result<Turn, Memory>
        ensures same { self.new.known ≡ self.old.known }
        ensures left { OnOk result ((b : Nodes) → (ns : List Node) → Left b self.new ns → LeftWith b self.old (proving (tree b goal.0)) ns) }
        ensures pushes { IfOk result (λ turn. (turn ≡ Turn.On) × Pushes self.old self.new (Task.Prove goal)) }
    {
        self.tasks.push(Task::Prove(goal))?;
        Ok(Turn::On)
    }

    fn conv(&mut self, bank: &mut Bank, goal: TermId, other: TermId) -> Result<Turn, Memory>
        requires known { IsKnown bank.old self.old.known }
        ensures kept { Extends bank.old bank.new }
        ensures known { OnOk result (IsKnown bank.new self.new.known) }
        ensures goes { IfOk result (λ turn. turn ≡ Turn.On → (b : Nodes) → Extends bank.new b → Goes b self.old self.new (proving (tree b goal.0)) (converted (tree b other.0))) }
        ensures turned { IfOk result (λ turn. IsReadyWork bank.old self.old → IsReady bank.old goal → other.0 < length bank.old.terms → IsTurned bank.new self.old self.new (λ b. proving (tree b goal.0)) (λ b. converted (tree b other.0)) turn) }
    {
        let of = put_proposition(bank)?;
        if !self.is_closed_of(bank, other, of)? {
            return Ok(Turn::No);
        }
        let compared = self.converts(bank, other, goal)?;
        match compared {
            Compared::Same => self.go_on(other),
            Compared::Differ => Ok(Turn::No),
            Compared::Deep => Ok(Turn::Deep),
        }
    }

    fn both(&mut self, bank: &Bank, goal: TermId) -> Result<Turn, Memory>
        ensures same { self.new.known ≡ self.old.known }
        ensures goes { IfOk result (λ turn. turn ≡ Turn.On → (b : Nodes) → Extends bank.now b → Goes b self.old self.new (proving (tree b goal.0)) pair) }
        ensures turned { IfOk result (λ turn. IsReadyWork bank.now self.old → IsReady bank.now goal → IsTurned bank.now self.old self.new (λ b. proving (tree b goal.0)) (λ b. pair) turn) }
    {
        let Some((left, right)) = sides(bank, goal, Constant::And) else {
            return Ok(Turn::No);
        };
        self.tasks.push(Task::Prove(right))?;
        self.go_on(left)
    }

    fn left(&mut self, bank: &Bank, goal: TermId) -> Result<Turn, Memory>
        ensures same { self.new.known ≡ self.old.known }
        ensures goes { IfOk result (λ turn. turn ≡ Turn.On → (b : Nodes) → Extends bank.now b → Goes b self.old self.new (proving (tree b goal.0)) left_side) }
        ensures turned { IfOk result (λ turn. IsReadyWork bank.now self.old → IsReady bank.now goal → IsTurned bank.now self.old self.new (λ b. proving (tree b goal.0)) (λ b. left_side) turn) }
    {
        match sides(bank, goal, Constant::Or) {
            Some((left, _right)) => self.go_on(left),
            None => Ok(Turn::No),
        }
    }

    fn right(&mut self, bank: &Bank, goal: TermId) -> Result<Turn, Memory>
        ensures same { self.new.known ≡ self.old.known }
        ensures goes { IfOk result (λ turn. turn ≡ Turn.On → (b : Nodes) → Extends bank.now b → Goes b self.old self.new (proving (tree b goal.0)) right_side) }
        ensures turned { IfOk result (λ turn. IsReadyWork bank.now self.old → IsReady bank.now goal → IsTurned bank.now self.old self.new (λ b. proving (tree b goal.0)) (λ b. right_side) turn) }
    {
        match sides(bank, goal, Constant::Or) {
            Some((_left, right)) => self.go_on(right),
            None => Ok(Turn::No),
        }
    }

    fn witnessed(&mut self, bank: &mut Bank, goal: TermId, value: TermId) -> Result<Turn, Memory>
        requires known { IsKnown bank.old self.old.known }
        ensures kept { Extends bank.old bank.new }
        ensures known { OnOk result (IsKnown bank.new self.new.known) }
        ensures goes { IfOk result (λ turn. turn ≡ Turn.On → (b : Nodes) → Extends bank.new b → Goes b self.old self.new (proving (tree b goal.0)) (witness (tree b value.0))) }
        ensures turned { IfOk result (λ turn. IsReadyWork bank.old self.old → IsReady bank.old goal → value.0 < length bank.old.terms → IsTurned bank.new self.old self.new (λ b. proving (tree b goal.0)) (λ b. witness (tree b value.0)) turn) }
    {
        let Some((of, body)) = quantified(bank, goal, Constant::Exists) else {
            return Ok(Turn::No);
        };
        if !self.is_witness(bank, value, of)? {
            return Ok(Turn::No);
        }
        let next = put_applied(bank, body, value)?;
        self.go_on(next)
    }

    fn for_all(&mut self, bank: &mut Bank, goal: TermId) -> Result<Turn, Memory>
        requires known { IsKnown bank.old self.old.known }
        ensures kept { Extends bank.old bank.new }
        ensures known { OnOk result (IsKnown bank.new self.new.known) }
        ensures goes { IfOk result (λ turn. turn ≡ Turn.On → (b : Nodes) → Extends bank.new b → Goes b self.old self.new (proving (tree b goal.0)) general) }
        ensures turned { IfOk result (λ turn. IsReadyWork bank.old self.old → IsReady bank.old goal → IsTurned bank.new self.old self.new (λ b. proving (tree b goal.0)) (λ b. general) turn) }
    {
        let Some((of, body)) = quantified(bank, goal, Constant::ForAll) else {
            return Ok(Turn::No);
        };
        let Some(level) = self.level().checked_add(1) else {
            return Err(Memory);
        };
        let eigen = put_eigen(bank, level)?;
        let next = put_applied(bank, body, eigen)?;
        self.eigens.push(of)?;
        self.tasks.push(Task::LeaveEigen)?;
        self.go_on(next)
    }

    fn assume(&mut self, bank: &Bank, goal: TermId) -> Result<Turn, Memory>
        ensures same { self.new.known ≡ self.old.known }
        ensures goes { IfOk result (λ turn. turn ≡ Turn.On → (b : Nodes) → Extends bank.now b → Goes b self.old self.new (proving (tree b goal.0)) assuming) }
        ensures turned { IfOk result (λ turn. IsReadyWork bank.now self.old → IsReady bank.now goal → IsTurned bank.now self.old self.new (λ b. proving (tree b goal.0)) (λ b. assuming) turn) }
    {
        let Some((clause, rest)) = implication(bank, goal) else {
            return Ok(Turn::No);
        };
        self.assumed.push(clause)?;
        self.tasks.push(Task::LeaveAssumed)?;
        self.go_on(rest)
    }

    fn equal(&mut self, bank: &mut Bank, goal: TermId) -> Result<Turn, Memory>
        requires known { IsKnown bank.old self.old.known }
        ensures kept { Extends bank.old bank.new }
        ensures known { OnOk result (IsKnown bank.new self.new.known) }
        ensures stays { OnOk result (Stays self.old self.new) }
        ensures equation { IfOk result (λ turn. turn ≡ Turn.On → (b : Nodes) → Extends bank.new b → IsEquation (tree b goal.0)) }
        ensures turned { IfOk result (λ turn. IsReadyWork bank.old self.old → IsReady bank.old goal → IsTurned bank.new self.old self.new (λ b. proving (tree b goal.0)) (λ b. equated) turn) }
    {
        let Some((left, right)) = equation(bank, goal) else {
            return Ok(Turn::No);
        };
        let compared = self.converts(bank, left, right)?;
        let turn = Work::turn_of(compared);
        Ok(turn)
    }

    // The clause of this number with the types for its type variables, if it has as many.
    fn clause(
        &mut self,
        bank: &mut Bank,
        number: u32,
        types: &[TypeId],
    ) -> Result<Option<TermId>, Memory>
        requires known { IsKnown bank.old self.old.known }
        ensures kept { Extends bank.old bank.new }
        ensures known { OnOk result (IsKnown bank.new self.new.known) }
        ensures stays { OnOk result (Stays self.old self.new) }
        ensures clause { IfOk result (λ found. IfSome found (λ made. AreInside (length bank.old.types) types.now → (b : Nodes) → Extends bank.new b → IsClauseIn b self.old.theory self.old.assumed.items number (types_in b types.now) (tree b made.0))) }
        ensures ready { IfOk result (λ found. IfSome found (λ made. IsReadyWork bank.old self.old → AreClosed (types_in bank.old types.now) → IsReady bank.new made)) }
        ensures none { IfOk result (λ found. found ≡ None → IsReadyWork bank.old self.old → AreInside (length bank.old.types) types.now → (b : Nodes) → Extends bank.new b → (t : Term) → IsClauseIn b self.old.theory self.old.assumed.items number (types_in b types.now) t → ⊥) }
    {
        let place = number as usize;
        let clauses = self.theory.clauses;
        if place < clauses.len() {
            return declared_clause(self.alloc, bank, clauses, place, types);
        }
        match self.assumed.get(place - clauses.len()) {
            Some(formula) => formula_at(self.alloc, bank, *formula, 0, types),
            None => Ok(None),
        }
    }

    fn back(
        &mut self,
        bank: &mut Bank,
        goal: TermId,
        number: u32,
        types: &[TypeId],
    ) -> Result<Turn, Memory>
        requires known { IsKnown bank.old self.old.known }
        ensures kept { Extends bank.old bank.new }
        ensures known { OnOk result (IsKnown bank.new self.new.known) }
        ensures goes { IfOk result (λ turn. turn ≡ Turn.On → (b : Nodes) → Extends bank.new b → Goes b self.old self.new (proving (tree b goal.0)) (back_to number (types_in b types.now))) }
        ensures turned { IfOk result (λ turn. IsReadyWork bank.old self.old → IsReady bank.old goal → AreInside (length bank.old.types) types.now → IsTurned bank.new self.old self.new (λ b. proving (tree b goal.0)) (λ b. back_to number (types_in b types.now)) turn) }
    {
        if !is_atom(bank, goal) {
            return Ok(Turn::No);
        }
        if !self.known.are_closed_types(bank, types)? {
            return Ok(Turn::No);
        }
        let found = self.clause(bank, number, types)?;
        let Some(clause) = found else {
            return Ok(Turn::No);
        };
        self.tasks.push(Task::Focus(clause, goal))?;
        Ok(Turn::On)
    }

    // A node that is to prove a goal.
    pub(crate) fn prove(
        &mut self,
        bank: &mut Bank,
        goal: TermId,
        node: &ProofNode,
    ) -> Result<Turn, Memory>
        requires known { IsKnown bank.old self.old.known }
        ensures kept { Extends bank.old bank.new }
        ensures known { OnOk result (IsKnown bank.new self.new.known) }
        ensures goes { IfOk result (λ turn. turn ≡ Turn.On → (b : Nodes) → Extends bank.new b → Goes b self.old self.new (proving (tree b goal.0)) (node_of b node.now)) }
        ensures turned { IfOk result (λ turn. IsReadyWork bank.old self.old → IsReady bank.old goal → IsNodeInside bank.old node.now → IsTurned bank.new self.old self.new (λ b. proving (tree b goal.0)) (λ b. node_of b node.now) turn) }
    {
        match node {
            ProofNode::Conv(other) => self.conv(bank, goal, *other),
            ProofNode::True => Ok(turn_where(is_trivial(bank, goal))),
            ProofNode::And => self.both(bank, goal),
            ProofNode::Left => self.left(bank, goal),
            ProofNode::Right => self.right(bank, goal),
            ProofNode::Some(value) => self.witnessed(bank, goal, *value),
            ProofNode::All => self.for_all(bank, goal),
            ProofNode::Assume => self.assume(bank, goal),
            ProofNode::Equal => self.equal(bank, goal),
            ProofNode::Arith => computed(self.alloc, &mut self.known, bank, goal),
            ProofNode::Back(number, types) => self.back(bank, goal, *number, types.as_slice()),
            ProofNode::FocusConv(_) => Ok(Turn::No),
            ProofNode::FocusAll(_) => Ok(Turn::No),
            ProofNode::Take(_) => Ok(Turn::No),
            ProofNode::Need => Ok(Turn::No),
            ProofNode::Hit => Ok(Turn::No),
        }
    }
}
