// What is known of each type and each term of a bank. Nodes name older ones, so one way from the first number to the last finds it for all.
ghost use Rattle.std.specs.Prelude.{◌≡◌, ◌<◌, ◌≤◌, ◌&&◌, ℕ, List, length, map, take, get_or, All, IfOk, OnOk, true, false};
ghost use Rattle.lp_calculus.specs.Term.{Term, atom, abs, app, index, eigen, apply};
ghost use Rattle.lp_calculus.specs.Closed.{IsClosedAt};
ghost use Rattle.lp_standard.specs.Positive.{is_positive, is_positive_constant};
ghost use Rattle.lp_term.specs.Node.{TypeBelow, TermBelow};
ghost use Rattle.lp_term.specs.Nodes.{Nodes, tree, type_tree, type_node_tree, node_tree};
ghost use Rattle.lp_term.specs.Shapes.{type_shape, term_shape};
ghost use Rattle.lp_term.specs.Spine.{LooseBelow};
ghost use Rattle.lp_cert.specs.Facts.{AreFacts, IsKnown, all_marked, atom_facts, plain_facts, no_facts, is_closed_type, are_closed};

use lp_base::Memory;
use lp_standard::Constant;
use lp_term::{Bank, TermId, TermNode, TypeId, TypeNode};
use std::alloc::Global;

// What is known of a term: one more than its greatest loose index, or 0 where none is loose; its greatest eigenconstant, or 0 where it has none; whether
// it has neither a logic variable nor a type variable; and whether it has neither `=>`, `:-`, `!` nor `not`.
#[derive(Clone, Copy)]
pub(crate) struct Facts {
    pub(crate) loose: u128,
    pub(crate) eigen: u64,
    pub(crate) plain: bool,
    pub(crate) positive: bool,
}

// By number, whether a type has no type variable, and what is known of a term.
#[derive(Drop)]
pub(crate) struct Known {
    pub(crate) types: Vec<bool>,
    pub(crate) terms: Vec<Facts>,
}

impl Facts {
    fn of_atom() -> Facts
        ensures { result ≡ atom_facts }
    {
        Facts {
            loose: 0,
            eigen: 0,
            plain: true,
            positive: true,
        }
    }

    fn of_index(at: u64) -> Facts
        ensures { AreFacts result (index at) }
    {
        Facts {
            loose: u128::from(at) + 1,
            ..Facts::of_atom()
        }
    }

    fn of_eigen(level: u64) -> Facts
        ensures { AreFacts result (atom (eigen level)) }
    {
        Facts {
            eigen: level,
            ..Facts::of_atom()
        }
    }

    fn of_plain(plain: bool) -> Facts
        ensures { result ≡ plain_facts plain }
    {
        Facts {
            plain,
            ..Facts::of_atom()
        }
    }

    // Neither variables nor loose indices, and no eigenconstant above the level.
    fn has_nothing_open(self, level: u64) -> bool
        ensures always { result ≡ true → (self.plain ≡ true) × (self.loose ≡ 0) × (self.eigen ≤ level) }
        ensures never { result ≡ false → self.plain ≡ true → self.loose ≡ 0 → self.eigen ≤ level → ⊥ }
    {
        if !self.plain {
            return false;
        }
        if self.loose != 0 {
            return false;
        }
        self.eigen <= level
    }

    fn fits_below(self, depth: u64) -> bool
        ensures always { result ≡ true → self.loose ≤ depth }
        ensures never { result ≡ false → self.loose ≤ depth → ⊥ }
    {
        self.loose <= u128::from(depth)
    }

    fn abstracted(self) -> Facts
        ensures { (t : Term) → AreFacts self t → AreFacts result (abs t) }
    {
        Facts {
            loose: self.loose.saturating_sub(1),
            ..self
        }
    }

    fn applied(self, argument: Facts) -> Facts
        ensures { (t u : Term) → AreFacts self t → AreFacts argument u → AreFacts result (app t u) }
    {
        Facts {
            loose: self.loose.max(argument.loose),
            eigen: self.eigen.max(argument.eigen),
            plain: self.plain && argument.plain,
            positive: self.positive && argument.positive,
        }
    }
}

fn both(left: bool, right: bool) -> bool
    ensures { result ≡ (left && right) }
{
    left && right
}

// Whether a constant may stand in a positive term.
fn may_stand(constant: u32) -> bool
    ensures { result ≡ is_positive_constant constant }
{
    constant != Constant::Implies.number()
        && constant != Constant::If.number()
        && constant != Constant::Cut.number()
        && constant != Constant::Not.number()
}

impl Known {
    pub(crate) fn new(alloc: Global) -> Known
        ensures { (b : Nodes) → IsKnown b result }
    {
        Known {
            types: Vec::new(alloc),
            terms: Vec::new(alloc),
        }
    }

    // Whether a type that is looked at already has no type variable. One that is not is taken to have one.
    fn type_fact(&self, of: TypeId) -> bool
        ensures { result ≡ get_or self.now.types.items of.0 false }
    {
        match self.types.get(of.0) {
            Some(closed) => *closed,
            None => false,
        }
    }

    fn type_facts(&self, types: &[TypeId]) -> bool
        ensures { result ≡ all_marked self.now.types.items (map (λ t. t.0) types.now) }
    {
        let mut closed = true;
        for of in types {
            closed = both(closed, self.type_fact(*of));
        }
        closed
    }

    fn type_node_fact(&self, node: TypeNode<'_>) -> bool
        ensures { (b : Nodes) → IsKnown b self.now → TypeBelow (length self.now.types.items) (type_shape node.entry) → result ≡ is_closed_type (type_node_tree b (type_shape node.entry)) }
    {
        match node {
            TypeNode::Var(_) => false,
            TypeNode::Param(_) => true,
            TypeNode::Con(_, parts) => self.type_facts(parts),
            TypeNode::Arrow(from, to) => {
                let taken = self.type_fact(from);
                let given = self.type_fact(to);
                both(taken, given)
            }
        }
    }

    fn find_types(&mut self, bank: &Bank) -> Result<(), Memory>
        requires known { IsKnown bank.now self.old }
        ensures known { OnOk result (IsKnown bank.now self.new) }
        ensures all { OnOk result (length self.new.types.items ≡ length bank.now.types) }
        ensures terms { OnOk result (self.new.terms.items ≡ self.old.terms.items) }
    {
        for number in self.types.len()..bank.type_count() {
            let fact = self.type_node_fact(bank.type_node(TypeId(number)));
            self.types.push(fact)?;
        }
        Ok(())
    }

    // What is known of a term that is looked at already.
    fn term_fact(&self, term: TermId) -> Facts
        ensures { result ≡ get_or self.now.terms.items term.0 no_facts }
    {
        match self.terms.get(term.0) {
            Some(facts) => *facts,
            None => Facts {
                loose: 1,
                ..Facts::of_atom()
            },
        }
    }

    fn application_fact(&self, head: TermId, arguments: &[TermId]) -> Facts
        ensures { (b : Nodes) → IsKnown b self.now → head.0 < length self.now.terms.items → All (λ i. i < length self.now.terms.items) (map (λ t. t.0) arguments.now) →
            AreFacts result (apply (tree b head.0) (map (tree b) (map (λ t. t.0) arguments.now))) }
    {
        let mut facts = self.term_fact(head);
        for argument in arguments {
            facts = facts.applied(self.term_fact(*argument));
        }
        facts
    }

    fn constant_fact(&self, constant: u32, types: &[TypeId]) -> Facts
        ensures loose { result.loose ≡ 0 }
        ensures eigen { result.eigen ≡ 0 }
        ensures positive { result.positive ≡ is_positive_constant constant }
        ensures plain { result.plain ≡ all_marked self.now.types.items (map (λ t. t.0) types.now) }
    {
        Facts {
            positive: may_stand(constant),
            ..Facts::of_plain(self.type_facts(types))
        }
    }

    fn term_node_fact(&self, node: TermNode<'_>) -> Facts
        ensures { (b : Nodes) → IsKnown b self.now → TermBelow (length self.now.types.items) (length self.now.terms.items) (term_shape node.entry) → AreFacts result (node_tree b (term_shape node.entry)) }
    {
        match node {
            TermNode::Index(at) => Facts::of_index(at),
            TermNode::Const(constant, types) => self.constant_fact(constant, types),
            TermNode::Int(_) | TermNode::Text(_) => Facts::of_atom(),
            TermNode::Eigen(level) => Facts::of_eigen(level),
            TermNode::Logic { .. } => Facts::of_plain(false),
            TermNode::Param(_, of) => Facts::of_plain(self.type_fact(of)),
            TermNode::Abs(body) => self.term_fact(body).abstracted(),
            TermNode::App(head, arguments) => self.application_fact(head, arguments),
        }
    }

    fn find_terms(&mut self, bank: &Bank) -> Result<(), Memory>
        requires known { IsKnown bank.now self.old }
        ensures known { OnOk result (IsKnown bank.now self.new) }
        ensures all { OnOk result (length self.new.terms.items ≡ length bank.now.terms) }
    {
        self.find_types(bank)?;
        for number in self.terms.len()..bank.term_count() {
            let facts = self.term_node_fact(bank.term_node(TermId(number)));
            self.terms.push(facts)?;
        }
        Ok(())
    }

    // Whether a type has no type variable.
    pub(crate) fn is_closed_type(&mut self, bank: &Bank, of: TypeId) -> Result<bool, Memory>
        requires known { IsKnown bank.now self.old }
        ensures known { OnOk result (IsKnown bank.now self.new) }
        ensures closed { IfOk result (λ yes. yes ≡ is_closed_type (type_tree bank.now of.0)) }
    {
        self.find_types(bank)?;
        Ok(self.type_fact(of))
    }

    pub(crate) fn are_closed_types(&mut self, bank: &Bank, types: &[TypeId]) -> Result<bool, Memory>
        requires known { IsKnown bank.now self.old }
        ensures known { OnOk result (IsKnown bank.now self.new) }
        ensures closed { IfOk result (λ yes. yes ≡ are_closed (map (type_tree bank.now) (map (λ t. t.0) types.now))) }
    {
        self.find_types(bank)?;
        Ok(self.type_facts(types))
    }

    // Whether a term is positive.
    pub(crate) fn is_positive(&mut self, bank: &Bank, term: TermId) -> Result<bool, Memory>
        requires known { IsKnown bank.now self.old }
        ensures known { OnOk result (IsKnown bank.now self.new) }
        ensures positive { IfOk result (λ yes. yes ≡ is_positive (tree bank.now term.0)) }
    {
        self.find_terms(bank)?;
        Ok(self.term_fact(term).positive)
    }

    // Whether the loose indices of a term are below the depth.
    pub(crate) fn is_loose_below(
        &mut self,
        bank: &Bank,
        depth: u64,
        term: TermId,
    ) -> Result<bool, Memory>
        requires known { IsKnown bank.now self.old }
        ensures known { OnOk result (IsKnown bank.now self.new) }
        ensures below { IfOk result (λ yes. yes ≡ true → LooseBelow depth 0 (tree bank.now term.0)) }
        ensures above { IfOk result (λ yes. yes ≡ false → LooseBelow depth 0 (tree bank.now term.0) → ⊥) }
    {
        self.find_terms(bank)?;
        let facts = self.term_fact(term);
        Ok(facts.fits_below(depth))
    }

    // Whether a term has neither logic nor type variables, no loose index, and no eigenconstant above the level.
    pub(crate) fn is_closed_at(
        &mut self,
        bank: &Bank,
        level: u64,
        term: TermId,
    ) -> Result<bool, Memory>
        requires known { IsKnown bank.now self.old }
        ensures known { OnOk result (IsKnown bank.now self.new) }
        ensures closed { IfOk result (λ yes. yes ≡ true → IsClosedAt level (tree bank.now term.0)) }
        ensures open { IfOk result (λ yes. yes ≡ false → IsClosedAt level (tree bank.now term.0) → ⊥) }
    {
        self.find_terms(bank)?;
        let facts = self.term_fact(term);
        Ok(facts.has_nothing_open(level))
    }
}
