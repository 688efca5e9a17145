// What the terms of a bank are like. Each is looked at once, behind those before it.
ghost use Rattle.std.specs.Prelude.{◌≡◌, ◌<◌, ℕ, Bool, ◌||◌, length, map, not, false, All, IfOk, OnOk};
ghost use Rattle.lp_calculus.specs.Term.{Term, Atom, index, atom, abs, app, apply};
ghost use Rattle.lp_standard.specs.Positive.{is_positive, is_positive_constant};
ghost use Rattle.lp_term.specs.Nodes.{Nodes, tree};
ghost use Rattle.lp_module.specs.inner.Judging.{IsMeasure, AreMeasured};

use lp_base::Memory;
use lp_standard::Constant;
use lp_term::{Bank, TermId, TermNode};
use std::alloc::Global;

/// How deep a term is, a head with its arguments on one level; how many arguments its head has; the greatest number of arguments on
/// one head in it; and whether `=>`, `:-`, `!` or `not` stands in it. A number past 32 bits stands as the greatest.
#[derive(Clone, Copy)]
pub(crate) struct Measure {
    pub depth: u32,
    pub arguments: u32,
    pub widest: u32,
    pub connective: bool,
}

impl Measure {
    fn leaf(connective: bool) -> Measure
        ensures index { (i : ℕ) → connective ≡ false → IsMeasure result (index i) }
        ensures atom { (a : Atom) → connective ≡ not (is_positive (atom a)) → IsMeasure result (atom a) }
    {
        Measure {
            depth: 1,
            arguments: 0,
            widest: 0,
            connective,
        }
    }

    fn abstracted(self) -> Measure
        ensures { (t : Term) → IsMeasure self t → IsMeasure result (abs t) }
    {
        let depth = self.depth.saturating_add(1);
        Measure {
            depth,
            arguments: 0,
            widest: self.widest,
            connective: self.connective,
        }
    }

    // The head with one more argument.
    fn applied(self, argument: Measure) -> Measure
        ensures { (t u : Term) → IsMeasure self t → IsMeasure argument u → IsMeasure result (app t u) }
    {
        let arguments = self.arguments.saturating_add(1);
        let below = argument.depth.saturating_add(1);
        let inside = self.widest.max(argument.widest);
        let depth = self.depth.max(below);
        let widest = inside.max(arguments);
        let connective = either(self.connective, argument.connective);
        Measure {
            depth,
            arguments,
            widest,
            connective,
        }
    }
}

/// Whether one of the two holds.
pub(crate) fn either(left: bool, right: bool) -> bool
    ensures { result ≡ (left || right) }
{
    if left {
        return true;
    }
    right
}

// Whether a constant is `=>`, `:-`, `!` or `not`.
fn is_connective(constant: u32) -> bool
    ensures { result ≡ not (is_positive_constant constant) }
{
    let implies = constant == Constant::Implies.number();
    let turned = constant == Constant::If.number();
    let cut = constant == Constant::Cut.number();
    let negation = constant == Constant::Not.number();
    either(either(implies, turned), either(cut, negation))
}

/// The measures of the first terms of a bank.
#[derive(Drop)]
pub(crate) struct Measures {
    measured: Vec<Measure>,
}

impl Measures {
    pub(crate) fn new(alloc: Global) -> Measures
        ensures { (b : Nodes) → AreMeasured b result }
    {
        Measures {
            measured: Vec::new(alloc),
        }
    }

    fn known(&self, id: TermId) -> Measure
        ensures { (b : Nodes) → AreMeasured b self.now → id.0 < length self.now.measured.items → IsMeasure result (tree b id.0) }
    {
        match self.measured.get(id.0) {
            None => Measure::leaf(false),
            Some(measure) => *measure,
        }
    }

    fn application(&self, bank: &Bank, head: TermId, arguments: &[TermId]) -> Measure
        requires measured { AreMeasured bank.now self.now }
        requires head { head.0 < length self.now.measured.items }
        requires arguments { All (λ i. i < length self.now.measured.items) (map (λ t. t.0) arguments.now) }
        ensures { IsMeasure result (apply (tree bank.now head.0) (map (tree bank.now) (map (λ t. t.0) arguments.now))) }
    {
        let mut measure = self.known(head);
        for argument in arguments {
            measure = measure.applied(self.known(*argument));
        }
        measure
    }

    // What the term behind those that are measured is like.
    fn next(&self, bank: &Bank, id: TermId) -> Measure
        requires measured { AreMeasured bank.now self.now }
        requires next { id.0 ≡ length self.now.measured.items }
        ensures { IsMeasure result (tree bank.now id.0) }
    {
        match bank.term_node(id) {
            TermNode::Index(_) => Measure::leaf(false),
            TermNode::Const(constant, _) => Measure::leaf(is_connective(constant)),
            TermNode::Int(_) => Measure::leaf(false),
            TermNode::Text(_) => Measure::leaf(false),
            TermNode::Eigen(_) => Measure::leaf(false),
            TermNode::Logic { .. } => Measure::leaf(false),
            TermNode::Param(_, _) => Measure::leaf(false),
            TermNode::Abs(body) => self.known(body).abstracted(),
            TermNode::App(head, arguments) => self.application(bank, head, arguments),
        }
    }

    pub(crate) fn of(&mut self, bank: &Bank, id: TermId) -> Result<Measure, Memory>
        requires measured { AreMeasured bank.now self.old }
        requires within { id.0 < length bank.now.terms }
        ensures measured { OnOk result (AreMeasured bank.now self.new) }
        ensures measure { IfOk result (λ m. IsMeasure m (tree bank.now id.0)) }
    {
        let count = bank.term_count();
        for at in self.measured.len()..count {
            let measure = self.next(bank, TermId(at));
            self.measured.push(measure)?;
        }
        Ok(self.known(id))
    }
}
