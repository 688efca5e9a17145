// Nodes that focus on a clause for an atom.
ghost use Rattle.std.specs.Prelude.{◌≡◌, ◌<◌, ◌≤◌, ◌⊎◌, List, None, IfOk, IfSome, OnOk, length};
ghost use Rattle.lp_calculus.specs.Convert.{Converts};
ghost use Rattle.lp_term.specs.Nodes.{Extends, Nodes, tree};
ghost use Rattle.lp_cert.specs.Facts.{IsKnown};
ghost use Rattle.lp_cert.specs.Written.{Node, focus_converted, focus_witness, hit, node_of, premise, side};
ghost use Rattle.lp_cert.specs.Run.{focusing};
ghost use Rattle.lp_cert.specs.Standing.{IsNodeInside};
ghost use Rattle.lp_cert.specs.inner.Turned.{IsReady, IsReadyWork, IsTurned, Pushes};
ghost use Rattle.lp_cert.specs.inner.Left.{Goes, Left, LeftWith, Stays};

use crate::form::Compared;
use crate::goal::{conjunction, implication, universal};
use crate::instance::put_proposition;
use crate::work::{Task, Turn, Work};
use lp_base::Memory;
use lp_model::ProofNode;
use lp_term::{Bank, TermId, put_applied};

// The left one by 0, the right one by 1.
fn side_of(which: u8, left: TermId, right: TermId) -> Option<TermId>
    ensures some { IfSome result (λ part. ((which ≡ 0) × (part ≡ left)) ⊎ ((which ≡ 1) × (part ≡ right))) }
    ensures none { result ≡ None → (which ≡ 0) ⊎ (which ≡ 1) → ⊥ }
{
    if which == 0 {
        return Some(left);
    }
    if which == 1 {
        return Some(right);
    }
    None
}

impl Work<'_> {
    fn focus_on(&mut self, clause: TermId, atom: TermId) -> Result<Turn, Memory>
        ensures same { self.new.known ≡ self.old.known }
        ensures left { OnOk result ((b : Nodes) → (ns : List Node) → Left b self.new ns → LeftWith b self.old (focusing (tree b clause.0) (tree b atom.0)) ns) }
        ensures pushes { IfOk result (λ turn. (turn ≡ Turn.On) × Pushes self.old self.new (Task.Focus clause atom)) }
    {
        self.tasks.push(Task::Focus(clause, atom))?;
        Ok(Turn::On)
    }

    fn focus_conv(
        &mut self,
        bank: &mut Bank,
        clause: TermId,
        atom: TermId,
        other: TermId,
    ) -> Result<Turn, Memory>
        requires known { IsKnown bank.old self.old.known }
        ensures kept { Extends bank.old bank.new }
        ensures known { OnOk result (IsKnown bank.new self.new.known) }
        ensures goes { IfOk result (λ turn. turn ≡ Turn.On → (b : Nodes) → Extends bank.new b → Goes b self.old self.new (focusing (tree b clause.0) (tree b atom.0)) (focus_converted (tree b other.0))) }
        ensures turned { IfOk result (λ turn. IsReadyWork bank.old self.old → IsReady bank.old clause → IsReady bank.old atom → other.0 < length bank.old.terms → IsTurned bank.new self.old self.new (λ b. focusing (tree b clause.0) (tree b atom.0)) (λ b. focus_converted (tree b other.0)) turn) }
    {
        let of = put_proposition(bank)?;
        if !self.is_closed_of(bank, other, of)? {
            return Ok(Turn::No);
        }
        let compared = self.converts(bank, other, clause)?;
        match compared {
            Compared::Same => self.focus_on(other, atom),
            Compared::Differ => Ok(Turn::No),
            Compared::Deep => Ok(Turn::Deep),
        }
    }

    fn focus_all(
        &mut self,
        bank: &mut Bank,
        clause: TermId,
        atom: TermId,
        value: TermId,
    ) -> Result<Turn, Memory>
        requires known { IsKnown bank.old self.old.known }
        ensures kept { Extends bank.old bank.new }
        ensures known { OnOk result (IsKnown bank.new self.new.known) }
        ensures goes { IfOk result (λ turn. turn ≡ Turn.On → (b : Nodes) → Extends bank.new b → Goes b self.old self.new (focusing (tree b clause.0) (tree b atom.0)) (focus_witness (tree b value.0))) }
        ensures turned { IfOk result (λ turn. IsReadyWork bank.old self.old → IsReady bank.old clause → IsReady bank.old atom → value.0 < length bank.old.terms → IsTurned bank.new self.old self.new (λ b. focusing (tree b clause.0) (tree b atom.0)) (λ b. focus_witness (tree b value.0)) turn) }
    {
        let Some((of, body)) = universal(bank, clause) else {
            return Ok(Turn::No);
        };
        if !self.is_witness(bank, value, of)? {
            return Ok(Turn::No);
        }
        let next = put_applied(bank, body, value)?;
        self.focus_on(next, atom)
    }

    fn take(&mut self, bank: &Bank, clause: TermId, atom: TermId, which: u8) -> Result<Turn, Memory>
        ensures same { self.new.known ≡ self.old.known }
        ensures side { IfOk result (λ turn. turn ≡ Turn.On → which ≤ 1) }
        ensures goes { IfOk result (λ turn. turn ≡ Turn.On → (b : Nodes) → Extends bank.now b → Goes b self.old self.new (focusing (tree b clause.0) (tree b atom.0)) (side which)) }
        ensures turned { IfOk result (λ turn. IsReadyWork bank.now self.old → IsReady bank.now clause → IsReady bank.now atom → IsTurned bank.now self.old self.new (λ b. focusing (tree b clause.0) (tree b atom.0)) (λ b. side which) turn) }
    {
        let Some((left, right)) = conjunction(bank, clause) else {
            return Ok(Turn::No);
        };
        let Some(part) = side_of(which, left, right) else {
            return Ok(Turn::No);
        };
        self.focus_on(part, atom)
    }

    fn need(&mut self, bank: &Bank, clause: TermId, atom: TermId) -> Result<Turn, Memory>
        ensures same { self.new.known ≡ self.old.known }
        ensures goes { IfOk result (λ turn. turn ≡ Turn.On → (b : Nodes) → Extends bank.now b → Goes b self.old self.new (focusing (tree b clause.0) (tree b atom.0)) premise) }
        ensures turned { IfOk result (λ turn. IsReadyWork bank.now self.old → IsReady bank.now clause → IsReady bank.now atom → IsTurned bank.now self.old self.new (λ b. focusing (tree b clause.0) (tree b atom.0)) (λ b. premise) turn) }
    {
        let Some((goal, rest)) = implication(bank, clause) else {
            return Ok(Turn::No);
        };
        self.tasks.push(Task::Focus(rest, atom))?;
        self.tasks.push(Task::Prove(goal))?;
        Ok(Turn::On)
    }

    fn hit(&mut self, bank: &mut Bank, clause: TermId, atom: TermId) -> Result<Turn, Memory>
        requires known { IsKnown bank.old self.old.known }
        ensures kept { Extends bank.old bank.new }
        ensures known { OnOk result (IsKnown bank.new self.new.known) }
        ensures stays { OnOk result (Stays self.old self.new) }
        ensures later { IfOk result (λ turn. turn ≡ Turn.On → (b : Nodes) → Extends bank.new b → Converts (tree b clause.0) (tree b atom.0)) }
        ensures turned { IfOk result (λ turn. IsReadyWork bank.old self.old → IsReady bank.old clause → IsReady bank.old atom → IsTurned bank.new self.old self.new (λ b. focusing (tree b clause.0) (tree b atom.0)) (λ b. hit) turn) }
    {
        let compared = self.converts(bank, clause, atom)?;
        let turn = Work::turn_of(compared);
        Ok(turn)
    }

    // A node that is to focus on a clause for an atom.
    pub(crate) fn focus(
        &mut self,
        bank: &mut Bank,
        clause: TermId,
        atom: TermId,
        node: &ProofNode,
    ) -> Result<Turn, Memory>
        requires known { IsKnown bank.old self.old.known }
        ensures kept { Extends bank.old bank.new }
        ensures known { OnOk result (IsKnown bank.new self.new.known) }
        ensures goes { IfOk result (λ turn. turn ≡ Turn.On → (b : Nodes) → Extends bank.new b → Goes b self.old self.new (focusing (tree b clause.0) (tree b atom.0)) (node_of b node.now)) }
        ensures turned { IfOk result (λ turn. IsReadyWork bank.old self.old → IsReady bank.old clause → IsReady bank.old atom → IsNodeInside bank.old node.now → IsTurned bank.new self.old self.new (λ b. focusing (tree b clause.0) (tree b atom.0)) (λ b. node_of b node.now) turn) }
    {
        match node {
            ProofNode::FocusConv(other) => self.focus_conv(bank, clause, atom, *other),
            ProofNode::FocusAll(value) => self.focus_all(bank, clause, atom, *value),
            ProofNode::Take(side) => self.take(bank, clause, atom, *side),
            ProofNode::Need => self.need(bank, clause, atom),
            ProofNode::Hit => self.hit(bank, clause, atom),
            ProofNode::Conv(_) => Ok(Turn::No),
            ProofNode::True => Ok(Turn::No),
            ProofNode::And => Ok(Turn::No),
            ProofNode::Left => Ok(Turn::No),
            ProofNode::Right => Ok(Turn::No),
            ProofNode::Some(_) => Ok(Turn::No),
            ProofNode::All => Ok(Turn::No),
            ProofNode::Assume => Ok(Turn::No),
            ProofNode::Equal => Ok(Turn::No),
            ProofNode::Arith => Ok(Turn::No),
            ProofNode::Back(_, _) => Ok(Turn::No),
        }
    }
}
