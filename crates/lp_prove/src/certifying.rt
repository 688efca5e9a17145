// The certificate of an answer.
ghost use Rattle.std.specs.Prelude.{◌≡◌, ◌<◌, length, All, IfOk};
ghost use Rattle.lp_term.specs.Nodes.{Extends};
ghost use Rattle.lp_plain.specs.Held.{variables_of, query_of};
ghost use Rattle.lp_prove.specs.Within.{IsTermIn, IsTypeIn, IsNodeIn, IsIn};

use crate::closing::{Closing, closing_of};
use crate::focusing::focus;
use crate::free::free_in;
use crate::proving::prove;
use crate::query::{Asked, ask};
use crate::walk::{Task, Walk};
use lp_base::Memory;
use lp_model::{Certificate, ProofNode};
use lp_plain::Search;
use lp_term::{Bank, Changed, TermId, TermRefusal, TypeId};
use std::alloc::Global;

// The certificate's bank, and what the terms of the walk have become in it.
#[derive(Drop)]
struct Copies<'a> {
    alloc: Global,
    closing: &'a Closing,
    from: &'a Bank,
    done: Changed,
}

impl Copies<'_> {
    fn term(&mut self, term: TermId, to: &mut Bank) -> Result<TermId, Memory>
        ensures kept { Extends to.old to.new }
        ensures within { IfOk result (IsTermIn to.new) }
    {
        self.done
            .copy(self.alloc, self.closing, self.from, term, to)
    }

    fn type_of(&mut self, of: TypeId, to: &mut Bank) -> Result<TypeId, Memory>
        ensures kept { Extends to.old to.new }
        ensures within { IfOk result (IsTypeIn to.new) }
    {
        self.done
            .copy_type(self.alloc, self.closing, self.from, of, to)
    }

    fn terms(&mut self, terms: &Vec<TermId>, to: &mut Bank) -> Result<Vec<TermId>, Memory>
        ensures kept { Extends to.old to.new }
        ensures within { IfOk result (λ made. All (IsTermIn to.new) made.items) }
        ensures count { IfOk result (λ made. length made.items ≡ length terms.now.items) }
    {
        let mut made = Vec::new(self.alloc);
        'terms: for at in 0..terms.len() {
            let term = self.term(terms[at], to)?;
            made.push(term)?;
        }
        Ok(made)
    }

    fn types(&mut self, types: &Vec<TypeId>, to: &mut Bank) -> Result<Vec<TypeId>, Memory>
        ensures kept { Extends to.old to.new }
        ensures within { IfOk result (λ made. All (IsTypeIn to.new) made.items) }
        ensures count { IfOk result (λ made. length made.items ≡ length types.now.items) }
    {
        let mut made = Vec::new(self.alloc);
        'types: for at in 0..types.len() {
            let of = self.type_of(types[at], to)?;
            made.push(of)?;
        }
        Ok(made)
    }

    fn node(&mut self, node: &ProofNode, to: &mut Bank) -> Result<ProofNode, Memory>
        ensures kept { Extends to.old to.new }
        ensures within { IfOk result (IsNodeIn to.new) }
    {
        match node {
            ProofNode::Conv(term) => {
                let made = self.term(*term, to)?;
                Ok(ProofNode::Conv(made))
            }
            ProofNode::True => Ok(ProofNode::True),
            ProofNode::And => Ok(ProofNode::And),
            ProofNode::Left => Ok(ProofNode::Left),
            ProofNode::Right => Ok(ProofNode::Right),
            ProofNode::Some(term) => {
                let made = self.term(*term, to)?;
                Ok(ProofNode::Some(made))
            }
            ProofNode::All => Ok(ProofNode::All),
            ProofNode::Assume => Ok(ProofNode::Assume),
            ProofNode::Equal => Ok(ProofNode::Equal),
            ProofNode::Arith => Ok(ProofNode::Arith),
            ProofNode::Back(number, types) => {
                let made = self.types(types, to)?;
                Ok(ProofNode::Back(*number, made))
            }
            ProofNode::FocusConv(term) => {
                let made = self.term(*term, to)?;
                Ok(ProofNode::FocusConv(made))
            }
            ProofNode::FocusAll(term) => {
                let made = self.term(*term, to)?;
                Ok(ProofNode::FocusAll(made))
            }
            ProofNode::Take(side) => Ok(ProofNode::Take(*side)),
            ProofNode::Need => Ok(ProofNode::Need),
            ProofNode::Hit => Ok(ProofNode::Hit),
        }
    }

    fn nodes(&mut self, nodes: &Vec<ProofNode>, to: &mut Bank) -> Result<Vec<ProofNode>, Memory>
        ensures kept { Extends to.old to.new }
        ensures within { IfOk result (λ made. All (IsNodeIn to.new) made.items) }
    {
        let mut made = Vec::new(self.alloc);
        'nodes: for at in 0..nodes.len() {
            let node = self.node(&nodes[at], to)?;
            made.push(node)?;
        }
        Ok(made)
    }
}

fn step(walk: &mut Walk, search: &Search, task: Task) -> Result<(), TermRefusal> {
    match task {
        Task::Goal(goal) => prove(walk, search, goal),
        Task::Focus(clause, aim) => focus(walk, search, clause, aim),
        Task::Leave => {
            let _of = walk.eigens.pop();
            Ok(())
        }
        Task::Forget => {
            let _formula = walk.assumed.pop();
            Ok(())
        }
    }
}

// Proves all that is to be proved.
fn run(walk: &mut Walk, search: &Search) -> Result<(), TermRefusal> {
    'tasks: for _ in 0..u64::MAX {
        let Some(task) = walk.tasks.pop() else {
            return Ok(());
        };
        step(walk, search, task)?;
    }
    Err(TermRefusal::Memory)
}

// The instance and its proof with parameters for the variables that are free in them.
fn closed(walk: &Walk, asked: &Asked, bank: &mut Bank) -> Result<Certificate, Memory>
    ensures kept { Extends bank.old bank.new }
    ensures within { IfOk result (IsIn bank.new) }
    ensures types { IfOk result (λ c. length c.types.items ≡ length asked.now.types.items) }
    ensures values { IfOk result (λ c. length c.values.items ≡ length asked.now.values.items) }
{
    let alloc = walk.alloc;
    let free = free_in(
        alloc,
        &walk.bank,
        &walk.sorts,
        &asked.types,
        &asked.values,
        &walk.nodes,
    )?;
    let closing = closing_of(alloc, &walk.bank, &free, bank)?;
    let mut copies = Copies {
        alloc,
        closing: &closing,
        from: &walk.bank,
        done: Changed::new(alloc),
    };
    let types = copies.types(&asked.types, bank)?;
    let values = copies.terms(&asked.values, bank)?;
    let proof = copies.nodes(&walk.nodes, bank)?;
    Ok(Certificate {
        types,
        values,
        proof,
    })
}

/// The certificate of the last answer of a search, its terms put into the bank. The answer has no residual pairs, and the program and the query have no `not`.
/// A normal form of more than 1,000,000 nodes is `Deep`, and one behind more than 1,000,000 contractions.
pub fn certificate(
    alloc: Global,
    search: &Search,
    bank: &mut Bank,
) -> Result<Certificate, TermRefusal>
    ensures kept { Extends bank.old bank.new }
    ensures within { IfOk result (IsIn bank.new) }
    ensures types { IfOk result (λ c. length c.types.items ≡ (query_of search.now).type_vars) }
    ensures values { IfOk result (λ c. length c.values.items ≡ variables_of search.now) }
{
    let mut walk = Walk::new(alloc);
    let asked = ask(&mut walk, search)?;
    run(&mut walk, search)?;
    let made = closed(&walk, &asked, bank)?;
    Ok(made)
}
