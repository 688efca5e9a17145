// The judging of certificates.
ghost use Rattle.std.specs.Prelude.{◌≡◌, ◌<◌, ℕ, List, [], ◌∷◌, All, IfOk, IfSome, None, OnOk, length, map, true, false};
ghost use Rattle.lp_calculus.specs.Closed.{AllAtoms};
ghost use Rattle.lp_term.specs.Nodes.{Extends, Nodes, tree};
ghost use Rattle.lp_term.specs.Spine.{LooseBelow};
ghost use Rattle.lp_cert.specs.Certified.{Certifies, certificate_of, ground_of, query_of};
ghost use Rattle.lp_cert.specs.Facts.{AreInside, IsKnown};
ghost use Rattle.lp_cert.specs.Inside.{AreTermsInside, IsQueryInside};
ghost use Rattle.lp_cert.specs.Written.{Node, node_of};
ghost use Rattle.lp_cert.specs.Run.{NeedsLargeForm, RunsIntoLarge, StopsAt};
ghost use Rattle.lp_cert.specs.Standing.{AreNumbersInside, IsCertificateInside, IsClauseInside, IsNodeInside, IsSameProgram};
ghost use Rattle.lp_cert.specs.Inside.{AreDeclaredInside};
ghost use Rattle.lp_cert.specs.inner.Turned.{IsReady, IsReadyWork, IsStepped};
ghost use Rattle.lp_cert.specs.inner.Left.{CertifiesIn, ground_over, IsFilledIn, IsIdle, Left, Proves, Stays, ground_in};
ghost use Rattle.lp_cert.specs.inner.Named.{AreUnnamed, AreWitnessesIn, HasClosedTypes, HaveNoWitnesses, IsNamedIn, IsSettled, variable_types};

use crate::form::is_inside;
use crate::instance::{put_values, term_at, type_at};
use crate::known::Known;
use crate::typing::is_type_inside;
use crate::work::{Task, Theory, Turn, Work};
use lp_base::Memory;
use lp_model::{Certificate, ProofNode, Typed};
use lp_module::Assembled;
use lp_term::{Bank, TermId, TypeId};
use std::alloc::Global;
use std::mem::replace;

/// What comes of certificates: all are accepted; or the first that is not, from 1, fails, or needs a normal form that takes more than 1,000,000
/// contractions or has more than 1,000,000 nodes.
#[derive(Clone, Copy, Debug, PartialEq, Eq)]
pub enum CheckVerdict {
    Accepted,
    Rejected(u32),
    Deep(u32),
}

impl Work<'_> {
    // Whether the values may stand for variables of these types, with the types for their type variables.
    fn are_values(
        &mut self,
        bank: &mut Bank,
        query: &Typed,
        types: &[TypeId],
        values: &[TermId],
    ) -> Result<bool, Memory>
        requires known { IsKnown bank.old self.old.known }
        ensures kept { Extends bank.old bank.new }
        ensures known { OnOk result (IsKnown bank.new self.new.known) }
        ensures stays { OnOk result (Stays self.old self.new) }
        ensures values { IfOk result (λ yes. yes ≡ true → self.old.eigens.items ≡ [] → AreInside (length bank.old.types) types.now → AreWitnessesIn bank.new self.old.theory.constants.now types.now values.now (variable_types query.now)) }
        ensures never { IfOk result (λ yes. yes ≡ false → IsSettled bank.old self.old → self.old.eigens.items ≡ [] → AreInside (length bank.old.types) types.now → AreInside (length bank.old.types) (variable_types query.now) → AreTermsInside (length bank.old.terms) values.now →
            HaveNoWitnesses bank.new self.old.theory.constants.now types.now values.now (variable_types query.now)) }
    {
        if values.len() != query.vars.len() {
            return Ok(false);
        }
        for at in 0..values.len() {
            let of = query.vars[at].1;
            if !is_type_inside(bank, of) {
                return Ok(false);
            }
            let made = type_at(self.alloc, bank, types, of)?;
            let value = values[at];
            if !self.is_witness(bank, value, made)? {
                return Ok(false);
            }
        }
        Ok(true)
    }

    // The query with the types and values, if they are those of an instance.
    fn instance(
        &mut self,
        bank: &mut Bank,
        query: &Typed,
        types: &[TypeId],
        values: &[TermId],
    ) -> Result<Option<TermId>, Memory>
        requires known { IsKnown bank.old self.old.known }
        ensures kept { Extends bank.old bank.new }
        ensures known { OnOk result (IsKnown bank.new self.new.known) }
        ensures stays { OnOk result (Stays self.old self.new) }
        ensures named { IfOk result (λ found. IfSome found (λ goal. self.old.eigens.items ≡ [] → IsNamedIn bank.new self.old.theory.constants.now query.now types.now values.now)) }
        ensures filled { IfOk result (λ found. IfSome found (λ goal. (b : Nodes) → Extends bank.new b → IsFilledIn b query.now types.now values.now goal)) }
        ensures within { IfOk result (λ found. IfSome found (λ goal. goal.0 < length bank.new.terms)) }
        ensures types { IfOk result (λ found. IfSome found (λ goal. self.old.eigens.items ≡ [] → AllAtoms HasClosedTypes (tree bank.new goal.0))) }
        ensures tight { IfOk result (λ found. IfSome found (λ goal. self.old.eigens.items ≡ [] → LooseBelow 0 0 (tree bank.new goal.0))) }
        ensures unnamed { IfOk result (λ found. found ≡ None → IsSettled bank.old self.old → self.old.eigens.items ≡ [] → IsQueryInside bank.old query.now → AreInside (length bank.old.types) types.now → AreTermsInside (length bank.old.terms) values.now →
            AreUnnamed bank.new self.old.theory.constants.now query.now types.now values.now) }
    {
        if types.len() as u64 != query.type_vars {
            return Ok(None);
        }
        if !self.known.are_closed_types(bank, types)? {
            return Ok(None);
        }
        if !self.are_values(bank, query, types, values)? {
            return Ok(None);
        }
        if !is_inside(bank, query.formula) {
            return Ok(None);
        }
        let formula = term_at(self.alloc, bank, types, query.formula)?;
        let count = values.len() as u64;
        if !self.known.is_loose_below(bank, count, formula)? {
            return Ok(None);
        }
        put_values(self.alloc, bank, &mut self.known, formula, values)
    }

    fn step(&mut self, bank: &mut Bank, node: &ProofNode) -> Result<Turn, Memory>
        requires known { IsKnown bank.old self.old.known }
        ensures kept { Extends bank.old bank.new }
        ensures known { OnOk result (IsKnown bank.new self.new.known) }
        ensures goes { IfOk result (λ turn. turn ≡ Turn.On → (b : Nodes) → Extends bank.new b → (ns : List Node) → Left b self.new ns → Left b self.old (node_of b node.now ∷ ns)) }
        ensures stepped { IfOk result (λ turn. IsReadyWork bank.old self.old → IsNodeInside bank.old node.now → IsStepped bank.new self.old self.new (λ b. node_of b node.now) turn) }
    {
        let Some(task) = self.next() else {
            return Ok(Turn::No);
        };
        match task {
            Task::Prove(goal) => self.prove(bank, goal, node),
            Task::Focus(clause, atom) => self.focus(bank, clause, atom, node),
            Task::LeaveEigen => Ok(Turn::No),
            Task::LeaveAssumed => Ok(Turn::No),
        }
    }

    // Whether the nodes are a proof of the goal.
    fn proves(&mut self, bank: &mut Bank, goal: TermId, nodes: &[ProofNode]) -> Result<Turn, Memory>
        requires known { IsKnown bank.old self.old.known }
        ensures kept { Extends bank.old bank.new }
        ensures known { OnOk result (IsKnown bank.new self.new.known) }
        ensures proves { IfOk result (λ turn. turn ≡ Turn.On → IsIdle self.old → (b : Nodes) → Extends bank.new b → Proves (ground_in b self.old.theory) (tree b goal.0) (map (node_of b) nodes.now)) }
        ensures refuted { IfOk result (λ turn. turn ≡ Turn.No → IsIdle self.old → IsReadyWork bank.old self.old → IsReady bank.old goal → All (IsNodeInside bank.old) nodes.now → (b : Nodes) → Extends bank.new b → Proves (ground_in b self.old.theory) (tree b goal.0) (map (node_of b) nodes.now) → ⊥) }
        ensures large { IfOk result (λ turn. turn ≡ Turn.Deep → IsIdle self.old → IsReadyWork bank.old self.old → IsReady bank.old goal → All (IsNodeInside bank.old) nodes.now → (b : Nodes) → Extends bank.new b → RunsIntoLarge (ground_in b self.old.theory) (tree b goal.0) (map (node_of b) nodes.now)) }
    {
        self.tasks.push(Task::Prove(goal))?;
        for node in nodes {
            let turn = self.step(bank, node)?;
            match turn {
                Turn::On => {}
                Turn::No => return Ok(Turn::No),
                Turn::Deep => return Ok(Turn::Deep),
            }
        }
        match self.next() {
            None => Ok(Turn::On),
            Some(_) => Ok(Turn::No),
        }
    }

    fn certifies(
        &mut self,
        bank: &mut Bank,
        query: &Typed,
        certificate: &Certificate,
    ) -> Result<Turn, Memory>
        requires known { IsKnown bank.old self.old.known }
        ensures kept { Extends bank.old bank.new }
        ensures known { OnOk result (IsKnown bank.new self.new.known) }
        ensures certified { IfOk result (λ turn. turn ≡ Turn.On → IsIdle self.old → CertifiesIn bank.new self.old.theory.constants.now self.old.theory.clauses.now query.now certificate.now) }
        ensures refused { IfOk result (λ turn. turn ≡ Turn.No → IsIdle self.old → IsReadyWork bank.old self.old → IsQueryInside bank.old query.now → IsCertificateInside bank.old certificate.now → (b : Nodes) → Extends bank.new b → Certifies (ground_over b self.old.theory.constants.now self.old.theory.clauses.now) (query_of b query.now) (certificate_of b certificate.now) → ⊥) }
        ensures large { IfOk result (λ turn. turn ≡ Turn.Deep → IsIdle self.old → IsReadyWork bank.old self.old → IsQueryInside bank.old query.now → IsCertificateInside bank.old certificate.now → (b : Nodes) → Extends bank.new b → NeedsLargeForm (ground_over b self.old.theory.constants.now self.old.theory.clauses.now) (query_of b query.now) (certificate_of b certificate.now)) }
    {
        let types = certificate.types.as_slice();
        let values = certificate.values.as_slice();
        let found = self.instance(bank, query, types, values)?;
        match found {
            Some(goal) => self.proves(bank, goal, certificate.proof.as_slice()),
            None => Ok(Turn::No),
        }
    }
}

// The certificates in order, over the clauses.
fn judge(
    alloc: Global,
    bank: &mut Bank,
    names: &Assembled,
    query: &Typed,
    certificates: &[Certificate],
) -> Result<CheckVerdict, Memory>
    ensures kept { Extends bank.old bank.new }
    ensures accepted { IfOk result (λ v. v ≡ CheckVerdict.Accepted → All (CertifiesIn bank.new names.now.program.constants.items names.now.program.clauses.items query.now) certificates.now) }
    ensures rejected { IfOk result (λ v. (i : ℕ) → v ≡ CheckVerdict.Rejected i → AreDeclaredInside (length bank.old.types) names.now.program.constants.items → All (IsClauseInside bank.old) names.now.program.clauses.items → IsQueryInside bank.old query.now → All (IsCertificateInside bank.old) certificates.now → StopsAt (CertifiesIn bank.new names.now.program.constants.items names.now.program.clauses.items query.now) (λ c. (b : Nodes) → Extends bank.new b → Certifies (ground_over b names.now.program.constants.items names.now.program.clauses.items) (query_of b query.now) (certificate_of b c) → ⊥) certificates.now i) }
    ensures deep { IfOk result (λ v. (i : ℕ) → v ≡ CheckVerdict.Deep i → AreDeclaredInside (length bank.old.types) names.now.program.constants.items → All (IsClauseInside bank.old) names.now.program.clauses.items → IsQueryInside bank.old query.now → All (IsCertificateInside bank.old) certificates.now → StopsAt (CertifiesIn bank.new names.now.program.constants.items names.now.program.clauses.items query.now) (λ c. (b : Nodes) → Extends bank.new b → NeedsLargeForm (ground_over b names.now.program.constants.items names.now.program.clauses.items) (query_of b query.now) (certificate_of b c)) certificates.now i) }
{
    let theory = Theory::of(names);
    let mut known = Known::new(alloc);
    let mut number = 0u32;
    for certificate in certificates {
        number = number.saturating_add(1);
        let mut work = Work::new(alloc, theory, known);
        let turn = work.certifies(bank, query, certificate)?;
        known = work.known;
        match turn {
            Turn::On => {}
            Turn::No => return Ok(CheckVerdict::Rejected(number)),
            Turn::Deep => return Ok(CheckVerdict::Deep(number)),
        }
    }
    Ok(CheckVerdict::Accepted)
}

/// Whether each certificate names an instance of the query and a proof of it from the program. The certificates are tested in order and the nodes of
/// each in the order of a file, and the first one that decides ends the run. All numbers stand in the program's bank, which grows.
pub fn check(
    alloc: Global,
    names: &mut Assembled,
    query: &Typed,
    certificates: &[Certificate],
) -> Result<CheckVerdict, Memory>
    ensures kept { Extends names.old.program.bank names.new.program.bank }
    ensures same { IsSameProgram names.old names.new }
    ensures accepted { IfOk result (λ v. v ≡ CheckVerdict.Accepted → All (λ c. Certifies (ground_of names.new.program) (query_of names.new.program.bank query.now) (certificate_of names.new.program.bank c)) certificates.now) }
    ensures rejected { IfOk result (λ v. (i : ℕ) → v ≡ CheckVerdict.Rejected i → AreNumbersInside names.old.program query.now certificates.now → StopsAt (λ c. Certifies (ground_of names.new.program) (query_of names.new.program.bank query.now) (certificate_of names.new.program.bank c)) (λ c. Certifies (ground_of names.new.program) (query_of names.new.program.bank query.now) (certificate_of names.new.program.bank c) → ⊥) certificates.now i) }
    ensures deep { IfOk result (λ v. (i : ℕ) → v ≡ CheckVerdict.Deep i → AreNumbersInside names.old.program query.now certificates.now → StopsAt (λ c. Certifies (ground_of names.new.program) (query_of names.new.program.bank query.now) (certificate_of names.new.program.bank c)) (λ c. NeedsLargeForm (ground_of names.new.program) (query_of names.new.program.bank query.now) (certificate_of names.new.program.bank c)) certificates.now i) }
    ensures exact { IfOk result (λ v. AreNumbersInside names.old.program query.now certificates.now → All (λ c. NeedsLargeForm (ground_of names.new.program) (query_of names.new.program.bank query.now) (certificate_of names.new.program.bank c) → ⊥) certificates.now → All (λ c. Certifies (ground_of names.new.program) (query_of names.new.program.bank query.now) (certificate_of names.new.program.bank c)) certificates.now → v ≡ CheckVerdict.Accepted) }
{
    let mut bank = replace(&mut names.program.bank, Bank::new(alloc));
    let verdict = judge(alloc, &mut bank, names, query, certificates);
    names.program.bank = bank;
    verdict
}
