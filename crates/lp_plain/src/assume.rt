// Clauses that are assumed.
ghost use Rattle.std.specs.Prelude.{◌≡◌, ◌⊎◌, ℕ, List, ◌++◌, IfOk, IfSome, OnOk, Option, None, Some, slice_get};
ghost use Rattle.lp_calculus.specs.Term.{Term, atom, eigen};
ghost use Rattle.lp_model.specs.Branch.{Branch};
ghost use Rattle.lp_model.specs.Flat.{Assume, Clause, Clauses, Goal, Goals, clause_list, collect_clauses, written_in_clauses};
ghost use Rattle.lp_model.specs.Search.{look_goal};
ghost use Rattle.lp_plain.specs.declared.head.Head.{Head};
ghost use Rattle.lp_plain.specs.declared.outcome.Turn.{Turn};
ghost use Rattle.lp_term.specs.Nodes.{tree};
ghost use Rattle.lp_term.specs.declared.node.TermId.{TermId};
ghost use Rattle.lp_plain.specs.declared.types.Renewal.{Renewal};
ghost use Rattle.lp_plain.specs.Assuming.{ArePlaced, AssumesFor, AssumesMore, GrowsOn, HasAssumed, IsOneMore, IsPlaceAt, IsStood, IsTreeOf, clause_in, clauses_in, head_at, lists_of, written_at};
ghost use Rattle.lp_plain.specs.Entries.{Around, HasValues, IsBehind, IsOf, entry_at, in_scope};
ghost use Rattle.lp_plain.specs.Marks.{PutsMarks};
ghost use Rattle.lp_plain.specs.Moving.{BindsNone};
ghost use Rattle.lp_plain.specs.Scopes.{Holds, blocks_of};
ghost use Rattle.lp_plain.specs.Tables.{AreClausesOf, IsNumbered, IsRule, Never, shown};
ghost use Rattle.lp_plain.specs.Within.{StandsIn};
ghost use Rattle.lp_plain.specs.Turns.{IsGoalTurn, KeepsProgram};
ghost use Rattle.lp_plain.specs.WrittenSearch.{IsHeadless, PushesRule, WritesAssumed, WritesRules};
ghost use Rattle.lp_plain.specs.WrittenTable.{IsWrittenIn, WrittenRule};

use crate::act::Act;
use crate::frame::{Assumption, Place};
use crate::head::Head;
use crate::machine::Machine;
use crate::newest::{newest_of, with_newest};
use crate::openness::Standing;
use crate::outcome::Turn;
use crate::table::Span;
use lp_base::Memory;
use lp_term::TermNode;

// The head of an assumed clause, in the place in which it is assumed. An index there is a variable that a `pi` around the clause binds.
fn assumed_head(machine: &Machine, rule: usize, place: Place) -> Option<Head>
    ensures is { IfSome result (λ h. (c : Clause) (σ : ℕ → Term) → IsRule machine.now.bank Never (shown machine.now.table) rule c → HasValues machine.now.bank (blocks_of machine.now.scopes) place.values.scope σ → (r : Renewal) → head_at (clause_in σ r c) ≡ Some h) }
    ensures none { result ≡ None → (ar : ℕ → ℕ) → IsWrittenIn machine.now.bank (blocks_of machine.now.scopes) place.values.scope (λ k bs. WrittenRule machine.now.bank (shown machine.now.table) ar k bs rule) → ⊥ }
{
    if !machine.table.has_rule(rule) {
        return None;
    }
    let found = machine.table.rule(rule);
    match machine.bank.term_node(found.head) {
        TermNode::Const(number, _) => Some(Head::Constant(number)),
        TermNode::Index(at) => {
            let Some(outer) = at.checked_sub(found.slots.len() as u64) else {
                return None;
            };
            bound_head(machine, place, outer)
        }
        _ => None,
    }
}

// The head that the value of a variable around a clause is.
fn bound_head(machine: &Machine, place: Place, variable: u64) -> Option<Head>
    ensures is { IfSome result (λ h. (σ : ℕ → Term) → HasValues machine.now.bank (blocks_of machine.now.scopes) place.values.scope σ → (k : ℕ) × (h ≡ Head.Eigen k) × (σ variable ≡ atom (eigen k))) }
    ensures none { result ≡ None → (vs : List TermId) (v : TermId) (k : ℕ) → Holds machine.now.scopes.values.items machine.now.scopes.blocks.items place.values.scope vs → slice_get vs variable ≡ Some v → tree machine.now.bank v.0 ≡ atom (eigen k) → ⊥ }
{
    let Some(value) = machine.scopes.value(place.values.scope, variable) else {
        return None;
    };
    match machine.bank.term_node(value) {
        TermNode::Eigen(level) => Some(Head::Eigen(level)),
        _ => None,
    }
}

// Assumes a clause of this head. The tree of the newest assumptions then.
fn assume_one(
    machine: &mut Machine,
    rule: usize,
    place: Place,
    tree: Option<usize>,
    head: Head,
) -> Result<usize, Memory>
    ensures counts { machine.new.counts ≡ machine.old.counts }
    ensures pushed { OnOk result (PushesRule machine.old machine.new rule place.values) }
    ensures one { IfOk result (λ root. IsOneMore machine.old machine.new rule place.values tree head root) }
{
    let older = newest_of(&machine.newest, tree, head);
    let number = machine.assumptions.len();
    machine.assumptions.push(Assumption {
        rule,
        values: place.values,
        older,
    })?;
    let root = with_newest(machine.alloc, &mut machine.newest, tree, head, number)?;
    Ok(root)
}

// Assumes clauses, the first of them to be tried first. The tree of the newest assumptions then; none where a clause has no head by which it is found.
fn assume(machine: &mut Machine, rules: Span, place: Place) -> Result<Option<Option<usize>>, Memory>
    ensures counts { machine.new.counts ≡ machine.old.counts }
    ensures written { OnOk result (WritesRules machine.old machine.new place rules.from rules.to) }
    ensures more { OnOk result (AssumesMore machine.old machine.new) }
    ensures tree { IfOk result (λ made. (tree : Option ℕ) → made ≡ Some tree → IsTreeOf machine.old machine.new rules.from rules.to place.assumed tree) }
    ensures assumed { IfOk result (λ made. (tree : Option ℕ) → made ≡ Some tree → (cs : Clauses) (before : List Clause) (σ : ℕ → Term) → StandsIn machine.old → HasAssumed (lists_of machine.old) place.assumed before → AreClausesOf machine.old.bank machine.old.table rules cs →
        HasValues machine.old.bank (blocks_of machine.old.scopes) place.values.scope σ → HasAssumed (lists_of machine.new) tree (clause_list (clauses_in σ place.values.types cs) ++ before)) }
    ensures headless { IfOk result (λ made. made ≡ None → IsHeadless machine.old place rules) }
{
    let mut tree = place.assumed;
    let mut left = rules.to;
    'numbers: while left > rules.from {
        left -= 1;
        let Some(head) = assumed_head(machine, left, place) else {
            return Ok(None);
        };
        let newest = assume_one(machine, left, place, tree, head)?;
        tree = Some(newest);
    }
    Ok(Some(tree))
}

// So, and this is noted.
fn assume_noted(
    machine: &mut Machine,
    rules: Span,
    place: Place,
) -> Result<Option<Option<usize>>, Memory>
    ensures counts { machine.new.counts ≡ machine.old.counts }
    ensures written { OnOk result (WritesRules machine.old machine.new place rules.from rules.to) }
    ensures more { OnOk result (AssumesMore machine.old machine.new) }
    ensures tree { IfOk result (λ made. (tree : Option ℕ) → made ≡ Some tree → IsTreeOf machine.old machine.new rules.from rules.to place.assumed tree) }
    ensures assumed { IfOk result (λ made. (tree : Option ℕ) → made ≡ Some tree → (cs : Clauses) (before : List Clause) (σ : ℕ → Term) → StandsIn machine.old → HasAssumed (lists_of machine.old) place.assumed before → AreClausesOf machine.old.bank machine.old.table rules cs →
        HasValues machine.old.bank (blocks_of machine.old.scopes) place.values.scope σ → HasAssumed (lists_of machine.new) tree (clause_list (clauses_in σ place.values.types cs) ++ before)) }
    ensures headless { IfOk result (λ made. made ≡ None → IsHeadless machine.old place rules) }
{
    let first = machine.assumptions.len();
    let assumed = assume(machine, rules, place)?;
    let count = machine.assumptions.len().saturating_sub(first);
    machine.note(Act::Assumed(count, first))?;
    Ok(assumed)
}

// Keeps what is written in assumed clauses. Its number.
fn stand(machine: &mut Machine, free: usize, place: Place) -> Result<usize, Memory>
    ensures counts { machine.new.counts ≡ machine.old.counts }
    ensures none { OnOk result (BindsNone machine.old machine.new) }
    ensures stood { IfOk result (λ number. IsStood machine.old machine.new free place number) }
{
    let number = machine.standings.len();
    machine.standings.push(Standing {
        free,
        values: place.values,
        older: place.standing,
    })?;
    Ok(number)
}

/// Assumes clauses, in which this is written, for goals. A clause without a head by which it is found, of which a program has none, meets no goal:
/// there the search goes back.
pub(crate) fn put_assume(
    machine: &mut Machine,
    rules: Span,
    goals: usize,
    free: usize,
    place: Place,
    behind: Option<usize>,
) -> Result<Turn, Memory>
    ensures counts { machine.new.counts ≡ machine.old.counts }
    ensures turns { IfOk result (λ turn. (turn ≡ Turn.On) ⊎ IsHeadless machine.old place rules) }
    ensures ends { IfOk result IsGoalTurn }
    ensures program { OnOk result (KeepsProgram machine.old machine.new) }
    ensures written { IfOk result (λ turn. turn ≡ Turn.On → WritesAssumed machine.old machine.new place rules goals) }
    ensures none { IfOk result (λ turn. turn ≡ Turn.On → BindsNone machine.old machine.new) }
    ensures stands { IfOk result (λ turn. turn ≡ Turn.On → StandsIn machine.old → StandsIn machine.new) }
    ensures grown { IfOk result (λ turn. turn ≡ Turn.On → GrowsOn machine.old machine.new) }
    ensures choices { OnOk result (machine.new.choices.items ≡ machine.old.choices.items) }
    ensures marks { IfOk result (λ turn. turn ≡ Turn.On → PutsMarks machine.old machine.new place behind machine.new.branch.goals) }
    ensures parts { IfOk result (λ turn. turn ≡ Turn.On → (a : Around) (cs : Clauses) (hs : Goals) (σ : ℕ → Term) (b : Branch) → StandsIn machine.old → ArePlaced machine.old a → IsPlaceAt (lists_of machine.old) a place → AreClausesOf machine.old.bank machine.old.table rules cs →
        IsNumbered (shown machine.old.table).frees free (λ f. collect_clauses f 0 cs) → IsOf machine.old place goals hs σ → IsBehind machine.old a behind b → (u n height : ℕ) (P : List Clause) →
        let g : Goal = Assume (written_at σ place.values.types (written_in_clauses cs)) (clauses_in σ place.values.types cs) (in_scope σ place.values.types hs) in AssumesFor machine.old machine.new a (look_goal u n P height (entry_at a place g) b g)) }
{
    let found = assume_noted(machine, rules, place)?;
    let Some(assumed) = found else {
        return Ok(Turn::Back);
    };
    let number = stand(machine, free, place)?;
    let inner = Place {
        assumed,
        standing: Some(number),
        ..place
    };
    let front = machine.put_list(goals, inner, behind)?;
    machine.branch.goals = front;
    Ok(Turn::On)
}
