// One try of a clause for a goal.
ghost use Rattle.std.specs.Prelude.{◌≡◌, ℕ, ◌+◌, ◌<◌, ◌≤◌, ◌∷◌, ◌++◌, List, All, None, Some, map, length, slice_get, IfOk, IfSome, OnOk};
ghost use Rattle.lp_calculus.specs.Types.{Ty};
ghost use Rattle.lp_calculus.specs.Term.{Term, Atom, atom};
ghost use Rattle.lp_calculus.specs.Instance.{instance_term};
ghost use Rattle.lp_term.specs.Nodes.{Extends, Nodes, tree, type_tree};
ghost use Rattle.lp_term.specs.declared.node.TermId.{TermId};
ghost use Rattle.lp_model.specs.Rule.{type_pairs as definition_pairs};
ghost use Rattle.lp_pattern.specs.Reading.{paired, type_pairs_of};
ghost use Rattle.lp_plain.specs.declared.table.Rule.{Rule};
ghost use Rattle.lp_model.specs.Branch.{Entry};
ghost use Rattle.lp_model.specs.Flat.{Goal};
ghost use Rattle.lp_plain.specs.Assuming.{HasFrameAt, KeepsAssumed};
ghost use Rattle.lp_plain.specs.Entries.{Around, IsListAt, KeepsGoals, Reads, placed};
ghost use Rattle.lp_plain.specs.Followed.{IsScopeFor, IsTryOf, TakesTypes, WritesOn};
ghost use Rattle.lp_plain.specs.Heads.{pair_in};
ghost use Rattle.lp_plain.specs.Instances.{AreValues, IsNoParameter};
ghost use Rattle.lp_plain.specs.Marks.{Marks, PutsMarks};
ghost use Rattle.lp_plain.specs.Meeting.{IsMet};
ghost use Rattle.lp_plain.specs.declared.unified.Unified.{Unified};
ghost use Rattle.lp_plain.specs.Renewal.{Fits, renewing};
ghost use Rattle.lp_plain.specs.Scopes.{IsScope};
ghost use Rattle.lp_plain.specs.Slots.{AreIn, IsSlotted, AreSlotted};
ghost use Rattle.lp_plain.specs.Attempted.{AreNewTypes, ArePaired, AreWrittenIn, IsClauseOf, IsOpened, IsPairAdded, OpensMore, becomes, types_of, with_first};
ghost use Rattle.lp_plain.specs.Trials.{GrowsByTry, IsGoalOf, IsNoTrial, IsTriedAs};
ghost use Rattle.lp_plain.specs.Unifying.{IsBoundIn, IsMore, StandPairs};
ghost use Rattle.lp_plain.specs.Within.{StandsIn};
ghost use Rattle.lp_plain.specs.Written.{IsWritten};
ghost use Rattle.lp_plain.specs.WrittenTable.{PutsList};

use crate::act::{Act, Try};
use crate::candidates::Candidate;
use crate::choice::Call;
use crate::frame::Place;
use crate::head::HeadPair;
use crate::instance::{Values, instance};
use crate::machine::Machine;
use crate::scope::Scopes;
use crate::types::{Renewal, all_renewed};
use crate::unified::{Unified, unify};
use lp_base::Memory;
use lp_model::Pair;
use lp_term::{Bank, TermId, TermNode, TypeId, put_logic, spine_of};
use std::alloc::Global;

// The number of the candidate's clause, and what stands around it. A program clause gets new type variables. None where there is no such clause.
fn clause_of(machine: &mut Machine, candidate: Candidate) -> Result<Option<(usize, Values)>, Memory>
    ensures is { IfOk result (λ found. IfSome found (IsClauseOf machine.old machine.new candidate)) }
    ensures there { IfOk result (λ found. IfSome found (λ p. p.0 < length machine.new.table.rules.items)) }
    ensures none { IfOk result (λ found. found ≡ None → (machine.new ≡ machine.old) × IsNoTrial machine.old candidate) }
{
    match candidate {
        Candidate::Assumed(number) => {
            let Some(assumption) = machine.assumptions.get(number) else {
                return Ok(None);
            };
            if !machine.table.has_rule(assumption.rule) {
                return Ok(None);
            }
            Ok(Some((assumption.rule, assumption.values)))
        }
        Candidate::Program(number) => {
            if !machine.table.has_rule(number) {
                return Ok(None);
            }
            let types = new_types(machine, number)?;
            Ok(Some((number, Values { scope: None, types })))
        }
    }
}

// New numbers for the type variables of a program clause.
fn new_types(machine: &mut Machine, rule: usize) -> Result<Renewal, Memory>
    requires { rule < length machine.old.table.rules.items }
    ensures fits { IfOk result (λ r. Fits r) }
    ensures new { IfOk result (AreNewTypes machine.old machine.new rule) }
{
    let found = machine.table.rule(rule);
    let count = found.type_vars as u64;
    let first = machine.branch.next_type;
    let Some(next) = first.checked_add(count) else {
        return Err(Memory);
    };
    machine.branch.next_type = next;
    Ok(Renewal { count, first })
}

// What a variable of the clause becomes: the goal's argument, or a new variable.
fn slot_value(
    bank: &mut Bank,
    slot: Option<usize>,
    args: &[TermId],
    id: u64,
    level: u64,
) -> Result<TermId, Memory>
    ensures kept { Extends bank.old bank.new }
    ensures value { IfOk result (λ t. (next k : ℕ) → id ≡ next + k → AreIn bank.old args.now → IsSlotted bank.old bank.new args.now next level k slot t) }
{
    let Some(place) = slot else {
        return put_logic(bank, id, level);
    };
    match args.get(place) {
        Some(arg) => Ok(*arg),
        None => put_logic(bank, id, level),
    }
}

// The values of the clause's variables, where the goal has these arguments and the next new variable has this number; and the number behind
// theirs.
fn slot_values(
    alloc: Global,
    bank: &mut Bank,
    slots: &Vec<Option<usize>>,
    args: &[TermId],
    next: u64,
    level: u64,
) -> Result<(Vec<TermId>, u64), Memory>
    ensures kept { Extends bank.old bank.new }
    ensures count { IfOk result (λ made. length made.0.items ≡ length slots.now.items) }
    ensures next { IfOk result (λ made. made.1 ≡ next + length slots.now.items) }
    ensures values { IfOk result (λ made. AreIn bank.old args.now → AreSlotted bank.old bank.new args.now next level slots.now.items made.0.items) }
{
    let mut values = Vec::new(alloc);
    let mut id = next;
    'variables: for number in 0..slots.len() {
        let value = slot_value(bank, slots[number], args, id, level)?;
        values.push(value)?;
        let Some(more) = id.checked_add(1) else {
            return Err(Memory);
        };
        id = more;
    }
    Ok((values, id))
}

// Opens the scope of a clause for a goal with these arguments.
fn open(
    machine: &mut Machine,
    rule: usize,
    args: &[TermId],
    level: u64,
    around: Values,
) -> Result<Values, Memory>
    requires { rule < length machine.old.table.rules.items }
    ensures more { OnOk result (OpensMore machine.old machine.new args.now) }
    ensures opened { IfOk result (λ inner. (r : Rule) → slice_get machine.old.table.rules.items rule ≡ Some r → IsOpened machine.old machine.new r args.now level around inner) }
{
    let found = machine.table.rule(rule);
    let (values, next) = slot_values(
        machine.alloc,
        &mut machine.bank,
        &found.slots,
        args,
        machine.branch.next,
        level,
    )?;
    machine.branch.next = next;
    let scope = machine.scopes.open(around.scope, values.as_slice())?;
    Ok(Values {
        scope,
        types: around.types,
    })
}

// The type arguments of a constant.
fn type_args(alloc: Global, bank: &Bank, term: TermId) -> Result<Vec<TypeId>, Memory>
    ensures within { IfOk result (λ types. All (λ t. t.0 < length bank.now.types) types.items) }
    ensures types { IfOk result (λ types. map (λ t. type_tree bank.now t.0) types.items ≡ types_of (tree bank.now term.0)) }
{
    let TermNode::Const(_, args) = bank.term_node(term) else {
        return Ok(Vec::new(alloc));
    };
    let types: Vec<TypeId> = Vec::from_slice(alloc, args)?;
    Ok(types)
}

// The types, place by place.
fn zipped_types(
    alloc: Global,
    lefts: &[TypeId],
    rights: &[TypeId],
) -> Result<Vec<(TypeId, TypeId)>, Memory>
    ensures { IfOk result (λ pairs. pairs.items ≡ paired lefts.now rights.now) }
{
    let mut pairs = Vec::new(alloc);
    'places: for (left, right) in lefts.iter().zip(rights.iter()) {
        pairs.push((*left, *right))?;
    }
    Ok(pairs)
}

// The type arguments of the heads, with new type variables on the clause's side.
fn type_pairs(
    alloc: Global,
    bank: &mut Bank,
    goal: TermId,
    clause: TermId,
    types: Renewal,
) -> Result<Vec<(TypeId, TypeId)>, Memory>
    ensures kept { Extends bank.old bank.new }
    ensures pairs { IfOk result (λ pairs. (d : Nodes) → Extends bank.new d → (θ : ℕ → Ty) → (a : Atom) → tree bank.old goal.0 ≡ atom a → IsNoParameter a →
        type_pairs_of d θ pairs.items ≡ definition_pairs (instance_term θ (tree bank.old goal.0)) (instance_term θ (instance_term (renewing types) (tree bank.old clause.0)))) }
{
    let lefts = type_args(alloc, bank, goal)?;
    let old = type_args(alloc, bank, clause)?;
    let rights = all_renewed(alloc, bank, old.as_slice(), types)?;
    let pairs = zipped_types(alloc, lefts.as_slice(), rights.as_slice())?;
    Ok(pairs)
}

// Adds the pair of a head's argument with the goal's in its place, if the goal has one.
fn add_pair(
    alloc: Global,
    bank: &mut Bank,
    scopes: &Scopes,
    head: HeadPair,
    args: &[TermId],
    values: Values,
    level: u64,
    pairs: &mut Vec<Pair>,
) -> Result<(), Memory>
    ensures kept { Extends bank.old bank.new }
    ensures added { OnOk result ((nb nv : ℕ) → (vs : List TermId) → IsScope scopes.now nb nv values.scope vs → AreValues bank.old vs → (ar : ℕ → ℕ) → (k : ℕ) → IsWritten ar k (length vs) (tree bank.old head.term.0) →
        IsPairAdded bank.new args.now level (becomes bank.old vs values.types) (pair_in bank.old head) pairs.old.items pairs.new.items) }
{
    let Some(arg) = args.get(head.place) else {
        return Ok(());
    };
    let right = instance(alloc, bank, scopes, values, head.term)?;
    pairs.push(Pair {
        left: *arg,
        right,
        level,
    })?;
    Ok(())
}

// The arguments of the heads that are to be made one.
fn term_pairs(
    alloc: Global,
    bank: &mut Bank,
    scopes: &Scopes,
    heads: &Vec<HeadPair>,
    args: &[TermId],
    values: Values,
    level: u64,
) -> Result<Vec<Pair>, Memory>
    ensures kept { Extends bank.old bank.new }
    ensures pairs { IfOk result (λ made. (nb nv : ℕ) → (vs : List TermId) → IsScope scopes.now nb nv values.scope vs → AreValues bank.old vs → (ar : ℕ → ℕ) → (k : ℕ) → AreWrittenIn bank.old ar k (length vs) heads.now.items →
        ArePaired bank.new args.now level (becomes bank.old vs values.types) (map (pair_in bank.old) heads.now.items) made.items) }
{
    let mut pairs = Vec::new(alloc);
    'places: for number in 0..heads.len() {
        add_pair(
            alloc,
            bank,
            scopes,
            heads[number],
            args,
            values,
            level,
            &mut pairs,
        )?;
    }
    Ok(pairs)
}

// Unifies the goal with the head of the clause.
fn meet(
    machine: &mut Machine,
    rule: usize,
    goal: TermId,
    args: &[TermId],
    values: Values,
    level: u64,
) -> Result<Unified, Memory>
    requires { rule < length machine.old.table.rules.items }
    ensures bound { OnOk result (IsBoundIn machine.old machine.new) }
    ensures residual { OnOk result (StandPairs machine.old → StandPairs machine.new) }
    ensures met { IfOk result (λ unified. (r : Rule) → slice_get machine.old.table.rules.items rule ≡ Some r → IsMet machine.old machine.new r goal args.now values level unified) }
{
    let alloc = machine.alloc;
    let found = machine.table.rule(rule);
    let types = type_pairs(alloc, &mut machine.bank, goal, found.head, values.types)?;
    let pairs = term_pairs(
        alloc,
        &mut machine.bank,
        &machine.scopes,
        &found.pairs,
        args,
        values,
        level,
    )?;
    let unified = unify(machine, types.as_slice(), pairs.as_slice())?;
    Ok(unified)
}

// Puts the body of the clause in front of the goals behind the goal.
fn put_body(
    machine: &mut Machine,
    rule: usize,
    place: Place,
    behind: Option<usize>,
) -> Result<(), Memory>
    requires { rule < length machine.old.table.rules.items }
    ensures known { OnOk result (KeepsGoals machine.old machine.new) }
    ensures assumed { OnOk result (KeepsAssumed machine.old machine.new) }
    ensures frame { OnOk result (HasFrameAt machine.old machine.new place) }
    ensures marks { OnOk result (PutsMarks machine.old machine.new place behind machine.new.branch.goals) }
    ensures puts { OnOk result ((r : Rule) → slice_get machine.old.table.rules.items rule ≡ Some r → PutsList machine.old machine.new r.body place behind) }
    ensures stands { OnOk result (StandsIn machine.old → StandsIn machine.new) }
    ensures choices { OnOk result (machine.new.choices.items ≡ machine.old.choices.items) }
    ensures denied { OnOk result (machine.new.denied ≡ machine.old.denied) }
    ensures counts { OnOk result (machine.new.counts ≡ machine.old.counts) }
    ensures next_type { OnOk result (machine.new.branch.next_type ≡ machine.old.branch.next_type) }
    ensures next { OnOk result (machine.new.branch.next ≡ machine.old.branch.next) }
    ensures pairs { OnOk result (machine.new.branch.pairs ≡ machine.old.branch.pairs) }
    ensures body { OnOk result ((r : Rule) → slice_get machine.old.table.rules.items rule ≡ Some r → (a : Around) (gs : List Goal) (es : List Entry) → IsListAt machine.old place r.body gs → Reads machine.old a behind es →
        Reads machine.new a machine.new.branch.goals (placed a place gs ++ es)) }
{
    let found = machine.table.rule(rule);
    let body = found.body;
    let goals = machine.put_list(body, place, behind)?;
    machine.branch.goals = goals;
    Ok(())
}

// Puts the form in which the first argument was looked at in its place: it is not reduced anew for each clause.
fn put_looked(first: Option<TermId>, args: &mut Vec<TermId>)
    ensures { args.new.items ≡ with_first first args.old.items }
{
    let Some(form) = first else {
        return;
    };
    if args.len() > 0 {
        args[0] = form;
    }
}

// Unifies the goal of a call with the head of a candidate's clause. The clause's number, and its scope. None where
// there is no such clause.
fn try_head(
    machine: &mut Machine,
    call: &Call,
    candidate: Candidate,
) -> Result<Option<(Unified, usize, Values)>, Memory>
    ensures more { OnOk result (IsMore machine.old machine.new) }
    ensures residual { OnOk result (StandPairs machine.old → StandPairs machine.new) }
    ensures stands { OnOk result (StandsIn machine.old → IsGoalOf machine.old call.now → StandsIn machine.new) }
    ensures scope { IfOk result (λ found. IfSome found (λ tried. IsScopeFor machine.old machine.new call.now candidate tried.1 tried.2)) }
    ensures types { OnOk result (TakesTypes machine.old machine.new candidate) }
    ensures tried { IfOk result (λ found. IfSome found (λ tried. IsTriedAs machine.old machine.new call.now candidate tried.0)) }
    ensures there { IfOk result (λ found. IfSome found (λ tried. tried.1 < length machine.new.table.rules.items)) }
    ensures none { IfOk result (λ found. found ≡ None → IsNoTrial machine.old candidate) }
{
    let mut spine = spine_of(machine.alloc, &machine.bank, call.goal)?;
    put_looked(call.first, &mut spine.args);
    let args = spine.args.as_slice();
    let level = call.place.level;
    let found = clause_of(machine, candidate)?;
    let Some(clause) = found else {
        return Ok(None);
    };
    let values = open(machine, clause.0, args, level, clause.1)?;
    let unified = meet(machine, clause.0, spine.head, args, values, level)?;
    Ok(Some((unified, clause.0, values)))
}

/// Tries a clause for the goal. Where it fits, its body is to be proved next; a cut in it keeps the oldest `mark`
/// alternatives.
pub(crate) fn attempt(
    machine: &mut Machine,
    call: &Call,
    candidate: Candidate,
    mark: usize,
) -> Result<Unified, Memory>
    ensures grows { OnOk result (GrowsByTry machine.old machine.new call.now) }
    ensures marks { IfOk result (λ u. u ≡ Unified.Fits → (least most : ℕ) → Marks least most machine.old call.now.behind → least ≤ mark → mark ≤ most → Marks least most machine.new machine.new.branch.goals) }
    ensures tried { IfOk result (IsTriedAs machine.old machine.new call.now candidate) }
    ensures written { OnOk result (WritesOn machine.old machine.new call.now candidate) }
    ensures leaves { IfOk result (IsTryOf machine.old machine.new call.now candidate mark) }
{
    let found = try_head(machine, call, candidate)?;
    let Some(tried) = found else {
        return Ok(Unified::Fails);
    };
    let unified = tried.0;
    if unified != Unified::Fits {
        return Ok(unified);
    }
    let values = tried.2;
    machine.note(Act::Met(Try {
        candidate,
        scope: values.scope,
        first_type: values.types.first,
    }))?;
    let place = Place {
        values,
        assumed: call.place.assumed,
        standing: call.place.standing,
        level: call.place.level,
        mark,
    };
    put_body(machine, tried.1, place, call.behind)?;
    Ok(unified)
}
