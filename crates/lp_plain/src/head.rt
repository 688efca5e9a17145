// What is told of a clause's head before it is tried.
ghost use Rattle.std.specs.Prelude.{◌≡◌, ◌<◌, ◌^◌, ℕ, ◌+◌, ◌++◌, ◌||◌, ◌∷◌, [], nat_eq, true, None, Some, Option, List, All, get_or, set, length, map, IfOk, OnOk};
ghost use Rattle.lp_calculus.specs.Term.{Term, Atom, index, atom, constant, integer, text, eigen};
ghost use Rattle.lp_term.specs.Nodes.{Nodes, tree};
ghost use Rattle.lp_term.specs.Within.{AreTermsOf};
ghost use Rattle.lp_model.specs.Same.{same_name};
ghost use Rattle.lp_model.specs.Search.{key_of, may_meet, first_key, slotted, slots_of, pairs_of};
ghost use Rattle.lp_plain.specs.Candidates.{same_texts, same_keys, meets};
ghost use Rattle.lp_plain.specs.declared.head.Key.TheVariants as kept;
ghost use Rattle.lp_plain.specs.Heads.{IsKey, IsTextKey, trees_of, slot_place, pair_places, pair_in, new_among, with_slot, with_pair, places_of, stands, MarksMore, HaveBecome, slot_term, pairs_at};
ghost use Rattle.lp_plain.specs.Within.{IsKeyIn};
ghost use Rattle.lp_plain.specs.inner.Placing.{IsShallow, places_weight};

use lp_base::Memory;
use lp_term::{Bank, TermId, TermNode, head_of};
use std::alloc::Global;

/// The head of an atom: a constant, or the eigenconstant of a level.
#[derive(Clone, Copy, PartialEq, Eq)]
pub(crate) enum Head {
    Constant(u32),
    Eigen(u64),
}

/// The head of an argument. A text is known by a term.
#[derive(Clone, Copy)]
pub(crate) enum Key {
    Constant(u32),
    Number(i64),
    Text(TermId),
    Eigen(u64),
}

/// A head argument that is unified with the goal's argument in the same place.
#[derive(Clone, Copy)]
pub(crate) struct HeadPair {
    pub(crate) place: usize,
    pub(crate) term: TermId,
}

/// The arguments of a clause's head.
#[derive(Drop)]
pub(crate) struct HeadArgs {
    /// For each variable of the clause the argument that it is, if it stands in no earlier one.
    pub(crate) slots: Vec<Option<usize>>,
    pub(crate) pairs: Vec<HeadPair>,
}

#[derive(Clone, Copy)]
struct Place {
    term: TermId,
    depth: u64,
}

fn mark(variable: usize, seen: &mut Vec<bool>)
    ensures { seen.new.items ≡ set seen.old.items variable true }
{
    if variable < seen.len() {
        seen[variable] = true;
    }
}

fn mark_index(index: u64, depth: u64, seen: &mut Vec<bool>)
    ensures count { length seen.new.items ≡ length seen.old.items }
    ensures marks { (k : ℕ) → get_or seen.new.items k true ≡ (get_or seen.old.items k true || nat_eq index (k + depth)) }
{
    if index < depth {
        return;
    }
    mark((index - depth) as usize, seen);
}

fn push_parts(
    head: TermId,
    args: &[TermId],
    depth: u64,
    places: &mut Vec<Place>,
) -> Result<(), Memory>
    ensures { OnOk result (places.new.items ≡ places.old.items ++ places_of depth (head ∷ args.now)) }
{
    places.push(Place { term: head, depth })?;
    for term in args.iter().copied() {
        places.push(Place { term, depth })?;
    }
    Ok(())
}

fn push_body(body: TermId, depth: u64, places: &mut Vec<Place>) -> Result<(), Memory>
    requires { depth < 2 ^ 62 }
    ensures { OnOk result (places.new.items ≡ places.old.items ++ record { term = body; depth = depth + 1 } ∷ []) }
{
    places.push(Place {
        term: body,
        depth: depth + 1,
    })?;
    Ok(())
}

fn mark_node(
    bank: &Bank,
    place: Place,
    seen: &mut Vec<bool>,
    places: &mut Vec<Place>,
) -> Result<(), Memory>
    requires { IsShallow bank.now place }
    ensures count { length seen.new.items ≡ length seen.old.items }
    ensures marks { OnOk result ((k : ℕ) → (get_or seen.new.items k true || stands bank.now k places.new.items) ≡ (get_or seen.old.items k true || stands bank.now k (places.old.items ++ place ∷ []))) }
    ensures lighter { OnOk result (places_weight bank.now places.new.items < places_weight bank.now (places.old.items ++ place ∷ [])) }
    ensures shallow { OnOk result (All (IsShallow bank.now) places.old.items → All (IsShallow bank.now) places.new.items) }
{
    let depth = place.depth;
    if bank.is_known_below(place.term, depth) {
        return Ok(());
    }
    match bank.term_node(place.term) {
        TermNode::Index(at) => {
            mark_index(at, depth, seen);
            Ok(())
        }
        TermNode::Abs(body) => push_body(body, depth, places),
        TermNode::App(head, args) => push_parts(head, args, depth, places),
        TermNode::Const(_, _) => Ok(()),
        TermNode::Int(_) => Ok(()),
        TermNode::Text(_) => Ok(()),
        TermNode::Eigen(_) => Ok(()),
        TermNode::Logic { id: _, level: _ } => Ok(()),
        TermNode::Param(_, _) => Ok(()),
    }
}

// Marks the variables of the clause that stand in the term.
fn mark_variables(
    alloc: Global,
    bank: &Bank,
    term: TermId,
    seen: &mut Vec<bool>,
) -> Result<(), Memory>
    ensures { OnOk result (MarksMore seen.old.items seen.new.items (tree bank.now term.0)) }
{
    let mut places = Vec::new(alloc);
    // The numbers of a bank are few: so is how deep a term stands.
    let _count = bank.term_count();
    places.push(Place { term, depth: 0 })?;
    'places: while let Some(place) = places.pop() {
        mark_node(bank, place, seen, &mut places)?;
    }
    Ok(())
}

// The variable, if it has no mark.
fn unmarked(at: u64, seen: &Vec<bool>) -> Option<usize>
    ensures { result ≡ new_among seen.now.items (index at) }
{
    let variable = at as usize;
    if variable >= seen.len() {
        return None;
    }
    if seen[variable] {
        return None;
    }
    Some(variable)
}

// The variable of the clause that the argument is, if it was not seen before.
fn new_variable(bank: &Bank, arg: TermId, seen: &Vec<bool>) -> Option<usize>
    ensures { result ≡ new_among seen.now.items (tree bank.now arg.0) }
{
    match bank.term_node(arg) {
        TermNode::Index(at) => unmarked(at, seen),
        TermNode::Abs(_) => None,
        TermNode::App(_, _) => None,
        TermNode::Const(_, _) => None,
        TermNode::Int(_) => None,
        TermNode::Text(_) => None,
        TermNode::Eigen(_) => None,
        TermNode::Logic { id: _, level: _ } => None,
        TermNode::Param(_, _) => None,
    }
}

fn put_slot(variable: usize, place: usize, slots: &mut Vec<Option<usize>>)
    ensures { slots.new.items ≡ set slots.old.items variable (Some place) }
{
    if variable < slots.len() {
        slots[variable] = Some(place);
    }
}

fn add_arg(
    alloc: Global,
    bank: &Bank,
    place: usize,
    term: TermId,
    seen: &mut Vec<bool>,
    made: &mut HeadArgs,
) -> Result<(), Memory>
    ensures marks { OnOk result (MarksMore seen.old.items seen.new.items (tree bank.now term.0)) }
    ensures slots { OnOk result (made.new.slots.items ≡ with_slot (new_among seen.old.items (tree bank.now term.0)) place made.old.slots.items) }
    ensures pairs { OnOk result (made.new.pairs.items ≡ made.old.pairs.items ++ with_pair (new_among seen.old.items (tree bank.now term.0)) place term) }
{
    let Some(variable) = new_variable(bank, term, seen) else {
        made.pairs.push(HeadPair { place, term })?;
        return mark_variables(alloc, bank, term, seen);
    };
    mark(variable, seen);
    put_slot(variable, place, &mut made.slots);
    Ok(())
}

/// The arguments of a clause's head, where the clause has so many variables.
pub(crate) fn head_args(
    alloc: Global,
    bank: &Bank,
    vars: usize,
    args: &[TermId],
) -> Result<HeadArgs, Memory>
    ensures within { IfOk result (λ made. AreTermsOf bank.now args.now → All (λ p. p.term.0 < length bank.now.terms) made.pairs.items) }
    ensures count { IfOk result (λ made. length made.slots.items ≡ vars) }
    ensures slots { IfOk result (λ made. (k : ℕ) → k < vars → get_or made.slots.items k None ≡ slot_place k 0 [] (trees_of bank.now args.now)) }
    ensures pairs { IfOk result (λ made. map (pair_in bank.now) made.pairs.items ≡ pair_places vars 0 [] (trees_of bank.now args.now)) }
    ensures slotted { IfOk result (λ made. (hs ts : List Term) → (next level k : ℕ) → k < vars → HaveBecome vars (trees_of bank.now args.now) hs → slotted (slots_of [] hs ts) next level k ≡ slot_term ts next level k (get_or made.slots.items k None)) }
    ensures paired { IfOk result (λ made. (hs ts : List Term) → (σ : ℕ → Term) → (level : ℕ) → HaveBecome vars (trees_of bank.now args.now) hs → pairs_of σ level [] hs ts ≡ pairs_at σ level hs ts (map (pair_in bank.now) made.pairs.items)) }
{
    let mut seen = Vec::new(alloc);
    let mut made = HeadArgs {
        slots: Vec::new(alloc),
        pairs: Vec::new(alloc),
    };
    'variables: for number in 0..vars {
        seen.push(false)?;
        made.slots.push(None)?;
    }
    'arguments: for place in 0..args.len() {
        add_arg(alloc, bank, place, args[place], &mut seen, &mut made)?;
    }
    Ok(made)
}

/// The constant, integer, text or eigenconstant at the head of what is no abstraction.
pub(crate) fn key_of(bank: &Bank, term: TermId) -> Option<Key>
    ensures key { IsKey bank.now result (key_of (tree bank.now term.0)) }
    ensures within { term.0 < length bank.now.terms → IsKeyIn (length bank.now.terms) result }
{
    let head = head_of(bank, term);
    match bank.term_node(head) {
        TermNode::Const(number, _) => Some(Key::Constant(number)),
        TermNode::Int(value) => Some(Key::Number(value)),
        TermNode::Text(_) => Some(Key::Text(head)),
        TermNode::Eigen(level) => Some(Key::Eigen(level)),
        TermNode::Index(_) => None,
        TermNode::Logic { id: _, level: _ } => None,
        TermNode::Param(_, _) => None,
        TermNode::Abs(_) => None,
        TermNode::App(_, _) => None,
    }
}

// Whether the term is the text of these bytes.
fn has_bytes(bank: &Bank, id: TermId, bytes: &[u8]) -> bool
    ensures { result ≡ same_name (atom (text bytes.now)) (tree bank.now id.0) }
{
    match bank.term_node(id) {
        TermNode::Text(others) => bytes == others,
        _ => false,
    }
}

// Whether the texts are the same, where both terms are texts.
fn same_text(bank: &Bank, one: TermId, other: TermId) -> bool
    ensures same { result ≡ same_texts bank.now one.0 other.0 }
    ensures meet { (a o : Option Atom) → IsTextKey bank.now one a → IsTextKey bank.now other o → result ≡ may_meet a o }
{
    match bank.term_node(one) {
        TermNode::Text(left) => has_bytes(bank, other, left),
        _ => false,
    }
}

fn is_constant(key: Key, number: u32) -> bool
    ensures same { (b : Nodes) → result ≡ same_keys b (kept.Constant number) key }
    ensures meet { (b : Nodes) → (a : Option Atom) → IsKey b (Some key) a → result ≡ may_meet (Some (constant number [])) a }
{
    match key {
        Key::Constant(other) => number == other,
        Key::Number(_) => false,
        Key::Text(_) => false,
        Key::Eigen(_) => false,
    }
}

fn is_number(key: Key, value: i64) -> bool
    ensures same { (b : Nodes) → result ≡ same_keys b (kept.Number value) key }
    ensures meet { (b : Nodes) → (a : Option Atom) → IsKey b (Some key) a → result ≡ may_meet (Some (integer value)) a }
{
    match key {
        Key::Constant(_) => false,
        Key::Number(other) => value == other,
        Key::Text(_) => false,
        Key::Eigen(_) => false,
    }
}

fn is_text(bank: &Bank, key: Key, term: TermId) -> bool
    ensures same { result ≡ same_keys bank.now (kept.Text term) key }
    ensures meet { (a o : Option Atom) → IsTextKey bank.now term a → IsKey bank.now (Some key) o → result ≡ may_meet a o }
{
    match key {
        Key::Constant(_) => false,
        Key::Number(_) => false,
        Key::Text(other) => same_text(bank, term, other),
        Key::Eigen(_) => false,
    }
}

fn is_eigen(key: Key, level: u64) -> bool
    ensures same { (b : Nodes) → result ≡ same_keys b (kept.Eigen level) key }
    ensures meet { (b : Nodes) → (a : Option Atom) → IsKey b (Some key) a → result ≡ may_meet (Some (eigen level)) a }
{
    match key {
        Key::Constant(_) => false,
        Key::Number(_) => false,
        Key::Text(_) => false,
        Key::Eigen(other) => level == other,
    }
}

fn same_key(bank: &Bank, one: Key, other: Key) -> bool
    ensures same { result ≡ same_keys bank.now one other }
    ensures meet { (a o : Option Atom) → IsKey bank.now (Some one) a → IsKey bank.now (Some other) o → result ≡ may_meet a o }
{
    match one {
        Key::Constant(number) => is_constant(other, number),
        Key::Number(value) => is_number(other, value),
        Key::Text(term) => is_text(bank, other, term),
        Key::Eigen(level) => is_eigen(other, level),
    }
}

/// Whether a clause passes the filter by the key of its first head argument and that of the goal's first argument.
pub(crate) fn may_meet(bank: &Bank, clause: Option<Key>, goal: Option<Key>) -> bool
    ensures same { result ≡ meets bank.now clause goal }
    ensures meet { (a o : Option Atom) → IsKey bank.now clause a → IsKey bank.now goal o → result ≡ may_meet a o }
{
    let Some(one) = clause else {
        return true;
    };
    let Some(other) = goal else {
        return true;
    };
    same_key(bank, one, other)
}

/// The key of the first of the arguments of a clause's head.
pub(crate) fn first_key(bank: &Bank, args: &[TermId]) -> Option<Key>
    ensures key { IsKey bank.now result (first_key (trees_of bank.now args.now)) }
    ensures within { AreTermsOf bank.now args.now → IsKeyIn (length bank.now.terms) result }
{
    match args.first() {
        Some(arg) => key_of(bank, *arg),
        None => None,
    }
}
