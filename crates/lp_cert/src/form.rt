// Normal forms, and whether two terms convert.
ghost use Rattle.std.specs.Prelude.{◌≡◌, ◌∷◌, [], ◌<◌, ◌⊎◌, ◌≤◌, length, IfOk, OnOk, All, true, false};
ghost use Rattle.lp_calculus.specs.Closed.{AllAtoms, AreClosed, IsClosedType};
ghost use Rattle.lp_term.specs.Spine.{IsNoApplication, LooseBelow};
ghost use Rattle.lp_cert.specs.Run.{OneIsLarge};
ghost use Rattle.lp_cert.specs.inner.Named.{HasClosedTypes};
ghost use Rattle.lp_cert.specs.inner.Turned.{ArePlain, IsReady};
ghost use Rattle.lp_calculus.specs.Term.{index, atom, abs, constant, integer, text, eigen, logic, param};
ghost use Rattle.lp_calculus.specs.Convert.{Converts};
ghost use Rattle.lp_term.specs.Nodes.{Extends, Nodes, tree, type_tree};
ghost use Rattle.lp_cert.specs.Facts.{IsKnown};
ghost use Rattle.lp_cert.specs.Same.{AreEqual, AreOne, AreClosedPairs, Follows, IsFormed, Leads, TermsFollow, TypesFollow, terms_in, types_in};

use crate::known::Known;
use crate::typing::have_solution;
use lp_base::{Memory, RUN_LIMIT};
use lp_term::{Bank, Spine, TermId, TermNode, TermRefusal, TypeId, normal_form, spine_of};
use lp_type_unify::Pair;
use std::alloc::Global;

// Loose indices are below this number where a term has a normal form here.
const LOOSE: u64 = 4_294_967_296;

// The normal form of a term; none where it is too large, or where the term is not in the bank or not closed.
#[derive(Clone, Copy)]
pub(crate) enum Formed {
    Is(TermId),
    Deep,
    Open,
}

// Whether two terms convert, or a normal form of them is too large.
#[derive(Clone, Copy, Debug, PartialEq, Eq)]
pub(crate) enum Compared {
    Same,
    Differ,
    Deep,
}

pub(crate) fn form_of(
    alloc: Global,
    known: &mut Known,
    bank: &mut Bank,
    term: TermId,
) -> Result<Formed, Memory>
    requires known { IsKnown bank.old known.old }
    ensures kept { Extends bank.old bank.new }
    ensures known { OnOk result (IsKnown bank.new known.new) }
    ensures formed { IfOk result (IsFormed (tree bank.old term.0) bank.new) }
    ensures open { IfOk result (λ f. f ≡ Formed.Open → term.0 < length bank.old.terms → LooseBelow 0 0 (tree bank.old term.0) → ⊥) }
{
    if term.0 >= bank.term_count() {
        return Ok(Formed::Open);
    }
    if !known.is_loose_below(bank, LOOSE, term)? {
        return Ok(Formed::Open);
    }
    match normal_form(alloc, bank, term, RUN_LIMIT, RUN_LIMIT) {
        Ok(made) => Ok(Formed::Is(made)),
        Err(TermRefusal::Deep(_)) => Ok(Formed::Deep),
        Err(TermRefusal::Memory) => Err(Memory),
    }
}

pub(crate) fn is_inside(bank: &Bank, term: TermId) -> bool
    ensures inside { result ≡ true → term.0 < length bank.now.terms }
    ensures outside { result ≡ false → length bank.now.terms ≤ term.0 }
{
    term.0 < bank.term_count()
}

// What is left to compare: pairs of terms, and pairs of types.
#[derive(Drop)]
pub(crate) struct Comparing {
    pub(crate) alloc: Global,
    pub(crate) terms: Vec<(TermId, TermId)>,
    pub(crate) types: Vec<Pair>,
}

fn is_index(bank: &Bank, term: TermId, at: u64) -> bool
    ensures same { result ≡ true → index at ≡ tree bank.now term.0 }
    ensures differ { result ≡ false → index at ≡ tree bank.now term.0 → ⊥ }
{
    match bank.term_node(term) {
        TermNode::Index(other) => at == other,
        TermNode::Const(_, _) => false,
        TermNode::Int(_) => false,
        TermNode::Text(_) => false,
        TermNode::Eigen(_) => false,
        TermNode::Logic { .. } => false,
        TermNode::Param(_, _) => false,
        TermNode::Abs(_) => false,
        TermNode::App(_, _) => false,
    }
}

fn is_integer(bank: &Bank, term: TermId, value: i64) -> bool
    ensures same { result ≡ true → atom (integer value) ≡ tree bank.now term.0 }
    ensures differ { result ≡ false → atom (integer value) ≡ tree bank.now term.0 → ⊥ }
{
    match bank.term_node(term) {
        TermNode::Int(other) => value == other,
        TermNode::Index(_) => false,
        TermNode::Const(_, _) => false,
        TermNode::Text(_) => false,
        TermNode::Eigen(_) => false,
        TermNode::Logic { .. } => false,
        TermNode::Param(_, _) => false,
        TermNode::Abs(_) => false,
        TermNode::App(_, _) => false,
    }
}

fn is_text(bank: &Bank, term: TermId, bytes: &[u8]) -> bool
    ensures same { result ≡ true → atom (text bytes.now) ≡ tree bank.now term.0 }
    ensures differ { result ≡ false → atom (text bytes.now) ≡ tree bank.now term.0 → ⊥ }
{
    match bank.term_node(term) {
        TermNode::Text(other) => bytes == other,
        TermNode::Index(_) => false,
        TermNode::Const(_, _) => false,
        TermNode::Int(_) => false,
        TermNode::Eigen(_) => false,
        TermNode::Logic { .. } => false,
        TermNode::Param(_, _) => false,
        TermNode::Abs(_) => false,
        TermNode::App(_, _) => false,
    }
}

fn is_eigen(bank: &Bank, term: TermId, level: u64) -> bool
    ensures same { result ≡ true → atom (eigen level) ≡ tree bank.now term.0 }
    ensures differ { result ≡ false → atom (eigen level) ≡ tree bank.now term.0 → ⊥ }
{
    match bank.term_node(term) {
        TermNode::Eigen(other) => level == other,
        TermNode::Index(_) => false,
        TermNode::Const(_, _) => false,
        TermNode::Int(_) => false,
        TermNode::Text(_) => false,
        TermNode::Logic { .. } => false,
        TermNode::Param(_, _) => false,
        TermNode::Abs(_) => false,
        TermNode::App(_, _) => false,
    }
}

fn is_logic(bank: &Bank, term: TermId, number: u64, at: u64) -> bool
    ensures same { result ≡ true → atom (logic number at) ≡ tree bank.now term.0 }
    ensures differ { result ≡ false → atom (logic number at) ≡ tree bank.now term.0 → ⊥ }
{
    match bank.term_node(term) {
        TermNode::Logic { id, level } => number == id && at == level,
        TermNode::Index(_) => false,
        TermNode::Const(_, _) => false,
        TermNode::Int(_) => false,
        TermNode::Text(_) => false,
        TermNode::Eigen(_) => false,
        TermNode::Param(_, _) => false,
        TermNode::Abs(_) => false,
        TermNode::App(_, _) => false,
    }
}

impl Comparing {
    // Two types are compared where both are closed.
    fn push_type(
        &mut self,
        known: &mut Known,
        bank: &Bank,
        left: TypeId,
        right: TypeId,
    ) -> Result<bool, Memory>
        requires known { IsKnown bank.now known.old }
        ensures known { OnOk result (IsKnown bank.now known.new) }
        ensures closed { OnOk result (AreClosedPairs bank.now self.old.types.items → AreClosedPairs bank.now self.new.types.items) }
        ensures one { IfOk result (λ yes. yes ≡ true → AreOne bank.now self.new.types.items → AreOne bank.now self.old.types.items × (type_tree bank.now left.0 ≡ type_tree bank.now right.0)) }
        ensures terms { OnOk result (self.new.terms.items ≡ self.old.terms.items) }
        ensures follows { IfOk result (λ yes. IsClosedType (type_tree bank.now left.0) → TypesFollow bank.now self.old self.new (type_tree bank.now left.0 ∷ []) (type_tree bank.now right.0 ∷ []) yes) }
    {
        if !known.is_closed_type(bank, left)? {
            return Ok(false);
        }
        if !known.is_closed_type(bank, right)? {
            return Ok(false);
        }
        if left.0 == right.0 {
            return Ok(true);
        }
        self.types.push(Pair { left, right })?;
        Ok(true)
    }

    fn push_types(
        &mut self,
        known: &mut Known,
        bank: &Bank,
        left: &[TypeId],
        right: &[TypeId],
    ) -> Result<bool, Memory>
        requires known { IsKnown bank.now known.old }
        ensures known { OnOk result (IsKnown bank.now known.new) }
        ensures closed { OnOk result (AreClosedPairs bank.now self.old.types.items → AreClosedPairs bank.now self.new.types.items) }
        ensures one { IfOk result (λ yes. yes ≡ true → AreOne bank.now self.new.types.items → AreOne bank.now self.old.types.items × (types_in bank.now left.now ≡ types_in bank.now right.now)) }
        ensures terms { OnOk result (self.new.terms.items ≡ self.old.terms.items) }
        ensures follows { IfOk result (λ yes. AreClosed (types_in bank.now left.now) → TypesFollow bank.now self.old self.new (types_in bank.now left.now) (types_in bank.now right.now) yes) }
    {
        let mut ones = Vec::from_slice(self.alloc, left)?;
        let mut others = Vec::from_slice(self.alloc, right)?;
        'types: while let Some(one) = ones.pop() {
            let Some(other) = others.pop() else {
                return Ok(false);
            };
            if !self.push_type(known, bank, one, other)? {
                return Ok(false);
            }
        }
        match others.pop() {
            None => Ok(true),
            Some(_) => Ok(false),
        }
    }

    fn push_terms(&mut self, ones: Vec<TermId>, others: Vec<TermId>) -> Result<bool, Memory>
        ensures equal { IfOk result (λ yes. yes ≡ true → (b : Nodes) → AreEqual b self.new.terms.items → AreEqual b self.old.terms.items × (terms_in b ones.items ≡ terms_in b others.items)) }
        ensures types { OnOk result (self.new.types.items ≡ self.old.types.items) }
        ensures follows { IfOk result (λ yes. (b : Nodes) → TermsFollow b self.old self.new (terms_in b ones.items) (terms_in b others.items) yes) }
        ensures plain { OnOk result ((b : Nodes) → ArePlain b self.old.terms.items → All (AllAtoms HasClosedTypes) (terms_in b ones.items) → ArePlain b self.new.terms.items) }
    {
        let mut left = ones;
        let mut right = others;
        'terms: while let Some(one) = left.pop() {
            let Some(other) = right.pop() else {
                return Ok(false);
            };
            self.terms.push((one, other))?;
        }
        match right.pop() {
            None => Ok(true),
            Some(_) => Ok(false),
        }
    }

    fn constant(
        &mut self,
        known: &mut Known,
        bank: &Bank,
        number: u32,
        types: &[TypeId],
        right: TermId,
    ) -> Result<bool, Memory>
        requires known { IsKnown bank.now known.old }
        ensures known { OnOk result (IsKnown bank.now known.new) }
        ensures closed { OnOk result (AreClosedPairs bank.now self.old.types.items → AreClosedPairs bank.now self.new.types.items) }
        ensures leads { IfOk result (λ yes. yes ≡ true → Leads bank.now self.old self.new (atom (constant number (types_in bank.now types.now))) (tree bank.now right.0)) }
        ensures follows { IfOk result (λ yes. AllAtoms HasClosedTypes (atom (constant number (types_in bank.now types.now))) → Follows bank.now self.old self.new (atom (constant number (types_in bank.now types.now))) (tree bank.now right.0) yes) }
        ensures plain { OnOk result (ArePlain bank.now self.old.terms.items → AllAtoms HasClosedTypes (atom (constant number (types_in bank.now types.now))) → ArePlain bank.now self.new.terms.items) }
    {
        match bank.term_node(right) {
            TermNode::Const(other, others) => {
                if number != other {
                    return Ok(false);
                }
                self.push_types(known, bank, types, others)
            }
            TermNode::Index(_) => Ok(false),
            TermNode::Int(_) => Ok(false),
            TermNode::Text(_) => Ok(false),
            TermNode::Eigen(_) => Ok(false),
            TermNode::Logic { .. } => Ok(false),
            TermNode::Param(_, _) => Ok(false),
            TermNode::Abs(_) => Ok(false),
            TermNode::App(_, _) => Ok(false),
        }
    }

    fn parameter(
        &mut self,
        known: &mut Known,
        bank: &Bank,
        number: u64,
        of: TypeId,
        right: TermId,
    ) -> Result<bool, Memory>
        requires known { IsKnown bank.now known.old }
        ensures known { OnOk result (IsKnown bank.now known.new) }
        ensures closed { OnOk result (AreClosedPairs bank.now self.old.types.items → AreClosedPairs bank.now self.new.types.items) }
        ensures leads { IfOk result (λ yes. yes ≡ true → Leads bank.now self.old self.new (atom (param number (type_tree bank.now of.0))) (tree bank.now right.0)) }
        ensures follows { IfOk result (λ yes. AllAtoms HasClosedTypes (atom (param number (type_tree bank.now of.0))) → Follows bank.now self.old self.new (atom (param number (type_tree bank.now of.0))) (tree bank.now right.0) yes) }
        ensures plain { OnOk result (ArePlain bank.now self.old.terms.items → AllAtoms HasClosedTypes (atom (param number (type_tree bank.now of.0))) → ArePlain bank.now self.new.terms.items) }
    {
        match bank.term_node(right) {
            TermNode::Param(other, to) => {
                if number != other {
                    return Ok(false);
                }
                self.push_type(known, bank, of, to)
            }
            TermNode::Index(_) => Ok(false),
            TermNode::Const(_, _) => Ok(false),
            TermNode::Int(_) => Ok(false),
            TermNode::Text(_) => Ok(false),
            TermNode::Eigen(_) => Ok(false),
            TermNode::Logic { .. } => Ok(false),
            TermNode::Abs(_) => Ok(false),
            TermNode::App(_, _) => Ok(false),
        }
    }

    fn abstraction(&mut self, bank: &Bank, body: TermId, right: TermId) -> Result<bool, Memory>
        ensures types { OnOk result (self.new.types.items ≡ self.old.types.items) }
        ensures leads { IfOk result (λ yes. yes ≡ true → Leads bank.now self.old self.new (abs (tree bank.now body.0)) (tree bank.now right.0)) }
        ensures follows { IfOk result (λ yes. AllAtoms HasClosedTypes (abs (tree bank.now body.0)) → Follows bank.now self.old self.new (abs (tree bank.now body.0)) (tree bank.now right.0) yes) }
        ensures plain { OnOk result (ArePlain bank.now self.old.terms.items → AllAtoms HasClosedTypes (abs (tree bank.now body.0)) → ArePlain bank.now self.new.terms.items) }
    {
        match bank.term_node(right) {
            TermNode::Abs(other) => {
                self.terms.push((body, other))?;
                Ok(true)
            }
            TermNode::Index(_) => Ok(false),
            TermNode::Const(_, _) => Ok(false),
            TermNode::Int(_) => Ok(false),
            TermNode::Text(_) => Ok(false),
            TermNode::Eigen(_) => Ok(false),
            TermNode::Logic { .. } => Ok(false),
            TermNode::Param(_, _) => Ok(false),
            TermNode::App(_, _) => Ok(false),
        }
    }

    // Compares two heads, which are no applications.
    fn heads(
        &mut self,
        known: &mut Known,
        bank: &Bank,
        left: TermId,
        right: TermId,
    ) -> Result<bool, Memory>
        requires known { IsKnown bank.now known.old }
        ensures known { OnOk result (IsKnown bank.now known.new) }
        ensures closed { OnOk result (AreClosedPairs bank.now self.old.types.items → AreClosedPairs bank.now self.new.types.items) }
        ensures leads { IfOk result (λ yes. yes ≡ true → Leads bank.now self.old self.new (tree bank.now left.0) (tree bank.now right.0)) }
        ensures follows { IfOk result (λ yes. IsNoApplication (tree bank.now left.0) → AllAtoms HasClosedTypes (tree bank.now left.0) → Follows bank.now self.old self.new (tree bank.now left.0) (tree bank.now right.0) yes) }
        ensures plain { OnOk result (ArePlain bank.now self.old.terms.items → AllAtoms HasClosedTypes (tree bank.now left.0) → ArePlain bank.now self.new.terms.items) }
    {
        match bank.term_node(left) {
            TermNode::Index(at) => Ok(is_index(bank, right, at)),
            TermNode::Const(number, types) => self.constant(known, bank, number, types, right),
            TermNode::Int(value) => Ok(is_integer(bank, right, value)),
            TermNode::Text(bytes) => Ok(is_text(bank, right, bytes)),
            TermNode::Eigen(level) => Ok(is_eigen(bank, right, level)),
            TermNode::Logic { id, level } => Ok(is_logic(bank, right, id, level)),
            TermNode::Param(number, of) => self.parameter(known, bank, number, of, right),
            TermNode::Abs(body) => self.abstraction(bank, body, right),
            TermNode::App(_, _) => Ok(false),
        }
    }

    // Compares two terms up to their parts.
    fn take(
        &mut self,
        known: &mut Known,
        bank: &Bank,
        left: TermId,
        right: TermId,
    ) -> Result<bool, Memory>
        requires known { IsKnown bank.now known.old }
        ensures known { OnOk result (IsKnown bank.now known.new) }
        ensures closed { OnOk result (AreClosedPairs bank.now self.old.types.items → AreClosedPairs bank.now self.new.types.items) }
        ensures leads { IfOk result (λ yes. yes ≡ true → Leads bank.now self.old self.new (tree bank.now left.0) (tree bank.now right.0)) }
        ensures follows { IfOk result (λ yes. AllAtoms HasClosedTypes (tree bank.now left.0) → Follows bank.now self.old self.new (tree bank.now left.0) (tree bank.now right.0) yes) }
        ensures plain { OnOk result (ArePlain bank.now self.old.terms.items → AllAtoms HasClosedTypes (tree bank.now left.0) → ArePlain bank.now self.new.terms.items) }
    {
        let one = spine_of(self.alloc, bank, left)?;
        let other = spine_of(self.alloc, bank, right)?;
        if !self.push_terms(one.args, other.args)? {
            return Ok(false);
        }
        self.heads(known, bank, one.head, other.head)
    }
}

// Whether two terms without logic variables are equal.
fn are_same(
    alloc: Global,
    known: &mut Known,
    bank: &Bank,
    left: TermId,
    right: TermId,
) -> Result<bool, Memory>
    requires known { IsKnown bank.now known.old }
    ensures known { OnOk result (IsKnown bank.now known.new) }
    ensures same { IfOk result (λ yes. yes ≡ true → tree bank.now left.0 ≡ tree bank.now right.0) }
    ensures differ { IfOk result (λ yes. yes ≡ false → AllAtoms HasClosedTypes (tree bank.now left.0) → tree bank.now left.0 ≡ tree bank.now right.0 → ⊥) }
{
    let mut comparing = Comparing {
        alloc,
        terms: Vec::new(alloc),
        types: Vec::new(alloc),
    };
    comparing.terms.push((left, right))?;
    for _ in 0..u64::MAX {
        let Some((one, other)) = comparing.terms.pop() else {
            return have_solution(alloc, bank, comparing.types.as_slice());
        };
        if !comparing.take(known, bank, one, other)? {
            return Ok(false);
        }
    }
    Err(Memory)
}

// Whether two terms in normal form are equal.
fn same_forms(
    alloc: Global,
    known: &mut Known,
    bank: &Bank,
    one: TermId,
    other: TermId,
) -> Result<Compared, Memory>
    requires known { IsKnown bank.now known.old }
    ensures known { OnOk result (IsKnown bank.now known.new) }
    ensures same { IfOk result (λ c. c ≡ Compared.Same → tree bank.now one.0 ≡ tree bank.now other.0) }
    ensures differ { IfOk result (λ c. c ≡ Compared.Differ → AllAtoms HasClosedTypes (tree bank.now one.0) → tree bank.now one.0 ≡ tree bank.now other.0 → ⊥) }
    ensures known_forms { IfOk result (λ c. c ≡ Compared.Deep → ⊥) }
{
    if are_same(alloc, known, bank, one, other)? {
        return Ok(Compared::Same);
    }
    Ok(Compared::Differ)
}

fn is_deep(form: Formed) -> bool
    ensures yes { result ≡ true → form ≡ Formed.Deep }
    ensures no { result ≡ false → form ≡ Formed.Deep → ⊥ }
{
    match form {
        Formed::Deep => true,
        Formed::Is(_) => false,
        Formed::Open => false,
    }
}

// What comes of two terms of which one has no normal form.
pub(crate) fn without_form(left: Formed, right: Formed) -> Compared
    ensures same { result ≡ Compared.Same → ⊥ }
    ensures differ { result ≡ Compared.Differ → (left ≡ Formed.Deep → ⊥) × (right ≡ Formed.Deep → ⊥) }
    ensures deep { result ≡ Compared.Deep → (left ≡ Formed.Deep) ⊎ (right ≡ Formed.Deep) }
{
    if is_deep(left) {
        return Compared::Deep;
    }
    if is_deep(right) {
        return Compared::Deep;
    }
    Compared::Differ
}

// Whether two closed terms convert.
pub(crate) fn compare(
    alloc: Global,
    known: &mut Known,
    bank: &mut Bank,
    left: TermId,
    right: TermId,
) -> Result<Compared, Memory>
    requires known { IsKnown bank.old known.old }
    ensures kept { Extends bank.old bank.new }
    ensures known { OnOk result (IsKnown bank.new known.new) }
    ensures same { IfOk result (λ c. c ≡ Compared.Same → Converts (tree bank.old left.0) (tree bank.old right.0)) }
    ensures inside { IfOk result (λ c. c ≡ Compared.Same → (left.0 < length bank.old.terms) × (right.0 < length bank.old.terms)) }
    ensures differ { IfOk result (λ c. c ≡ Compared.Differ → IsReady bank.old left → IsReady bank.old right → Converts (tree bank.old left.0) (tree bank.old right.0) → ⊥) }
    ensures deep { IfOk result (λ c. c ≡ Compared.Deep → left.0 < length bank.old.terms → right.0 < length bank.old.terms → OneIsLarge (tree bank.old left.0) (tree bank.old right.0)) }
{
    if !is_inside(bank, left) {
        return Ok(Compared::Differ);
    }
    if !is_inside(bank, right) {
        return Ok(Compared::Differ);
    }
    let first = form_of(alloc, known, bank, left)?;
    let second = form_of(alloc, known, bank, right)?;
    let Formed::Is(one) = first else {
        return Ok(without_form(first, second));
    };
    let Formed::Is(other) = second else {
        return Ok(without_form(first, second));
    };
    same_forms(alloc, known, bank, one, other)
}
