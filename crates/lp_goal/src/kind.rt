// What a goal is that is known at run time only.
ghost use Rattle.std.specs.Prelude.{◌≡◌, ◌+◌, ◌<◌, ◌≤◌, length, List, None, IfOk, IfErr};
ghost use Rattle.lp_base.specs.declared.limits.TheConstants.{RUN_LIMIT};
ghost use Rattle.lp_calculus.specs.Types.{Ty};
ghost use Rattle.lp_calculus.specs.Term.{Term, atom, constant, eigen, apply};
ghost use Rattle.lp_calculus.specs.Convert.{Reduces, head_step};
ghost use Rattle.lp_standard.specs.Constants.{numbered};
ghost use Rattle.lp_store.specs.Contents.{cell_at};
ghost use Rattle.lp_store.specs.Reading.{Reads, ReadAll, ReadTypes};
ghost use Rattle.lp_store.specs.Change.{Extends, KeepsMarks};
ghost use Rattle.lp_susp.specs.Kept.{Grows, Reduced};
ghost use Rattle.lp_susp.specs.Counted.{IsDeepOnlyWhere};
ghost use Rattle.lp_goal.specs.Kinds.{StandsKind, IsList, IsKind};
ghost use Rattle.lp_goal.specs.Spines.{IsThere, IsTop, numbers, argument_cells};
ghost use Rattle.lp_goal.specs.inner.ByConstant.{alone_by, quantified_by, related_by, joined_by, kind_by, kind_numbered};

use crate::spine::{Spine, spine_of};
use lp_base::{Compare, Memory, RUN_LIMIT};
use lp_impl::Head;
use lp_standard::Constant;
use lp_store::{Cell, CellId, Span, Store};
use lp_term::TermRefusal;
use std::alloc::Global;

/// A goal by its head-normal form.
#[derive(Clone, Copy)]
pub enum GoalKind {
    True,
    And(CellId, CellId),
    Or(CellId, CellId),
    /// The term that `pi` or `sigma` stands on.
    All(CellId),
    Some(CellId),
    Equal(CellId, CellId),
    Is(CellId, CellId),
    Order(Compare, CellId, CellId),
    /// An atom that clauses may meet: the types of its head and its arguments.
    Call(Head, Span, Span),
    /// A logic variable as head.
    Flexible,
}

// What a constant makes of two terms, whatever its types, where no clauses define it.
fn related(constant: Constant, left: CellId, right: CellId) -> Option<GoalKind>
    ensures { result ≡ related_by constant left right }
{
    match constant {
        Constant::Equal => Some(GoalKind::Equal(left, right)),
        Constant::Is => Some(GoalKind::Is(left, right)),
        Constant::Less => Some(GoalKind::Order(Compare::Less, left, right)),
        Constant::Greater => Some(GoalKind::Order(Compare::Greater, left, right)),
        Constant::AtMost => Some(GoalKind::Order(Compare::AtMost, left, right)),
        Constant::AtLeast => Some(GoalKind::Order(Compare::AtLeast, left, right)),
        _ => None,
    }
}

// What a constant without types makes of two terms.
fn joined(constant: Constant, left: CellId, right: CellId) -> Option<GoalKind>
    ensures { result ≡ joined_by constant left right }
{
    match constant {
        Constant::And => Some(GoalKind::And(left, right)),
        Constant::Or => Some(GoalKind::Or(left, right)),
        _ => related(constant, left, right),
    }
}

// What a constant of one type makes of a term.
fn quantified(constant: Constant, term: CellId) -> Option<GoalKind>
    ensures { result ≡ quantified_by constant term }
{
    match constant {
        Constant::ForAll => Some(GoalKind::All(term)),
        Constant::Exists => Some(GoalKind::Some(term)),
        _ => None,
    }
}

// What a constant is by itself.
fn alone(constant: Constant) -> Option<GoalKind>
    ensures { result ≡ alone_by constant }
{
    match constant {
        Constant::True => Some(GoalKind::True),
        _ => None,
    }
}

fn by_constant(constant: Constant, types: usize, arguments: &[CellId]) -> Option<GoalKind>
    ensures { result ≡ kind_by constant types arguments.now }
{
    match arguments {
        [] => alone(constant),
        [term] if types == 1 => quantified(constant, *term),
        [left, right] if types == 0 => joined(constant, *left, *right),
        [left, right] => related(constant, *left, *right),
        _ => None,
    }
}

// What a constant makes of its arguments, where no clauses define it.
fn relation(number: u32, types: usize, arguments: &[CellId]) -> Option<GoalKind>
    ensures { result ≡ kind_numbered (numbered number) types arguments.now }
{
    match Constant::from_number(number) {
        Some(constant) => by_constant(constant, types, arguments),
        None => None,
    }
}

// The arguments as a list of the store.
fn listed(store: &mut Store, spine: Spine) -> Result<Span, Memory>
    requires { IsThere store.old spine }
    ensures list { IfOk result (IsList store.new) }
    ensures cells { IfOk result (λ list. numbers store.new list ≡ argument_cells store.old spine.arguments) }
    ensures kept { Extends store.old store.new }
    ensures marks { KeepsMarks store.old store.new }
{
    match spine.arguments {
        Some(list) => Ok(list),
        None => {
            let list = store.list(&[])?;
            Ok(list)
        }
    }
}

fn of_constant(
    store: &mut Store,
    number: u32,
    types: Span,
    spine: Spine,
) -> Result<GoalKind, Memory>
    requires types { IsList store.old types }
    requires spine { IsThere store.old spine }
    ensures stands { IfOk result (StandsKind store.new) }
    ensures kind { IfOk result (λ kind. (Ts : List Ty) (us : List Term) → ReadTypes store.old (numbers store.old types) Ts → ReadAll store.old (argument_cells store.old spine.arguments) us →
        IsKind store.new kind (apply (atom (constant number Ts)) us)) }
    ensures kept { Extends store.old store.new }
    ensures marks { KeepsMarks store.old store.new }
{
    let count = store.items(types).len();
    if let Some(kind) = relation(number, count, spine.arguments(store)) {
        return Ok(kind);
    }
    let arguments = listed(store, spine)?;
    Ok(GoalKind::Call(Head::Const(number), types, arguments))
}

fn of_eigenconstant(store: &mut Store, level: u64, spine: Spine) -> Result<GoalKind, Memory>
    requires { IsThere store.old spine }
    ensures stands { IfOk result (StandsKind store.new) }
    ensures kind { IfOk result (λ kind. (us : List Term) → ReadAll store.old (argument_cells store.old spine.arguments) us → IsKind store.new kind (apply (atom (eigen level)) us)) }
    ensures kept { Extends store.old store.new }
    ensures marks { KeepsMarks store.old store.new }
{
    let types = store.list(&[])?;
    let arguments = listed(store, spine)?;
    Ok(GoalKind::Call(Head::Eigen(level), types, arguments))
}

// A head-normal goal by its head and its arguments.
fn of_spine(store: &mut Store, spine: Spine) -> Result<GoalKind, Memory>
    requires there { IsThere store.old spine }
    requires top { IsTop (cell_at store.old spine.head.0) }
    ensures stands { IfOk result (StandsKind store.new) }
    ensures kind { IfOk result (λ kind. (h : Term) (us : List Term) → Reads store.old spine.head.0 h → ReadAll store.old (argument_cells store.old spine.arguments) us → IsKind store.new kind (apply h us)) }
    ensures kept { Extends store.old store.new }
    ensures marks { KeepsMarks store.old store.new }
{
    match store.cell(spine.head) {
        Cell::Const(number, types) => {
            let kind = of_constant(store, number, types, spine)?;
            Ok(kind)
        }
        Cell::Eigen(level) => {
            let kind = of_eigenconstant(store, level, spine)?;
            Ok(kind)
        }
        _ => Ok(GoalKind::Flexible),
    }
}

/// What a goal is by its head-normal form: of a term whose head is no constant, eigenconstant or logic variable, as no goal's is, `Flexible`.
/// `Deep` comes only where leftmost head reduction takes more than `RUN_LIMIT` steps.
pub fn kind_of_goal(alloc: Global, store: &mut Store, goal: CellId) -> Result<GoalKind, TermRefusal>
    requires { goal.0 < length store.old.cells }
    ensures stands { IfOk result (StandsKind store.new) }
    ensures kind { IfOk result (λ kind. (t : Term) → Reads store.old goal.0 t → (s : Term) × Reduces t s × (head_step s ≡ None) × IsKind store.new kind s) }
    ensures refused { IfErr result (λ e. (t : Term) → Reads store.old goal.0 t → IsDeepOnlyWhere RUN_LIMIT t e) }
    ensures grows { Grows store.old store.new }
    ensures reduced { Reduced store.old store.new }
    ensures marks { KeepsMarks store.old store.new }
{
    match spine_of(alloc, store, goal) {
        Ok(spine) => {
            let kind = of_spine(store, spine)?;
            Ok(kind)
        }
        Err(refusal) => Err(refusal),
    }
}
