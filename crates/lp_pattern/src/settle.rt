// What the variable of a side becomes: the beta-normal form of the other side, its patterns standing on the eigenconstants themselves,
// with the side's eigenconstants abstracted. A part that stays as it is keeps its number.
ghost use Rattle.std.specs.Prelude.{◌≡◌, ◌∷◌, ◌++◌, ◌-◌, ◌<◌, ◌≤◌, ℕ, [], suc, length, map, reverse, true, false, Some, IfOk, OnOk, IfErr};
ghost use Rattle.lp_calculus.specs.Term.{Term, apply};
ghost use Rattle.lp_calculus.specs.Fill.{abstracted};
ghost use Rattle.lp_term.specs.Nodes.{Extends, tree};
ghost use Rattle.lp_model.specs.Look.{are_distinct};
ghost use Rattle.lp_model.specs.Pair.{Closing};
ghost use Rattle.lp_model.specs.Scan.{settle};
ghost use Rattle.lp_pattern.specs.declared.look.Head.TheVariants.{Abstraction, Variable, Rigid};
ghost use Rattle.lp_pattern.specs.declared.settle.Task.TheVariants.{Visit, Abstract, Apply};
ghost use Rattle.lp_pattern.specs.inner.Falling.{tasks_left};
ghost use Rattle.lp_pattern.specs.Refusing.{IsNoFailure, IsNothing};
ghost use Rattle.lp_pattern.specs.Scanning.{AreTerms};
ghost use Rattle.lp_pattern.specs.Seen.{IsLooked, IsRigid};
ghost use Rattle.lp_pattern.specs.Settling.{AreEnough, index_in, eigen_or, eigens_in, visit_tasks, IsHeadIn, IsPushed, Moves, StopsSettling};
ghost use Rattle.lp_pattern.specs.Stripping.{IsShut};
ghost use Rattle.lp_pattern.specs.Under.{IsReading, under};

use crate::bindings::Bindings;
use crate::fault::PatternRefusal;
use crate::look::{CONTRACTIONS, Head, Looked, look};
use crate::opened::Opened;
use crate::patterns::pattern_of;
use crate::side::Side;
use lp_base::Memory;
use lp_term::{
    Bank, TermId, TermNode, put_abstraction, put_abstractions, put_application, put_eigen,
    put_index,
};
use std::alloc::Global;

// What is left to do: to visit a part, or to put a node together from the results behind it.
#[derive(Drop)]
enum Task {
    Visit(TermId, Opened),
    // The abstraction as it stands, and its body.
    Abstract(TermId, TermId),
    Apply(Application),
}

// A head on arguments: the whole as it stands, whether its head becomes another one, the head that it has then, and the arguments as they
// stand.
#[derive(Drop)]
struct Application {
    old: TermId,
    is_new: bool,
    head: TermId,
    arguments: Vec<TermId>,
}

#[derive(Drop)]
struct Work {
    tasks: Vec<Task>,
    made: Vec<TermId>,
}

// The index of the abstraction that stands for an eigenconstant: one that is open, or one that the side makes.
fn index_of(side: &Side, opened: Opened, eigen: u64) -> Option<u64>
    ensures { result ≡ index_in side.now.eigens.items opened.level opened.depth eigen }
{
    if let Some(index) = opened.index(eigen) {
        return Some(index);
    }
    let Some(out) = side.abstraction_of(eigen) else {
        return None;
    };
    let index = opened.depth + out;
    Some(index)
}

fn is_at(index: Option<u64>, place: u64) -> bool
    ensures { result ≡ true → index ≡ Some place }
{
    match index {
        Some(at) => at == place,
        None => false,
    }
}

// Whether a term is already what stands for an eigenconstant, of which this is the index.
fn stands(bank: &Bank, term: TermId, index: Option<u64>, eigen: u64) -> bool
    ensures within { result ≡ true → term.0 < length bank.now.terms }
    ensures tree { result ≡ true → tree bank.now term.0 ≡ eigen_or eigen index }
{
    if term.0 >= bank.term_count() {
        return false;
    }
    match bank.term_node(term) {
        TermNode::Index(place) => is_at(index, place),
        TermNode::Eigen(k) => index.is_none() && k == eigen,
        _ => false,
    }
}

// What stands for an eigenconstant, which is the old term where that is it already.
fn put_stand_in(
    bank: &mut Bank,
    side: &Side,
    opened: Opened,
    eigen: u64,
    old: TermId,
) -> Result<TermId, Memory>
    ensures kept { Extends bank.old bank.new }
    ensures within { IfOk result (λ id. id.0 < length bank.new.terms) }
    ensures tree { IfOk result (λ id. tree bank.new id.0 ≡ eigen_or eigen (index_in side.now.eigens.items opened.level opened.depth eigen)) }
{
    let index = index_of(side, opened, eigen);
    if stands(bank, old, index, eigen) {
        return Ok(old);
    }
    match index {
        Some(index) => put_index(bank, index),
        None => put_eigen(bank, eigen),
    }
}

// A rigid head, which is another one where it is an eigenconstant for which an abstraction stands. A loose index is
// counted from outside the abstractions that are open.
fn head_in(bank: &mut Bank, side: &Side, opened: Opened, head: TermId) -> Result<TermId, Memory>
    requires within { head.0 < length bank.old.terms }
    requires rigid { IsRigid (tree bank.old head.0) }
    ensures kept { Extends bank.old bank.new }
    ensures within { IfOk result (λ id. id.0 < length bank.new.terms) }
    ensures head { IfOk result (λ id. IsHeadIn bank.old bank.new side.now.eigens.items opened.level opened.depth head id) }
{
    match bank.term_node(head) {
        TermNode::Eigen(eigen) => put_stand_in(bank, side, opened, eigen, head),
        TermNode::Index(place) => {
            if place < opened.depth {
                return Ok(head);
            }
            let id = put_index(bank, place - opened.depth)?;
            Ok(id)
        }
        _ => Ok(head),
    }
}

// Parts that are to be visited, the first of them before the others.
fn push_visits(parts: &[TermId], opened: Opened, tasks: &mut Vec<Task>) -> Result<(), Memory>
    ensures { OnOk result (tasks.new.items ≡ tasks.old.items ++ reverse (visit_tasks opened parts.now)) }
{
    for done in 0..parts.len() {
        let at = parts.len() - 1 - done;
        tasks.push(Task::Visit(parts[at], opened))?;
    }
    Ok(())
}

// Whether two terms have not the same number.
fn is_other(one: TermId, other: TermId) -> bool
    ensures { result ≡ false → one.0 ≡ other.0 }
{
    one.0 != other.0
}

// The arguments are visited first, then the head is put on what they have become.
fn push_application(
    alloc: Global,
    work: &mut Work,
    looked: &Looked,
    head: TermId,
    opened: Opened,
) -> Result<(), Memory>
    ensures made { work.new.made.items ≡ work.old.made.items }
    ensures pushed { OnOk result (IsPushed looked.now head opened work.old.tasks.items work.new.tasks.items) }
{
    let arguments = Vec::from_slice(alloc, looked.arguments.as_slice())?;
    let is_new = is_other(head, looked.top);
    work.tasks.push(Task::Apply(Application {
        old: looked.whole,
        is_new,
        head,
        arguments,
    }))?;
    push_visits(looked.arguments.as_slice(), opened, &mut work.tasks)
}

// What stands for the eigenconstants to which arguments come.
fn put_stand_ins(
    alloc: Global,
    bank: &mut Bank,
    side: &Side,
    opened: Opened,
    olds: &[TermId],
    eigens: &[u64],
) -> Result<Vec<TermId>, Memory>
    requires { length eigens.now ≡ length olds.now }
    ensures kept { Extends bank.old bank.new }
    ensures terms { IfOk result (λ ids. AreTerms bank.new ids.items (eigens_in side.now.eigens.items opened.level opened.depth eigens.now)) }
{
    let mut ids = Vec::new(alloc);
    for at in 0..eigens.len() {
        let id = put_stand_in(bank, side, opened, eigens[at], olds[at])?;
        ids.push(id)?;
    }
    Ok(ids)
}

// Whether the terms have the same numbers.
fn are_same(ones: &[TermId], others: &[TermId]) -> bool
    ensures { result ≡ true → ones.now ≡ others.now }
{
    if ones.len() != others.len() {
        return false;
    }
    for place in 0..ones.len() {
        if ones[place].0 != others[place].0 {
            return false;
        }
    }
    true
}

// The head of a term on these arguments, which is the term where they are its own.
fn put_on(
    bank: &mut Bank,
    bindings: &Bindings,
    looked: &Looked,
    arguments: &[TermId],
) -> Result<TermId, Memory>
    requires looked { IsLooked bank.old bindings.now looked.now }
    ensures kept { Extends bank.old bank.new }
    ensures within { IfOk result (λ id. id.0 < length bank.new.terms) }
    ensures tree { IfOk result (λ id. tree bank.new id.0 ≡ apply (tree bank.old looked.now.top.0) (map (λ t. tree bank.old t.0) arguments.now)) }
{
    if are_same(arguments, looked.arguments.as_slice()) {
        return Ok(looked.whole);
    }
    put_application(bank, looked.top, arguments)
}

fn visit_body(
    bank: &Bank,
    bindings: &Bindings,
    side: &Side,
    work: &mut Work,
    opened: Opened,
    looked: &Looked,
    body: TermId,
) -> Result<(), Memory>
    requires looked { IsLooked bank.now bindings.now looked.now }
    requires head { looked.now.head ≡ Abstraction body }
    ensures moves { OnOk result (Moves bank.now bank.now bindings.now side.now.eigens.items (work.old.tasks.items ++ Visit looked.now.whole opened ∷ []) work.old.made.items work.new.tasks.items work.new.made.items) }
    ensures enough { OnOk result (AreEnough (Visit looked.now.whole opened ∷ reverse work.old.tasks.items) (length work.old.made.items) → AreEnough (reverse work.new.tasks.items) (length work.new.made.items)) }
    ensures falls { OnOk result (tasks_left work.new.tasks.items < tasks_left (work.old.tasks.items ++ Visit looked.now.whole opened ∷ [])) }
{
    let inner = opened.one_more()?;
    work.tasks.push(Task::Abstract(looked.whole, body))?;
    work.tasks.push(Task::Visit(body, inner))?;
    Ok(())
}

fn visit_rigid(
    alloc: Global,
    bank: &mut Bank,
    bindings: &Bindings,
    side: &Side,
    work: &mut Work,
    opened: Opened,
    looked: &Looked,
) -> Result<(), Memory>
    requires looked { IsLooked bank.old bindings.now looked.now }
    requires head { looked.now.head ≡ Rigid }
    ensures kept { Extends bank.old bank.new }
    ensures moves { OnOk result (Moves bank.old bank.new bindings.now side.now.eigens.items (work.old.tasks.items ++ Visit looked.now.whole opened ∷ []) work.old.made.items work.new.tasks.items work.new.made.items) }
    ensures enough { OnOk result (AreEnough (Visit looked.now.whole opened ∷ reverse work.old.tasks.items) (length work.old.made.items) → AreEnough (reverse work.new.tasks.items) (length work.new.made.items)) }
    ensures falls { OnOk result (tasks_left work.new.tasks.items < tasks_left (work.old.tasks.items ++ Visit looked.now.whole opened ∷ [])) }
{
    let head = head_in(bank, side, opened, looked.top)?;
    push_application(alloc, work, looked, head, opened)
}

fn visit_variable(
    alloc: Global,
    bank: &mut Bank,
    bindings: &Bindings,
    side: &Side,
    work: &mut Work,
    opened: Opened,
    looked: &Looked,
    id: u64,
    level: u64,
) -> Result<(), PatternRefusal>
    requires looked { IsLooked bank.old bindings.now looked.now }
    requires head { looked.now.head ≡ Variable id level }
    ensures kept { Extends bank.old bank.new }
    ensures moves { OnOk result (Moves bank.old bank.new bindings.now side.now.eigens.items (work.old.tasks.items ++ Visit looked.now.whole opened ∷ []) work.old.made.items work.new.tasks.items work.new.made.items) }
    ensures unfailing { IfErr result IsNoFailure }
    ensures refused { IfErr result (λ e. StopsSettling e bank.old bindings.now side.now.eigens.items (work.old.tasks.items ++ Visit looked.now.whole opened ∷ []) work.old.made.items) }
    ensures enough { OnOk result (AreEnough (Visit looked.now.whole opened ∷ reverse work.old.tasks.items) (length work.old.made.items) → AreEnough (reverse work.new.tasks.items) (length work.new.made.items)) }
    ensures falls { OnOk result (tasks_left work.new.tasks.items < tasks_left (work.old.tasks.items ++ Visit looked.now.whole opened ∷ [])) }
{
    let arguments = looked.arguments.as_slice();
    let pattern = pattern_of(alloc, bank, bindings, opened, level, arguments)?;
    let Some(pattern) = pattern else {
        push_application(alloc, work, looked, looked.top, opened)?;
        return Ok(());
    };
    let eigens = pattern.eigens.as_slice();
    let ids = put_stand_ins(alloc, bank, side, opened, arguments, eigens)?;
    let made = put_on(bank, bindings, looked, ids.as_slice())?;
    work.made.push(made)?;
    Ok(())
}

// Visits a part by what was seen of it.
fn visit_seen(
    alloc: Global,
    bank: &mut Bank,
    bindings: &Bindings,
    side: &Side,
    work: &mut Work,
    opened: Opened,
    looked: &Looked,
) -> Result<(), PatternRefusal>
    requires looked { IsLooked bank.old bindings.now looked.now }
    ensures kept { Extends bank.old bank.new }
    ensures moves { OnOk result (Moves bank.old bank.new bindings.now side.now.eigens.items (work.old.tasks.items ++ Visit looked.now.whole opened ∷ []) work.old.made.items work.new.tasks.items work.new.made.items) }
    ensures unfailing { IfErr result IsNoFailure }
    ensures refused { IfErr result (λ e. StopsSettling e bank.old bindings.now side.now.eigens.items (work.old.tasks.items ++ Visit looked.now.whole opened ∷ []) work.old.made.items) }
    ensures enough { OnOk result (AreEnough (Visit looked.now.whole opened ∷ reverse work.old.tasks.items) (length work.old.made.items) → AreEnough (reverse work.new.tasks.items) (length work.new.made.items)) }
    ensures falls { OnOk result (tasks_left work.new.tasks.items < tasks_left (work.old.tasks.items ++ Visit looked.now.whole opened ∷ [])) }
{
    match looked.head {
        Head::Abstraction(body) => {
            visit_body(bank, bindings, side, work, opened, looked, body)?;
            Ok(())
        }
        Head::Rigid => {
            visit_rigid(alloc, bank, bindings, side, work, opened, looked)?;
            Ok(())
        }
        Head::Variable { id, level } => visit_variable(
            alloc, bank, bindings, side, work, opened, looked, id, level,
        ),
    }
}

fn visit(
    alloc: Global,
    bank: &mut Bank,
    bindings: &Bindings,
    side: &Side,
    work: &mut Work,
    term: TermId,
    opened: Opened,
) -> Result<(), PatternRefusal>
    ensures kept { Extends bank.old bank.new }
    ensures moves { OnOk result (Moves bank.old bank.new bindings.now side.now.eigens.items (work.old.tasks.items ++ Visit term opened ∷ []) work.old.made.items work.new.tasks.items work.new.made.items) }
    ensures unfailing { IfErr result IsNoFailure }
    ensures refused { IfErr result (λ e. StopsSettling e bank.old bindings.now side.now.eigens.items (work.old.tasks.items ++ Visit term opened ∷ []) work.old.made.items) }
    ensures enough { OnOk result (AreEnough (Visit term opened ∷ reverse work.old.tasks.items) (length work.old.made.items) → AreEnough (reverse work.new.tasks.items) (length work.new.made.items)) }
    ensures falls { OnOk result (tasks_left work.new.tasks.items < tasks_left (work.old.tasks.items ++ Visit term opened ∷ [])) }
{
    // A ground term is settled as it stands.
    if let Some(_nodes) = bank.ground_nodes(term) {
        work.made.push(term)?;
        return Ok(());
    }
    let looked = look(alloc, bank, bindings, term, CONTRACTIONS)?;
    visit_seen(alloc, bank, bindings, side, work, opened, &looked)
}

// The body under its abstraction.
fn abstracted(
    bank: &mut Bank,
    bindings: &Bindings,
    side: &Side,
    work: &mut Work,
    old: TermId,
    body: TermId,
) -> Result<(), Memory>
    requires { 0 < length work.old.made.items }
    ensures kept { Extends bank.old bank.new }
    ensures moves { OnOk result (Moves bank.old bank.new bindings.now side.now.eigens.items (work.old.tasks.items ++ Abstract old body ∷ []) work.old.made.items work.new.tasks.items work.new.made.items) }
    ensures tasks { work.new.tasks ≡ work.old.tasks }
    ensures count { OnOk result (length work.new.made.items ≡ length work.old.made.items) }
{
    let Some(made) = work.made.pop() else {
        unreachable!()
    };
    if made.0 == body.0 {
        work.made.push(old)?;
        return Ok(());
    }
    let id = put_abstraction(bank, made)?;
    work.made.push(id)?;
    Ok(())
}

// As many of the terms that were made last, in their order.
fn popped(alloc: Global, count: usize, made: &mut Vec<TermId>) -> Result<Vec<TermId>, Memory>
    requires { count ≤ length made.old.items }
    ensures made { IfOk result (λ ids. made.old.items ≡ made.new.items ++ ids.items) }
    ensures count { IfOk result (λ ids. length ids.items ≡ count) }
{
    let mut ids = Vec::new(alloc);
    for _ in 0..count {
        let Some(id) = made.pop() else { unreachable!() };
        ids.push(id)?;
    }
    ids.reverse();
    Ok(ids)
}

// The head on what its arguments have become.
fn applied(
    alloc: Global,
    bank: &mut Bank,
    bindings: &Bindings,
    side: &Side,
    work: &mut Work,
    application: Application,
) -> Result<(), Memory>
    requires { length application.arguments.items ≤ length work.old.made.items }
    ensures kept { Extends bank.old bank.new }
    ensures moves { OnOk result (Moves bank.old bank.new bindings.now side.now.eigens.items (work.old.tasks.items ++ Apply application ∷ []) work.old.made.items work.new.tasks.items work.new.made.items) }
    ensures tasks { work.new.tasks ≡ work.old.tasks }
    ensures count { OnOk result (length work.new.made.items ≡ suc (length work.old.made.items - length application.arguments.items)) }
{
    let arguments = popped(alloc, application.arguments.len(), &mut work.made)?;
    if !application.is_new && are_same(arguments.as_slice(), application.arguments.as_slice()) {
        work.made.push(application.old)?;
        return Ok(());
    }
    let id = put_application(bank, application.head, arguments.as_slice())?;
    work.made.push(id)?;
    Ok(())
}

fn step(
    alloc: Global,
    bank: &mut Bank,
    bindings: &Bindings,
    side: &Side,
    work: &mut Work,
    task: Task,
) -> Result<(), PatternRefusal>
    requires { AreEnough (task ∷ reverse work.old.tasks.items) (length work.old.made.items) }
    ensures kept { Extends bank.old bank.new }
    ensures moves { OnOk result (Moves bank.old bank.new bindings.now side.now.eigens.items (work.old.tasks.items ++ task ∷ []) work.old.made.items work.new.tasks.items work.new.made.items) }
    ensures unfailing { IfErr result IsNoFailure }
    ensures refused { IfErr result (λ e. StopsSettling e bank.old bindings.now side.now.eigens.items (work.old.tasks.items ++ task ∷ []) work.old.made.items) }
    ensures enough { OnOk result (AreEnough (reverse work.new.tasks.items) (length work.new.made.items)) }
    ensures falls { OnOk result (tasks_left work.new.tasks.items < tasks_left (work.old.tasks.items ++ task ∷ [])) }
{
    match task {
        Task::Visit(term, opened) => visit(alloc, bank, bindings, side, work, term, opened),
        Task::Abstract(old, body) => {
            abstracted(bank, bindings, side, work, old, body)?;
            Ok(())
        }
        Task::Apply(application) => {
            applied(alloc, bank, bindings, side, work, application)?;
            Ok(())
        }
    }
}

// The value of the side's variable.
pub(crate) fn settled(
    alloc: Global,
    bank: &mut Bank,
    bindings: &Bindings,
    side: &Side,
    term: TermId,
) -> Result<TermId, PatternRefusal>
    ensures kept { Extends bank.old bank.new }
    ensures within { IfOk result (λ id. id.0 < length bank.new.terms) }
    ensures value { IfOk result (λ id. term.0 < length bank.old.terms → are_distinct side.now.eigens.items ≡ true → (c : Closing) → IsReading bank.old bindings.now c → IsShut c → (n : ℕ) → (t : Term) →
        settle n side.now.pair (under bank.old c term) ≡ Some t → under bank.new c id ≡ abstracted side.now.eigens.items t) }
    ensures unfailing { IfErr result IsNoFailure }
    ensures refused { IfErr result (λ e. term.0 < length bank.old.terms → (c : Closing) → IsReading bank.old bindings.now c → IsShut c → (n : ℕ) → IsNothing n e (settle n side.now.pair (under bank.old c term))) }
{
    let mut tasks = Vec::new(alloc);
    tasks.push(Task::Visit(term, side.closed()))?;
    let made = Vec::new(alloc);
    let mut work = Work { tasks, made };
    'tasks: loop {
        let Some(task) = work.tasks.pop() else {
            let Some(body) = work.made.pop() else {
                unreachable!()
            };
            let id = put_abstractions(bank, side.eigens.len() as u64, body)?;
            return Ok(id);
        };
        step(alloc, bank, bindings, side, &mut work, task)?;
    }
}
