// How many nodes terms have, as the scan of a value counts them: each head is one, an abstraction is none.
#![tactic(auto, using(crate::proofs::Marks::marks_kept, crate::proofs::Marks::goes_kept))]

ghost use Rattle.std.specs.Prelude.{◌≤◌, length, IfSome};
ghost use Rattle.lp_store.specs.Sound.{Stands};

use super::Heap;
use super::tested::known;
use crate::outcome::refused;
use lp_base::{Memory, RUN_LIMIT};
use lp_model::Ending;
use lp_store::{Cell, CellId, Env, EnvEntry, Store};
use lp_susp::head_normal;
use std::alloc::Global;

/// The nodes of a term; none where a variable stands on arguments in it, or one that is newer than the level.
#[derive(Clone, Copy)]
pub(crate) enum Nodes {
    Many(u64),
    Unknown,
    Ended(Ending),
}

// What is left to do: to visit a term, or to close a node that is visited, before which there were so many nodes and variables.
#[derive(Clone, Copy)]
enum Step {
    Visit(CellId),
    Close(CellId, u64, u64),
}

// A term by its top.
#[derive(Clone, Copy)]
enum Top {
    Leaf,
    Variable(u64),
    Abstraction(CellId),
    Application,
    // It has to be reduced to be seen.
    Hidden,
    // A variable on arguments, or an application of an application.
    Other,
}

/// The sizes of terms without variables that have no redex, by cell, as far as they were counted; 0 is none. Those that were counted
/// after a choice point was made are forgotten when it is gone back to.
#[derive(Drop)]
pub(crate) struct Sizes {
    of: Vec<u32>,
    // The cells that were counted while there was a choice point, and for each choice point how many they were when it was made.
    counted: Vec<CellId>,
    marks: Vec<usize>,
    steps: Vec<Step>,
}

impl Sizes {
    pub(crate) fn new(alloc: Global) -> Sizes {
        Sizes {
            of: Vec::new(alloc),
            counted: Vec::new(alloc),
            marks: Vec::new(alloc),
            steps: Vec::new(alloc),
        }
    }

    fn known(&self, cell: CellId) -> Option<u64> {
        match self.of.get(cell.0) {
            Some(0) => None,
            Some(nodes) => Some(u64::from(*nodes)),
            None => None,
        }
    }

    fn put(&mut self, cell: CellId, nodes: u64) -> Result<(), Memory> {
        let missing = cell.0.saturating_add(1).saturating_sub(self.of.len());
        for _ in 0..missing {
            self.of.push(0)?;
        }
        if let Some(slot) = self.of.get_mut(cell.0) {
            *slot = u32::try_from(nodes).unwrap_or(u32::MAX);
        }
        Ok(())
    }

    fn note(&mut self, cell: CellId, nodes: u64) -> Result<(), Memory> {
        if !self.marks.is_empty() {
            self.counted.push(cell)?;
        }
        self.put(cell, nodes)
    }

    fn forget(&mut self, cell: CellId) {
        if let Some(slot) = self.of.get_mut(cell.0) {
            *slot = 0;
        }
    }

    fn mark(&mut self) -> Result<(), Memory> {
        self.marks.push(self.counted.len())?;
        Ok(())
    }

    fn go_back(&mut self) {
        let Some(mark) = self.marks.pop() else {
            return;
        };
        for _ in 0..u64::MAX {
            if self.counted.len() <= mark {
                return;
            }
            let Some(cell) = self.counted.pop() else {
                return;
            };
            self.forget(cell);
        }
    }

    fn cut(&mut self, height: usize) {
        self.marks.truncate(height);
    }
}

// The cell that references lead to, and what it holds; nothing where it is no cell of the store.
pub(crate) fn followed(store: &Store, cell: CellId) -> Option<(CellId, Cell)>
    ensures { IfSome result (λ p. Stands store.now p.1) }
{
    let mut at = cell;
    for _ in 0..u64::MAX {
        if !store.has(at) {
            return None;
        }
        match store.cell(at) {
            Cell::Ref(to) => at = to,
            other => return Some((at, other)),
        }
    }
    None
}

// Whether a term is an atom, whatever suspensions stand around it.
fn is_atom(store: &Store, cell: CellId) -> bool {
    let mut at = cell;
    for _ in 0..u64::MAX {
        if !store.has(at) {
            return false;
        }
        match store.cell(at) {
            Cell::Ref(to) => at = to,
            Cell::Susp(term, _, _, _) => at = term,
            Cell::Const(_, _) | Cell::Int(_) | Cell::Text(_) | Cell::Eigen(_) => return true,
            _ => return false,
        }
    }
    false
}

// Whether the values in an environment are atoms.
fn gives_atoms(store: &Store, env: Env) -> bool
    requires { env.0 ≤ length store.now.envs }
{
    let mut at = env;
    'entries: for _ in 0..u64::MAX {
        let Some((entry, rest)) = store.entry(at) else {
            return true;
        };
        if let EnvEntry::Value(value, _) = entry
            && !is_atom(store, value)
        {
            return false;
        }
        at = rest;
    }
    false
}

// What an application is by its head.
fn applied(head: Cell) -> Top {
    match head {
        Cell::Const(_, _) | Cell::Int(_) | Cell::Text(_) | Cell::Eigen(_) | Cell::Index(_) => {
            Top::Application
        }
        Cell::Logic(_) | Cell::App(_, _) => Top::Other,
        _ => Top::Hidden,
    }
}

fn top_of(store: &Store, cell: Cell) -> Top {
    match cell {
        Cell::Const(_, _) | Cell::Int(_) | Cell::Text(_) | Cell::Eigen(_) | Cell::Index(_) => {
            Top::Leaf
        }
        Cell::Logic(level) => Top::Variable(level),
        Cell::Abs(body) => Top::Abstraction(body),
        Cell::App(head, _) => match followed(store, head) {
            Some((_, top)) => applied(top),
            None => Top::Other,
        },
        Cell::Susp(_, _, _, _) => Top::Hidden,
        _ => Top::Other,
    }
}

// Puts the arguments of an application on the stack, the first of them on top.
fn push_arguments(store: &Store, cell: CellId, steps: &mut Vec<Step>) -> Result<(), Memory> {
    if !store.has(cell) {
        return Ok(());
    }
    if let Cell::App(_, list) = store.cell(cell) {
        for argument in store.items(list).iter().rev() {
            steps.push(Step::Visit(*argument))?;
        }
    }
    Ok(())
}

// The nodes and the variables that were counted.
#[derive(Clone, Copy)]
struct Count {
    nodes: u64,
    variables: u64,
}

impl Count {
    fn add(&mut self, nodes: u64) {
        self.nodes = self.nodes.saturating_add(nodes);
    }
}

impl Heap {
    /// A choice point is made.
    pub(crate) fn mark_sizes(&mut self) -> Result<(), Memory> {
        self.sizes.mark()
    }

    /// The newest choice point is gone back to.
    pub(crate) fn forget_sizes(&mut self) {
        self.sizes.go_back();
    }

    /// The oldest choice points are kept.
    pub(crate) fn cut_sizes(&mut self, height: usize) {
        self.sizes.cut(height);
    }

    // Brings a term to its head-normal form, or tells how the search ends.
    fn reduce(&mut self, term: CellId) -> Result<Option<Ending>, Memory> {
        let there = known(&mut self.store, term)?;
        match head_normal(self.alloc, &mut self.store, there, RUN_LIMIT) {
            Ok(_) => Ok(None),
            Err(refusal) => Ok(Some(refused(refusal)?)),
        }
    }

    // A term, head-normal; nothing where it is no cell of the store.
    fn seen(&mut self, cell: CellId) -> Result<Result<Option<(CellId, Top)>, Ending>, Memory> {
        let Some((at, found)) = followed(&self.store, cell) else {
            return Ok(Ok(None));
        };
        let top = top_of(&self.store, found);
        let Top::Hidden = top else {
            return Ok(Ok(Some((at, top))));
        };
        if let Some(ending) = self.reduce(at)? {
            return Ok(Err(ending));
        }
        let Some((normal, other)) = followed(&self.store, at) else {
            return Ok(Ok(None));
        };
        Ok(Ok(Some((normal, top_of(&self.store, other)))))
    }

    // The nodes of a suspension that puts atoms in the place of indices: as many as those of its term, where these were counted.
    fn nodes_inside(&self, cell: CellId) -> Option<u64> {
        let (_, found) = followed(&self.store, cell)?;
        let Cell::Susp(term, _, _, env) = found else {
            return None;
        };
        let (inside, _) = followed(&self.store, term)?;
        let nodes = self.sizes.known(inside)?;
        if gives_atoms(&self.store, env) {
            return Some(nodes);
        }
        None
    }

    // Visits a term. Whether it can be counted.
    fn visit(
        &mut self,
        cell: CellId,
        level: u64,
        count: &mut Count,
    ) -> Result<Result<bool, Ending>, Memory> {
        if let Some(nodes) = self.nodes_inside(cell) {
            count.add(nodes);
            return Ok(Ok(true));
        }
        let (at, top) = match self.seen(cell)? {
            Ok(Some(seen)) => seen,
            Ok(None) => return Ok(Ok(false)),
            Err(ending) => return Ok(Err(ending)),
        };
        match top {
            Top::Leaf => count.add(1),
            Top::Variable(own) => {
                if own > level {
                    return Ok(Ok(false));
                }
                count.add(1);
                count.variables = count.variables.saturating_add(1);
            }
            Top::Abstraction(body) => self.open_body(at, body, count)?,
            Top::Application => self.open_application(at, count)?,
            Top::Hidden | Top::Other => return Ok(Ok(false)),
        }
        Ok(Ok(true))
    }

    fn open_body(&mut self, at: CellId, body: CellId, count: &mut Count) -> Result<(), Memory> {
        if let Some(nodes) = self.sizes.known(at) {
            count.add(nodes);
            return Ok(());
        }
        self.sizes
            .steps
            .push(Step::Close(at, count.nodes, count.variables))?;
        self.sizes.steps.push(Step::Visit(body))?;
        Ok(())
    }

    fn open_application(&mut self, at: CellId, count: &mut Count) -> Result<(), Memory> {
        if let Some(nodes) = self.sizes.known(at) {
            count.add(nodes);
            return Ok(());
        }
        self.sizes
            .steps
            .push(Step::Close(at, count.nodes, count.variables))?;
        count.add(1);
        push_arguments(&self.store, at, &mut self.sizes.steps)
    }

    fn next_step(&mut self) -> Option<Step> {
        self.sizes.steps.pop()
    }

    fn begin_steps(&mut self, term: CellId) -> Result<(), Memory> {
        self.sizes.steps.clear();
        self.sizes.steps.push(Step::Visit(term))?;
        Ok(())
    }

    // Takes a step. Whether the term can be counted.
    fn take_step(
        &mut self,
        step: Step,
        level: u64,
        count: &mut Count,
    ) -> Result<Result<bool, Ending>, Memory> {
        match step {
            Step::Visit(cell) => self.visit(cell, level, count),
            Step::Close(cell, nodes, variables) => {
                if count.variables == variables {
                    self.sizes.note(cell, count.nodes.saturating_sub(nodes))?;
                }
                Ok(Ok(true))
            }
        }
    }

    // The nodes of a term that has no parts, or was counted.
    fn known_nodes(&self, term: CellId, level: u64) -> Option<u64> {
        let (at, found) = followed(&self.store, term)?;
        match top_of(&self.store, found) {
            Top::Leaf => Some(1),
            Top::Variable(own) if own <= level => Some(1),
            Top::Abstraction(_) | Top::Application => self.sizes.known(at),
            Top::Hidden => self.nodes_inside(at),
            _ => None,
        }
    }

    /// The nodes of a term whose variables have no level above this one. What was counted once is not counted again.
    pub(crate) fn nodes_of(&mut self, term: CellId, level: u64) -> Result<Nodes, Memory> {
        if let Some(nodes) = self.known_nodes(term, level) {
            return Ok(Nodes::Many(nodes));
        }
        let mut count = Count {
            nodes: 0,
            variables: 0,
        };
        self.begin_steps(term)?;
        for _ in 0..u64::MAX {
            let Some(step) = self.next_step() else {
                return Ok(Nodes::Many(count.nodes));
            };
            if count.nodes > RUN_LIMIT {
                return Ok(Nodes::Many(count.nodes));
            }
            match self.take_step(step, level, &mut count)? {
                Ok(true) => {}
                Ok(false) => return Ok(Nodes::Unknown),
                Err(ending) => return Ok(Nodes::Ended(ending)),
            }
        }
        Err(Memory)
    }
}
