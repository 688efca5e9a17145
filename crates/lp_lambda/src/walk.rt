// What is left of a walk over the parts of a formula.
ghost use Rattle.std.specs.Prelude.{◌≡◌, ◌<◌, [], ◌∷◌, ◌++◌, length, map, reverse, IfOk, OnOk};
ghost use Rattle.lp_term.specs.Nodes.{Nodes};
ghost use Rattle.lp_lambda.specs.Pattern.{binder_of};
ghost use Rattle.lp_lambda.specs.inner.Walking.{part_in, scope_of, AreTasksIn, IsPut};
ghost use Rattle.lp_lambda.specs.declared.walk.Position.TheVariants as position;
ghost use Rattle.lp_lambda.specs.declared.walk.Task.TheVariants as task;

use lp_base::Memory;
use lp_term::TermId;
use std::alloc::Global;

/// Where a part of a formula stands: as a goal, as a clause, or inside a term.
#[derive(Clone, Copy)]
pub(crate) enum Position {
    Goal,
    Clause,
    Inside,
}

/// What binds a variable.
#[derive(Clone, Copy)]
pub(crate) enum Binder {
    Existential,
    Universal,
}

/// A part is to be looked at, or the innermost binder to be left.
#[derive(Clone, Copy)]
pub(crate) enum Task {
    Visit(Position, TermId),
    Leave,
}

/// What is left, the next task last, and what binds the variables of the next part, the innermost last.
#[derive(Drop)]
pub(crate) struct Walk {
    pub(crate) scope: Vec<Binder>,
    pub(crate) work: Vec<Task>,
}

impl Walk {
    /// A walk that begins with one part.
    pub(crate) fn of(alloc: Global, position: Position, part: TermId) -> Result<Walk, Memory>
        ensures scope { IfOk result (λ w. w.scope.items ≡ []) }
        ensures work { IfOk result (λ w. w.work.items ≡ task.Visit position part ∷ []) }
    {
        let mut work = Vec::new(alloc);
        work.push(Task::Visit(position, part))?;
        Ok(Walk {
            scope: Vec::new(alloc),
            work,
        })
    }

    /// One part more, the next one.
    pub(crate) fn visit(&mut self, position: Position, part: TermId) -> Result<(), Memory>
        ensures { OnOk result ((b : Nodes) → AreTasksIn b self.old → part.0 < length b.terms → IsPut b b (part_in b position (scope_of self.old) part ∷ []) self.old self.new) }
    {
        self.work.push(Task::Visit(position, part))?;
        Ok(())
    }

    /// Two parts more, the left one next.
    pub(crate) fn visit_both(
        &mut self,
        position: Position,
        left: TermId,
        other: Position,
        right: TermId,
    ) -> Result<(), Memory>
        ensures { OnOk result ((b : Nodes) → AreTasksIn b self.old → left.0 < length b.terms → right.0 < length b.terms →
            IsPut b b (part_in b position (scope_of self.old) left ∷ part_in b other (scope_of self.old) right ∷ []) self.old self.new) }
    {
        self.work.push(Task::Visit(other, right))?;
        self.work.push(Task::Visit(position, left))?;
        Ok(())
    }

    /// One part more, the next one, under a binder.
    pub(crate) fn visit_under(
        &mut self,
        binder: Binder,
        position: Position,
        part: TermId,
    ) -> Result<(), Memory>
        ensures { OnOk result ((b : Nodes) → AreTasksIn b self.old → part.0 < length b.terms → IsPut b b (part_in b position (binder ∷ scope_of self.old) part ∷ []) self.old self.new) }
    {
        self.work.push(Task::Leave)?;
        self.work.push(Task::Visit(position, part))?;
        self.scope.push(binder)?;
        Ok(())
    }

    /// The arguments of a head, the first one next.
    pub(crate) fn visit_all(&mut self, arguments: &[TermId]) -> Result<(), Memory>
        ensures scope { OnOk result (self.new.scope ≡ self.old.scope) }
        ensures work { OnOk result (self.new.work.items ≡ self.old.work.items ++ reverse (map (task.Visit position.Inside) arguments.now)) }
    {
        let mut left = arguments.len();
        'arguments: while left > 0 {
            left -= 1;
            self.work
                .push(Task::Visit(Position::Inside, arguments[left]))?;
        }
        Ok(())
    }

    /// What binds an index. One that is bound nowhere is a variable of the query.
    pub(crate) fn binder(&self, index: u64) -> Binder
        ensures { result ≡ binder_of (reverse self.now.scope.items) index }
    {
        let count = self.scope.len();
        if index >= count as u64 {
            return Binder::Existential;
        }
        self.scope[count - 1 - index as usize]
    }
}
