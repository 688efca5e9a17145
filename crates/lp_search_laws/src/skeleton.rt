// The search over a stack, whatever a task is. (Soundness and exhaustion for every faithful look speak of all predicates on tasks,
// which a contract cannot: they are the lemmas `sound`, `fine` and `exhausts` of proofs/Stack/Faithful.)

ghost use Rattle.std.specs.Prelude.{◌≡◌, ◌++◌, ◌+◌, ◌<◌, ◌≤◌, ◌∷◌, [], ℕ, Bool, true, List, Some};
ghost use Rattle.lp_model.specs.declared.ending.Ending.{Ending};
ghost use Rattle.lp_model.specs.declared.ending.Ending.TheVariants.{NoMore};
ghost use Rattle.lp_model.specs.Events.{Advances, Event, Gathers, Gave, Over};
ghost use Rattle.lp_model.specs.Faithful.{Falls, IsLack};
ghost use Rattle.lp_model.specs.Moves.{answers_noted, moves, numbers_after, steps_noted, told_of};
ghost use Rattle.lp_model.specs.Skeleton.{Held, Note, Refuted, State, View, inner, run};

/// Every run ends, where some weight of tasks falls at each task that opens others at no step, and no look lacks steps.
pub fn every_run_ends<Task, Answer>()
    ensures { (look : ℕ → Task → View Task Answer) → (w : Task → ℕ) → Falls look w → ((height : ℕ) (t : Task) → IsLack (look height t) → ⊥) → (s : State Task) → (n : ℕ) × (e : Ending) × ((run look n n s).ending ≡ Some e) }
{}

/// A run that is over tells the same with more moves.
pub fn ended_run_stays<Task, Answer>()
    ensures { (look : ℕ → Task → View Task Answer) → (j k n m : ℕ) → j ≤ k → n ≤ m → (s : State Task) → (e : Ending) → (run look j n s).ending ≡ Some e → run look k m s ≡ run look j n s }
{}

/// A run tells what its moves tell.
pub fn moves_tell<Task, Answer>()
    ensures { (look : ℕ → Task → View Task Answer) → (j n : ℕ) → (s : State Task) → run look j n s ≡ told_of (moves look j n s) }
{}

/// The steps of a run are its notes of goals and cuts.
pub fn steps_are_noted<Task, Answer>()
    ensures { (look : ℕ → Task → View Task Answer) → (j n : ℕ) → (s : State Task) → (run look j n s).steps ≡ steps_noted (run look j n s).notes }
{}

/// The answers of a run are noted, numbered in a row.
pub fn answers_are_noted<Task, Answer>()
    ensures { (look : ℕ → Task → View Task Answer) → (j n : ℕ) → (s : State Task) → answers_noted (run look j n s).notes ≡ numbers_after s.given (run look j n s).answers }
{}

/// Answers that come one after the other, and then the end, are those of a run.
pub fn events_make_a_run<Task, Answer>()
    ensures { (look : ℕ → Task → View Task Answer) → (s t u : State Task) → (told : List Answer) → (e : Ending) → Gathers look s told t → Advances look t (Over e) u → (n : ℕ) × ((run look n n s).answers ≡ told) × ((run look n n s).ending ≡ Some e) }
{}

/// One more answer that comes behind others.
pub fn answers_gather<Task, Answer>()
    ensures { (look : ℕ → Task → View Task Answer) → (s t u : State Task) → (told : List Answer) → (a : Answer) → Gathers look s told t → Advances look t (Gave a) u → Gathers look s (told ++ a ∷ []) u }
{}

/// Each answer leaves one fewer.
pub fn answers_left_fall<Task, Answer>()
    ensures { (look : ℕ → Task → View Task Answer) → (t u : State Task) → (a : Answer) → Advances look t (Gave a) u → u.answers < t.answers }
{}

/// A negated goal is refuted exactly where the run of its search has no more and gave nothing.
pub fn refuted_goals_fail<Task, Answer>()
    ensures { (look : ℕ → Task → View Task Answer) → (is_final : Answer → Bool) → (s : State Task) →
        ((j k p : ℕ) (ns : List Note) → inner look j is_final s ≡ Refuted k ns p → ((run look j j s).ending ≡ Some NoMore) × ((run look j j s).answers ≡ [])) ×
        ((j n : ℕ) → (run look j n s).ending ≡ Some NoMore → (run look j n s).answers ≡ [] → (k : ℕ) × (ns : List Note) × (p : ℕ) × (inner look (j + n) is_final s ≡ Refuted k ns p)) }
{}

/// It holds only where the first answer of that run is final.
pub fn held_goals_have_answers<Task, Answer>()
    ensures { (look : ℕ → Task → View Task Answer) → (is_final : Answer → Bool) → (s : State Task) → (j k p : ℕ) (ns : List Note) → inner look j is_final s ≡ Held k ns p → (a : Answer) × (more : List Answer) × (is_final a ≡ true) × ((run look j j s).answers ≡ a ∷ more) }
{}
