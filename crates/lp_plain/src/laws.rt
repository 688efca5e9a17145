// The notes and the steps of a run are those from one event to the next, in order.
ghost use Rattle.std.specs.Prelude.{◌≡◌, ◌++◌, ◌+◌, [], ℕ, List, Some};
ghost use Rattle.lp_model.specs.Events.{Advances, Gave, Over};
ghost use Rattle.lp_model.specs.Skeleton.{Note, State, View, run};
ghost use Rattle.lp_model.specs.declared.ending.Ending.{Ending};
ghost use Rattle.lp_plain.specs.Stepping.{Relays, notes_told, run_told, steps_until};

/// Nothing is told yet.
pub fn nothing_is_told_first<Task, Answer>()
    ensures { (look : ℕ → Task → View Task Answer) (s : State Task) → Relays look s 0 [] s }
{}

/// What is told until one more answer.
pub fn notes_of_answers_gather<Task, Answer>()
    ensures { (look : ℕ → Task → View Task Answer) (s t u : State Task) (steps : ℕ) (notes : List Note) (a : Answer) → Relays look s steps notes t → (d : Advances look t (Gave a) u) →
        Relays look s (steps + steps_until look d.inner_moves d.moves t) (notes ++ notes_told look d.inner_moves d.moves t) u }
{}

/// What is told until the end: all that a run tells.
pub fn notes_until_the_end_make_a_run<Task, Answer>()
    ensures { (look : ℕ → Task → View Task Answer) (s t u : State Task) (steps : ℕ) (notes : List Note) (e : Ending) → Relays look s steps notes t → (d : Advances look t (Over e) u) →
        (n : ℕ) × (run_told look n n s ≡ notes ++ notes_told look d.inner_moves d.moves t) × ((run look n n s).steps ≡ steps + steps_until look d.inner_moves d.moves t) × ((run look n n s).ending ≡ Some e) }
{}
