//! Queries on the program of texts that are accepted.
ghost use Rattle.std.specs.Prelude.{◌≡◌, ℕ, List, [], Option};
ghost use Rattle.lp_base.specs.Held.{Held};
ghost use Rattle.lp_base.specs.declared.status.Status.{Status};
ghost use Rattle.lp_lemmas.specs.Each.{EachOf};
ghost use Rattle.lp_watch.specs.Seen.{Seen};
ghost use Rattle.lp_model.specs.Branch.{Answer};
ghost use Rattle.lp_model.specs.Flat.{Clause, Goals};
ghost use Rattle.lp_model.specs.Proofs.{Declared};
ghost use Rattle.lp_solve.specs.Queries.{IsFlat, IsQuery, entries, first_state, names, told_by};
ghost use Rattle.lp_solve.specs.Solved.{IsAnswered};
ghost use Rattle.lp_equation_laws.specs.Printed.{IsPatternText, PrintsValues};

/// Where the clauses of a program and a query on it are pattern text, no answer of the query's search has an equation left: within any limits of steps and answers, however many
/// steps each look takes, and however many moves are looked at.
pub fn accepted_queries_leave_no_equation()
    ensures { (told : Option Held) (name text : List ℕ) (q : IsQuery told name text) → IsPatternText q → (d : Declared) (P : List Clause) (gs : Goals) → IsFlat q d P gs → (n j m steps answers : ℕ) → EachOf (λ (a : Answer). a.pairs ≡ []) (told_by P n j m (first_state q gs steps answers)).answers }
{
    lp_lambda::accepted_texts_leave_no_equation();
    lp_pattern_laws::formulas::renumbered_pattern_text_stays_so();
}

/// So no equation is written of it: what `solve` writes of an accepted query are lines of values and a last line.
pub fn accepted_queries_print_no_equation()
    ensures { (told : Option Held) (name query : List ℕ) (q : IsQuery told name query) → IsPatternText q → (watchers : Option (List Seen)) (steps answers : ℕ) (status : Status) (text : List ℕ) → IsAnswered told name query q watchers steps answers status text → PrintsValues (entries q) (names q) text }
{
    accepted_queries_leave_no_equation();
}
