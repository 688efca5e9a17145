// Proofs whose leaves for negated goals are failing searches.

ghost use Rattle.std.specs.Prelude.{◌≤◌, length, map, List};
ghost use Rattle.lp_calculus.specs.Term.{Term};
ghost use Rattle.lp_calculus.specs.Types.{Ty};
ghost use Rattle.lp_model.specs.Flat.{Clause};
ghost use Rattle.lp_model.specs.Flatten.{ClauseFormula};
ghost use Rattle.lp_lemmas.specs.Each.{EachOf};
ghost use Rattle.lp_model.specs.Proofs.{Declared, Failure, ProvableBy};
ghost use Rattle.lp_model.specs.Renaming.{HasLevel, renamed, renamed_clause};
ghost use Rattle.lp_search_laws.specs.Branches.{IsProgramTyped};
ghost use Rattle.lp_search_laws.specs.Failed.{InAny, IsFailedSearch, Order, SameClauses, SameGoal};
ghost use Rattle.lp_search_laws.specs.Widened.{Additions, HaveClosedTypes, moved_to, olds, widened};
ghost use Rattle.lp_standard.specs.Schemes.{IsStandard};

/// The same goal is provable from the same clauses: conversion of the goal and of assumptions, flattening of a goal, of an assumption and of the program, and assumptions
/// made together or each on its own change nothing; nor does the order of the clauses, where the leaves may have them in any.
pub fn same_goals_are_provable()
    ensures { (o : Order) (d : Declared) → IsStandard d → (P : List Clause) (E : List Ty) (Q R : List ClauseFormula) (G H : Term) → SameClauses o d P E Q R → SameGoal d E G H → (ProvableBy (IsFailedSearch o d P) d E Q G → ProvableBy (IsFailedSearch o d P) d E R H) × (ProvableBy (IsFailedSearch o d P) d E R H → ProvableBy (IsFailedSearch o d P) d E Q G) }
{}

/// A failing search with the assumptions in their order is one with the clauses in any; so is a proof with such leaves one with the others.
pub fn leaves_in_order_are_leaves()
    ensures proofs { (o : Order) (d : Declared) (P : List Clause) (E : List Ty) (R : List ClauseFormula) (G : Term) → ProvableBy (IsFailedSearch o d P) d E R G → ProvableBy (IsFailedSearch InAny d P) d E R G }
    ensures leaves { (o : Order) (d : Declared) (P : List Clause) (E : List Ty) (R : List ClauseFormula) (G : Term) (f : Failure) → IsFailedSearch o d P E R G f → IsFailedSearch InAny d P E R G f }
{}

/// Further eigenconstants may stand among those of a proof, which stay in their order: it goes through with its failing searches, each of which is one, with the same
/// limits. So a renaming that is one to one, keeps types and keeps the order may be put on a proof. (The order of what is searched matters: a variable of a search may
/// take the first eigenconstants up to its level.)
pub fn eigenconstants_may_be_added()
    ensures proofs { (o : Order) (d : Declared) (P : List Clause) → EachOf (IsProgramTyped d) P → (A : Additions) → HaveClosedTypes A → (E : List Ty) → olds A ≤ length E → (R : List ClauseFormula) (G : Term) → EachOf (λ D. HasLevel (length E) D.formula) R → HasLevel (length E) G →
        ProvableBy (IsFailedSearch o d P) d E R G → ProvableBy (IsFailedSearch o d P) d (widened A E) (map (renamed_clause (moved_to A)) R) (renamed (moved_to A) G) }
    ensures leaves { (o : Order) (d : Declared) (P : List Clause) → EachOf (IsProgramTyped d) P → (A : Additions) → HaveClosedTypes A → (E : List Ty) → olds A ≤ length E → (R : List ClauseFormula) (G : Term) (f : Failure) →
        IsFailedSearch o d P E R G f → (g : Failure) × IsFailedSearch o d P (widened A E) (map (renamed_clause (moved_to A)) R) (renamed (moved_to A) G) g }
{}
