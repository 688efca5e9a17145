// Uniform proofs. The first k clauses are the program's.

ghost use Rattle.std.specs.Prelude.{◌++◌, ◌∷◌, ◌≤◌, [], length, map, ℕ, List};
ghost use Rattle.lp_calculus.specs.Convert.{Converts};
ghost use Rattle.lp_calculus.specs.Term.{Atom, Term, abs, apply, atom, index};
ghost use Rattle.lp_calculus.specs.Types.{Ty};
ghost use Rattle.lp_lemmas.specs.Each.{EachOf};
ghost use Rattle.lp_model.specs.Flatten.{ClauseFormula};
ghost use Rattle.lp_model.specs.Proofs.{Declared, Failure, IsFailure, IsFormula, PlainlyProvable, Provable, Rooted, Stands, assumed};
ghost use Rattle.lp_model.specs.Renaming.{HasLevel, IsRenaming, renamed, renamed_clause};
ghost use Rattle.lp_proof_laws.specs.Unnegated.{IsUnnegated};
ghost use Rattle.lp_proof_laws.specs.Worked.{impl, kind, on, one_predicate};
ghost use Rattle.lp_standard.specs.Connectives.{not_of, pi_of};
ghost use Rattle.lp_standard.specs.Schemes.{IsStandard};

/// What is provable without a failing search stays so with more clauses, in any order. (With one it does not: `not p` is provable as long as no clause
/// for `p` is there.)
pub fn more_clauses_prove_as_much()
    ensures { (d : Declared) → (E : List Ty) → (P R : List ClauseFormula) → (G : Term) → Stands P R → PlainlyProvable d E P G → PlainlyProvable d E R G }
{}

/// A proof without a failing search proves whichever of the clauses are the program's.
pub fn plain_proofs_prove()
    ensures { (d : Declared) → (k : ℕ) → (E : List Ty) → (P : List ClauseFormula) → (G : Term) → PlainlyProvable d E P G → Provable d k E P G }
{}

/// And where neither the clauses nor the goal have a negation, each proof is one without a failing search.
pub fn proofs_without_negation_are_plain()
    ensures { (d : Declared) → (k : ℕ) → (E : List Ty) → (P : List ClauseFormula) → (G : Term) → EachOf (λ D. IsUnnegated D.formula) P → IsUnnegated G → Provable d k E P G → PlainlyProvable d E P G }
{}

/// A formula that a provable one converts to is provable.
pub fn provable_up_to_conversion()
    ensures { (d : Declared) → (k : ℕ) → (E : List Ty) → (P : List ClauseFormula) → (G H : Term) → IsFormula d E H → Converts H G → Provable d k E P H → Provable d k E P G }
{}

/// An assumption may give way to one that it converts to.
pub fn assumptions_convert()
    ensures { (d : Declared) → (k : ℕ) → (E : List Ty) → (P : List ClauseFormula) → k ≤ length P → (D F G : Term) → IsFormula d E D → IsFormula d E F → Converts D F → Provable d k E (P ++ assumed D ∷ []) G → Provable d k E (P ++ assumed F ∷ []) G }
{}

/// Inversion: a provable formula with an atom of the calculus at its head, as each connective has, has a proof that begins with the rule of that head.
pub fn proofs_begin_at_the_head()
    ensures { (d : Declared) → IsStandard d → (k : ℕ) → (E : List Ty) → (P : List ClauseFormula) → k ≤ length P → (a : Atom) → (us : List Term) → IsFormula d E (apply (atom a) us) → Provable d k E P (apply (atom a) us) → Rooted d k E P (apply (atom a) us) }
{}

/// So a proof of a negated formula is a search of the formula that fails, and nothing else.
pub fn negations_are_proved_by_failures()
    ensures { (d : Declared) → IsStandard d → (k : ℕ) → (E : List Ty) → (P : List ClauseFormula) → k ≤ length P → (H : Term) → IsFormula d E (not_of H) → Provable d k E P (not_of H) → (f : Failure) × IsFailure d k E P H f }
{}

/// Eigenconstants may be renamed in a proof without a failing search: with others of their types in their place, two of them maybe the same, it goes
/// through, whatever stands beside them. So which fresh one a `pi` is opened with does not matter.
pub fn eigenconstants_may_be_renamed()
    ensures { (d : Declared) → (E F : List Ty) → (ρ : ℕ → ℕ) → IsRenaming E F ρ → (P : List ClauseFormula) → (G : Term) → EachOf (λ D. HasLevel (length E) D.formula) P → HasLevel (length E) G → PlainlyProvable d E P G → PlainlyProvable d F (map (renamed_clause ρ) P) (renamed ρ G) }
{}

/// A uniform proof, written out: of `pi x\ (q x => q x)`, from no clauses.
pub fn a_proof_written_out()
    ensures { PlainlyProvable one_predicate [] [] (pi_of (kind 8) (abs (impl (on 32 (index 0)) (on 32 (index 0))))) }
{}
