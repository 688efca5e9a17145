//! Principal typing, as laws over the definitions.
ghost use Rattle.std.specs.Prelude.{◌≡◌, ℕ, List, [], ◌∷◌, Some, None, map, pos};
ghost use Rattle.lp_calculus.specs.Types.{Ty, var, arrow, instance};
ghost use Rattle.lp_calculus.specs.Term.{Term, index, atom, abs, app, integer};
ghost use Rattle.lp_calculus.specs.Typing.{Context, Typed, int_type, string_type, list_type};
ghost use Rattle.lp_type_laws.specs.Equations.{AllHold, IsMostGeneral, HaveNoSolution};
ghost use Rattle.lp_infer.specs.Typing.{Raw, raw_index, raw_integer, raw_abs, raw_app, Elaborates, Leaves, AreDeclared, Typing, IsTyping, IsPrincipal, HasNoTyping, instance_term, put_typing};
ghost use Rattle.lp_infer.specs.Generate.{generated, typing_under, IsScoped};
ghost use Rattle.lp_infer.specs.Worked.{p, q, r, nil, cons, at, typing};

/// Each solution of a text's equations gives a typing, and each typing comes of a solution.
pub fn typings_are_solutions()
    ensures solution { (R : Raw) → (names k : ℕ) → IsScoped names k R → (ρ : ℕ → Ty) → AllHold ρ (generated R names k).equations →
        IsTyping R names (typing_under ρ names k (generated R names k)) }
    ensures typing { (R : Raw) → (names k : ℕ) → IsScoped names k R → (U : Typing) → IsTyping R names U →
        (ρ : ℕ → Ty) × AllHold ρ (generated R names k).equations × (typing_under ρ names k (generated R names k) ≡ U) }
{}

/// A most general solution of a text's equations gives the principal typing.
pub fn a_most_general_solution_is_principal()
    ensures { (R : Raw) → (names k : ℕ) → IsScoped names k R → (θ : ℕ → Ty) → IsMostGeneral (generated R names k).equations θ →
        IsPrincipal R names (typing_under θ names k (generated R names k)) }
{}

/// Where a text's equations have no solution, the text has no typing.
pub fn no_solution_is_no_typing()
    ensures { (R : Raw) → (names k : ℕ) → IsScoped names k R → HaveNoSolution (generated R names k).equations → HasNoTyping R names }
{}

/// Other names for the type variables keep a principal typing.
pub fn renaming_keeps_a_principal_typing()
    ensures { (R : Raw) → (names : ℕ) → (T : Typing) → (π ϖ : ℕ → Ty) → map (instance ϖ) (map (instance π) T.free) ≡ T.free →
        instance_term ϖ (instance_term π T.formula) ≡ T.formula → IsPrincipal R names T → IsPrincipal R names (put_typing π T) }
{}

/// A formula that leaves a text is typed in each context that declares the text's constants, and is the text without the type arguments.
pub fn formulas_of_a_text_are_typed()
    ensures typed { (K : Context) → (C : List Ty) → (R : Raw) → (t : Term) → (A : Ty) → AreDeclared K.declared R → Elaborates C R t A → Typed K C t A }
    ensures leaves { (C : List Ty) → (R : Raw) → (t : Term) → (A : Ty) → Elaborates C R t A → Leaves t R }
{}

/// Worked typings: `p nil`, `p (1 :: X)`, `r nil nil` at two types of nil, `q (x : int \ x)`; and none of `p 1` and `q (x\ x x)`, where
/// `p list A -> o`, `q A -> o`, `r list int -> list string -> o`.
pub fn worked_typings()
    ensures nil { IsPrincipal (raw_app p nil) 0 (typing [] (app (at 32 (var 0 ∷ [])) (at 15 (var 0 ∷ [])))) }
    ensures list { IsPrincipal (raw_app p (raw_app (raw_app cons (raw_integer (pos 1))) (raw_index 0))) 1
        (typing (list_type int_type ∷ []) (app (at 32 (int_type ∷ [])) (app (app (at 14 (int_type ∷ [])) (atom (integer (pos 1)))) (index 0)))) }
    ensures two { IsPrincipal (raw_app (raw_app r nil) nil) 0 (typing [] (app (app (at 34 []) (at 15 (int_type ∷ []))) (at 15 (string_type ∷ [])))) }
    ensures annotated { IsPrincipal (raw_app q (raw_abs (Some int_type) (raw_index 0))) 0 (typing [] (app (at 33 (arrow int_type int_type ∷ [])) (abs (index 0)))) }
    ensures one { HasNoTyping (raw_app p (raw_integer (pos 1))) 0 }
    ensures self_applied { HasNoTyping (raw_app q (raw_abs None (raw_app (raw_index 0) (raw_index 0)))) 0 }
{}
