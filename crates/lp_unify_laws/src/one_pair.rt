// What the rules do to the solutions of a pair (Miller 1991, Nadathur 1993). A closing gives types to type variables, and to each variable
// a term that is closed at the variable's level.

ghost use Rattle.std.specs.Prelude.{◌≡◌, ℕ, List, length, true, Some};
ghost use Rattle.lp_calculus.specs.Term.{Term};
ghost use Rattle.lp_calculus.specs.Convert.{Converts};
ghost use Rattle.lp_calculus.specs.Fill.{Within};
ghost use Rattle.lp_model.specs.Look.{rigid, look};
ghost use Rattle.lp_model.specs.Pair.{Pair, Closing, closed, Solves};
ghost use Rattle.lp_model.specs.Rule.{Compared, compare, opened, decompose, Ruled, rule};
ghost use Rattle.lp_model.specs.Proofs.{Declared};
ghost use Rattle.lp_model.specs.Answers.{Variable, PairTyping, IsTypedPair};
ghost use Rattle.lp_unify_laws.specs.Levels.{UpTo, IsPair, IsClosing};
ghost use Rattle.lp_unify_laws.specs.Solutions.{instance_pair, IsRightFor, IsPlainlyRightFor};

/// Terms that comparing calls the same convert under each closing.
pub fn same_terms_convert()
    ensures { (n k : ℕ) (t u : Term) (c : Compared) → compare n k t u ≡ Some c → c.same ≡ true → Within (UpTo k) 0 t → Within (UpTo k) 0 u → (z : Closing) → Converts (closed z t) (closed z u) }
{}

/// A pair that is opened with a new eigenconstant has the solutions of the pair.
pub fn opened_pairs_are_the_same()
    ensures { (next : ℕ) (p : Pair) → IsPair next p → (c : Closing) → IsClosing c.terms → (Solves c p → Solves c (opened p)) × (Solves c (opened p) → Solves c p) }
{}

/// Rigid heads: what is taken apart has the solutions of the pair, once the types of the heads are one; other heads have none.
pub fn rigid_heads()
    ensures { (n m next : ℕ) (p : Pair) (h g : Term) (ts us : List Term) (r : Ruled) → IsPair next p → look n p.left ≡ Some (rigid h ts) → look n p.right ≡ Some (rigid g us) → decompose m p.level h ts g us ≡ Some r → (c : Closing) → IsClosing c.terms → IsPlainlyRightFor c p r.verdict }
{}

/// The first rule that applies to a typed pair keeps each typed solution, adds none, and fails only where there is none.
pub fn rules_keep_and_add_no_solution()
    ensures { (d : Declared) (V : List Variable) (n : ℕ) (p : Pair) (q : PairTyping) (r : Ruled) (c : Closing) → IsTypedPair d V q (instance_pair c.types p) → rule n (length V) p ≡ Some r → IsClosing c.terms → IsRightFor d V c p r.verdict }
{}
