// Looks at typed tasks have enough steps, with enough of them.

ghost use Rattle.std.specs.Prelude.{◌≡◌, ◌≤◌, ℕ, List};
ghost use Rattle.lp_calculus.specs.Term.{Term};
ghost use Rattle.lp_model.specs.Unify.{unit_limit};
ghost use Rattle.lp_lemmas.specs.Each.{EachOf};
ghost use Rattle.lp_model.specs.Flat.{Clause};
ghost use Rattle.lp_model.specs.Search.{look};
ghost use Rattle.lp_model.specs.Branch.{Entry, Branch, Task, Go, Try};
ghost use Rattle.lp_model.specs.Answers.{Query};
ghost use Rattle.lp_model.specs.Proofs.{Declared};
ghost use Rattle.lp_standard.specs.Schemes.{IsStandard};
ghost use Rattle.lp_search_laws.specs.Branches.{BranchTyping, IsTypedBranch, IsTypedTry, IsProgramTyped};
ghost use Rattle.lp_search_laws.specs.Enough.{HasEnough};

/// What is looked at in a typed branch comes to something.
pub fn branches_have_enough()
    ensures { (n : ℕ) (d : Declared) → IsStandard d → (q : Query) (y : BranchTyping) (b : Branch) → IsTypedBranch n d q y b → (m : ℕ) × HasEnough m (Go b) }
{}

/// So does what a typed try unifies.
pub fn tries_have_enough()
    ensures { (n : ℕ) (d : Declared) → IsStandard d → (P : List Clause) → EachOf (IsProgramTyped d) P → (q : Query) (y : BranchTyping) (c : Clause) (t : Term) (e : Entry) (b : Branch) (mark : ℕ) → IsTypedTry n d P q y c t e b → (m : ℕ) × HasEnough m (Try c t e b mark) }
{}

/// More steps are enough, too.
pub fn more_steps_are_enough()
    ensures { (n m : ℕ) → n ≤ m → (t : Task) → HasEnough n t → HasEnough m t }
{}

/// And they see the same.
pub fn enough_steps_see_all()
    ensures { (n m : ℕ) → n ≤ m → (P : List Clause) (height : ℕ) (t : Task) → HasEnough n t → look unit_limit m P height t ≡ look unit_limit n P height t }
{}
