// What holds of faults. The law is the contract of a function without a body.
ghost use Rattle.std.specs.Prelude.{◌≡◌, ℕ, List, Some};
ghost use Rattle.lp_calculus.specs.Types.{Ty};
ghost use Rattle.lp_calculus.specs.Term.{Term};
ghost use Rattle.lp_calculus.specs.Typing.{Context, Typed};
ghost use Rattle.lp_standard.specs.Schemes.{IsStandard};
ghost use Rattle.lp_model.specs.declared.ending.Fault.{Fault};
ghost use Rattle.lp_model.specs.Values.{Outcome, Faults, evaluate};
ghost use Rattle.lp_arith.specs.Meaning.{HasFault, IsValueType};

/// The fault of a typed expression, as `evaluate` tells it of its beta-normal form, is that of the definition, which takes the eta-normal form of
/// that first: eta contraction changes nothing of the outcome of a typed term.
pub fn typed_faults()
    ensures { (K : Context) → (C : List Ty) → IsStandard K.declared → (t : Term) → (T : Ty) → Typed K C t T → IsValueType T → (f : Fault) → HasFault t f → (n : ℕ) → (o : Outcome) → evaluate n t ≡ Some o → o ≡ Faults f }
{}
