// Entries behind a unification, with its bindings and its types put in.

ghost use Rattle.std.specs.Prelude.{ℕ, List, map};
ghost use Rattle.lp_calculus.specs.Types.{Ty};
ghost use Rattle.lp_calculus.specs.Fill.{Binding};
ghost use Rattle.lp_model.specs.Types.{TypeBinding};
ghost use Rattle.lp_model.specs.Pair.{Closing};
ghost use Rattle.lp_model.specs.Flat.{Clause};
ghost use Rattle.lp_model.specs.Branch.{Entry};
ghost use Rattle.lp_model.specs.Proofs.{Declared, no_leaf};
ghost use Rattle.lp_model.specs.Answers.{Variable, Closes};
ghost use Rattle.lp_unify_laws.specs.Solutions.{instance_binding, IsMore, AreTypedBindings};
ghost use Rattle.lp_search_laws.specs.Branches.{AreTypedEntries, AreProved};
ghost use Rattle.lp_search_laws.specs.Behind.{LeadsThrough, behind, types_of, variables_of, eigens_of};

/// Entries stay typed, over the variables that are there then.
pub fn entries_stay_typed()
    ensures { (d : Declared) (V W : List Variable) (bs : List Binding) (ts : List TypeBinding) → IsMore (variables_of (types_of ts) V) W → AreTypedBindings d W (map (instance_binding (types_of ts)) bs) → (Es : List (List Ty)) (es : List Entry) → AreTypedEntries d V Es es → AreTypedEntries d W (eigens_of (types_of ts) Es) (behind bs ts es) }
{}

/// Under a closing that leads through the bindings and the types, entries are provable exactly where they were, each with what it assumes.
pub fn entries_go_through()
    ensures { (d : Declared) (V W : List Variable) (P : List Clause) (c z : Closing) (bs : List Binding) (ts : List TypeBinding) → LeadsThrough V c z bs ts → IsMore (variables_of (types_of ts) V) W → AreTypedBindings d W (map (instance_binding (types_of ts)) bs) → Closes d V c → Closes d W z → (Es : List (List Ty)) (es : List Entry) → AreTypedEntries d V Es es →
        (AreProved no_leaf d P c Es es → AreProved no_leaf d P z (eigens_of (types_of ts) Es) (behind bs ts es)) × (AreProved no_leaf d P z (eigens_of (types_of ts) Es) (behind bs ts es) → AreProved no_leaf d P c Es es) }
{}
