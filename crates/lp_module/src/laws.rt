//! Laws of modules and programs.
ghost use Rattle.std.specs.Prelude.{◌≡◌, ℕ, ◌+◌, List, Some, None, slice_get};
ghost use Rattle.lp_lemmas.specs.Each.{EachOf};
ghost use Rattle.lp_syntax.specs.declared.text.ModuleText.{ModuleText};
ghost use Rattle.lp_sig.specs.declared.entries.ConstantEntry.{ConstantEntry};
ghost use Rattle.lp_sig.specs.declared.signature.Signature.{Signature};
ghost use Rattle.lp_module.specs.Closed.{AreClosedIn, AreClosedModules};
ghost use Rattle.lp_model.specs.Readings.{declared_by};
ghost use Rattle.lp_module.specs.Joined.{AreJoined, DeclaresCopy};
ghost use Rattle.lp_module.specs.Meaning.{IsMeaning};
ghost use Rattle.lp_module.specs.Orderly.{IsOrderly, AreOrderly, HasType};
ghost use Rattle.lp_module.specs.Program.{IsProgram, place_in};
ghost use Rattle.lp_module.specs.declared.copies.Assembled.{Assembled};
ghost use Rattle.lp_module.specs.declared.module.Module.{Module};

/// No clause of a module has a loose index.
pub fn clauses_are_closed()
    ensures { (source : List ℕ) (text : ModuleText) (expected : List ℕ) (own : Signature) (used : List Signature) (m : Module) → IsMeaning source text expected own used m → AreClosedIn m.bank m.clauses.items }
{}

/// No clause of a program has one, if none of its modules has.
pub fn program_is_closed()
    ensures { (modules : List Module) (root : ℕ) (a : Assembled) → IsProgram modules root a → AreClosedModules modules → AreClosedIn a.program.bank a.program.clauses.items }
{}

/// The hidden names of a module stand behind those that it exports.
pub fn modules_are_orderly()
    ensures { (source : List ℕ) (text : ModuleText) (expected : List ℕ) (own : Signature) (used : List Signature) (m : Module) → IsMeaning source text expected own used m → IsOrderly m }
{}

/// The table of a program has each hidden constant of a copy, and each constant that the root exports, under its number there, with the type that it has in the copy.
pub fn programs_have_types()
    ensures hidden { (modules : List Module) (root : ℕ) (a : Assembled) (p : IsProgram modules root a) → AreOrderly modules → EachOf (λ c. (m : Module) → slice_get modules c.member ≡ Some m → (i : ℕ) (e : ConstantEntry) → slice_get m.signature.constants.items i ≡ Some e → (j : ℕ) → place_in m.hidden_constants.items (32 + i) ≡ Some j → HasType a c m i e) p.copied }
    ensures exported { (modules : List Module) (root : ℕ) (a : Assembled) (p : IsProgram modules root a) → AreOrderly modules → (i : ℕ) (e : ConstantEntry) → slice_get p.are.top.signature.constants.items i ≡ Some e → place_in p.are.top.hidden_constants.items (32 + i) ≡ None → HasType a p.are.copy p.are.top i e }
{}

/// Where each module sees what those export that it accumulates, the table of a program has each constant that a module sees, under its number in a copy, with the type that it has in the copy.
pub fn programs_declare()
    ensures { (modules : List Module) (root : ℕ) (a : Assembled) (p : IsProgram modules root a) → AreJoined modules → EachOf (λ c. (m : Module) → slice_get modules c.member ≡ Some m → DeclaresCopy (declared_by a.program.bank a.program.constants.items) c m.signature) p.copied }
{}
