// Laws of modules, images and programs.
ghost use Rattle.std.specs.Prelude.{◌≡◌, ℕ, List, map, All, Option, Some};
ghost use Rattle.lp_calculus.specs.Typing.{Scheme};
ghost use Rattle.lp_model.specs.Flat.{Clause};
ghost use Rattle.lp_model.specs.Proofs.{AreFlattened};
ghost use Rattle.lp_model.specs.Readings.{formula_of};
ghost use Rattle.lp_code.specs.Denote.{denote};
ghost use Rattle.lp_code.specs.Naming.{image_tables};
ghost use Rattle.lp_code.specs.declared.image.Image.{Image};
ghost use Rattle.lp_syntax.specs.declared.text.ModuleText.{ModuleText};
ghost use Rattle.lp_syntax.specs.declared.text.SignatureText.{SignatureText};
ghost use Rattle.lp_sig.specs.AsWritten.{AreReady, DeclaresAsWritten};
ghost use Rattle.lp_module.specs.Program.{AreCopies, Copy, IsProgram};
ghost use Rattle.lp_module.specs.declared.copies.Assembled.{Assembled};
ghost use Rattle.lp_module.specs.declared.fault.ModuleFault.{ModuleFault};
ghost use Rattle.lp_module.specs.declared.module.Module.{Module};
ghost use Rattle.lp_build.specs.Copied.{HasCopies};
ghost use Rattle.lp_build.specs.Images.{IsImage};
ghost use Rattle.lp_build.specs.Meant.{AreModules, IsAsWritten, IsModuleAt};
ghost use Rattle.lp_build.specs.Nested.{FlattensWithin};
ghost use Rattle.lp_build.specs.Reads.{AreRead};
ghost use Rattle.lp_build.specs.Ready.{AreReadyForCode, FlattenTyped, FlattensTyped, HasTypedClauses, HaveTypedClauses, HoldWhatTheySee, HoldsWhatItSees};
ghost use Rattle.lp_build.specs.Refused.{AreWhole, IsModuleFault};
ghost use Rattle.lp_build.specs.SameNames.{HasOwnTypes, HasSameNames, HasSameTypes, HaveOwnTypes};
ghost use Rattle.lp_build.specs.Uncoded.{IsWithinCode};
ghost use Rattle.lp_build.specs.declared.sources.Sources.{Sources};
ghost use Rattle.lp_build.specs.declared.texts.Group.{Group};

/// The copies of an image are those of the program of the same modules, and each kind and constant of a copy has in the image the number that it has in
/// the program.
pub fn an_image_has_the_copies_of_the_program()
    ensures { (sources : Sources) (image : Image) (h : IsImage sources image) (copies : List Copy) → AreCopies h.modules h.is.root copies → HasCopies h.is.objects h.is.root copies }
{}

/// The names of an image are those of the program of the same modules, with the same hidden numbers, and its constants have the types that the program
/// gives them.
pub fn an_image_has_the_names_of_the_program()
    ensures names { (sources : Sources) (image : Image) (h : IsImage sources image) (a : Assembled) → IsProgram h.modules h.is.root a → HasSameNames a image }
    ensures types { (sources : Sources) (image : Image) (h : IsImage sources image) (a : Assembled) → IsProgram h.modules h.is.root a → AreRead sources → HasSameTypes a image }
{}

/// An image denotes the flattened clauses of the program of the same modules, where the modules are ready for code.
pub fn an_image_denotes_the_program()
    ensures { (sources : Sources) (image : Image) (h : IsImage sources image) (a : Assembled) (p : IsProgram h.modules h.is.root a) (d : ℕ → Option Scheme) (k : HasCopies h.is.objects h.is.root p.copied)
        → AreRead sources → AreReadyForCode d h.modules p.copied k.copies → (ds : List Clause) × (denote (image_tables image) image.code.records.items ≡ Some ds) × AreFlattened d (map (formula_of a.program.bank) a.program.clauses.items) ds }
{}

/// The signatures over which the module of a text is taken, or refused, are such as texts have, and no more than the text has words.
pub fn modules_see_signatures_of_texts()
    ensures meant { (sources : Sources) (g : Group SignatureText) (t : Group ModuleText) → AreRead sources → AreWhole sources g t → (place : ℕ) (m : Module) (is : IsModuleAt sources.files.items g t place m)
        → AreReady is.own is.used is.source.items is.text.lines.items }
    ensures refused { (sources : Sources) (g : Group SignatureText) (t : Group ModuleText) → AreRead sources → AreWhole sources g t → (place : ℕ) (e : ModuleFault) (is : IsModuleFault sources.files.items g t place e)
        → AreReady is.own is.used is.source.items is.text.lines.items }
{}

/// In the module of a text each constant that the text declares has the type that is written, and each abbreviation the body.
pub fn modules_have_the_types_that_are_written()
    ensures one { (sources : Sources) (g : Group SignatureText) (t : Group ModuleText) → AreRead sources → AreWhole sources g t → (place : ℕ) (m : Module) (is : IsModuleAt sources.files.items g t place m)
        → DeclaresAsWritten is.own is.used is.source.items is.text.lines.items m.signature }
    ensures all { (sources : Sources) (modules : List Module) → AreRead sources → (are : AreModules sources modules) → All (IsAsWritten sources.files.items are.signatures are.texts) modules }
{}

/// The types of the constants that the module of a text sees hold no other kinds than those of the language and those that it sees.
pub fn modules_see_the_kinds_of_their_types()
    ensures one { (sources : Sources) (g : Group SignatureText) (t : Group ModuleText) → AreRead sources → AreWhole sources g t → (place : ℕ) (m : Module) → IsModuleAt sources.files.items g t place m → HasOwnTypes m }
    ensures all { (sources : Sources) (modules : List Module) → AreRead sources → AreModules sources modules → HaveOwnTypes modules }
{}

/// The clauses of the module of a text hold no other kinds and constants than those of the language and those that the module sees.
pub fn modules_hold_what_they_see()
    ensures one { (sources : Sources) (g : Group SignatureText) (t : Group ModuleText) → AreRead sources → AreWhole sources g t → (place : ℕ) (m : Module) → IsModuleAt sources.files.items g t place m → HoldsWhatItSees m }
    ensures all { (sources : Sources) (modules : List Module) → AreRead sources → AreModules sources modules → HoldWhatTheySee modules }
{}

/// The clauses of the module of a text are of type `o`, over the types of the constants that the module sees.
pub fn modules_have_typed_clauses()
    ensures one { (sources : Sources) (g : Group SignatureText) (t : Group ModuleText) (place : ℕ) (m : Module) → IsModuleAt sources.files.items g t place m → HasTypedClauses m }
    ensures all { (sources : Sources) (modules : List Module) → AreRead sources → AreModules sources modules → HaveTypedClauses modules }
{}

/// What the clauses of the module of a text are flattened to is typed: each atom is of type `o`, over the types of the constants that the module sees.
pub fn flattened_clauses_are_typed()
    ensures one { (sources : Sources) (g : Group SignatureText) (t : Group ModuleText) (place : ℕ) (m : Module) → IsModuleAt sources.files.items g t place m → FlattensTyped m }
    ensures all { (sources : Sources) (modules : List Module) → AreRead sources → AreModules sources modules → FlattenTyped modules }
{}

/// What the clauses of a module that has code are flattened to is within the limits of instructions.
pub fn clauses_of_code_are_within_its_limits()
    ensures { («module» : Module) → IsWithinCode «module» → FlattensWithin «module» }
{}
