// The objects of modules.
ghost use Rattle.std.specs.Prelude.{◌≡◌, All, length, map, IfErr, IfOk, OnOk, None, if◌then◌else◌};
ghost use Rattle.lp_term.specs.Memo.{AreMade};
ghost use Rattle.lp_term.specs.Nodes.{Extends, Nodes};
ghost use Rattle.lp_term.specs.Same.{same_map};
ghost use Rattle.lp_sig.specs.Rows.{fixity_row, found};
ghost use Rattle.lp_model.specs.Readings.{scheme_of};
ghost use Rattle.lp_code.specs.Naming.{scheme_in};
ghost use Rattle.lp_module.specs.Program.{clauses_in};
ghost use Rattle.lp_module.specs.Sentences.{AreWithin};
ghost use Rattle.lp_normal.specs.Counted.{IsOver};
ghost use Rattle.lp_build.specs.Compiled.{AreExported, ArePaired, DenoteFlattened, HasNamesOf, IsObjectConstant, IsObjectKind, IsObjectOf};
ghost use Rattle.lp_build.specs.Faults.{IsOfTexts};
ghost use Rattle.lp_build.specs.Limits.{HasFewNames, HasManyNames};
ghost use Rattle.lp_build.specs.Uncoded.{HasManyIn, HaveFewIn, IsFirstUncoded, IsUncoded, IsWithinCode, schemes_of};
ghost use Rattle.lp_build.specs.inner.Coded.{AreFlat, signature_tables};

use crate::fault::{BuildFault, of_flattening, of_generator};
use lp_base::{END_OF_NUMBERS, Limit, Memory};
use lp_code::{Code, Object, ObjectConstant, ObjectKind};
use lp_fixity::Fixity;
use lp_gen::generate;
use lp_model::{Clause, ClauseFormula, Declared};
use lp_module::Module;
use lp_normal::{NormalRefusal, normalise};
use lp_sig::{ConstantEntry, KindEntry, Signature};
use lp_standard::{FIRST_CONSTANT, FIRST_KIND};
use lp_term::{Bank, Changed, Same};
use std::alloc::Global;

// A kind of an object.
fn object_kind(alloc: Global, entry: &KindEntry, exported: bool) -> Result<ObjectKind, Memory>
    ensures kind { IfOk result (IsObjectKind entry.now) }
    ensures exported { IfOk result (λ kind. kind.exported ≡ exported) }
{
    let name = Vec::from_slice(alloc, entry.name.as_slice())?;
    Ok(ObjectKind {
        exported,
        name,
        arity: entry.arity,
    })
}

// The kinds of a module, of which the first ones are exported.
fn kinds_of(
    alloc: Global,
    signature: &Signature,
    exported: usize,
) -> Result<Vec<ObjectKind>, Memory>
    ensures kinds { IfOk result (λ kinds. ArePaired IsObjectKind signature.now.kinds.items (length signature.now.kinds.items) kinds.items) }
    ensures exported { IfOk result (λ kinds. AreExported (λ k. k.exported) exported kinds.items) }
{
    let entries = signature.kinds();
    let mut kinds = Vec::new(alloc);
    for at in 0..entries.len() {
        let kind = object_kind(alloc, &entries[at], at < exported)?;
        kinds.push(kind)?;
    }
    Ok(kinds)
}

// The fixity of an exported constant.
fn fixity_of(signature: &Signature, name: &[u8], exported: bool) -> Option<(Fixity, u8)>
    ensures { result ≡ (if exported then found name.now (map fixity_row signature.now.fixities.items) else None) }
{
    if exported {
        signature.fixity(name)
    } else {
        None
    }
}

// A constant of an object; its type comes to stand in the bank.
fn object_constant(
    alloc: Global,
    signature: &Signature,
    entry: &ConstantEntry,
    exported: bool,
    changed: &mut Changed,
    bank: &mut Bank,
) -> Result<ObjectConstant, Memory>
    ensures kept { Extends bank.old bank.new }
    ensures constant { AreMade same_map signature.now.bank bank.old changed.old → IfOk result (λ constant. (later : Nodes) → Extends bank.new later → IsObjectConstant signature.now later entry.now constant) }
    ensures exported { IfOk result (λ constant. constant.exported ≡ exported) }
    ensures memo { AreMade same_map signature.now.bank bank.old changed.old → OnOk result (AreMade same_map signature.now.bank bank.new changed.new) }
{
    let name = Vec::from_slice(alloc, entry.name.as_slice())?;
    let fixity = fixity_of(signature, entry.name.as_slice(), exported);
    let scheme = changed.copy_type(alloc, &Same, signature.bank(), entry.scheme, bank)?;
    Ok(ObjectConstant {
        exported,
        name,
        type_vars: entry.type_vars,
        scheme,
        fixity,
    })
}

// The constants of a module, of which the first ones are exported; their types come to stand in the bank.
fn constants_of(
    alloc: Global,
    signature: &Signature,
    exported: usize,
    bank: &mut Bank,
) -> Result<Vec<ObjectConstant>, Memory>
    ensures constants { IfOk result (λ constants. ArePaired (IsObjectConstant signature.now bank.new) signature.now.constants.items (length signature.now.constants.items) constants.items) }
    ensures exported { IfOk result (λ constants. AreExported (λ c. c.exported) exported constants.items) }
{
    let entries = signature.constants();
    let mut changed = Changed::new(alloc);
    let mut constants = Vec::new(alloc);
    for at in 0..entries.len() {
        let is_exported = at < exported;
        let constant = object_constant(
            alloc,
            signature,
            &entries[at],
            is_exported,
            &mut changed,
            bank,
        )?;
        constants.push(constant)?;
    }
    Ok(constants)
}

// A constant of a module as a program declares it; its type comes to stand in the bank.
fn declared_constant(
    alloc: Global,
    signature: &Signature,
    entry: &ConstantEntry,
    changed: &mut Changed,
    bank: &mut Bank,
) -> Result<Declared, Memory>
    ensures kept { Extends bank.old bank.new }
    ensures scheme { AreMade same_map signature.now.bank bank.old changed.old → IfOk result (λ d. (later : Nodes) → Extends bank.new later → scheme_of later d ≡ scheme_in signature.now.bank entry.now.type_vars entry.now.scheme.0) }
    ensures memo { AreMade same_map signature.now.bank bank.old changed.old → OnOk result (AreMade same_map signature.now.bank bank.new changed.new) }
{
    let shown = Vec::from_slice(alloc, entry.name.as_slice())?;
    let scheme = changed.copy_type(alloc, &Same, signature.bank(), entry.scheme, bank)?;
    Ok(Declared {
        shown,
        type_vars: entry.type_vars,
        scheme,
    })
}

// The constants of a module as a program declares them; their types come to stand in the bank.
fn declared_of(
    alloc: Global,
    signature: &Signature,
    bank: &mut Bank,
) -> Result<Vec<Declared>, Memory>
    ensures kept { Extends bank.old bank.new }
    ensures declared { IfOk result (λ ds. map (scheme_of bank.new) ds.items ≡ schemes_of signature.now) }
{
    let entries = signature.constants();
    let mut changed = Changed::new(alloc);
    let mut declared = Vec::new(alloc);
    for entry in entries {
        let constant = declared_constant(alloc, signature, entry, &mut changed, bank)?;
        declared.push(constant)?;
    }
    Ok(declared)
}

// The flattened clauses of formulas, in written order.
fn flattened(
    alloc: Global,
    bank: &mut Bank,
    formulas: &[ClauseFormula],
) -> Result<Vec<Clause>, NormalRefusal>
    ensures kept { Extends bank.old bank.new }
    ensures flat { AreWithin bank.old formulas.now → IfOk result (λ clauses. AreFlat bank.old bank.new formulas.now clauses.items) }
    ensures limit { AreWithin bank.old formulas.now → IfErr result (IsOver (HasManyIn bank.old formulas.now)) }
    ensures few { AreWithin bank.old formulas.now → OnOk result (HaveFewIn bank.old formulas.now) }
{
    let mut clauses = Vec::new(alloc);
    for formula in formulas {
        let mut more = normalise(alloc, bank, *formula)?;
        clauses.append(&mut more)?;
    }
    Ok(clauses)
}

// The numbers of an object's kinds and constants are within their limit.
pub(crate) fn check_names(object: &Object) -> Result<(), BuildFault>
    ensures refused { IfErr result IsOfTexts }
    ensures cause { IfErr result (λ e. (e ≡ BuildFault.Limit Limit.Names) × HasManyNames (length object.now.kinds.items) (length object.now.constants.items)) }
    ensures within { OnOk result (HasFewNames (length object.now.kinds.items) (length object.now.constants.items)) }
{
    if object.kinds.len() > (END_OF_NUMBERS - FIRST_KIND) as usize {
        return Err(BuildFault::Limit(Limit::Names));
    }
    if object.constants.len() > (END_OF_NUMBERS - FIRST_CONSTANT) as usize {
        return Err(BuildFault::Limit(Limit::Names));
    }
    Ok(())
}

// The code of a module, or the first of the limits that it passes: `clauses` of one formula, or those of the code of all.
fn code_of(alloc: Global, module: &mut Module) -> Result<Code, BuildFault>
    ensures refused { IfErr result IsOfTexts }
    ensures denotes { AreWithin «module».old.bank «module».old.clauses.items →
        IfOk result (λ code. DenoteFlattened (signature_tables «module».old.signature) (clauses_in «module».old) code.records.items) }
    ensures cause { AreWithin «module».old.bank «module».old.clauses.items → IfErr result (IsUncoded «module».old) }
    ensures within { AreWithin «module».old.bank «module».old.clauses.items → OnOk result (IsWithinCode «module».old) }
{
    let clauses = match flattened(alloc, &mut module.bank, module.clauses.as_slice()) {
        Ok(clauses) => clauses,
        Err(refusal) => return Err(of_flattening(refusal)),
    };
    let declared = declared_of(alloc, &module.signature, &mut module.bank)?;
    match generate(alloc, &module.bank, declared.as_slice(), clauses.as_slice()) {
        Ok(code) => Ok(code),
        Err(refusal) => Err(of_generator(refusal)),
    }
}

// The code of a module is within its limits.
fn check_code(alloc: Global, module: &mut Module) -> Result<(), BuildFault>
    ensures refused { IfErr result IsOfTexts }
    ensures cause { AreWithin «module».old.bank «module».old.clauses.items → IfErr result (IsUncoded «module».old) }
    ensures within { AreWithin «module».old.bank «module».old.clauses.items → OnOk result (IsWithinCode «module».old) }
{
    match code_of(alloc, module) {
        Ok(_) => Ok(()),
        Err(refused) => Err(refused),
    }
}

// The code of each module is within its limits.
pub(crate) fn check_codes(alloc: Global, modules: Vec<Module>) -> Result<(), BuildFault>
    ensures refused { IfErr result IsOfTexts }
    ensures cause { All (λ m. AreWithin m.bank m.clauses.items) modules.items → IfErr result (IsFirstUncoded modules.items) }
    ensures within { All (λ m. AreWithin m.bank m.clauses.items) modules.items → OnOk result (All IsWithinCode modules.items) }
{
    for module in modules.into_iter() {
        let mut module = module;
        check_code(alloc, &mut module)?;
    }
    Ok(())
}

// Copies of names.
fn copies_of(alloc: Global, names: &[Vec<u8>]) -> Result<Vec<Vec<u8>>, Memory>
    ensures { IfOk result (λ copies. map (λ u. u.items) copies.items ≡ map (λ u. u.items) names.now) }
{
    let mut copies = Vec::new(alloc);
    for name in names {
        let copy = Vec::from_slice(alloc, name.as_slice())?;
        copies.push(copy)?;
    }
    Ok(copies)
}

// The object of a module without its code.
pub(crate) fn names_of(alloc: Global, module: &Module) -> Result<Object, Memory>
    ensures { IfOk result (HasNamesOf «module».now) }
{
    let signature = &module.signature;
    let exported_kinds = signature
        .kinds()
        .len()
        .saturating_sub(module.hidden_kinds.len());
    let exported = signature
        .constants()
        .len()
        .saturating_sub(module.hidden_constants.len());
    let mut bank = Bank::new(alloc);
    let kinds = kinds_of(alloc, signature, exported_kinds)?;
    let constants = constants_of(alloc, signature, exported, &mut bank)?;
    let uses = copies_of(alloc, module.uses.as_slice())?;
    let name = Vec::from_slice(alloc, module.name.as_slice())?;
    Ok(Object {
        name,
        bank,
        kinds,
        constants,
        uses,
        code: Code {
            records: Vec::new(alloc),
        },
    })
}

// An object with the code of its module.
pub(crate) fn with_code(alloc: Global, module: Module, names: Object) -> Result<Object, BuildFault>
    ensures refused { IfErr result IsOfTexts }
    ensures names { IfOk result (λ object. HasNamesOf «module» names → HasNamesOf «module» object) }
    ensures code { AreWithin «module».bank «module».clauses.items → IfOk result (λ object. HasNamesOf «module» object → IsObjectOf «module» object) }
    ensures cause { AreWithin «module».bank «module».clauses.items → IfErr result (IsUncoded «module») }
    ensures within { AreWithin «module».bank «module».clauses.items → OnOk result (IsWithinCode «module») }
{
    let mut module = module;
    let mut object = names;
    object.code = code_of(alloc, &mut module)?;
    Ok(object)
}
