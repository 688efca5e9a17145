// The program of a set of modules.
ghost use Rattle.std.specs.Prelude.{◌≡◌, ◌≢◌, ℕ, ◌+◌, ◌<◌, ◌≤◌, ◌++◌, List, [], ◌∷◌, length, map, All, IfErr, IfOk, OnOk, if◌then◌else◌};
ghost use Rattle.std.specs.Str.{bytes_eq};
ghost use Rattle.lp_base.specs.declared.limits.TheConstants.{MAX_COPIES};
ghost use Rattle.lp_copies.specs.declared.names.TheConstants.{END_OF_IMAGE_NUMBERS};
ghost use Rattle.lp_copies.specs.Trees.{lists_in};
ghost use Rattle.lp_model.specs.Readings.{formula_of};
ghost use Rattle.lp_term.specs.Nodes.{type_tree};
ghost use Rattle.lp_module.specs.Copies.{IsOrder, IsTooMany, IsProgramRefusal, counts_of, total, kinds_end, constants_end, uses_of};
ghost use Rattle.lp_module.specs.Making.{AreTyped, IsSoFar, MakesNames};
ghost use Rattle.lp_module.specs.Numbering.{AreNumbered, count_in, following};
ghost use Rattle.lp_module.specs.Program.{Copy, IsProgram, AreCopies, HasTables, first_of, clauses_of as program_clauses, constant_as, exported_kinds, hidden_kinds, exported_constants, hidden_constants, exported_schemes, hidden_schemes};
ghost use Rattle.lp_module.specs.Sentences.{AreWithin};
ghost use Rattle.lp_module.specs.declared.numbers.Open.{Open};
ghost use Rattle.lp_module.specs.inner.Assembling.{next_of, copy_of, AddsClauses, AddsNames, Enters, Leaves, LeavesNames, IsPlanned};

use crate::fault::ModuleFault;
use crate::module::Module;
use crate::numbers::{Firsts, Names, Open, places_in};
use crate::tree::{Hidden, below_of, end_of_constants, end_of_kinds, order_of, totals_of, uses_of};
use indexmap::IndexMap;
use itoa::Buffer;
use lp_base::Memory;
use lp_copies::{Copying, Turn};
use lp_model::{ClauseFormula, Declared, Program};
use lp_sig::{ConstantEntry, FIRST_CONSTANT, FIRST_KIND};
use lp_term::{Bank, Changed, TypeId};
use std::alloc::Global;

/// A kind or constant of a program: its name, and 0 where it is global; else it is the hidden one of this number among those of its name, from 1.
/// The arity is the count of a kind's arguments, or of a constant's type variables.
#[derive(Drop)]
pub struct GlobalName {
    pub name: Vec<u8>,
    pub hidden: u16,
    pub arity: u8,
}

/// The program of a set of modules. The entries of `kinds` have the numbers from 8, those of `constants` from 32.
#[derive(Drop)]
pub struct Assembled {
    pub program: Program,
    pub kinds: Vec<GlobalName>,
    pub constants: Vec<GlobalName>,
}

#[derive(Drop)]
struct Making {
    alloc: Global,
    bank: Bank,
    declared: Vec<Declared>,
    clauses: Vec<ClauseFormula>,
    kinds: Vec<GlobalName>,
    constants: Vec<GlobalName>,
    hidden_kinds: IndexMap<Vec<u8>, u16>,
    hidden_constants: IndexMap<Vec<u8>, u16>,
    next: Hidden,
}

// How many hidden names of this name there are.
fn count_of(counts: &IndexMap<Vec<u8>, u16>, name: &[u8]) -> u16
    ensures { result ≡ count_in counts.now name.now }
{
    match counts.get(name) {
        None => 0,
        Some(count) => *count,
    }
}

// The number behind a count.
fn following(count: u16) -> u16
    ensures { result ≡ following count }
{
    if count < 65535 { count + 1 } else { 65535 }
}

// The number of the next hidden name of this name, from 1.
fn next_hidden(
    alloc: Global,
    counts: &mut IndexMap<Vec<u8>, u16>,
    name: &[u8],
) -> Result<u16, Memory>
    ensures number { IfOk result (λ n. n ≡ following (count_in counts.old name.now)) }
    ensures counted { IfOk result (λ n. (other : List ℕ) → count_in counts.new other ≡ (if bytes_eq other name.now then n else count_in counts.old other)) }
{
    let next = following(count_of(counts, name));
    let key = Vec::from_slice(alloc, name)?;
    counts.insert(key, next)?;
    Ok(next)
}

// A name as it is shown: the k-th hidden one of a name with `$k`.
fn shown(alloc: Global, name: &[u8], hidden: u16) -> Result<Vec<u8>, Memory> {
    let mut text = Vec::from_slice(alloc, name)?;
    if hidden > 0 {
        let mut buffer = Buffer::new();
        text.push(b'$')?;
        text.extend_from_slice(buffer.format(hidden).as_bytes())?;
    }
    Ok(text)
}

impl Making {
    // The hidden names come behind the standard ones and those that the root exports.
    fn new(alloc: Global, top: &Module) -> Making
        requires kinds { 8 + length top.now.signature.kinds.items ≤ 1048576 }
        requires constants { 32 + length top.now.signature.constants.items ≤ 1048576 }
        ensures made { IsSoFar result }
        ensures none { result.clauses.items ≡ [] }
        ensures next { next_of result.next ≡ first_of top.now }
        ensures named { (result.kinds.items ≡ []) × (result.constants.items ≡ []) × (result.declared.items ≡ []) }
    {
        let kinds = top
            .signature
            .kinds()
            .len()
            .saturating_sub(top.hidden_kinds.len());
        let constants = top
            .signature
            .constants()
            .len()
            .saturating_sub(top.hidden_constants.len());

        Making {
            alloc,
            bank: Bank::new(alloc),
            declared: Vec::new(alloc),
            clauses: Vec::new(alloc),
            kinds: Vec::new(alloc),
            constants: Vec::new(alloc),
            hidden_kinds: IndexMap::new(alloc),
            hidden_constants: IndexMap::new(alloc),
            next: Hidden {
                kinds: FIRST_KIND as usize + kinds,
                constants: FIRST_CONSTANT as usize + constants,
            },
        }
    }

    fn add_global_kind(&mut self, name: &[u8], arity: u8) -> Result<(), Memory>
        ensures made { OnOk result (MakesNames self.old self.new) }
        ensures names { OnOk result (AddsNames self.old self.new ((name.now, (0, arity)) ∷ []) [] []) }
    {
        let name = Vec::from_slice(self.alloc, name)?;
        self.kinds.push(GlobalName {
            name,
            hidden: 0,
            arity,
        })?;
        Ok(())
    }

    fn add_hidden_kind(&mut self, name: &[u8], arity: u8) -> Result<(), Memory>
        ensures made { OnOk result (MakesNames self.old self.new) }
        ensures names { OnOk result (AddsNames self.old self.new ((name.now, (1, arity)) ∷ []) [] []) }
    {
        let hidden = next_hidden(self.alloc, &mut self.hidden_kinds, name)?;
        let name = Vec::from_slice(self.alloc, name)?;
        self.kinds.push(GlobalName {
            name,
            hidden,
            arity,
        })?;
        Ok(())
    }

    fn add_global_constant(&mut self, entry: &ConstantEntry, scheme: TypeId) -> Result<(), Memory>
        requires { scheme.0 < length self.old.bank.types }
        ensures made { OnOk result (MakesNames self.old self.new) }
        ensures names { OnOk result (AddsNames self.old self.new [] (constant_as 0 entry.now ∷ []) (record { count = entry.now.type_vars; body = type_tree self.old.bank scheme.0 } ∷ [])) }
    {
        let name = Vec::from_slice(self.alloc, entry.name.as_slice())?;
        let shown = shown(self.alloc, entry.name.as_slice(), 0)?;
        self.constants.push(GlobalName {
            name,
            hidden: 0,
            arity: entry.type_vars,
        })?;
        self.declared.push(Declared {
            shown,
            type_vars: entry.type_vars,
            scheme,
        })?;
        Ok(())
    }

    fn add_hidden_constant(&mut self, entry: &ConstantEntry, scheme: TypeId) -> Result<(), Memory>
        requires { scheme.0 < length self.old.bank.types }
        ensures made { OnOk result (MakesNames self.old self.new) }
        ensures names { OnOk result (AddsNames self.old self.new [] (constant_as 1 entry.now ∷ []) (record { count = entry.now.type_vars; body = type_tree self.old.bank scheme.0 } ∷ [])) }
    {
        let hidden = next_hidden(
            self.alloc,
            &mut self.hidden_constants,
            entry.name.as_slice(),
        )?;
        let name = Vec::from_slice(self.alloc, entry.name.as_slice())?;
        let shown = shown(self.alloc, entry.name.as_slice(), hidden)?;
        self.constants.push(GlobalName {
            name,
            hidden,
            arity: entry.type_vars,
        })?;
        self.declared.push(Declared {
            shown,
            type_vars: entry.type_vars,
            scheme,
        })?;
        Ok(())
    }

    // The global kinds, which are those that the root exports.
    fn add_global_kinds(&mut self, root: &Open<'_>) -> Result<(), Memory>
        ensures made { OnOk result (MakesNames self.old self.new) }
        ensures names { OnOk result (AddsNames self.old self.new (exported_kinds root.now.module.now) [] []) }
    {
        let kinds = root.module.signature.kinds();
        let hidden = root.module.hidden_kinds.as_slice();
        let places = places_in(self.alloc, FIRST_KIND, kinds.len(), hidden)?;
        for at in 0..places.len() {
            if places[at] != 0 {
                continue;
            }
            let Some(entry) = kinds.get(at) else {
                unreachable!()
            };
            self.add_global_kind(entry.name.as_slice(), entry.arity)?;
        }
        Ok(())
    }

    // The global constants.
    fn add_global_constants(&mut self, root: &Open<'_>) -> Result<(), Memory>
        ensures made { OnOk result (MakesNames self.old self.new) }
        ensures names { OnOk result (AddsNames self.old self.new [] (exported_constants root.now.module.now) (exported_schemes (copy_of 0 root.now) root.now.module.now)) }
    {
        let signature = &root.module.signature;
        let hidden = root.module.hidden_constants.as_slice();
        let places = places_in(
            self.alloc,
            FIRST_CONSTANT,
            signature.constants().len(),
            hidden,
        )?;
        let mut types = Changed::new(self.alloc);
        for at in 0..places.len() {
            if places[at] != 0 {
                continue;
            }
            let Some(entry) = signature.constants().get(at) else {
                unreachable!()
            };
            let scheme = types.copy_type(
                self.alloc,
                &root.names,
                signature.bank(),
                entry.scheme,
                &mut self.bank,
            )?;
            self.add_global_constant(entry, scheme)?;
        }
        Ok(())
    }

    // The hidden kinds of a copy.
    fn add_hidden_kinds(&mut self, copy: &Open<'_>) -> Result<(), Memory>
        ensures made { OnOk result (MakesNames self.old self.new) }
        ensures names { OnOk result (AddsNames self.old self.new (hidden_kinds copy.now.module.now) [] []) }
    {
        let kinds = copy.module.signature.kinds();
        for number in copy.module.hidden_kinds.iter().copied() {
            let Some(entry) = kinds.get(number.saturating_sub(FIRST_KIND) as usize) else {
                return Err(Memory);
            };
            self.add_hidden_kind(entry.name.as_slice(), entry.arity)?;
        }
        Ok(())
    }

    // The hidden constants of a copy.
    fn add_hidden_constants(&mut self, copy: &Open<'_>) -> Result<(), Memory>
        ensures made { OnOk result (MakesNames self.old self.new) }
        ensures names { OnOk result (AddsNames self.old self.new [] (hidden_constants copy.now.module.now) (hidden_schemes (copy_of 0 copy.now) copy.now.module.now)) }
    {
        let signature = &copy.module.signature;
        let mut types = Changed::new(self.alloc);
        for number in copy.module.hidden_constants.iter().copied() {
            let place = number.saturating_sub(FIRST_CONSTANT) as usize;
            let Some(entry) = signature.constants().get(place) else {
                return Err(Memory);
            };
            let scheme = types.copy_type(
                self.alloc,
                &copy.names,
                signature.bank(),
                entry.scheme,
                &mut self.bank,
            )?;
            self.add_hidden_constant(entry, scheme)?;
        }
        Ok(())
    }

    // The clauses of a copy.
    fn add_clauses(&mut self, copy: &Open<'_>) -> Result<(), Memory>
        ensures clauses { OnOk result (AddsClauses self.old self.new copy.now) }
        ensures names { OnOk result (AddsNames self.old self.new [] [] []) }
    {
        let mut terms = Changed::new(self.alloc);
        let clauses = &copy.module.clauses;
        for at in 0..clauses.len() {
            let clause = clauses[at];
            let formula = terms.copy(
                self.alloc,
                &copy.names,
                &copy.module.bank,
                clause.formula,
                &mut self.bank,
            )?;
            self.clauses.push(ClauseFormula {
                type_vars: clause.type_vars,
                formula,
            })?;
        }
        Ok(())
    }

    // A copy, behind those below it.
    fn add_copy(&mut self, copy: &Open<'_>) -> Result<(), Memory>
        ensures clauses { OnOk result (AddsClauses self.old self.new copy.now) }
        ensures names { OnOk result (LeavesNames self.old self.new copy.now) }
    {
        self.add_hidden_kinds(copy)?;
        self.add_hidden_constants(copy)?;
        self.add_clauses(copy)?;
        Ok(())
    }

    fn finish(self) -> Assembled
        requires { IsSoFar self }
        ensures clauses { AreWithin result.program.bank result.program.clauses.items }
        ensures constants { length result.program.constants.items ≡ length result.constants.items }
        ensures typed { AreTyped result.program.bank result.program.constants.items }
        ensures bank { result.program.bank ≡ self.bank }
        ensures same { result.program.clauses.items ≡ self.clauses.items }
        ensures kinds { AreNumbered result.kinds.items }
        ensures numbers { AreNumbered result.constants.items }
        ensures named { (result.kinds ≡ self.kinds) × (result.constants ≡ self.constants) × (result.program.constants ≡ self.declared) }
    {
        Assembled {
            program: Program {
                bank: self.bank,
                constants: self.declared,
                clauses: self.clauses,
            },
            kinds: self.kinds,
            constants: self.constants,
        }
    }

    // Enters a copy: its names are known from those of the copy above, which is the last open one. Its hidden names come behind those that
    // are still to come below it.
    fn enter<'a>(
        &mut self,
        member: &'a Module,
        below: Hidden,
        around: &mut Vec<Open<'a>>,
    ) -> Result<(), Memory>
        requires hidden_kinds { self.old.next.kinds + below.kinds + length member.now.hidden_kinds.items ≤ 1048576 }
        requires hidden_constants { self.old.next.constants + below.constants + length member.now.hidden_constants.items ≤ 1048576 }
        requires kinds { around.old.items ≡ [] → 8 + length member.now.signature.kinds.items ≤ 1048576 }
        requires constants { around.old.items ≡ [] → 32 + length member.now.signature.constants.items ≤ 1048576 }
        ensures made { OnOk result (MakesNames self.old self.new) }
        ensures opened { OnOk result (Enters self.old self.new around.old.items around.new.items member.now (record { kinds = self.old.next.kinds + below.kinds; constants = self.old.next.constants + below.constants })) }
    {
        let firsts = Firsts {
            kind: (self.next.kinds + below.kinds) as u32,
            constant: (self.next.constants + below.constants) as u32,
        };
        match around.as_slice().last() {
            None => {
                let names = Names::of_root(self.alloc, member, firsts)?;
                let copy = Open {
                    module: member,
                    names,
                };
                self.add_global_kinds(&copy)?;
                self.add_global_constants(&copy)?;
                around.push(copy)?;
                Ok(())
            }
            Some(above) => {
                let names = Names::below(self.alloc, member, firsts, above)?;
                around.push(Open {
                    module: member,
                    names,
                })?;
                Ok(())
            }
        }
    }

    // Leaves the last open copy.
    fn leave(&mut self, around: &mut Vec<Open<'_>>) -> Result<(), Memory>
        requires some { around.old.items ≢ [] }
        requires kinds { (o : Open) → (rest : List Open) → around.old.items ≡ rest ++ o ∷ [] → self.old.next.kinds + length o.module.now.hidden_kinds.items ≤ 1048576 }
        requires constants { (o : Open) → (rest : List Open) → around.old.items ≡ rest ++ o ∷ [] → self.old.next.constants + length o.module.now.hidden_constants.items ≤ 1048576 }
        ensures { OnOk result (Leaves self.old self.new around.old.items around.new.items) }
    {
        match around.pop() {
            None => unreachable!(),
            Some(copy) => {
                self.add_copy(&copy)?;
                self.next = self.next.behind(copy.module);
                Ok(())
            }
        }
    }
}

// The program, copy by copy.
fn make(
    alloc: Global,
    modules: &[Module],
    uses: &Vec<Vec<usize>>,
    totals: &Vec<Hidden>,
    root: usize,
) -> Result<Assembled, ModuleFault>
    requires root { root < length modules.now }
    requires uses { lists_in uses.now.items ≡ uses_of modules.now }
    requires within { All (λ out. All (λ m. m < length uses.now.items) out) (lists_in uses.now.items) }
    requires totals { length totals.now.items ≡ length modules.now }
    requires plan { (order : List ℕ) × IsPlanned modules.now root totals.now.items order }
    ensures clauses { IfOk result (λ a. AreWithin a.program.bank a.program.clauses.items) }
    ensures constants { IfOk result (λ a. length a.program.constants.items ≡ length a.constants.items) }
    ensures typed { IfOk result (λ a. AreTyped a.program.bank a.program.constants.items) }
    ensures hidden_kinds { IfOk result (λ a. AreNumbered a.kinds.items) }
    ensures hidden_constants { IfOk result (λ a. AreNumbered a.constants.items) }
    ensures copied { IfOk result (λ a. (copied : List Copy) × (are : AreCopies modules.now root copied) × IsOrder modules.now root (map (λ c. c.member) copied) × (map (formula_of a.program.bank) a.program.clauses.items ≡ program_clauses modules.now copied) × HasTables modules.now are.top are.copy copied a) }
    ensures refused { IfErr result (IsTooMany (lists_in uses.now.items) root) }
{
    let top = &modules[root];
    let mut making = Making::new(alloc, top);
    let mut around = Vec::new(alloc);
    making.enter(top, below_of(totals, &uses[root]), &mut around)?;
    let mut copying = Copying::new(alloc, uses, root);
    'copies: loop {
        match copying.go_on(uses)? {
            Turn::Entered(at) => {
                let below = below_of(totals, &uses[at]);
                making.enter(&modules[at], below, &mut around)?;
            }
            Turn::Left(_) => making.leave(&mut around)?,
            Turn::Ended(_) => {
                making.leave(&mut around)?;
                return Ok(making.finish());
            }
        }
    }
}

/// The program of the modules that the root accumulates, copy by copy: those below a copy in order, then the copy itself. The global
/// names have the first numbers, in the root's order; then come the hidden ones of each copy.
///
/// # Errors
/// `Limit(Copies)` where there are more than 4,096 copies, else `Limit(Names)` where a kind's or a constant's number would not be below
/// 1,048,576.
pub fn assemble(alloc: Global, modules: &[Module], root: u32) -> Result<Assembled, ModuleFault>
    ensures program { IfOk result (IsProgram modules.now root) }
    ensures clauses { IfOk result (λ a. AreWithin a.program.bank a.program.clauses.items) }
    ensures constants { IfOk result (λ a. length a.program.constants.items ≡ length a.constants.items) }
    ensures hidden_kinds { IfOk result (λ a. AreNumbered a.kinds.items) }
    ensures hidden_constants { IfOk result (λ a. AreNumbered a.constants.items) }
    ensures copies { IfOk result (λ a. (order : List ℕ) × IsOrder modules.now root order × (length order ≤ MAX_COPIES) × (kinds_end modules.now root order ≤ END_OF_IMAGE_NUMBERS) × (constants_end modules.now root order ≤ END_OF_IMAGE_NUMBERS) × (length a.program.clauses.items ≡ total counts_of modules.now order)) }
    ensures refused { IfErr result (IsProgramRefusal modules.now root) }
{
    let root = root as usize;
    if root >= modules.len() {
        return Err(ModuleFault::Memory);
    }
    let uses = uses_of(alloc, modules)?;
    let order = order_of(alloc, &uses, root)?;
    end_of_kinds(modules, &order, root)?;
    end_of_constants(modules, &order, root)?;
    let totals = totals_of(alloc, modules, &uses, &order)?;
    let made = make(alloc, modules, &uses, &totals, root)?;
    Ok(made)
}
