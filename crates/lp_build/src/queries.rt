// What queries see.
ghost use Rattle.std.specs.Prelude.{◌≡◌, ◌≤◌, ◌<◌, ◌+◌, ◌++◌, ◌∷◌, [], ℕ, List, map, filter, length, nat_eq, unwrap_or, Some, IfOk, IfSome, OnOk, if◌then◌else◌};
ghost use Rattle.std.specs.List.{AllZip};
ghost use Rattle.indexmap.specs.IndexMap.{get};
ghost use Rattle.lp_fixity.specs.Table.{entry_of};
ghost use Rattle.lp_syntax.specs.Modules.{DeclaresOne};
ghost use Rattle.lp_term.specs.Mapped.{mapped_type};
ghost use Rattle.lp_term.specs.Node.{TypeBelow};
ghost use Rattle.lp_term.specs.Nodes.{Extends, type_node_tree, type_tree};
ghost use Rattle.lp_term.specs.Shapes.{type_shape};
ghost use Rattle.lp_sig.specs.Rows.{kind_row, constant_row, fixity_row};
ghost use Rattle.lp_module.specs.declared.copies.GlobalName.{GlobalName};
ghost use Rattle.lp_build.specs.Queried.{number_among, IsKindOf, IsConstantOf, IsSeenByQueries, AreOperatorsOf, is_seen, kind_numbers, with_kinds};
ghost use Rattle.lp_build.specs.inner.Placed.{HasGlobals, with_kind};

use crate::links::Numbers;
use indexmap::IndexMap;
use lp_base::Memory;
use lp_fixity::Table;
use lp_module::GlobalName;
use lp_sig::{ConstantEntry, FixityEntry, KindEntry, Signature};
use lp_term::{Bank, TypeId, TypeNode};
use std::alloc::Global;

// The first number of a kind that is not standard.
const FIRST_KIND: u32 = 8;

// The first number of a constant that is not standard.
const FIRST_CONSTANT: u32 = 32;

// One more name of a program; a hidden one has no place.
fn add_global(places: &mut Numbers, name: &GlobalName, place: usize) -> Result<(), Memory>
    ensures { OnOk result ((names : List GlobalName) → place ≡ length names → HasGlobals places.old names → HasGlobals places.new (names ++ name.now ∷ [])) }
{
    let hidden = name.hidden;
    if hidden != 0 {
        return Ok(());
    }
    places.add_name(name.name.as_slice(), place)
}

// The places of the global ones among these names.
fn places_of(alloc: Global, names: &[GlobalName]) -> Result<Numbers, Memory>
    ensures { IfOk result (λ places. HasGlobals places names.now) }
{
    let mut places = Numbers::new(alloc);
    for at in 0..names.len() {
        add_global(&mut places, &names[at], at)?;
    }
    Ok(places)
}

// The number of a place; a program has far fewer names than there are numbers.
fn number_at(first: u32, place: usize) -> Option<u32>
    ensures { IfSome result (λ number. number ≡ first + place) }
{
    if first > 65535 || place > 65535 {
        return None;
    }
    Some(first + place as u32)
}

// The number of the global one of this name, where the first one has the number `first`.
fn program_number(places: &Numbers, name: &[u8], first: u32) -> Option<u32>
    ensures { (names : List GlobalName) → HasGlobals places.now names → IfSome result (λ number. number_among first names name.now ≡ Some number) }
{
    match places.number(name) {
        None => None,
        Some(place) => number_at(first, place),
    }
}

// A kind under its number in the program.
fn kind_of(alloc: Global, entry: &KindEntry, places: &Numbers) -> Result<KindEntry, Memory>
    ensures { (names : List GlobalName) → HasGlobals places.now names → IfOk result (λ kind. IsKindOf names (kind_row entry.now) (kind_row kind)) }
{
    let own = entry.name.as_slice();
    let Some(number) = program_number(places, own, FIRST_KIND) else {
        return Err(Memory);
    };
    let name = Vec::from_slice(alloc, own)?;
    Ok(KindEntry {
        name,
        number,
        arity: entry.arity,
    })
}

// The kinds under the numbers of the program.
fn kinds_of(alloc: Global, own: &Signature, places: &Numbers) -> Result<Vec<KindEntry>, Memory>
    ensures { (names : List GlobalName) → HasGlobals places.now names → IfOk result (λ kinds. AllZip (IsKindOf names) (map kind_row own.now.kinds.items) (map kind_row kinds.items)) }
{
    let entries = own.kinds();
    let mut kinds = Vec::new(alloc);
    for at in 0..entries.len() {
        let kind = kind_of(alloc, &entries[at], places)?;
        kinds.push(kind)?;
    }
    Ok(kinds)
}

// A constant under its number in the program, its type at the same number.
fn constant_of(
    alloc: Global,
    entry: &ConstantEntry,
    places: &Numbers,
) -> Result<ConstantEntry, Memory>
    ensures { (names : List GlobalName) → HasGlobals places.now names → IfOk result (λ constant. IsConstantOf names (constant_row entry.now) (constant_row constant)) }
{
    let own = entry.name.as_slice();
    let Some(number) = program_number(places, own, FIRST_CONSTANT) else {
        return Err(Memory);
    };
    let name = Vec::from_slice(alloc, own)?;
    Ok(ConstantEntry {
        name,
        number,
        type_vars: entry.type_vars,
        scheme: entry.scheme,
    })
}

// The constants under the numbers of the program, their types in a bank with the same numbers of types.
fn constants_of(
    alloc: Global,
    own: &Signature,
    places: &Numbers,
) -> Result<Vec<ConstantEntry>, Memory>
    ensures { (names : List GlobalName) → HasGlobals places.now names → IfOk result (λ constants. AllZip (IsConstantOf names) (map constant_row own.now.constants.items) (map constant_row constants.items)) }
{
    let entries = own.constants();
    let mut constants = Vec::new(alloc);
    for at in 0..entries.len() {
        let constant = constant_of(alloc, &entries[at], places)?;
        constants.push(constant)?;
    }
    Ok(constants)
}

// One more number of a kind, with that which it has in the program.
fn put_number(numbers: &mut IndexMap<u32, u32>, own: u32, number: u32) -> Result<(), Memory>
    ensures { OnOk result ((k : ℕ) → get nat_eq numbers.new k ≡ (if nat_eq own k then Some number else get nat_eq numbers.old k)) }
{
    numbers.insert(own, number)?;
    Ok(())
}

// For the numbers that kinds have in a signature those that they have in the program.
fn renumbering(
    alloc: Global,
    own: &Signature,
    places: &Numbers,
) -> Result<IndexMap<u32, u32>, Memory>
    ensures { (names : List GlobalName) → HasGlobals places.now names → IfOk result (λ numbers. (k : ℕ) → unwrap_or (get nat_eq numbers k) k ≡ kind_numbers names (map kind_row own.now.kinds.items) k) }
{
    let entries = own.kinds();
    let mut numbers = IndexMap::new(alloc);
    for at in 0..entries.len() {
        let entry = &entries[at];
        let name = entry.name.as_slice();
        let Some(number) = program_number(places, name, FIRST_KIND) else {
            return Err(Memory);
        };
        put_number(&mut numbers, entry.number, number)?;
    }
    Ok(numbers)
}

// Adds a type with the kind's number in the program.
fn put_renumbered(
    bank: &mut Bank,
    node: TypeNode<'_>,
    numbers: &IndexMap<u32, u32>,
) -> Result<TypeId, Memory>
    requires { TypeBelow (length bank.old.types) (type_shape node) }
    ensures count { OnOk result (length bank.new.types ≡ length bank.old.types + 1) }
    ensures kept { Extends bank.old bank.new }
    ensures tree { OnOk result (type_tree bank.new (length bank.old.types) ≡ type_node_tree bank.old (with_kind (λ k. unwrap_or (get nat_eq numbers.now k) k) (type_shape node.entry))) }
{
    match node {
        TypeNode::Con(kind, parts) => match numbers.get(&kind) {
            Some(number) => bank.put_type(TypeNode::Con(*number, parts)),
            None => bank.put_type(node),
        },
        TypeNode::Var(_) | TypeNode::Param(_) | TypeNode::Arrow(_, _) => bank.put_type(node),
    }
}

// A bank with the same types under the same numbers, but for the numbers of kinds.
fn types_of(alloc: Global, bank: &Bank, numbers: &IndexMap<u32, u32>) -> Result<Bank, Memory>
    ensures count { IfOk result (λ types. length types.types ≡ length bank.now.types) }
    ensures trees { IfOk result (λ types. (i : ℕ) → i < length bank.now.types → type_tree types i ≡ mapped_type (with_kinds (λ k. unwrap_or (get nat_eq numbers.now k) k)) (type_tree bank.now i)) }
{
    let mut types = Bank::new(alloc);
    for number in 0..bank.type_count() {
        put_renumbered(&mut types, bank.type_node(TypeId(number)), numbers)?;
    }
    Ok(types)
}

// Whether queries see a fixity: it is one of the signature's own constants, and not `&`.
fn is_seen(own: &Signature, name: &[u8]) -> bool
    ensures { result ≡ is_seen own.now.constants.items name.now }
{
    name != b"&".as_slice() && own.declared(name).is_some()
}

// A copy of a fixity.
fn fixity_of(alloc: Global, entry: &FixityEntry) -> Result<FixityEntry, Memory>
    ensures { IfOk result (λ fixity. fixity_row fixity ≡ fixity_row entry.now) }
{
    let name = Vec::from_slice(alloc, entry.name.as_slice())?;
    Ok(FixityEntry {
        name,
        fixity: entry.fixity,
        number: entry.number,
    })
}

fn fixities_of(alloc: Global, own: &Signature) -> Result<Vec<FixityEntry>, Memory>
    ensures { IfOk result (λ fixities. map fixity_row fixities.items ≡ map fixity_row (filter (λ e. is_seen own.now.constants.items e.name.items) own.now.fixities.items)) }
{
    let entries = own.fixities();
    let mut fixities = Vec::new(alloc);
    for at in 0..entries.len() {
        let entry = &entries[at];
        if !is_seen(own, entry.name.as_slice()) {
            continue;
        }
        let fixity = fixity_of(alloc, entry)?;
        fixities.push(fixity)?;
    }
    Ok(fixities)
}

// The signature of a program's queries: the kinds and constants of the root's signature under the numbers of the program, and the fixities of these.
pub(crate) fn query_signature(
    alloc: Global,
    own: &Signature,
    kinds: &[GlobalName],
    constants: &[GlobalName],
) -> Result<Signature, Memory>
    ensures { IfOk result (IsSeenByQueries own.now kinds.now constants.now) }
{
    let kind_places = places_of(alloc, kinds)?;
    let constant_places = places_of(alloc, constants)?;
    let numbers = renumbering(alloc, own, &kind_places)?;
    let types = types_of(alloc, own.bank(), &numbers)?;
    let own_kinds = kinds_of(alloc, own, &kind_places)?;
    let own_constants = constants_of(alloc, own, &constant_places)?;
    let own_fixities = fixities_of(alloc, own)?;
    let kind_list = own_kinds.as_slice();
    let constant_list = own_constants.as_slice();
    let fixity_list = own_fixities.as_slice();
    let signature = Signature::from_entries(
        alloc,
        &types,
        kind_list,
        constant_list,
        &[],
        fixity_list,
    )?;
    Ok(signature)
}

// Makes the name of a fixity an operator.
fn declare_entry(table: &mut Table, entry: &FixityEntry) -> Result<(), Memory>
    ensures { OnOk result (DeclaresOne entry.now.name.items (entry.now.fixity, entry.now.number) (entry_of table.old) (entry_of table.new)) }
{
    match table.declare(entry.name.as_slice(), entry.fixity, entry.number as u32) {
        Ok(()) => {
            return Ok(());
        }
        Err(_) => {
            return Err(Memory);
        }
    }
}

// The table of a program's queries: the standard one, with the fixities of the signature.
pub(crate) fn query_table(alloc: Global, signature: &Signature) -> Result<Table, Memory>
    ensures { IfOk result (λ table. AreOperatorsOf signature.now (entry_of table)) }
{
    let mut table = Table::standard(alloc)?;
    let entries = signature.fixities();
    for at in 0..entries.len() {
        declare_entry(&mut table, &entries[at])?;
    }
    Ok(table)
}
