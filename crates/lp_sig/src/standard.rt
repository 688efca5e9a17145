// The names of every text. Declared kinds have numbers from 8, and declared constants from 32.

ghost use Rattle.std.specs.Prelude.{◌≡◌, ◌<◌, ◌≤◌, length, IfOk};
ghost use Rattle.lp_calculus.specs.Types.{arrow};
ghost use Rattle.lp_term.specs.Nodes.{Extends, type_tree};
ghost use Rattle.lp_sig.specs.Holding.{IsTree};
ghost use Rattle.lp_sig.specs.Constants.{AreParts, standard_tree};
ghost use Rattle.lp_sig.specs.Rows.{found};
ghost use Rattle.lp_sig.specs.Standard.{standard_kinds, standard_constants, connectives, relations, operations};

use crate::store::Types;
use lp_base::Memory;
use lp_term::TypeId;

/// The number of the first declared kind.
pub const FIRST_KIND: u32 = 8;

/// The number of the first declared constant.
pub const FIRST_CONSTANT: u32 = 32;

/// The number of a standard kind, and its count of arguments.
pub fn standard_kind(name: &[u8]) -> Option<(u32, u8)>
    ensures { result ≡ found name.now standard_kinds }
{
    if name == b"o".as_slice() {
        return Some((0, 0));
    }
    if name == b"int".as_slice() {
        return Some((1, 0));
    }
    if name == b"string".as_slice() {
        return Some((2, 0));
    }
    if name == b"list".as_slice() {
        return Some((3, 1));
    }
    None
}

fn connective(name: &[u8]) -> Option<u32>
    ensures { result ≡ found name.now connectives }
{
    if name == b",".as_slice() {
        return Some(0);
    }
    if name == b";".as_slice() {
        return Some(1);
    }
    if name == b"=>".as_slice() {
        return Some(2);
    }
    if name == b":-".as_slice() {
        return Some(3);
    }
    if name == b"pi".as_slice() {
        return Some(4);
    }
    if name == b"sigma".as_slice() {
        return Some(5);
    }
    if name == b"true".as_slice() {
        return Some(6);
    }
    if name == b"!".as_slice() {
        return Some(7);
    }
    None
}

fn relation(name: &[u8]) -> Option<u32>
    ensures { result ≡ found name.now relations }
{
    if name == b"=".as_slice() {
        return Some(8);
    }
    if name == b"is".as_slice() {
        return Some(9);
    }
    if name == b"<".as_slice() {
        return Some(10);
    }
    if name == b">".as_slice() {
        return Some(11);
    }
    if name == b"=<".as_slice() {
        return Some(12);
    }
    if name == b">=".as_slice() {
        return Some(13);
    }
    if name == b"::".as_slice() {
        return Some(14);
    }
    if name == b"nil".as_slice() {
        return Some(15);
    }
    None
}

fn operation(name: &[u8]) -> Option<u32>
    ensures { result ≡ found name.now operations }
{
    if name == b"+".as_slice() {
        return Some(16);
    }
    if name == b"-".as_slice() {
        return Some(17);
    }
    if name == b"*".as_slice() {
        return Some(18);
    }
    if name == b"div".as_slice() {
        return Some(19);
    }
    if name == b"mod".as_slice() {
        return Some(20);
    }
    if name == b"~".as_slice() {
        return Some(21);
    }
    if name == b"^".as_slice() {
        return Some(22);
    }
    if name == b"size".as_slice() {
        return Some(23);
    }
    if name == b"not".as_slice() {
        return Some(24);
    }
    None
}

/// The number of a standard constant.
pub fn standard_constant(name: &[u8]) -> Option<u32>
    ensures { result ≡ found name.now standard_constants }
{
    if let Some(number) = connective(name) {
        return Some(number);
    }
    if let Some(number) = relation(name) {
        return Some(number);
    }
    operation(name)
}

// `left -> right -> to`.
fn on_two(types: &mut Types, left: TypeId, right: TypeId, to: TypeId) -> Result<TypeId, Memory>
    ensures kept { Extends types.old.bank types.new.bank }
    ensures tree { IfOk result (λ id. left.0 < length types.old.bank.types → right.0 < length types.old.bank.types → to.0 < length types.old.bank.types → (id.0 < length types.new.bank.types) × (type_tree types.new.bank id.0 ≡ arrow (type_tree types.old.bank left.0) (arrow (type_tree types.old.bank right.0) (type_tree types.old.bank to.0)))) }
{
    let inner = types.arrow(right, to)?;
    types.arrow(left, inner)
}

// The types of which those of standard constants are made; the only type variable is 0.
#[derive(Clone, Copy)]
pub(crate) struct Parts {
    pub goal: TypeId,
    pub int: TypeId,
    pub string: TypeId,
    pub any: TypeId,
    pub list: TypeId,
}

fn put_parts(types: &mut Types) -> Result<Parts, Memory>
    ensures kept { Extends types.old.bank types.new.bank }
    ensures are { IfOk result (AreParts types.new.bank) }
{
    let goal = types.con(0, &[])?;
    let int = types.con(1, &[])?;
    let string = types.con(2, &[])?;
    let any = types.var(0)?;
    let list = types.con(3, &[any])?;
    Ok(Parts {
        goal,
        int,
        string,
        any,
        list,
    })
}

// The type of a connective, and of a relation or a constructor of lists.
fn type_of_goal(types: &mut Types, parts: Parts, number: u32) -> Result<TypeId, Memory>
    requires below { number < 16 }
    ensures kept { Extends types.old.bank types.new.bank }
    ensures tree { AreParts types.old.bank parts → IfOk result (IsTree types.new.bank (λ t. t ≡ standard_tree number)) }
{
    if number < 4 {
        return on_two(types, parts.goal, parts.goal, parts.goal);
    }
    if number < 6 {
        let body = types.arrow(parts.any, parts.goal)?;
        return types.arrow(body, parts.goal);
    }
    if number < 8 {
        return Ok(parts.goal);
    }
    if number < 10 {
        return on_two(types, parts.any, parts.any, parts.goal);
    }
    if number < 14 {
        return on_two(types, parts.int, parts.int, parts.goal);
    }
    if number < 15 {
        return on_two(types, parts.any, parts.list, parts.list);
    }
    Ok(parts.list)
}

// The type of an operation, and of `not`.
fn type_of_operation(types: &mut Types, parts: Parts, number: u32) -> Result<TypeId, Memory>
    requires above { 16 ≤ number }
    ensures kept { Extends types.old.bank types.new.bank }
    ensures tree { AreParts types.old.bank parts → IfOk result (IsTree types.new.bank (λ t. t ≡ standard_tree number)) }
{
    if number < 21 {
        return on_two(types, parts.int, parts.int, parts.int);
    }
    if number < 22 {
        return types.arrow(parts.int, parts.int);
    }
    if number < 23 {
        return on_two(types, parts.string, parts.string, parts.string);
    }
    if number < 24 {
        return types.arrow(parts.string, parts.int);
    }
    types.arrow(parts.goal, parts.goal)
}

// The type of a standard constant.
pub(crate) fn standard_type(types: &mut Types, number: u32) -> Result<TypeId, Memory>
    ensures kept { Extends types.old.bank types.new.bank }
    ensures tree { IfOk result (IsTree types.new.bank (λ t. t ≡ standard_tree number)) }
{
    let parts = put_parts(types)?;
    if number < 16 {
        return type_of_goal(types, parts, number);
    }
    type_of_operation(types, parts, number)
}
