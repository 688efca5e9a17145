// Types as bytes: each constructor before its arguments.
ghost use Rattle.std.specs.Prelude.{◌≡◌, ◌≤◌, ◌<◌, ◌+◌, ◌++◌, ◌∷◌, List, map, length, take, drop, reverse, replicate, IfOk, OnOk};
ghost use Rattle.std.specs.List.{flat_map};
ghost use Rattle.lp_calculus.specs.Types.{Ty};
ghost use Rattle.lp_term.specs.Nodes.{Nodes, Extends, type_tree, type_node_tree};
ghost use Rattle.lp_term.specs.Shapes.{type_shape};
ghost use Rattle.lp_bytes.specs.Numbers.{spelled_four};
ghost use Rattle.lp_bytes.specs.Reading.{Gives, left_of};
ghost use Rattle.lp_bytes.specs.Writing.{text_of, more};
ghost use Rattle.lp_cert.specs.Arities.{counts_of};
ghost use Rattle.lp_cert.specs.Facts.{AreInside};
ghost use Rattle.lp_cert.specs.Reading.{types_below, an_arrow, type_top_at, type_tops_at, with_type_top, types_made, type_at, types_at};
ghost use Rattle.lp_cert.specs.Same.{types_in};
ghost use Rattle.lp_cert.specs.Spelling.{spelled_type};
ghost use Rattle.lp_cert.specs.inner.Parts.{type_top_of, types_stacked};
ghost use Rattle.lp_cert.specs.inner.Waiting.{types_waiting};

use crate::arities::Arities;
use crate::stack::push_last_first;
use lp_base::{MAX_IMAGE_BYTES, Memory};
use lp_bytes::{ReadError, Reader, Writer};
use lp_term::{Bank, TypeId, TypeNode, put_arrow, put_constructor};
use std::alloc::Global;

// The top of a type: a type parameter, a kind on so many arguments, or an arrow.
#[derive(Clone, Copy)]
pub(crate) enum Part {
    Param(u32),
    Con(u32, u8),
    Arrow,
}

impl Part {
    fn arguments(self) -> u128
        ensures few { result ≤ 255 }
        ensures arguments { types_below (type_top_of self) ≡ replicate result tt }
    {
        match self {
            Part::Param(_) => 0,
            Part::Con(_, arguments) => u128::from(arguments),
            Part::Arrow => 2,
        }
    }
}

// The last ones of the stack, of which the first argument is the last one.
fn pop_arguments(alloc: Global, stack: &mut Vec<TypeId>, count: u8) -> Result<Vec<TypeId>, Memory>
    ensures taken { IfOk result (λ taken. taken.items ≡ take count (reverse stack.old.items)) }
    ensures left { OnOk result (reverse stack.new.items ≡ drop count (reverse stack.old.items)) }
{
    let start = stack.len().saturating_sub(usize::from(count));
    let mut arguments = Vec::from_slice(alloc, &stack[start..])?;
    arguments.reverse();
    stack.truncate(start);
    Ok(arguments)
}

fn push_arrow(bank: &mut Bank, stack: &mut Vec<TypeId>) -> Result<(), Memory>
    ensures kept { Extends bank.old bank.new }
    ensures inside { OnOk result (AreInside (length bank.old.types) stack.old.items → AreInside (length bank.new.types) stack.new.items) }
    ensures made { OnOk result ((ts : List Ty) → ((b : Nodes) → Extends bank.old b → types_stacked b stack.old.items ≡ ts) → (b : Nodes) → Extends bank.new b → types_stacked b stack.new.items ≡ with_type_top an_arrow ts) }
{
    let Some(from) = stack.pop() else {
        return Ok(());
    };
    let Some(to) = stack.pop() else {
        return Ok(());
    };
    let made = put_arrow(bank, from, to)?;
    stack.push(made)?;
    Ok(())
}

// The type with this top and the last types of the stack as arguments.
fn put_part(
    alloc: Global,
    bank: &mut Bank,
    stack: &mut Vec<TypeId>,
    part: Part,
) -> Result<(), Memory>
    ensures kept { Extends bank.old bank.new }
    ensures inside { OnOk result (AreInside (length bank.old.types) stack.old.items → AreInside (length bank.new.types) stack.new.items) }
    ensures made { OnOk result ((ts : List Ty) → ((b : Nodes) → Extends bank.old b → types_stacked b stack.old.items ≡ ts) → (b : Nodes) → Extends bank.new b → types_stacked b stack.new.items ≡ with_type_top (type_top_of part) ts) }
{
    match part {
        Part::Param(number) => {
            let made = bank.put_type(TypeNode::Param(u64::from(number)))?;
            stack.push(made)?;
            Ok(())
        }
        Part::Con(kind, count) => {
            let arguments = pop_arguments(alloc, stack, count)?;
            let made = put_constructor(bank, kind, arguments.as_slice())?;
            stack.push(made)?;
            Ok(())
        }
        Part::Arrow => push_arrow(bank, stack),
    }
}

#[tactic(auto, unfolding(crate::specs::Reading::type_top_at))]
fn read_part(reader: &mut Reader<'_>, arities: &Arities<'_>) -> Result<Part, ReadError>
    ensures { Gives type_top_of result (left_of reader.new) (type_top_at (counts_of arities.now) (left_of reader.old)) }
{
    let at = reader.at();
    let tag = reader.byte()?;
    let field = reader.at();
    match tag {
        0 => {
            let number = reader.four()?;
            Ok(Part::Param(number))
        }
        1 => {
            let kind = reader.four()?;
            match arities.of_kind(kind) {
                Some(arity) => Ok(Part::Con(kind, arity)),
                None => Err(Reader::bad(field)),
            }
        }
        2 => Ok(Part::Arrow),
        _ => Err(Reader::bad(at)),
    }
}

// The parts of a type, each before its arguments.
#[tactic(auto, unfolding(crate::specs::Reading::type_tops_at))]
fn read_parts(
    alloc: Global,
    reader: &mut Reader<'_>,
    arities: &Arities<'_>,
) -> Result<Vec<Part>, ReadError>
    ensures { Gives (λ parts. map type_top_of parts.items) result (left_of reader.new) (type_tops_at (counts_of arities.now) (left_of reader.old)) }
{
    let mut parts = Vec::new(alloc);
    let mut wanted: u128 = 1;
    let most = reader.len() as u64 + 1;
    for _ in 0..most {
        if wanted == 0 {
            return Ok(parts);
        }
        let part = read_part(reader, arities)?;
        wanted = wanted - 1 + part.arguments();
        parts.push(part)?;
    }
    Ok(parts)
}

// The types that the parts make, the first one last.
fn put_parts(alloc: Global, bank: &mut Bank, parts: &[Part]) -> Result<Vec<TypeId>, Memory>
    ensures kept { Extends bank.old bank.new }
    ensures inside { IfOk result (λ stack. AreInside (length bank.new.types) stack.items) }
    ensures made { IfOk result (λ stack. (b : Nodes) → Extends bank.new b → types_stacked b stack.items ≡ types_made (map type_top_of parts.now)) }
{
    let mut stack = Vec::new(alloc);
    let mut left = parts.len();
    while left > 0 {
        left -= 1;
        put_part(alloc, bank, &mut stack, parts[left])?;
    }
    Ok(stack)
}

// A type, put into the bank.
#[tactic(auto, unfolding(crate::specs::Reading::type_at))]
pub(crate) fn read_type(
    alloc: Global,
    reader: &mut Reader<'_>,
    arities: &Arities<'_>,
    bank: &mut Bank,
) -> Result<TypeId, ReadError>
    ensures kept { Extends bank.old bank.new }
    ensures inside { IfOk result (λ made. made.0 < length bank.new.types) }
    ensures read { (b : Nodes) → Extends bank.new b → Gives (λ made. type_tree b made.0) result (left_of reader.new) (type_at (counts_of arities.now) (left_of reader.old)) }
{
    let at = reader.at();
    let parts = read_parts(alloc, reader, arities)?;
    let mut stack = put_parts(alloc, bank, parts.as_slice())?;
    match stack.pop() {
        Some(made) => Ok(made),
        None => Err(Reader::bad(at)),
    }
}

// So many types.
#[tactic(auto, unfolding(crate::specs::Reading::types_at))]
pub(crate) fn read_types(
    alloc: Global,
    reader: &mut Reader<'_>,
    arities: &Arities<'_>,
    bank: &mut Bank,
    count: u32,
) -> Result<Vec<TypeId>, ReadError>
    ensures kept { Extends bank.old bank.new }
    ensures inside { IfOk result (λ made. AreInside (length bank.new.types) made.items) }
    ensures read { (b : Nodes) → Extends bank.new b → Gives (λ made. types_in b made.items) result (left_of reader.new) (types_at (counts_of arities.now) count (left_of reader.old)) }
{
    let mut types = Vec::new(alloc);
    for _ in 0..count {
        let made = read_type(alloc, reader, arities, bank)?;
        types.push(made)?;
    }
    Ok(types)
}

// A byte and the lowest four of a number.
pub(crate) fn write_numbered(writer: &mut Writer, tag: u8, number: u64) -> Result<(), Memory>
    ensures { OnOk result (text_of writer.new ≡ more (text_of writer.old) (tag ∷ spelled_four number)) }
{
    writer.byte(tag)?;
    writer.low_four(number)
}

// The top of a type, whose arguments are left on the stack, the first one last.
fn write_part(
    alloc: Global,
    writer: &mut Writer,
    bank: &Bank,
    stack: &mut Vec<TypeId>,
    node: TypeNode<'_>,
) -> Result<(), Memory>
    ensures text { OnOk result (more (text_of writer.new) (types_waiting bank.now stack.new.items) ≡ more (text_of writer.old) (spelled_type (type_node_tree bank.now (type_shape node.entry)) ++ types_waiting bank.now stack.old.items)) }
    ensures less { OnOk result (length (types_waiting bank.now stack.new.items) < length (spelled_type (type_node_tree bank.now (type_shape node.entry))) + length (types_waiting bank.now stack.old.items)) }
{
    match node {
        TypeNode::Var(number) => write_numbered(writer, 0, number),
        TypeNode::Param(number) => write_numbered(writer, 0, number),
        TypeNode::Con(kind, arguments) => {
            write_numbered(writer, 1, u64::from(kind))?;
            push_last_first(alloc, stack, arguments)
        }
        TypeNode::Arrow(from, to) => {
            writer.byte(2)?;
            stack.push(to)?;
            stack.push(from)?;
            Ok(())
        }
    }
}

pub(crate) fn write_type(
    alloc: Global,
    writer: &mut Writer,
    bank: &Bank,
    of: TypeId,
) -> Result<(), Memory>
    ensures { OnOk result (text_of writer.new ≡ more (text_of writer.old) (spelled_type (type_tree bank.now of.0))) }
{
    let mut stack = Vec::new(alloc);
    stack.push(of)?;
    for _ in 0..MAX_IMAGE_BYTES + 1 {
        if writer.is_full() {
            return Ok(());
        }
        let Some(next) = stack.pop() else {
            return Ok(());
        };
        write_part(alloc, writer, bank, &mut stack, bank.type_node(next))?;
    }
    writer.fill();
    Ok(())
}

pub(crate) fn write_types(
    alloc: Global,
    writer: &mut Writer,
    bank: &Bank,
    types: &[TypeId],
) -> Result<(), Memory>
    ensures { OnOk result (text_of writer.new ≡ more (text_of writer.old) (flat_map spelled_type (types_in bank.now types.now))) }
{
    for of in types {
        write_type(alloc, writer, bank, *of)?;
    }
    Ok(())
}
