// Declared types: a count of type variables and a type, each constructor before its arguments.
ghost use Rattle.lp_bytes.specs.Writing.{text_of, more};
ghost use Rattle.std.specs.Prelude.{◌<◌, ◌+◌, length};
ghost use Rattle.std.specs.Prelude.{◌≡◌, ◌≤◌, ◌++◌, ◌∷◌, List, map, take, drop, reverse, replicate, IfOk, OnOk};
ghost use Rattle.lp_calculus.specs.Types.{Ty};
ghost use Rattle.lp_term.specs.Nodes.{Nodes, Extends, type_tree, type_node_tree};
ghost use Rattle.lp_term.specs.Shapes.{type_shape};
ghost use Rattle.lp_bytes.specs.Numbers.{spelled_one};
ghost use Rattle.lp_bytes.specs.Reading.{Gives, left_of};
ghost use Rattle.lp_object.specs.Reading.{scope, arity_of, types_below, an_arrow, type_top_at, type_tops_at, with_type_top, types_made, type_at};
ghost use Rattle.lp_object.specs.Spelling.{spelled_type};
ghost use Rattle.lp_object.specs.inner.Parts.{type_top_of, types_stacked};
ghost use Rattle.lp_object.specs.inner.Waiting.{waiting};

use crate::fields::read_number;
use crate::width::Width;
use crate::written::{write_low_one, write_number};
use lp_base::{MAX_IMAGE_BYTES, Memory};
use lp_bytes::{ReadError, Reader, Writer};
use lp_term::{Bank, TypeId, TypeNode, put_arrow, put_constructor};
use std::alloc::Global;

// The top of a type: a type variable, a kind on so many arguments, or an arrow.
#[derive(Clone, Copy)]
pub(crate) enum Part {
    Var(u8),
    Con(u32, u8),
    Arrow,
}

impl Part {
    fn arguments(self) -> u128
        ensures few { result ≤ 255 }
        ensures arguments { types_below (type_top_of self) ≡ replicate result tt }
    {
        match self {
            Part::Var(_) => 0,
            Part::Con(_, arguments) => u128::from(arguments),
            Part::Arrow => 2,
        }
    }
}

// Declared kinds have numbers from this one.
const FIRST_KIND: u32 = 8;

// The count of arguments of a kind.
fn arity_of(arities: &[u8], kind: u32) -> Option<u8>
    ensures { result ≡ arity_of arities.now kind }
{
    if kind < 3 {
        return Some(0);
    }
    if kind == 3 {
        return Some(1);
    }
    if kind < FIRST_KIND {
        return None;
    }
    arities.get((kind - FIRST_KIND) as usize).copied()
}

// The last ones of the stack, of which the first argument is the last one.
fn pop_arguments(alloc: Global, stack: &mut Vec<TypeId>, count: u8) -> Result<Vec<TypeId>, Memory>
    ensures taken { IfOk result (λ taken. taken.items ≡ take count (reverse stack.old.items)) }
    ensures left { OnOk result (reverse stack.new.items ≡ drop count (reverse stack.old.items)) }
{
    let start = stack.len().saturating_sub(usize::from(count));
    let mut arguments = Vec::from_slice(alloc, &stack[start..])?;
    arguments.reverse();
    stack.truncate(start);
    Ok(arguments)
}

fn push_arrow(bank: &mut Bank, stack: &mut Vec<TypeId>) -> Result<(), Memory>
    ensures kept { Extends bank.old bank.new }
    ensures made { OnOk result ((ts : List Ty) → ((b : Nodes) → Extends bank.old b → types_stacked b stack.old.items ≡ ts) → (b : Nodes) → Extends bank.new b → types_stacked b stack.new.items ≡ with_type_top an_arrow ts) }
{
    let Some(from) = stack.pop() else {
        return Ok(());
    };
    let Some(to) = stack.pop() else {
        return Ok(());
    };
    let made = put_arrow(bank, from, to)?;
    stack.push(made)?;
    Ok(())
}

// The type with this top and the last types of the stack as arguments.
fn put_part(
    alloc: Global,
    bank: &mut Bank,
    stack: &mut Vec<TypeId>,
    part: Part,
) -> Result<(), Memory>
    ensures kept { Extends bank.old bank.new }
    ensures made { OnOk result ((ts : List Ty) → ((b : Nodes) → Extends bank.old b → types_stacked b stack.old.items ≡ ts) → (b : Nodes) → Extends bank.new b → types_stacked b stack.new.items ≡ with_type_top (type_top_of part) ts) }
{
    match part {
        Part::Var(number) => {
            let made = bank.put_type(TypeNode::Var(u64::from(number)))?;
            stack.push(made)?;
            Ok(())
        }
        Part::Con(kind, count) => {
            let arguments = pop_arguments(alloc, stack, count)?;
            let made = put_constructor(bank, kind, arguments.as_slice())?;
            stack.push(made)?;
            Ok(())
        }
        Part::Arrow => push_arrow(bank, stack),
    }
}

#[tactic(auto, unfolding(crate::specs::Reading::type_top_at))]
fn read_part(
    reader: &mut Reader<'_>,
    width: Width,
    arities: &[u8],
    variables: u8,
) -> Result<Part, ReadError>
    ensures { Gives type_top_of result (left_of reader.new) (type_top_at (scope width arities.now variables) (left_of reader.old)) }
{
    let at = reader.at();
    let tag = reader.byte()?;
    let field = reader.at();
    match tag {
        0 => {
            let variable = reader.byte()?;
            if variable < variables {
                return Ok(Part::Var(variable));
            }
            Err(Reader::bad(field))
        }
        1 => {
            let kind = read_number(reader, width)?;
            match arity_of(arities, kind) {
                Some(arity) => Ok(Part::Con(kind, arity)),
                None => Err(Reader::bad(field)),
            }
        }
        2 => Ok(Part::Arrow),
        _ => Err(Reader::bad(at)),
    }
}

// The parts of a type, each before its arguments.
#[tactic(auto, unfolding(crate::specs::Reading::type_tops_at))]
fn read_parts(
    alloc: Global,
    reader: &mut Reader<'_>,
    width: Width,
    arities: &[u8],
    variables: u8,
) -> Result<Vec<Part>, ReadError>
    ensures { Gives (λ parts. map type_top_of parts.items) result (left_of reader.new) (type_tops_at (scope width arities.now variables) (left_of reader.old)) }
{
    let mut parts = Vec::new(alloc);
    let mut wanted: u128 = 1;
    let most = reader.len() as u64 + 1;
    for _ in 0..most {
        if wanted == 0 {
            return Ok(parts);
        }
        let part = read_part(reader, width, arities, variables)?;
        wanted = wanted - 1 + part.arguments();
        parts.push(part)?;
    }
    Ok(parts)
}

// The types that the parts make, the first one last.
fn put_parts(alloc: Global, bank: &mut Bank, parts: &[Part]) -> Result<Vec<TypeId>, Memory>
    ensures kept { Extends bank.old bank.new }
    ensures made { IfOk result (λ stack. (b : Nodes) → Extends bank.new b → types_stacked b stack.items ≡ types_made (map type_top_of parts.now)) }
{
    let mut stack = Vec::new(alloc);
    let mut left = parts.len();
    while left > 0 {
        left -= 1;
        put_part(alloc, bank, &mut stack, parts[left])?;
    }
    Ok(stack)
}

// The type, over this many type variables, put into the bank.
#[tactic(auto, unfolding(crate::specs::Reading::type_at))]
pub(crate) fn read_scheme(
    alloc: Global,
    reader: &mut Reader<'_>,
    width: Width,
    bank: &mut Bank,
    arities: &[u8],
    variables: u8,
) -> Result<TypeId, ReadError>
    ensures kept { Extends bank.old bank.new }
    ensures read { (b : Nodes) → Extends bank.new b → Gives (λ made. type_tree b made.0) result (left_of reader.new) (type_at (scope width arities.now variables) (left_of reader.old)) }
{
    let at = reader.at();
    let parts = read_parts(alloc, reader, width, arities, variables)?;
    let mut stack = put_parts(alloc, bank, parts.as_slice())?;
    match stack.pop() {
        Some(made) => Ok(made),
        None => Err(Reader::bad(at)),
    }
}

// The types are put on the stack, the first one last.
fn push_last_first(alloc: Global, stack: &mut Vec<TypeId>, types: &[TypeId]) -> Result<(), Memory>
    ensures { OnOk result (stack.new.items ≡ stack.old.items ++ reverse types.now) }
{
    let mut last_first = Vec::from_slice(alloc, types)?;
    last_first.reverse();
    stack.extend_from_slice(last_first.as_slice())?;
    Ok(())
}

fn write_variable(writer: &mut Writer, variable: u64) -> Result<(), Memory>
    ensures { OnOk result (text_of writer.new ≡ more (text_of writer.old) (0 ∷ spelled_one variable)) }
{
    writer.byte(0)?;
    write_low_one(writer, variable)
}

// The top of a type, whose arguments are left on the stack, the first one last.
fn write_part(
    writer: &mut Writer,
    alloc: Global,
    width: Width,
    bank: &Bank,
    stack: &mut Vec<TypeId>,
    node: TypeNode<'_>,
) -> Result<(), Memory>
    ensures text { OnOk result (more (text_of writer.new) (waiting width bank.now stack.new.items) ≡ more (text_of writer.old) (spelled_type width (type_node_tree bank.now (type_shape node.entry)) ++ waiting width bank.now stack.old.items)) }
    ensures less { OnOk result (length (waiting width bank.now stack.new.items) < length (spelled_type width (type_node_tree bank.now (type_shape node.entry))) + length (waiting width bank.now stack.old.items)) }
{
    match node {
        TypeNode::Var(variable) => write_variable(writer, variable),
        TypeNode::Param(variable) => write_variable(writer, variable),
        TypeNode::Con(kind, arguments) => {
            writer.byte(1)?;
            write_number(writer, width, u64::from(kind))?;
            push_last_first(alloc, stack, arguments)
        }
        TypeNode::Arrow(from, to) => {
            writer.byte(2)?;
            stack.push(to)?;
            stack.push(from)?;
            Ok(())
        }
    }
}

pub(crate) fn write_scheme(
    writer: &mut Writer,
    alloc: Global,
    width: Width,
    bank: &Bank,
    scheme: TypeId,
) -> Result<(), Memory>
    ensures { OnOk result (text_of writer.new ≡ more (text_of writer.old) (spelled_type width (type_tree bank.now scheme.0))) }
{
    let mut stack = Vec::new(alloc);
    stack.push(scheme)?;
    for _ in 0..MAX_IMAGE_BYTES + 1 {
        if writer.is_full() {
            return Ok(());
        }
        let Some(next) = stack.pop() else {
            return Ok(());
        };
        write_part(writer, alloc, width, bank, &mut stack, bank.type_node(next))?;
    }
    writer.fill();
    Ok(())
}
