// Terms as bytes: an abstraction before its body, an application before its head and its argument.
ghost use Rattle.std.specs.Prelude.{◌≡◌, ◌≤◌, ◌<◌, ◌+◌, ◌++◌, All, List, map, length, reverse, replicate, IfOk, OnOk};
ghost use Rattle.std.specs.List.{flat_map};
ghost use Rattle.lp_calculus.specs.Term.{Term};
ghost use Rattle.lp_term.specs.Nodes.{Nodes, Extends, tree, node_tree};
ghost use Rattle.lp_term.specs.Shapes.{term_shape};
ghost use Rattle.lp_bytes.specs.Reading.{Gives, left_of};
ghost use Rattle.lp_bytes.specs.Writing.{text_of, more};
ghost use Rattle.lp_cert.specs.Arities.{counts_of};
ghost use Rattle.lp_cert.specs.Inside.{AreTermsInside};
ghost use Rattle.lp_cert.specs.Reading.{terms_below, an_abstraction, an_application, TermTop, constant_at, parameter_at, leaf_at, term_top_at, term_tops_at, with_term_top, terms_made, term_at, terms_at};
ghost use Rattle.lp_cert.specs.Same.{terms_in};
ghost use Rattle.lp_cert.specs.Spelling.{spelled_term};
ghost use Rattle.lp_cert.specs.inner.Parts.{IsPartInside, term_top_of, term_tops_of, terms_stacked};
ghost use Rattle.lp_cert.specs.inner.Waiting.{HasArguments, terms_waiting};

use crate::arities::Arities;
use crate::stack::push_last_first;
use crate::types::{read_type, read_types, write_numbered, write_type, write_types};
use lp_base::{MAX_IMAGE_BYTES, Memory};
use lp_bytes::{ReadError, Reader, Writer};
use lp_term::{
    Bank, TermId, TermNode, put_abstraction, put_applied, put_constant, put_eigen, put_index,
    put_integer, put_parameter, put_text,
};
use std::alloc::Global;

// The top of a term: a term without parts, which stands in the bank, an abstraction, or an application.
#[derive(Clone, Copy)]
pub(crate) enum Part {
    Leaf(TermId),
    Abs,
    App,
}

impl Part {
    fn arguments(self) -> u128
        ensures few { result ≤ 2 }
        ensures arguments { (b : Nodes) → terms_below (term_top_of b self) ≡ replicate result tt }
    {
        match self {
            Part::Leaf(_) => 0,
            Part::Abs => 1,
            Part::App => 2,
        }
    }
}

fn push_abstraction(bank: &mut Bank, stack: &mut Vec<TermId>) -> Result<(), Memory>
    ensures kept { Extends bank.old bank.new }
    ensures inside { OnOk result (AreTermsInside (length bank.old.terms) stack.old.items → AreTermsInside (length bank.new.terms) stack.new.items) }
    ensures made { OnOk result ((ts : List Term) → ((b : Nodes) → Extends bank.old b → terms_stacked b stack.old.items ≡ ts) → (b : Nodes) → Extends bank.new b → terms_stacked b stack.new.items ≡ with_term_top an_abstraction ts) }
{
    let Some(body) = stack.pop() else {
        return Ok(());
    };
    let made = put_abstraction(bank, body)?;
    stack.push(made)?;
    Ok(())
}

fn push_application(bank: &mut Bank, stack: &mut Vec<TermId>) -> Result<(), Memory>
    ensures kept { Extends bank.old bank.new }
    ensures inside { OnOk result (AreTermsInside (length bank.old.terms) stack.old.items → AreTermsInside (length bank.new.terms) stack.new.items) }
    ensures made { OnOk result ((ts : List Term) → ((b : Nodes) → Extends bank.old b → terms_stacked b stack.old.items ≡ ts) → (b : Nodes) → Extends bank.new b → terms_stacked b stack.new.items ≡ with_term_top an_application ts) }
{
    let Some(head) = stack.pop() else {
        return Ok(());
    };
    let Some(argument) = stack.pop() else {
        return Ok(());
    };
    let made = put_applied(bank, head, argument)?;
    stack.push(made)?;
    Ok(())
}

// The term with this top and the last terms of the stack as parts, of which the first is the last one.
fn put_part(bank: &mut Bank, stack: &mut Vec<TermId>, part: Part) -> Result<(), Memory>
    ensures kept { Extends bank.old bank.new }
    ensures inside { OnOk result (IsPartInside bank.old part → AreTermsInside (length bank.old.terms) stack.old.items → AreTermsInside (length bank.new.terms) stack.new.items) }
    ensures made { OnOk result ((top : TermTop) → (ts : List Term) → ((b : Nodes) → Extends bank.old b → (term_top_of b part ≡ top) × (terms_stacked b stack.old.items ≡ ts)) → (b : Nodes) → Extends bank.new b → terms_stacked b stack.new.items ≡ with_term_top top ts) }
{
    match part {
        Part::Leaf(leaf) => {
            stack.push(leaf)?;
            Ok(())
        }
        Part::Abs => push_abstraction(bank, stack),
        Part::App => push_application(bank, stack),
    }
}

// The terms that the parts make, the first one last.
fn put_parts(alloc: Global, bank: &mut Bank, parts: &[Part]) -> Result<Vec<TermId>, Memory>
    ensures kept { Extends bank.old bank.new }
    ensures inside { IfOk result (λ stack. All (IsPartInside bank.old) parts.now → AreTermsInside (length bank.new.terms) stack.items) }
    ensures made { IfOk result (λ stack. (tops : List TermTop) → ((b : Nodes) → Extends bank.old b → term_tops_of b parts.now ≡ tops) → (b : Nodes) → Extends bank.new b → terms_stacked b stack.items ≡ terms_made tops) }
{
    let mut stack = Vec::new(alloc);
    let mut left = parts.len();
    while left > 0 {
        left -= 1;
        put_part(bank, &mut stack, parts[left])?;
    }
    Ok(stack)
}

#[tactic(auto, unfolding(crate::specs::Reading::constant_at))]
fn read_constant(
    alloc: Global,
    reader: &mut Reader<'_>,
    arities: &Arities<'_>,
    bank: &mut Bank,
) -> Result<TermId, ReadError>
    ensures kept { Extends bank.old bank.new }
    ensures inside { IfOk result (λ made. made.0 < length bank.new.terms) }
    ensures read { (b : Nodes) → Extends bank.new b → Gives (λ made. tree b made.0) result (left_of reader.new) (constant_at (counts_of arities.now) (left_of reader.old)) }
{
    let at = reader.at();
    let number = reader.four()?;
    let Some(arity) = arities.of_constant(number) else {
        return Err(Reader::bad(at));
    };
    let types = read_types(alloc, reader, arities, bank, u32::from(arity))?;
    let made = put_constant(bank, number, types.as_slice())?;
    Ok(made)
}

#[tactic(auto, unfolding(crate::specs::Reading::parameter_at))]
fn read_parameter(
    alloc: Global,
    reader: &mut Reader<'_>,
    arities: &Arities<'_>,
    bank: &mut Bank,
) -> Result<TermId, ReadError>
    ensures kept { Extends bank.old bank.new }
    ensures inside { IfOk result (λ made. made.0 < length bank.new.terms) }
    ensures read { (b : Nodes) → Extends bank.new b → Gives (λ made. tree b made.0) result (left_of reader.new) (parameter_at (counts_of arities.now) (left_of reader.old)) }
{
    let number = reader.four()?;
    let of = read_type(alloc, reader, arities, bank)?;
    let made = put_parameter(bank, u64::from(number), of)?;
    Ok(made)
}

// A term without parts whose first byte, which stood at the offset, is this one.
#[tactic(auto, unfolding(crate::specs::Reading::leaf_at))]
fn read_leaf(
    alloc: Global,
    reader: &mut Reader<'_>,
    arities: &Arities<'_>,
    bank: &mut Bank,
    at: u64,
    tag: u8,
) -> Result<TermId, ReadError>
    ensures kept { Extends bank.old bank.new }
    ensures inside { IfOk result (λ made. made.0 < length bank.new.terms) }
    ensures read { (b : Nodes) → Extends bank.new b → Gives (λ made. tree b made.0) result (left_of reader.new) (leaf_at (counts_of arities.now) at tag (left_of reader.old)) }
{
    match tag {
        0 => {
            let index = reader.four()?;
            let made = put_index(bank, u64::from(index))?;
            Ok(made)
        }
        1 => read_constant(alloc, reader, arities, bank),
        2 => {
            let integer = reader.integer()?;
            let made = put_integer(bank, integer)?;
            Ok(made)
        }
        3 => {
            let text = reader.long_text()?;
            let made = put_text(bank, text)?;
            Ok(made)
        }
        4 => {
            let level = reader.four()?;
            let made = put_eigen(bank, u64::from(level))?;
            Ok(made)
        }
        5 => read_parameter(alloc, reader, arities, bank),
        _ => Err(Reader::bad(at)),
    }
}

#[tactic(auto, unfolding(crate::specs::Reading::term_top_at))]
fn read_part(
    alloc: Global,
    reader: &mut Reader<'_>,
    arities: &Arities<'_>,
    bank: &mut Bank,
) -> Result<Part, ReadError>
    ensures kept { Extends bank.old bank.new }
    ensures inside { IfOk result (λ part. IsPartInside bank.new part) }
    ensures read { (b : Nodes) → Extends bank.new b → Gives (term_top_of b) result (left_of reader.new) (term_top_at (counts_of arities.now) (left_of reader.old)) }
{
    let at = reader.at();
    let tag = reader.byte()?;
    match tag {
        6 => Ok(Part::Abs),
        7 => Ok(Part::App),
        _ => {
            let leaf = read_leaf(alloc, reader, arities, bank, at, tag)?;
            Ok(Part::Leaf(leaf))
        }
    }
}

// The parts of a term, each before those below it.
#[tactic(auto, unfolding(crate::specs::Reading::term_tops_at))]
fn read_parts(
    alloc: Global,
    reader: &mut Reader<'_>,
    arities: &Arities<'_>,
    bank: &mut Bank,
) -> Result<Vec<Part>, ReadError>
    ensures kept { Extends bank.old bank.new }
    ensures inside { IfOk result (λ parts. All (IsPartInside bank.new) parts.items) }
    ensures read { (b : Nodes) → Extends bank.new b → Gives (λ parts. term_tops_of b parts.items) result (left_of reader.new) (term_tops_at (counts_of arities.now) (left_of reader.old)) }
{
    let mut parts = Vec::new(alloc);
    let mut wanted: u128 = 1;
    let most = reader.len() as u64 + 1;
    for _ in 0..most {
        if wanted == 0 {
            return Ok(parts);
        }
        let part = read_part(alloc, reader, arities, bank)?;
        wanted = wanted - 1 + part.arguments();
        parts.push(part)?;
    }
    Ok(parts)
}

// A term, put into the bank.
#[tactic(auto, unfolding(crate::specs::Reading::term_at))]
pub(crate) fn read_term(
    alloc: Global,
    reader: &mut Reader<'_>,
    arities: &Arities<'_>,
    bank: &mut Bank,
) -> Result<TermId, ReadError>
    ensures kept { Extends bank.old bank.new }
    ensures inside { IfOk result (λ made. made.0 < length bank.new.terms) }
    ensures read { (b : Nodes) → Extends bank.new b → Gives (λ made. tree b made.0) result (left_of reader.new) (term_at (counts_of arities.now) (left_of reader.old)) }
{
    let at = reader.at();
    let parts = read_parts(alloc, reader, arities, bank)?;
    let mut stack = put_parts(alloc, bank, parts.as_slice())?;
    match stack.pop() {
        Some(made) => Ok(made),
        None => Err(Reader::bad(at)),
    }
}

// So many terms.
#[tactic(auto, unfolding(crate::specs::Reading::terms_at))]
pub(crate) fn read_terms(
    alloc: Global,
    reader: &mut Reader<'_>,
    arities: &Arities<'_>,
    bank: &mut Bank,
    count: u32,
) -> Result<Vec<TermId>, ReadError>
    ensures kept { Extends bank.old bank.new }
    ensures inside { IfOk result (λ made. AreTermsInside (length bank.new.terms) made.items) }
    ensures read { (b : Nodes) → Extends bank.new b → Gives (λ made. terms_in b made.items) result (left_of reader.new) (terms_at (counts_of arities.now) count (left_of reader.old)) }
{
    let mut terms = Vec::new(alloc);
    for _ in 0..count {
        let made = read_term(alloc, reader, arities, bank)?;
        terms.push(made)?;
    }
    Ok(terms)
}

// One byte for each of so many applications.
fn write_applications(writer: &mut Writer, count: usize) -> Result<(), Memory>
    ensures { OnOk result (text_of writer.new ≡ more (text_of writer.old) (replicate count 7)) }
{
    for _ in 0..count {
        writer.byte(7)?;
    }
    Ok(())
}

// The top of a term, whose parts are left on the stack, the first one last.
fn write_part(
    alloc: Global,
    writer: &mut Writer,
    bank: &Bank,
    stack: &mut Vec<TermId>,
    node: TermNode<'_>,
) -> Result<(), Memory>
    ensures text { OnOk result (more (text_of writer.new) (terms_waiting bank.now stack.new.items) ≡ more (text_of writer.old) (spelled_term (node_tree bank.now (term_shape node.entry)) ++ terms_waiting bank.now stack.old.items)) }
    ensures less { OnOk result (HasArguments (term_shape node.entry) → length (terms_waiting bank.now stack.new.items) < length (spelled_term (node_tree bank.now (term_shape node.entry))) + length (terms_waiting bank.now stack.old.items)) }
{
    match node {
        TermNode::Index(index) => write_numbered(writer, 0, index),
        TermNode::Const(constant, types) => {
            write_numbered(writer, 1, u64::from(constant))?;
            write_types(alloc, writer, bank, types)
        }
        TermNode::Int(value) => {
            writer.byte(2)?;
            writer.integer(value)
        }
        TermNode::Text(text) => {
            writer.byte(3)?;
            writer.long_text(text)
        }
        TermNode::Eigen(level) => write_numbered(writer, 4, level),
        TermNode::Logic { id, level: _ } => write_numbered(writer, 4, id),
        TermNode::Param(number, of) => {
            write_numbered(writer, 5, number)?;
            write_type(alloc, writer, bank, of)
        }
        TermNode::Abs(body) => {
            writer.byte(6)?;
            stack.push(body)?;
            Ok(())
        }
        TermNode::App(head, arguments) => {
            write_applications(writer, arguments.len())?;
            push_last_first(alloc, stack, arguments)?;
            stack.push(head)?;
            Ok(())
        }
    }
}

pub(crate) fn write_term(
    alloc: Global,
    writer: &mut Writer,
    bank: &Bank,
    term: TermId,
) -> Result<(), Memory>
    ensures { OnOk result (text_of writer.new ≡ more (text_of writer.old) (spelled_term (tree bank.now term.0))) }
{
    let mut stack = Vec::new(alloc);
    stack.push(term)?;
    for _ in 0..MAX_IMAGE_BYTES + 1 {
        if writer.is_full() {
            return Ok(());
        }
        let Some(next) = stack.pop() else {
            return Ok(());
        };
        write_part(alloc, writer, bank, &mut stack, bank.term_node(next))?;
    }
    writer.fill();
    Ok(())
}

pub(crate) fn write_terms(
    alloc: Global,
    writer: &mut Writer,
    bank: &Bank,
    terms: &[TermId],
) -> Result<(), Memory>
    ensures { OnOk result (text_of writer.new ≡ more (text_of writer.old) (flat_map spelled_term (terms_in bank.now terms.now))) }
{
    for term in terms {
        write_term(alloc, writer, bank, *term)?;
    }
    Ok(())
}
