// Types and terms from texts in postfix. In types `i` and `t` are the kinds 8 and 9, `o` is `o`, `A` is a type variable, `l` makes a list and `>` an arrow.
// In terms a digit is an index, a letter from `a` on a constant from 32 on, `P` the constant 32 at the type variable; `N` and `C` are `nil` and `::` there,
// `E` is `=` at type `i -> i`; `\` abstracts; `@`, `#` and `%` put a term on one, two and three arguments.
ghost use Rattle.std.specs.Prelude.{◌<◌, length, IfOk};

use lp_base::Memory;
use lp_term::{Bank, TermId, TermNode, TypeId, TypeNode};
use std::alloc::Global;

// The last type that was made.
fn pop_type(bank: &Bank, stack: &mut Vec<TypeId>) -> Result<TypeId, Memory>
    ensures { IfOk result (λ id. id.0 < length bank.now.types) }
{
    let id = stack.pop().ok_or(Memory)?;
    if id.0 >= bank.type_count() {
        return Err(Memory);
    }
    Ok(id)
}

// The last term that was made.
fn pop_term(bank: &Bank, stack: &mut Vec<TermId>) -> Result<TermId, Memory>
    ensures { IfOk result (λ id. id.0 < length bank.now.terms) }
{
    let id = stack.pop().ok_or(Memory)?;
    if id.0 >= bank.term_count() {
        return Err(Memory);
    }
    Ok(id)
}

fn put_type(bank: &mut Bank, stack: &mut Vec<TypeId>, byte: u8) -> Result<(), Memory> {
    let made = match byte {
        b'i' => bank.put_type(TypeNode::Con(8, &[]))?,
        b't' => bank.put_type(TypeNode::Con(9, &[]))?,
        b'o' => bank.put_type(TypeNode::Con(0, &[]))?,
        b'A' => bank.put_type(TypeNode::Var(0))?,
        b'l' => {
            let part = pop_type(bank, stack)?;
            let parts = [part];
            bank.put_type(TypeNode::Con(3, &parts))?
        }
        _ => {
            let to = pop_type(bank, stack)?;
            let from = pop_type(bank, stack)?;
            bank.put_type(TypeNode::Arrow(from, to))?
        }
    };
    stack.push(made)?;
    Ok(())
}

pub(crate) fn type_of(alloc: Global, bank: &mut Bank, text: &[u8]) -> Result<TypeId, Memory> {
    let mut stack = Vec::new(alloc);
    for byte in text.iter().copied() {
        put_type(bank, &mut stack, byte)?;
    }
    stack.pop().ok_or(Memory)
}

fn put_at(alloc: Global, bank: &mut Bank, number: u32, text: &[u8]) -> Result<TermId, Memory> {
    let of = type_of(alloc, bank, text)?;
    if of.0 >= bank.type_count() {
        return Err(Memory);
    }
    let types = [of];
    bank.put_term(TermNode::Const(number, &types))
}

fn put_applied(bank: &mut Bank, stack: &mut Vec<TermId>, count: usize) -> Result<TermId, Memory> {
    let third = pop_term(bank, stack)?;
    if count == 1 {
        let head = pop_term(bank, stack)?;
        return bank.put_term(TermNode::App(head, &[third]));
    }
    let second = pop_term(bank, stack)?;
    if count == 2 {
        let head = pop_term(bank, stack)?;
        return bank.put_term(TermNode::App(head, &[second, third]));
    }
    let first = pop_term(bank, stack)?;
    let head = pop_term(bank, stack)?;
    bank.put_term(TermNode::App(head, &[first, second, third]))
}

fn put(alloc: Global, bank: &mut Bank, stack: &mut Vec<TermId>, byte: u8) -> Result<(), Memory> {
    let made = match byte {
        b'0'..=b'9' => bank.put_term(TermNode::Index((byte - b'0') as u64))?,
        b'a'..=b'z' => bank.put_term(TermNode::Const((byte - b'a') as u32 + 32, &[]))?,
        b'P' => put_at(alloc, bank, 32, b"A")?,
        b'N' => put_at(alloc, bank, 15, b"A")?,
        b'C' => put_at(alloc, bank, 14, b"A")?,
        b'E' => put_at(alloc, bank, 8, b"ii>")?,
        b'\\' => {
            let body = pop_term(bank, stack)?;
            bank.put_term(TermNode::Abs(body))?
        }
        b'@' => put_applied(bank, stack, 1)?,
        b'#' => put_applied(bank, stack, 2)?,
        _ => put_applied(bank, stack, 3)?,
    };
    stack.push(made)?;
    Ok(())
}

pub(crate) fn term_of(alloc: Global, bank: &mut Bank, text: &[u8]) -> Result<TermId, Memory> {
    let mut stack = Vec::new(alloc);
    for byte in text.iter().copied() {
        put(alloc, bank, &mut stack, byte)?;
    }
    stack.pop().ok_or(Memory)
}
