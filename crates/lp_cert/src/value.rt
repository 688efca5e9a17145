// The value of an expression in normal form.
ghost use Rattle.std.specs.Prelude.{◌≡◌, ◌≤◌, ◌++◌, ◌∷◌, List, ℕ, reverse, IfOk, IfSome, true, false, None, ℤ};
ghost use Rattle.lp_calculus.specs.Term.{Term};
ghost use Rattle.lp_term.specs.Nodes.{Nodes, tree};
ghost use Rattle.lp_model.specs.Values.{Bytes, Is, Number, Outcome, binary, is_one_place, is_two_place, ordered, term_of, unary, value as value_of_term};
ghost use Rattle.lp_cert.specs.Shape.{IsOne, IsTwo};
ghost use Rattle.lp_cert.specs.inner.Evaluated.{Begins, Gives, HasNone, IsApplication, Leads, state_from, text_in, value_in, within};

use crate::shape::{One, Two, one_of, two_of};
use lp_base::Memory;
use lp_standard::Constant;
use lp_term::{Bank, TermId, TermNode};
use std::alloc::Global;

// A string: the bytes of the texts from one place up to another.
#[derive(Clone, Copy)]
pub(crate) struct Span {
    from: usize,
    to: usize,
}

#[derive(Clone, Copy)]
pub(crate) enum Value {
    Number(i64),
    Text(Span),
}

// Strings one behind the other. One that is put behind another takes no new place where it stands there already.
#[derive(Drop)]
pub(crate) struct Texts {
    pub(crate) bytes: Vec<u8>,
}

// What stands around the part that is evaluated, by the number of the operation: one on it alone, one whose right operand follows, or one whose left value is known.
#[derive(Clone, Copy)]
enum Around {
    One(u32),
    Left(u32, TermId),
    Right(u32, Value),
}

// The part that is evaluated, its value, or that it has none.
#[derive(Clone, Copy)]
enum State {
    Visit(TermId),
    Known(Value),
    None,
}

impl Texts {
    pub(crate) fn new(alloc: Global) -> Texts {
        Texts {
            bytes: Vec::new(alloc),
        }
    }

    // The bytes of a string, if they are there.
    fn of(&self, span: Span) -> Option<&[u8]>
        ensures { IfSome result (λ bytes. (end : List ℕ) → Begins self.now.bytes.items end → text_in end span ≡ bytes.now) }
    {
        self.bytes.as_slice().get(span.from..span.to)
    }

    fn put(&mut self, bytes: &[u8]) -> Result<Span, Memory>
        ensures grows { (end : List ℕ) → Begins self.new.bytes.items end → Begins self.old.bytes.items end }
        ensures put { IfOk result (λ s. (end : List ℕ) → Begins self.new.bytes.items end → text_in end s ≡ bytes.now) }
    {
        let from = self.bytes.len();
        self.bytes.extend_from_slice(bytes)?;
        Ok(Span {
            from,
            to: self.bytes.len(),
        })
    }

    // One string behind another.
    fn joined(&mut self, alloc: Global, left: Span, right: Span) -> Result<Span, Memory>
        ensures grows { (end : List ℕ) → Begins self.new.bytes.items end → Begins self.old.bytes.items end }
        ensures joined { IfOk result (λ s. (end : List ℕ) → Begins self.new.bytes.items end → text_in end s ≡ text_in end left ++ text_in end right) }
    {
        if follows(left, right) {
            return Ok(Span {
                from: left.from,
                to: right.to,
            });
        }
        let Some(first) = self.of(left) else {
            return Err(Memory);
        };
        let Some(second) = self.of(right) else {
            return Err(Memory);
        };
        let mut bytes = Vec::from_slice(alloc, first)?;
        bytes.extend_from_slice(second)?;
        let made = self.put(bytes.as_slice())?;
        Ok(made)
    }
}

// Whether the second string stands behind the first.
fn follows(left: Span, right: Span) -> bool
    ensures { result ≡ true → (left.from ≤ left.to) × (left.to ≡ right.from) × (right.from ≤ right.to) }
{
    if left.from > left.to {
        return false;
    }
    if left.to != right.from {
        return false;
    }
    right.from <= right.to
}

fn state_of(value: Option<i64>) -> State
    ensures { result ≡ state_from value }
{
    match value {
        Some(value) => State::Known(Value::Number(value)),
        None => State::None,
    }
}

fn on_numbers(operation: u32, left: i64, right: i64) -> State
    ensures { (end : List ℕ) → Gives end result (binary operation (Number left) (Number right)) }
{
    let add = Constant::Add.number();
    if operation == add {
        return state_of(left.checked_add(right));
    }
    let subtract = Constant::Subtract.number();
    if operation == subtract {
        return state_of(left.checked_sub(right));
    }
    let multiply = Constant::Multiply.number();
    if operation == multiply {
        return state_of(left.checked_mul(right));
    }
    let divide = Constant::Divide.number();
    if operation == divide {
        return state_of(left.checked_div(right));
    }
    let remainder = Constant::Remainder.number();
    if operation == remainder {
        return state_of(left.checked_rem(right));
    }
    State::None
}

// One string behind another, where the operation does that.
fn on_texts(
    alloc: Global,
    texts: &mut Texts,
    operation: u32,
    left: Span,
    right: Span,
) -> Result<State, Memory>
    ensures grows { (end : List ℕ) → Begins texts.new.bytes.items end → Begins texts.old.bytes.items end }
    ensures gives { IfOk result (λ s. (end : List ℕ) → Begins texts.new.bytes.items end → Gives end s (binary (operation) (Bytes (text_in end left)) (Bytes (text_in end right)))) }
{
    let concatenate = Constant::Concatenate.number();
    if operation != concatenate {
        return Ok(State::None);
    }
    let joined = texts.joined(alloc, left, right)?;
    Ok(State::Known(Value::Text(joined)))
}

fn on_number_with(operation: u32, left: i64, right: Value) -> State
    ensures { (end : List ℕ) → Gives end result (binary (operation) (Number left) (value_in end right)) }
{
    match right {
        Value::Number(other) => on_numbers(operation, left, other),
        Value::Text(_) => State::None,
    }
}

fn on_text_with(
    alloc: Global,
    texts: &mut Texts,
    operation: u32,
    left: Span,
    right: Value,
) -> Result<State, Memory>
    ensures grows { (end : List ℕ) → Begins texts.new.bytes.items end → Begins texts.old.bytes.items end }
    ensures gives { IfOk result (λ s. (end : List ℕ) → Begins texts.new.bytes.items end → Gives end s (binary (operation) (Bytes (text_in end left)) (value_in end right))) }
{
    match right {
        Value::Number(_) => Ok(State::None),
        Value::Text(other) => on_texts(alloc, texts, operation, left, other),
    }
}

fn on_two(
    alloc: Global,
    texts: &mut Texts,
    operation: u32,
    left: Value,
    right: Value,
) -> Result<State, Memory>
    ensures grows { (end : List ℕ) → Begins texts.new.bytes.items end → Begins texts.old.bytes.items end }
    ensures gives { IfOk result (λ s. (end : List ℕ) → Begins texts.new.bytes.items end → Gives end s (binary (operation) (value_in end left) (value_in end right))) }
{
    match left {
        Value::Number(one) => Ok(on_number_with(operation, one, right)),
        Value::Text(one) => on_text_with(alloc, texts, operation, one, right),
    }
}

fn on_number(operation: u32, operand: i64) -> State
    ensures { (end : List ℕ) → Gives end result (unary (operation) (Number operand)) }
{
    let negate = Constant::Negate.number();
    if operation != negate {
        return State::None;
    }
    state_of(operand.checked_neg())
}

// How many bytes there are, where the operation asks that.
fn on_bytes(operation: u32, bytes: &[u8]) -> State
    ensures { (end : List ℕ) → Gives end result (unary (operation) (Bytes bytes.now)) }
{
    let size_of = Constant::Size.number();
    if operation != size_of {
        return State::None;
    }
    match i64::try_from(bytes.len()) {
        Ok(size) => State::Known(Value::Number(size)),
        Err(_) => State::None,
    }
}

fn on_one(texts: &Texts, operation: u32, operand: Value) -> Result<State, Memory>
    ensures { IfOk result (λ s. (end : List ℕ) → Begins texts.now.bytes.items end → Gives end s (unary operation (value_in end operand))) }
{
    match operand {
        Value::Number(value) => Ok(on_number(operation, value)),
        Value::Text(text) => match texts.of(text) {
            Some(bytes) => Ok(on_bytes(operation, bytes)),
            None => Err(Memory),
        },
    }
}

fn is_on_two(operation: u32) -> bool
    ensures { result ≡ is_two_place operation }
{
    (operation >= Constant::Add.number() && operation <= Constant::Remainder.number())
        || operation == Constant::Concatenate.number()
}

fn is_on_one(operation: u32) -> bool
    ensures { result ≡ is_one_place operation }
{
    operation == Constant::Negate.number() || operation == Constant::Size.number()
}

fn enter_two(around: &mut Vec<Around>, two: Two<'_>) -> Result<State, Memory>
    ensures { IfOk result (λ s. (b : Nodes) (end : List ℕ) (t : Term) (o : Outcome) → IsTwo b t two.entry → o ≡ within b end (reverse around.old.items) (value_of_term t) → Leads b end s (reverse around.new.items) o) }
{
    if !is_on_two(two.constant) {
        return Ok(State::None);
    }
    around.push(Around::Left(two.constant, two.right))?;
    Ok(State::Visit(two.left))
}

fn enter_one(around: &mut Vec<Around>, one: One<'_>) -> Result<State, Memory>
    ensures { IfOk result (λ s. (b : Nodes) (end : List ℕ) (t : Term) (o : Outcome) → IsOne b t one.entry → o ≡ within b end (reverse around.old.items) (value_of_term t) → Leads b end s (reverse around.new.items) o) }
{
    if !is_on_one(one.constant) {
        return Ok(State::None);
    }
    around.push(Around::One(one.constant))?;
    Ok(State::Visit(one.on))
}

fn enter_application(bank: &Bank, around: &mut Vec<Around>, term: TermId) -> Result<State, Memory>
    ensures { IfOk result (λ s. IsApplication (tree bank.now term.0) → (end : List ℕ) (o : Outcome) → o ≡ within bank.now end (reverse around.old.items) (value_of_term (tree bank.now term.0)) → Leads bank.now end s (reverse around.new.items) o) }
{
    if let Some(two) = two_of(bank, term) {
        return enter_two(around, two);
    }
    match one_of(bank, term) {
        Some(one) => enter_one(around, one),
        None => Ok(State::None),
    }
}

// Looks at an expression: its value, or its first operand.
fn enter(
    bank: &Bank,
    texts: &mut Texts,
    around: &mut Vec<Around>,
    term: TermId,
) -> Result<State, Memory>
    ensures grows { (end : List ℕ) → Begins texts.new.bytes.items end → Begins texts.old.bytes.items end }
    ensures leads { IfOk result (λ s. (end : List ℕ) → Begins texts.new.bytes.items end → (o : Outcome) → o ≡ within bank.now end (reverse around.old.items) (value_of_term (tree bank.now term.0)) → Leads bank.now end s (reverse around.new.items) o) }
{
    match bank.term_node(term) {
        TermNode::Int(value) => Ok(State::Known(Value::Number(value))),
        TermNode::Text(bytes) => {
            let text = texts.put(bytes)?;
            Ok(State::Known(Value::Text(text)))
        }
        TermNode::App(_, _) => enter_application(bank, around, term),
        TermNode::Index(_) => Ok(State::None),
        TermNode::Const(_, _) => Ok(State::None),
        TermNode::Eigen(_) => Ok(State::None),
        TermNode::Logic { .. } => Ok(State::None),
        TermNode::Param(_, _) => Ok(State::None),
        TermNode::Abs(_) => Ok(State::None),
    }
}

// Goes on behind the value of a part.
fn leave(
    alloc: Global,
    texts: &mut Texts,
    around: &mut Vec<Around>,
    innermost: Around,
    value: Value,
) -> Result<State, Memory>
    ensures grows { (end : List ℕ) → Begins texts.new.bytes.items end → Begins texts.old.bytes.items end }
    ensures leads { IfOk result (λ s. (b : Nodes) (end : List ℕ) → Begins texts.new.bytes.items end → (o : Outcome) → o ≡ within b end (innermost ∷ reverse around.old.items) (Is (value_in end value)) → Leads b end s (reverse around.new.items) o) }
{
    match innermost {
        Around::One(operation) => on_one(texts, operation, value),
        Around::Left(operation, right) => {
            around.push(Around::Right(operation, value))?;
            Ok(State::Visit(right))
        }
        Around::Right(operation, left) => on_two(alloc, texts, operation, left, value),
    }
}

// The value of an expression in normal form, if it has one.
pub(crate) fn value_of(
    alloc: Global,
    bank: &Bank,
    texts: &mut Texts,
    term: TermId,
) -> Result<Option<Value>, Memory>
    ensures some { IfOk result (λ found. IfSome found (λ v. (end : List ℕ) → Begins texts.new.bytes.items end → value_of_term (tree bank.now term.0) ≡ Is (value_in end v))) }
    ensures none { IfOk result (λ found. found ≡ None → HasNone (value_of_term (tree bank.now term.0))) }
{
    let mut around = Vec::new(alloc);
    let mut state = State::Visit(term);
    'parts: for _ in 0..u64::MAX {
        match state {
            State::Visit(next) => {
                state = enter(bank, texts, &mut around, next)?;
                continue;
            }
            State::Known(value) => {
                let Some(innermost) = around.pop() else {
                    return Ok(Some(value));
                };
                state = leave(alloc, texts, &mut around, innermost, value)?;
                continue;
            }
            State::None => return Ok(None),
        }
    }
    Err(Memory)
}

// The integer that an expression in normal form comes to, if it does.
pub(crate) fn integer_of(alloc: Global, bank: &Bank, term: TermId) -> Result<Option<i64>, Memory>
    ensures some { IfOk result (λ found. IfSome found (λ z. value_of_term (tree bank.now term.0) ≡ Is (Number z))) }
    ensures none { IfOk result (λ found. found ≡ None → (z : ℤ) → value_of_term (tree bank.now term.0) ≡ Is (Number z) → ⊥) }
{
    let mut texts = Texts::new(alloc);
    let found = value_of(alloc, bank, &mut texts, term)?;
    match found {
        Some(value) => match value {
            Value::Number(number) => Ok(Some(number)),
            Value::Text(_) => Ok(None),
        },
        None => Ok(None),
    }
}

// Whether a term in normal form is the string.
fn is_text(bank: &Bank, term: TermId, text: &[u8]) -> bool
    ensures same { result ≡ true → tree bank.now term.0 ≡ term_of (Bytes text.now) }
    ensures differ { result ≡ false → tree bank.now term.0 ≡ term_of (Bytes text.now) → ⊥ }
{
    match bank.term_node(term) {
        TermNode::Text(bytes) => text == bytes,
        TermNode::Index(_) => false,
        TermNode::Const(_, _) => false,
        TermNode::Int(_) => false,
        TermNode::Eigen(_) => false,
        TermNode::Logic { .. } => false,
        TermNode::Param(_, _) => false,
        TermNode::Abs(_) => false,
        TermNode::App(_, _) => false,
    }
}

// Whether a term in normal form is the integer.
fn is_integer(bank: &Bank, term: TermId, number: i64) -> bool
    ensures same { result ≡ true → tree bank.now term.0 ≡ term_of (Number number) }
    ensures differ { result ≡ false → tree bank.now term.0 ≡ term_of (Number number) → ⊥ }
{
    match bank.term_node(term) {
        TermNode::Int(other) => number == other,
        TermNode::Index(_) => false,
        TermNode::Const(_, _) => false,
        TermNode::Text(_) => false,
        TermNode::Eigen(_) => false,
        TermNode::Logic { .. } => false,
        TermNode::Param(_, _) => false,
        TermNode::Abs(_) => false,
        TermNode::App(_, _) => false,
    }
}

// Whether a term in normal form is the value, if its string is there.
pub(crate) fn is_value(
    bank: &Bank,
    texts: &Texts,
    term: TermId,
    value: Value,
) -> Result<bool, Memory>
    ensures same { IfOk result (λ yes. yes ≡ true → (end : List ℕ) → Begins texts.now.bytes.items end → tree bank.now term.0 ≡ term_of (value_in end value)) }
    ensures differ { IfOk result (λ yes. yes ≡ false → (end : List ℕ) → Begins texts.now.bytes.items end → tree bank.now term.0 ≡ term_of (value_in end value) → ⊥) }
{
    match value {
        Value::Number(number) => Ok(is_integer(bank, term, number)),
        Value::Text(span) => match texts.of(span) {
            Some(text) => Ok(is_text(bank, term, text)),
            None => Err(Memory),
        },
    }
}

// Whether the integers are in the order that a constant names.
pub(crate) fn are_ordered(order: u32, left: i64, right: i64) -> bool
    ensures { result ≡ ordered order left right }
{
    if order == Constant::Less.number() {
        return left < right;
    }
    if order == Constant::Greater.number() {
        return left > right;
    }
    if order == Constant::AtMost.number() {
        return left <= right;
    }
    left >= right
}
