// The equations of a text.
ghost use Rattle.std.specs.Prelude.{◌≡◌, ℕ, suc, ◌+◌, ◌-◌, ◌^◌, ◌<◌, ◌≤◌, List, [], ◌∷◌, ◌++◌, map, reverse, length, IfOk, OnOk, All};
ghost use Rattle.lp_calculus.specs.Types.{Ty, con, tys, var};
ghost use Rattle.lp_calculus.specs.Typing.{Scheme};
ghost use Rattle.lp_term.specs.Nodes.{type_tree};
ghost use Rattle.lp_standard.specs.Schemes.{standard_schemes, entry};
ghost use Rattle.lp_infer.specs.Postfix.{is_index, is_constant, opens, closes, applies, scheme_or, mark, given_type, IsGivenKnown, IsStep};
ghost use Rattle.lp_infer.specs.Running.{act, run, pushed};
ghost use Rattle.lp_term.specs.Within.{AreTypesOf};
ghost use Rattle.lp_infer.specs.Copies.{IsType};
ghost use Rattle.lp_infer.specs.inner.Parts.{takes, ends, HaveParts, HaveOpen};
ghost use Rattle.lp_infer.specs.Making.{IsSound, Acts, Makes, MakesFresh, IsConstant, IsEquated, HasVariables, IsEnded, IsGenerated};

use crate::instance::instance;
use crate::lookup::Step;
use crate::standard::{standard_instance, standard_variables};
use lp_base::Memory;
use lp_sig::Signature;
use lp_term::{Bank, TypeId, put_arrow, put_constructor, put_type_variable};
use lp_type_unify::Pair;
use std::alloc::Global;

// The index of a variable below so many abstractions: the first of so many is the outermost.
pub(crate) fn index_of(count: u64, depth: u64, number: u64) -> u64
    requires count { count < 2 ^ 63 }
    requires depth { depth < 2 ^ 63 }
    ensures { result ≡ depth + (count - suc number) }
{
    depth + count.saturating_sub(number).saturating_sub(1)
}

// The types of a text: those of its indices, the newest last; those of the parts so far; those that are to be read off, the
// variables' in order and then the type arguments of the constants in order; and the equations.
#[derive(Drop)]
pub(crate) struct Typing {
    pub alloc: Global,
    pub types: Bank,
    pub wanted: Vec<TypeId>,
    pub pairs: Vec<Pair>,
    context: Vec<TypeId>,
    stack: Vec<TypeId>,
    next: u64,
}

impl Typing {
    fn new_variable(&mut self) -> Result<TypeId, Memory>
        ensures { IfOk result (Makes self.old self.new (suc self.old.next) (var self.old.next)) }
    {
        let number = self.next;
        let Some(next) = number.checked_add(1) else {
            return Err(Memory);
        };
        let id = put_type_variable(&mut self.types, number)?;
        self.next = next;
        Ok(id)
    }

    // So many new type variables.
    fn new_variables(&mut self, count: usize) -> Result<Vec<TypeId>, Memory>
        ensures { IfOk result (λ ids. MakesFresh self.old self.new count ids.items) }
    {
        let mut ids = Vec::new(self.alloc);
        for _ in 0..count {
            let id = self.new_variable()?;
            ids.push(id)?;
        }
        Ok(ids)
    }

    fn push(&mut self, id: TypeId) -> Result<(), Memory>
        ensures { OnOk result ((T : Ty) → (IsSound self.old → IsType self.old.types id T) → Acts self.old self.new (pushed T)) }
    {
        self.stack.push(id)?;
        Ok(())
    }

    // A kind without arguments.
    fn push_kind(&mut self, kind: u32) -> Result<(), Memory>
        ensures { OnOk result (Acts self.old self.new (pushed (con kind (tys [])))) }
    {
        let id = put_constructor(&mut self.types, kind, &[])?;
        self.push(id)
    }

    // The type of an index.
    fn index(&mut self, index: u64) -> Result<(), Memory>
        ensures { OnOk result (Acts self.old self.new (act (is_index index))) }
    {
        let count = self.context.len() as u64;
        if index >= count {
            return self.push_kind(0);
        }
        let id = self.context[(count - 1 - index) as usize];
        self.push(id)
    }

    // The type of a variable, of which there are so many, below so many abstractions.
    fn variable(&mut self, count: u64, depth: u64, number: u64) -> Result<(), Memory>
        requires count { count < 2 ^ 63 }
        requires depth { depth < 2 ^ 63 }
        ensures { OnOk result (Acts self.old self.new (act (is_index (depth + (count - suc number))))) }
    {
        let index = index_of(count, depth, number);
        self.index(index)
    }

    // A constant, whose type is known.
    fn constant(&mut self, arguments: &[TypeId], id: TypeId) -> Result<(), Memory>
        ensures { OnOk result ((before : Typing) → (number : ℕ) → (scheme : Scheme) → IsConstant before self.old arguments.now id scheme → Acts before self.new (act (is_constant number scheme))) }
    {
        self.wanted.extend_from_slice(arguments)?;
        self.stack.push(id)?;
        Ok(())
    }

    // A standard constant at new type variables.
    fn standard(&mut self, number: u32) -> Result<(), Memory>
        ensures { OnOk result (Acts self.old self.new (act (is_constant number (scheme_or (entry standard_schemes number))))) }
    {
        let arguments = self.new_variables(standard_variables(number) as usize)?;
        let id = standard_instance(&mut self.types, number, arguments.as_slice())?;
        self.constant(arguments.as_slice(), id)
    }

    // A declared constant at new type variables.
    fn declared(&mut self, signature: &Signature, count: u8, scheme: TypeId) -> Result<(), Memory>
        ensures { OnOk result ((number : ℕ) → Acts self.old self.new (act (is_constant number (record { count = count; body = type_tree signature.now.bank scheme.0 })))) }
    {
        let arguments = self.new_variables(count as usize)?;
        let id = instance(
            self.alloc,
            signature.bank(),
            scheme,
            arguments.as_slice(),
            &mut self.types,
        )?;
        self.constant(arguments.as_slice(), id)
    }

    fn equate(&mut self, left: TypeId, right: TypeId) -> Result<(), Memory>
        ensures { OnOk result (IsEquated left right self.old self.new) }
    {
        self.pairs.push(Pair { left, right })?;
        Ok(())
    }

    // The beginning of an abstraction, whose bound name may have a type.
    fn open(&mut self, given: Option<TypeId>) -> Result<(), Memory>
        ensures { IsGivenKnown (length self.old.types.types) given → OnOk result (Acts self.old self.new (act (opens (given_type (type_tree self.old.types) given)))) }
    {
        let from = self.new_variable()?;
        self.context.push(from)?;
        match given {
            Some(id) => self.equate(from, id),
            None => Ok(()),
        }
    }

    // The end of an abstraction.
    fn close(&mut self) -> Result<(), Memory>
        requires parts { 0 < length self.old.stack.items }
        requires opened { 0 < length self.old.context.items }
        ensures { OnOk result (Acts self.old self.new (act closes)) }
    {
        let Some(to) = self.stack.pop() else {
            unreachable!()
        };
        let Some(from) = self.context.pop() else {
            unreachable!()
        };
        let id = put_arrow(&mut self.types, from, to)?;
        self.stack.push(id)?;
        Ok(())
    }

    fn apply(&mut self) -> Result<(), Memory>
        requires { 1 < length self.old.stack.items }
        ensures { OnOk result (Acts self.old self.new (act applies)) }
    {
        let Some(argument) = self.stack.pop() else {
            unreachable!()
        };
        let Some(head) = self.stack.pop() else {
            unreachable!()
        };
        let id = self.new_variable()?;
        let arrow = put_arrow(&mut self.types, argument, id)?;
        self.equate(head, arrow)?;
        self.stack.push(id)?;
        Ok(())
    }

    // The next part of a text with so many variables.
    fn step(&mut self, signature: &Signature, count: u64, step: Step) -> Result<(), Memory>
        requires count { count < 2 ^ 63 }
        requires known { IsStep (length self.old.types.types) step }
        requires parts { takes step ≤ length self.old.stack.items }
        requires opened { ends step ≤ length self.old.context.items }
        ensures { IsStep (length self.old.types.types) step → OnOk result ((text : List ℕ) → Acts self.old self.new (act (mark text signature.now.bank count (type_tree self.old.types) step))) }
    {
        match step {
            Step::Bound(out) => self.index(out),
            Step::Variable(depth, number) => self.variable(count, depth, number),
            Step::Standard(number) => self.standard(number),
            Step::Declared(_, vars, scheme) => self.declared(signature, vars, scheme),
            Step::Integer(_) => self.push_kind(1),
            Step::Text(_) => self.push_kind(2),
            Step::Open(given) => self.open(given),
            Step::Close => self.close(),
            Step::Apply => self.apply(),
        }
    }

    // New type variables for the variables of a text.
    fn variables(&mut self, count: usize) -> Result<(), Memory>
        ensures { OnOk result (HasVariables count self.old self.new) }
    {
        let mut vars = self.new_variables(count)?;
        vars.reverse();
        self.context.extend_from_slice(vars.as_slice())?;
        self.wanted.extend_from_slice(vars.as_slice())?;
        Ok(())
    }

    // The parts of a text.
    fn steps(&mut self, signature: &Signature, steps: &[Step], count: u64) -> Result<(), Memory>
        requires count { count < 2 ^ 63 }
        requires known { All (IsStep (length self.old.types.types)) steps.now }
        requires sound { IsSound self.old }
        requires parts { HaveParts steps.now (length self.old.stack.items) }
        requires opened { HaveOpen steps.now (length self.old.context.items) }
        ensures parts { OnOk result (length self.new.stack.items ≡ 1) }
        ensures acts { All (IsStep (length self.old.types.types)) steps.now → OnOk result ((text : List ℕ) → Acts self.old self.new (run (map (mark text signature.now.bank count (type_tree self.old.types)) steps.now))) }
    {
        for step in steps {
            self.step(signature, count, *step)?;
        }
        Ok(())
    }

    // The text is to have the type of goals.
    fn end(&mut self) -> Result<(), Memory>
        requires { 0 < length self.old.stack.items }
        ensures { OnOk result (IsEnded self.old self.new) }
    {
        let Some(has) = self.stack.pop() else {
            unreachable!()
        };
        let goal = put_constructor(&mut self.types, 0, &[])?;
        self.equate(has, goal)
    }
}

// The equations of a text with so many variables, which is to have the type of goals, with new type variables from this number on.
pub(crate) fn equations_of(
    alloc: Global,
    signature: &Signature,
    steps: &[Step],
    count: usize,
    types: Bank,
    next: u64,
) -> Result<Typing, Memory>
    requires count { count < 2 ^ 63 }
    requires known { All (IsStep (length types.types)) steps.now }
    requires parts { HaveParts steps.now 0 }
    requires opened { HaveOpen steps.now count }
    ensures { All (IsStep (length types.types)) steps.now → IfOk result (λ t. (text : List ℕ) → IsGenerated signature.now text steps.now count types next t) }
{
    let mut typing = Typing {
        alloc,
        types,
        wanted: Vec::new(alloc),
        pairs: Vec::new(alloc),
        context: Vec::new(alloc),
        stack: Vec::new(alloc),
        next,
    };
    typing.variables(count)?;
    typing.steps(signature, steps, count as u64)?;
    typing.end()?;
    Ok(typing)
}
