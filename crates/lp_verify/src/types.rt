// Types in a bank, each with the first number of a type that equals it: equal types have one first number, however large they are.

ghost use Rattle.std.specs.Prelude.{◌≡◌, ◌<◌, suc, List, map, length, Some, IfOk, OnOk};
ghost use Rattle.lp_calculus.specs.Types.{Ty, var, con, arrow, tys, instance};
ghost use Rattle.lp_calculus.specs.Typing.{type_at};
ghost use Rattle.lp_term.specs.Nodes.{IsSound, type_tree};
ghost use Rattle.lp_code.specs.Symbolic.{Tables};
ghost use Rattle.lp_model.specs.Flatten.{ends_in_o};
ghost use Rattle.lp_term.specs.Shapes.{type_shape};
ghost use Rattle.lp_code.specs.Naming.{scheme_in};
ghost use Rattle.lp_verify.specs.inner.FirstNumbers.{first_of, shape_of, key_at, AreFound, AreFirsts, SameBank, FirstsStay, IsType, AreTypes, TypesGrow, UsesAre, UsesStay, IsArrowAs, IsEndOf, HasBasics, IsTypeOfConstant, IsTypeOfDeclared};

use crate::filling::Filling;
use crate::tables::Scheme;
use lp_base::Memory;
use lp_standard::Kind;
use lp_term::{Bank, Changed, TypeId, TypeNode, put_arrow, put_constructor, put_type_variable};
use std::alloc::Global;
use std::collections::BTreeMap;

// A node by the first numbers of its parts.
#[derive(PartialEq, Eq, PartialOrd, Ord, Drop)]
enum TypeKey {
    Var(u64),
    Param(u64),
    Con(u32, Vec<usize>),
    Arrow(usize, usize),
}

// A constant with types for its type variables.
#[derive(PartialEq, Eq, PartialOrd, Ord, Drop)]
struct Use {
    constant: u32,
    types: Vec<usize>,
}

#[derive(Drop)]
pub(crate) struct Types {
    pub(crate) alloc: Global,
    bank: Bank,
    // By number, the first number of an equal type.
    firsts: Vec<usize>,
    keys: BTreeMap<TypeKey, usize>,
    uses: BTreeMap<Use, TypeId>,
    pub(crate) proposition: TypeId,
    pub(crate) integer: TypeId,
    pub(crate) text: TypeId,
}

impl Types {
    pub(crate) fn new(alloc: Global) -> Result<Types, Memory>
        ensures { IfOk result (λ types. HasBasics types × ((t : Tables) → UsesAre t types)) }
    {
        let mut types = Types {
            alloc,
            bank: Bank::new(alloc),
            firsts: Vec::new(alloc),
            keys: BTreeMap::new(alloc),
            uses: BTreeMap::new(alloc),
            proposition: TypeId(0),
            integer: TypeId(0),
            text: TypeId(0),
        };
        types.proposition = types.con(Kind::Proposition.number(), &[])?;
        types.integer = types.con(Kind::Integer.number(), &[])?;
        types.text = types.con(Kind::String.number(), &[])?;
        Ok(types)
    }

    fn first(&self, id: TypeId) -> TypeId
        ensures { result.0 ≡ first_of self.now id.0 }
    {
        match self.firsts.get(id.0) {
            Some(first) => TypeId(*first),
            None => id,
        }
    }

    fn first_numbers(&self, ids: &[TypeId]) -> Result<Vec<usize>, Memory>
        ensures { IfOk result (λ numbers. numbers.items ≡ map (λ t. first_of self.now t.0) ids.now) }
    {
        let mut numbers = Vec::new(self.alloc);
        for id in ids {
            numbers.push(self.first(*id).0)?;
        }
        Ok(numbers)
    }

    fn key_of(&self, id: TypeId) -> Result<TypeKey, Memory>
        ensures { IfOk result (λ key. shape_of key ≡ key_at self.now id.0) }
    {
        match self.bank.type_node(id) {
            TypeNode::Var(number) => Ok(TypeKey::Var(number)),
            TypeNode::Param(number) => Ok(TypeKey::Param(number)),
            TypeNode::Con(kind, parts) => Ok(TypeKey::Con(kind, self.first_numbers(parts)?)),
            TypeNode::Arrow(from, to) => {
                Ok(TypeKey::Arrow(self.first(from).0, self.first(to).0))
            }
        }
    }

    // Finds the first number of the type of this number, which comes next.
    fn find_first(&mut self, number: usize) -> Result<(), Memory>
        ensures kept { OnOk result (SameBank self.old self.new) }
        ensures found { OnOk result (AreFound number self.old → number < length self.old.bank.types → AreFound (suc number) self.new × FirstsStay number self.old self.new) }
    {
        let key = self.key_of(TypeId(number))?;
        let found = self.keys.get(&key).copied();
        match found {
            Some(first) => {
                self.firsts.push(first)?;
                Ok(())
            }
            None => {
                self.firsts.push(number)?;
                self.keys.insert(key, number)?;
                Ok(())
            }
        }
    }

    // Finds the first numbers of the types that were put last.
    fn find_firsts(&mut self) -> Result<(), Memory>
        ensures kept { OnOk result (SameBank self.old self.new) }
        ensures found { OnOk result ((IsSound self.old.bank → AreFound (length self.old.firsts.items) self.old) → AreFirsts self.new × FirstsStay (length self.old.firsts.items) self.old self.new) }
    {
        for number in self.firsts.len()..self.bank.type_count() {
            self.find_first(number)?;
        }
        Ok(())
    }

    fn found(&mut self, id: TypeId) -> Result<TypeId, Memory>
        ensures kept { OnOk result (SameBank self.old self.new) }
        ensures found { OnOk result ((IsSound self.old.bank → AreFound (length self.old.firsts.items) self.old) → AreFirsts self.new × FirstsStay (length self.old.firsts.items) self.old self.new) }
        ensures number { IfOk result (λ t. t.0 ≡ first_of self.new id.0) }
    {
        self.find_firsts()?;
        Ok(self.first(id))
    }

    pub(crate) fn var(&mut self, number: u64) -> Result<TypeId, Memory>
        ensures grow { OnOk result (TypesGrow self.old self.new × UsesStay self.old self.new) }
        ensures made { IfOk result (λ t. AreFirsts self.old → IsType self.new t (var number)) }
    {
        let id = put_type_variable(&mut self.bank, number)?;
        let made = self.found(id)?;
        Ok(made)
    }

    pub(crate) fn con(&mut self, kind: u32, parts: &[TypeId]) -> Result<TypeId, Memory>
        ensures grow { OnOk result (TypesGrow self.old self.new × UsesStay self.old self.new) }
        ensures made { IfOk result (λ t. AreFirsts self.old → (Ts : List Ty) → AreTypes self.old parts.now Ts → IsType self.new t (con kind (tys Ts))) }
    {
        let id = put_constructor(&mut self.bank, kind, parts)?;
        let made = self.found(id)?;
        Ok(made)
    }

    pub(crate) fn arrow(&mut self, from: TypeId, to: TypeId) -> Result<TypeId, Memory>
        ensures grow { OnOk result (TypesGrow self.old self.new × UsesStay self.old self.new) }
        ensures made { IfOk result (λ t. (T U : Ty) → IsType self.old from T → IsType self.old to U → IsType self.new t (arrow T U)) }
    {
        let id = put_arrow(&mut self.bank, from, to)?;
        let made = self.found(id)?;
        Ok(made)
    }

    // A declared type of the bank with these types for its type variables.
    fn put_instance(
        &mut self,
        bank: &Bank,
        body: TypeId,
        types: &[TypeId],
    ) -> Result<TypeId, Memory>
        ensures grow { OnOk result (TypesGrow self.old self.new) }
        ensures uses { OnOk result (self.new.uses ≡ self.old.uses) }
        ensures made { IfOk result (λ t. HasBasics self.old → (Ts : List Ty) → AreTypes self.old types.now Ts → IsType self.new t (instance (type_at Ts) (type_tree bank.now body.0))) }
    {
        let filling = Filling {
            types,
            other: self.proposition,
        };
        let mut changed = Changed::new(self.alloc);
        let made = changed.copy_type(self.alloc, &filling, bank, body, &mut self.bank)?;
        let id = self.found(made)?;
        Ok(id)
    }

    // The type of a constant of this scheme, whose type is a type of the bank, with these types for its type variables.
    pub(crate) fn of_constant(
        &mut self,
        constant: u32,
        bank: &Bank,
        scheme: Scheme,
        types: &[TypeId],
    ) -> Result<TypeId, Memory>
        ensures grow { OnOk result (TypesGrow self.old self.new) }
        ensures made { IfOk result (IsTypeOfConstant self.old self.new constant (scheme_in bank.now scheme.type_vars scheme.body.0) types.now) }
    {
        let numbers = self.first_numbers(types)?;
        let place = Use {
            constant,
            types: numbers,
        };
        let found = self.uses.get(&place).copied();
        match found {
            Some(id) => Ok(id),
            None => {
                let id = self.put_instance(bank, scheme.body, types)?;
                self.uses.insert(place, id)?;
                Ok(id)
            }
        }
    }

    // The same where the types are as many as the type variables, else `o`.
    pub(crate) fn of_counted(
        &mut self,
        constant: u32,
        bank: &Bank,
        scheme: Scheme,
        types: &[TypeId],
    ) -> Result<TypeId, Memory>
        ensures grow { OnOk result (TypesGrow self.old self.new) }
        ensures made { IfOk result (IsTypeOfDeclared self.old self.new constant (Some (scheme_in bank.now scheme.type_vars scheme.body.0)) types.now) }
    {
        if usize::from(scheme.type_vars) != types.len() {
            return Ok(self.proposition);
        }
        self.of_constant(constant, bank, scheme, types)
    }

    // What a function type takes and gives.
    pub(crate) fn as_arrow(&self, id: TypeId) -> Option<(TypeId, TypeId)>
        ensures { (T : Ty) → IsType self.now id T → IsArrowAs self.now T result }
    {
        match self.bank.type_node(id) {
            TypeNode::Arrow(from, to) => Some((self.first(from), self.first(to))),
            TypeNode::Var(_) => None,
            TypeNode::Param(_) => None,
            TypeNode::Con(_, _) => None,
        }
    }

    // Whether the type ends in `o` behind its arguments.
    pub(crate) fn ends_in_o(&self, id: TypeId) -> bool
        ensures { (T : Ty) → IsType self.now id T → result ≡ ends_in_o T }
    {
        ends_in_o(&self.bank, id)
    }
}

// What the type of a node gives where it is a function's, or else whether it is `o`.
fn end_of(node: TypeNode<'_>) -> Result<TypeId, bool>
    ensures { IsEndOf (type_shape node.entry) result }
{
    match node {
        TypeNode::Arrow(_, to) => Ok(to),
        TypeNode::Con(kind, _) => Err(kind == Kind::Proposition.number()),
        TypeNode::Var(_) => Err(false),
        TypeNode::Param(_) => Err(false),
    }
}

// Whether a type of the bank ends in `o` behind its arguments.
pub(crate) fn ends_in_o(bank: &Bank, id: TypeId) -> bool
    ensures { result ≡ ends_in_o (type_tree bank.now id.0) }
{
    let mut last = id;
    for _ in 0..bank.type_count() {
        match end_of(bank.type_node(last)) {
            Ok(to) => last = to,
            Err(ends) => return ends,
        }
    }
    match end_of(bank.type_node(last)) {
        Ok(_) => false,
        Err(ends) => ends,
    }
}
