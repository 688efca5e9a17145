// What an instruction that breaks no rule does.

ghost use Rattle.std.specs.Prelude.{◌≡◌, ◌<◌, ◌^◌, ◌∷◌, reverse, IfOk, OnOk};
ghost use Rattle.lp_verify.specs.inner.Sides.{sides_in, sides_run, sides_settled, around, AreEnds};
ghost use Rattle.lp_verify.specs.inner.Stack.{type_heights, term_heights, opens, leaves, turns_over, turning, IsTurned, IsSettled};
ghost use Rattle.lp_verify.specs.inner.Outline.{body_behind};
ghost use Rattle.lp_verify.specs.inner.Handed.{assumption_of, closed_built, IsHanded, IsHandedOn};
ghost use Rattle.lp_verify.specs.inner.Made.{type_made, built_or};
ghost use Rattle.lp_verify.specs.inner.At.{IsActed, IsTypedBy, kept_in};
ghost use Rattle.std.specs.Prelude.{true, false};
ghost use Rattle.std.specs.List.{list_any};
ghost use Rattle.lp_code.specs.Operands.{types_read};
ghost use Rattle.lp_code.specs.States.{State, Home};
ghost use Rattle.lp_term.specs.declared.node.TypeId.{TypeId};
ghost use Rattle.lp_verify.specs.Held.{is_lacking};
ghost use Rattle.lp_verify.specs.declared.loose.Lists.{Lists};
ghost use Rattle.lp_verify.specs.inner.FirstNumbers.{IsType, TypesGrow, UsesStay};
ghost use Rattle.lp_verify.specs.inner.Indices.{store};
ghost use Rattle.lp_verify.specs.inner.Known.{makes_own_type, Knows};

use crate::blocks::{Block, Blocks};
use crate::built::{Built, Head};
use crate::operands::{term_set, type_set};
use crate::record::{Captured, Shared, Work};
use crate::registers::Registers;
use crate::types::Types;
use crate::typing::Typed;
use lp_base::Memory;
use lp_code::Instr;
use lp_term::TypeId;
use std::alloc::Global;

// Opens a block.
fn open(
    blocks: &mut Blocks,
    block: Block,
    types: &Registers<TypeId>,
    terms: &Registers<Built>,
) -> Result<(), Memory>
    ensures sides { OnOk result (sides_in blocks.new.frames.items ≡ block ∷ sides_in blocks.old.frames.items) }
    ensures ends { OnOk result (AreEnds (reverse blocks.old.frames.items) → AreEnds (reverse blocks.new.frames.items)) }
    ensures types { OnOk result (IsTurned opens (type_heights (reverse blocks.old.frames.items)) types.now (type_heights (reverse blocks.new.frames.items)) types.now) }
    ensures terms { OnOk result (IsTurned opens (term_heights (reverse blocks.old.frames.items)) terms.now (term_heights (reverse blocks.new.frames.items)) terms.now) }
{
    blocks.open(block, types.height(), terms.height())
}

// Ends the innermost block: what it set is unset.
fn close(blocks: &mut Blocks, types: &mut Registers<TypeId>, terms: &mut Registers<Built>)
    ensures sides { sides_in blocks.new.frames.items ≡ around (sides_in blocks.old.frames.items) }
    ensures ends { AreEnds (reverse blocks.old.frames.items) → AreEnds (reverse blocks.new.frames.items) }
    ensures types { IsTurned leaves (type_heights (reverse blocks.old.frames.items)) types.old (type_heights (reverse blocks.new.frames.items)) types.new }
    ensures terms { IsTurned leaves (term_heights (reverse blocks.old.frames.items)) terms.old (term_heights (reverse blocks.new.frames.items)) terms.new }
{
    match blocks.close() {
        Some(frame) => {
            types.unset_to(frame.types);
            terms.unset_to(frame.terms);
        }
        None => {}
    }
}

// Right sides that end here are left.
pub(crate) fn settle(
    blocks: &mut Blocks,
    types: &mut Registers<TypeId>,
    terms: &mut Registers<Built>,
    place: u64,
)
    ensures sides { sides_in blocks.new.frames.items ≡ sides_settled place (sides_in blocks.old.frames.items) }
    ensures ends { AreEnds (reverse blocks.old.frames.items) → AreEnds (reverse blocks.new.frames.items) }
    ensures types { IsSettled place (sides_in blocks.old.frames.items) (type_heights (reverse blocks.old.frames.items)) types.old (type_heights (reverse blocks.new.frames.items)) types.new }
    ensures terms { IsSettled place (sides_in blocks.old.frames.items) (term_heights (reverse blocks.old.frames.items)) terms.old (term_heights (reverse blocks.new.frames.items)) terms.new }
{
    while blocks.ends_right(place) {
        close(blocks, types, terms);
    }
}

// The innermost block gives way to another one.
fn turn_over(
    blocks: &mut Blocks,
    block: Block,
    types: &mut Registers<TypeId>,
    terms: &mut Registers<Built>,
) -> Result<(), Memory>
    ensures sides { OnOk result (sides_in blocks.new.frames.items ≡ block ∷ around (sides_in blocks.old.frames.items)) }
    ensures ends { OnOk result (AreEnds (reverse blocks.old.frames.items) → AreEnds (reverse blocks.new.frames.items)) }
    ensures types { OnOk result (IsTurned turns_over (type_heights (reverse blocks.old.frames.items)) types.old (type_heights (reverse blocks.new.frames.items)) types.new) }
    ensures terms { OnOk result (IsTurned turns_over (term_heights (reverse blocks.old.frames.items)) terms.old (term_heights (reverse blocks.new.frames.items)) terms.new) }
{
    close(blocks, types, terms);
    open(blocks, block, types, terms)
}

// Opens or ends a block. The instruction stands at this place.
fn turn(
    blocks: &mut Blocks,
    types: &mut Registers<TypeId>,
    terms: &mut Registers<Built>,
    place: u64,
    instr: &Instr,
) -> Result<(), Memory>
    ensures sides { OnOk result (place < 2 ^ 63 → sides_in blocks.new.frames.items ≡ sides_run instr.now place (sides_in blocks.old.frames.items)) }
    ensures ends { OnOk result (AreEnds (reverse blocks.old.frames.items) → AreEnds (reverse blocks.new.frames.items)) }
    ensures types { OnOk result (IsTurned (turning instr.now) (type_heights (reverse blocks.old.frames.items)) types.old (type_heights (reverse blocks.new.frames.items)) types.new) }
    ensures terms { OnOk result (IsTurned (turning instr.now) (term_heights (reverse blocks.old.frames.items)) terms.old (term_heights (reverse blocks.new.frames.items)) terms.new) }
{
    let behind = place.saturating_add(5);
    match instr {
        Instr::All(_, _) => open(blocks, Block::All, types, terms),
        Instr::Not => open(blocks, Block::Negation, types, terms),
        Instr::Assume(_, _, _) => open(blocks, Block::Assumption, types, terms),
        Instr::Either(bytes) => {
            let end = behind.saturating_add(u64::from(*bytes));
            open(blocks, Block::Left(end), types, terms)
        }
        Instr::Jump(bytes) => {
            let end = behind.saturating_add(u64::from(*bytes));
            turn_over(blocks, Block::Right(end), types, terms)
        }
        Instr::EndAll | Instr::EndAssume | Instr::EndNot => {
            close(blocks, types, terms);
            Ok(())
        }
        _ => Ok(()),
    }
}

// Whether the body has begun behind the instruction.
pub(crate) fn is_behind_neck(in_body: bool, instr: &Instr) -> bool
    ensures { result ≡ body_behind instr.now in_body }
{
    match instr {
        Instr::Neck => true,
        _ => in_body,
    }
}

impl<'a> Work<'a> {
    // What the instruction puts into a type register, or `o`.
    fn built_type(&self, types: &mut Types, instr: &Instr) -> Result<TypeId, Memory>
        ensures grow { OnOk result (TypesGrow types.old types.new × UsesStay types.old types.new) }
        ensures made { IfOk result (λ t. (l : Lists) (h : Home) (s : State) → Knows (store types.old l) self.now h s → list_any (is_lacking self.now.types) (types_read instr.now) ≡ false → makes_own_type h.self instr.now ≡ true → IsType types.new t (type_made h s instr.now)) }
    {
        match instr {
            Instr::TyCon(_, kind, parts) => {
                let parts = self.types.all(types.alloc, parts.as_slice())?;
                let of = types.con(*kind, parts.as_slice())?;
                Ok(of)
            }
            Instr::TyArr(_, from, to) => {
                let from = self.type_in(types, *from);
                let to = self.type_in(types, *to);
                let of = types.arrow(from, to)?;
                Ok(of)
            }
            Instr::TyNew(made) => {
                let number = self.own_types.get(made).copied().unwrap_or(0);
                let of = types.var(number)?;
                Ok(of)
            }
            _ => Ok(types.proposition),
        }
    }

    // Hands these registers to the records that an ASSUME names.
    fn hand(
        &self,
        alloc: Global,
        handed: &mut Vec<Captured>,
        types: &[u16],
        terms: &[u16],
    ) -> Result<(), Memory>
        ensures { OnOk result (IsHanded types.now terms.now self.now.types self.now.terms handed.old.items handed.new.items) }
    {
        let types = self.types.all(alloc, types)?;
        let terms = self.terms.all(alloc, terms)?;
        handed.push(Captured { types, terms })?;
        Ok(())
    }

    fn hand_on(
        &self,
        alloc: Global,
        handed: &mut Vec<Captured>,
        instr: &Instr,
    ) -> Result<(), Memory>
        ensures { OnOk result (IsHandedOn (assumption_of instr.now) self.now.types self.now.terms handed.old.items handed.new.items) }
    {
        match instr {
            Instr::Assume(_, types, terms) => {
                self.hand(alloc, handed, types.as_slice(), terms.as_slice())
            }
            _ => Ok(()),
        }
    }

    // Runs an instruction, of whose types this comes.
    pub(crate) fn act(
        &mut self,
        shared: &mut Shared,
        instr: &Instr,
        typed: Typed,
    ) -> Result<(), Memory>
        ensures acted { OnOk result ((u : TypeId) × IsActed instr.now u (built_or typed (closed_built shared.new.types.proposition)) self.old self.new × IsTypedBy instr.now (kept_in shared.old) (kept_in shared.new) self.old self.new u) }
        ensures grow { OnOk result (TypesGrow shared.old.types shared.new.types) }
        ensures handed { OnOk result (IsHandedOn (assumption_of instr.now) self.old.types self.old.terms shared.old.handed.items shared.new.handed.items) }
        ensures named { shared.new.named ≡ shared.old.named }
        ensures lists { shared.new.lists ≡ shared.old.lists }
    {
        let of = self.built_type(&mut shared.types, instr)?;
        let taken = self.taken_type(&shared.types, instr);
        self.hand_on(shared.alloc, &mut shared.handed, instr)?;
        turn(
            &mut self.blocks,
            &mut self.types,
            &mut self.terms,
            self.place,
            instr,
        )?;
        self.head
            .take(self.home.tables, &mut shared.types, instr, taken)?;
        self.in_body = is_behind_neck(self.in_body, instr);
        self.types.make(type_set(instr), of)?;
        let built = typed.built(Built::closed(shared.types.proposition, Head::Other));
        self.terms.make(term_set(instr), built)
    }
}
