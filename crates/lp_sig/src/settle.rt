// The bodies of abbreviations, those that a body names before it.
ghost use Rattle.std.specs.Prelude.{◌≡◌, ◌<◌, ◌≤◌, ℕ, List, [], ◌∷◌, Option, Some, None, Vec, map, length, true, is_some, Contains, slice_set, IfOk, IfSome};
ghost use Rattle.std.specs.Global.{Global};
ghost use Rattle.lp_base.specs.declared.place.Spot.{Spot};
ghost use Rattle.lp_term.specs.Nodes.{Extends};
ghost use Rattle.lp_syntax.specs.declared.text.RawType.{RawType};
ghost use Rattle.lp_syntax.specs.declared.text.Declaration.TheVariants as declaration;
ghost use Rattle.lp_sig.specs.Places.{first_place};
ghost use Rattle.lp_sig.specs.Rows.{Row};
ghost use Rattle.lp_sig.specs.Said.{Said};
ghost use Rattle.lp_sig.specs.Knowing.{Knows};
ghost use Rattle.lp_sig.specs.Abbreviations.{Seen, abbreviation_names, all_uses};
ghost use Rattle.lp_sig.specs.Standing.{BodyStands};
ghost use Rattle.lp_sig.specs.Loading.{Way, ways_out, HasNoCircle};
ghost use Rattle.lp_sig.specs.Constants.{IsSettledAt, IsSettledIf, AreSettledIf, AreUsesSettled};
ghost use Rattle.lp_sig.specs.UseOrder.{Behind, UsesComeFirst};
ghost use Rattle.lp_sig.specs.Announced.{CanBeSettled, HasUsesInside};
ghost use Rattle.lp_sig.specs.declared.fault.SigFault.TheVariants as fault;
ghost use Rattle.lp_sig.specs.declared.walk.Step.TheVariants.{Declare};
ghost use Rattle.lp_sig.specs.Types.{Definition, HasBody};
ghost use Rattle.lp_sig.specs.Holding.{IsTree, HoldsBodies, HoldsLines, line_at};

use crate::bodies::Bodies;
use crate::expand::Variables;
use crate::fault::SigFault;
use crate::lines::Lines;
use crate::names::Names;
use crate::walk::{Step, Ways, marks_before};
use lp_base::{Memory, Spot};
use lp_syntax::{Declaration, RawType};
use lp_term::TypeId;

// The parameters and the body of the abbreviation that a line declares.
fn declared_by<T: Lines>(text: &T, line: usize) -> Option<(&[Spot], &RawType)>
    ensures is { IfSome result (λ r. (s : Spot) × (ps : Vec Spot Global) × (T.Lines.declared text.now line ≡ Some (declaration.Abbreviation s ps r.1.now)) × (r.0.now ≡ ps.items)) }
    ensures none { result ≡ None → (s : Spot) (ps : Vec Spot Global) (ty : RawType) → T.Lines.declared text.now line ≡ Some (declaration.Abbreviation s ps ty) → ⊥ }
{
    match text.declaration(line)? {
        Declaration::Abbreviation(_, parameters, body) => Some((parameters.as_slice(), body)),
        Declaration::Kinds(_, _) => None,
        Declaration::LocalKinds(_, _) => None,
        Declaration::Constants(_, _) => None,
        Declaration::Locals(_, _) => None,
        Declaration::Accumulate(_) => None,
        Declaration::AccumSig(_) => None,
        Declaration::Fixities(_, _, _) => None,
    }
}

// A fault leaves a body open; want of memory is told.
fn left_open(cause: SigFault) -> Result<(), Memory>
    ensures { IfOk result (λ done. cause ≡ fault.Memory → ⊥) }
{
    match cause {
        SigFault::Memory => Err(Memory),
        SigFault::UnknownKind(_) => Ok(()),
        SigFault::Arity(_) => Ok(()),
        SigFault::Differ(_) => Ok(()),
        SigFault::CyclicAbbreviation(_) => Ok(()),
        SigFault::CyclicSignature(_) => Ok(()),
        SigFault::Limit(_) => Ok(()),
        SigFault::Header(_) => Ok(()),
    }
}

impl Bodies {
    // The line of the text at work that declares an abbreviation.
    fn line_of(&self, place: usize) -> Option<usize>
        ensures { result ≡ line_at self.now.bodies.items place }
    {
        self.bodies.get(place)?.line
    }

    // The body of an abbreviation, if it has no fault and those that it names are settled.
    fn body_of<T: Lines>(
        &mut self,
        names: &Names,
        source: &[u8],
        text: &T,
        place: usize,
    ) -> Result<Option<TypeId>, Memory>
        ensures kept { Extends self.old.types.bank self.new.types.bank }
        ensures bodies { self.new.bodies ≡ self.old.bodies }
        ensures is { (said : List (Row Said)) (defs : List (Row Definition)) (name : List ℕ) → Knows names.now said → HoldsBodies self.old.types.bank self.old.bodies.items said defs → HoldsLines self.old.bodies.items said defs source.now (T.Lines.declared text.now) → first_place name (abbreviation_names said) ≡ Some place → IfOk result (λ o. IfSome o (IsTree self.new.types.bank (HasBody said defs name))) }
        ensures settled { (said : List (Row Said)) (uses : List (List Way)) → Knows names.now said → CanBeSettled self.old.bodies.items said uses source.now (T.Lines.declared text.now) place → AreUsesSettled self.old.bodies.items (ways_out uses place) → IfOk result (λ o. is_some o ≡ true) }
    {
        let Some(line) = self.line_of(place) else {
            return Ok(None);
        };
        let Some((parameters, raw)) = declared_by(text, line) else {
            return Ok(None);
        };
        let mut variables = match Variables::parameters(self.alloc, source, parameters) {
            Ok(variables) => variables,
            Err(fault) => {
                left_open(fault)?;
                return Ok(None);
            }
        };
        match self.expand(names, source, raw, &mut variables) {
            Ok(body) => Ok(body),
            Err(fault) => {
                left_open(fault)?;
                Ok(None)
            }
        }
    }

    fn put_body(&mut self, place: usize, body: Option<TypeId>)
        ensures types { self.new.types ≡ self.old.types }
        ensures lines { map (λ b. b.line) self.new.bodies.items ≡ map (λ b. b.line) self.old.bodies.items }
        ensures bodies { map (λ b. b.body) self.new.bodies.items ≡ slice_set (map (λ b. b.body) self.old.bodies.items) place body }
    {
        if let Some(known) = self.bodies.get_mut(place) {
            known.body = body;
        }
    }

    // Settles an abbreviation of the text, behind those that it names.
    fn settle_at<T: Lines>(
        &mut self,
        names: &Names,
        source: &[u8],
        text: &T,
        step: Step,
    ) -> Result<(), Memory>
        ensures lines { map (λ b. b.line) self.new.bodies.items ≡ map (λ b. b.line) self.old.bodies.items }
        ensures kept { Extends self.old.types.bank self.new.types.bank }
        ensures bodies { (said : List (Row Said)) (defs : List (Row Definition)) → Knows names.now said → HoldsLines self.old.bodies.items said defs source.now (T.Lines.declared text.now) → HoldsBodies self.old.types.bank self.old.bodies.items said defs → HoldsBodies self.new.types.bank self.new.bodies.items said defs }
        ensures settled { (from : ℕ) (z : Seen) → Knows names.now z.said → ((place : ℕ) → step ≡ Declare place → BodyStands from z place → CanBeSettled self.old.bodies.items z.said (all_uses z) source.now (T.Lines.declared text.now) place) → UsesComeFirst (all_uses z) (BodyStands from z) (IsSettledIf from z self.old.bodies.items) (step ∷ []) → IfOk result (λ done. (k : ℕ) → Behind (IsSettledIf from z self.old.bodies.items) (step ∷ []) k → IsSettledIf from z self.new.bodies.items k) }
    {
        let Step::Declare(place) = step else {
            return Ok(());
        };
        let body = self.body_of(names, source, text, place)?;
        self.put_body(place, body);
        Ok(())
    }

    // Settles what these steps declare.
    fn settle_all<T: Lines>(
        &mut self,
        names: &Names,
        source: &[u8],
        text: &T,
        steps: &[Step],
    ) -> Result<(), Memory>
        ensures lines { map (λ b. b.line) self.new.bodies.items ≡ map (λ b. b.line) self.old.bodies.items }
        ensures kept { Extends self.old.types.bank self.new.types.bank }
        ensures bodies { (said : List (Row Said)) (defs : List (Row Definition)) → Knows names.now said → HoldsLines self.old.bodies.items said defs source.now (T.Lines.declared text.now) → HoldsBodies self.old.types.bank self.old.bodies.items said defs → HoldsBodies self.new.types.bank self.new.bodies.items said defs }
        ensures settled { (from : ℕ) (z : Seen) → Knows names.now z.said → ((place : ℕ) → Contains steps.now (Declare place) → BodyStands from z place → CanBeSettled self.old.bodies.items z.said (all_uses z) source.now (T.Lines.declared text.now) place) → UsesComeFirst (all_uses z) (BodyStands from z) (IsSettledIf from z self.old.bodies.items) steps.now → IfOk result (λ done. (k : ℕ) → Behind (IsSettledIf from z self.old.bodies.items) steps.now k → IsSettledIf from z self.new.bodies.items k) }
    {
        for step in steps {
            self.settle_at(names, source, text, *step)?;
        }
        Ok(())
    }

    // Settles the abbreviations of a text, from a place on. Those before it are settled.
    pub(crate) fn settle<T: Lines>(
        &mut self,
        names: &Names,
        uses: &Ways,
        source: &[u8],
        text: &T,
        from: usize,
    ) -> Result<(), Memory>
        ensures lines { map (λ b. b.line) self.new.bodies.items ≡ map (λ b. b.line) self.old.bodies.items }
        ensures kept { Extends self.old.types.bank self.new.types.bank }
        ensures bodies { (said : List (Row Said)) (defs : List (Row Definition)) → Knows names.now said → HoldsLines self.old.bodies.items said defs source.now (T.Lines.declared text.now) → HoldsBodies self.old.types.bank self.old.bodies.items said defs → HoldsBodies self.new.types.bank self.new.bodies.items said defs }
        ensures settled { (z : Seen) → Knows names.now z.said → map (λ out. out.items) uses.now.ways.items ≡ all_uses z → length self.old.bodies.items ≡ length (abbreviation_names z.said) → ((k : ℕ) → k < from → IsSettledAt self.old.bodies.items k) → ((k : ℕ) → from ≤ k → k < length self.old.bodies.items → HasUsesInside z k × (BodyStands from z k → CanBeSettled self.old.bodies.items z.said (all_uses z) source.now (T.Lines.declared text.now) k × HasNoCircle (all_uses z) k)) → IfOk result (λ done. AreSettledIf from z self.new.bodies.items) }
    {
        let mut marks = marks_before(self.alloc, from, self.bodies.len())?;
        for place in from..self.bodies.len() {
            let steps = uses.steps_from(self.alloc, place, &mut marks)?;
            self.settle_all(names, source, text, steps.as_slice())?;
        }
        Ok(())
    }
}
