// The kinds and abbreviations of a text, which may be used before they are declared.
ghost use Rattle.std.specs.Prelude.{◌≡◌, ◌++◌, ℕ, List, [], ◌∷◌, Option, Some, Vec, OnOk};
ghost use Rattle.std.specs.Global.{Global};
ghost use Rattle.lp_base.specs.declared.place.Spot.{Spot};
ghost use Rattle.lp_syntax.specs.declared.text.RawType.{RawType};
ghost use Rattle.lp_syntax.specs.declared.text.Declaration.{Declaration};
ghost use Rattle.lp_syntax.specs.declared.text.Declaration.TheVariants as declaration;
ghost use Rattle.lp_sig.specs.Pieces.{spelled};
ghost use Rattle.lp_sig.specs.Types.{Definition, in_text, definitions_by, definitions_in};
ghost use Rattle.lp_sig.specs.Holding.{KnowsBodies, line_of_text, line_of_module, declared_by_sentence};
ghost use Rattle.lp_sig.specs.Constants.{IsSettledAt};
ghost use Rattle.lp_sig.specs.Announced.{AreAnnounced};
ghost use Rattle.lp_sig.specs.Rows.{Row};
ghost use Rattle.lp_sig.specs.Said.{Said, an_abbreviation, each, said_by, said_in};
ghost use Rattle.lp_sig.specs.Knowing.{Knows};
ghost use Rattle.lp_sig.specs.Modules.{declarations};

use crate::making::Making;
use crate::pieces::spelled_at;
use lp_base::{Memory, Spot};
use lp_syntax::{Declaration, ModuleText, Sentence, SignatureText};

impl Making {
    fn announce_abbreviation(
        &mut self,
        source: &[u8],
        name: Spot,
        parameters: usize,
        line: usize,
    ) -> Result<(), Memory>
        ensures names { OnOk result ((said : List (Row Said)) → Knows self.old.names said → Knows self.new.names (said ++ each source.now (an_abbreviation parameters) (name ∷ []))) }
        ensures operators { self.new.operators ≡ self.old.operators }
        ensures constants { self.new.constants ≡ self.old.constants }
        ensures types { self.new.bodies.types ≡ self.old.bodies.types }
        ensures uses { self.new.uses ≡ self.old.uses }
        ensures bodies { OnOk result ((said : List (Row Said)) (defs : List (Row Definition)) (declared : ℕ → Option Declaration) (ps : Vec Spot Global) (ty : RawType) → Knows self.old.names said → declared line ≡ Some (declaration.Abbreviation name ps ty) → KnowsBodies self.old.bodies.types.bank self.old.bodies.bodies.items said defs source.now declared → KnowsBodies self.new.bodies.types.bank self.new.bodies.bodies.items (said ++ each source.now (an_abbreviation parameters) (name ∷ [])) (defs ++ (spelled source.now name, in_text source.now ps.items ty) ∷ []) source.now declared) }
        ensures stay { OnOk result ((k : ℕ) → IsSettledAt self.old.bodies.bodies.items k → IsSettledAt self.new.bodies.bodies.items k) }
        ensures lines { OnOk result ((from : ℕ) (said : List (Row Said)) (defs : List (Row Definition)) (declared : ℕ → Option Declaration) (ps : Vec Spot Global) (ty : RawType) → Knows self.old.names said → declared line ≡ Some (declaration.Abbreviation name ps ty) → KnowsBodies self.old.bodies.types.bank self.old.bodies.bodies.items said defs source.now declared → AreAnnounced from self.old.bodies.bodies.items said source.now declared → AreAnnounced from self.new.bodies.bodies.items (said ++ each source.now (an_abbreviation parameters) (name ∷ [])) source.now declared) }
    {
        if self
            .names
            .announce_head(spelled_at(source, name), parameters)?
        {
            self.bodies.add(None, Some(line))?;
        }
        Ok(())
    }

    // The kinds or the abbreviation of a line.
    fn announce_line(
        &mut self,
        source: &[u8],
        declaration: &Declaration,
        line: usize,
    ) -> Result<(), Memory>
        ensures names { OnOk result ((said : List (Row Said)) → Knows self.old.names said → Knows self.new.names (said ++ said_by source.now declaration.now)) }
        ensures operators { self.new.operators ≡ self.old.operators }
        ensures constants { self.new.constants ≡ self.old.constants }
        ensures types { self.new.bodies.types ≡ self.old.bodies.types }
        ensures uses { self.new.uses ≡ self.old.uses }
        ensures bodies { OnOk result ((said : List (Row Said)) (defs : List (Row Definition)) (declared : ℕ → Option Declaration) → Knows self.old.names said → declared line ≡ Some declaration.now → KnowsBodies self.old.bodies.types.bank self.old.bodies.bodies.items said defs source.now declared → KnowsBodies self.new.bodies.types.bank self.new.bodies.bodies.items (said ++ said_by source.now declaration.now) (defs ++ definitions_by source.now declaration.now) source.now declared) }
        ensures stay { OnOk result ((k : ℕ) → IsSettledAt self.old.bodies.bodies.items k → IsSettledAt self.new.bodies.bodies.items k) }
        ensures lines { OnOk result ((from : ℕ) (said : List (Row Said)) (defs : List (Row Definition)) (declared : ℕ → Option Declaration) → Knows self.old.names said → declared line ≡ Some declaration.now → KnowsBodies self.old.bodies.types.bank self.old.bodies.bodies.items said defs source.now declared → AreAnnounced from self.old.bodies.bodies.items said source.now declared → AreAnnounced from self.new.bodies.bodies.items (said ++ said_by source.now declaration.now) source.now declared) }
    {
        match declaration {
            Declaration::Kinds(names, arity) => {
                self.names.announce_kinds(source, names.as_slice(), *arity)
            }
            Declaration::LocalKinds(names, count) => match count {
                Some(arity) => self.names.announce_kinds(source, names.as_slice(), *arity),
                None => Ok(()),
            },
            Declaration::Constants(_, _) => Ok(()),
            Declaration::Locals(_, _) => Ok(()),
            Declaration::Abbreviation(name, parameters, _) => {
                self.announce_abbreviation(source, *name, parameters.len(), line)
            }
            Declaration::Accumulate(_) => Ok(()),
            Declaration::AccumSig(_) => Ok(()),
            Declaration::Fixities(_, _, _) => Ok(()),
        }
    }

    pub(crate) fn announce(&mut self, source: &[u8], text: &SignatureText) -> Result<(), Memory>
        ensures names { OnOk result ((said : List (Row Said)) → Knows self.old.names said → Knows self.new.names (said ++ said_in source.now text.now.lines.items)) }
        ensures operators { self.new.operators ≡ self.old.operators }
        ensures constants { self.new.constants ≡ self.old.constants }
        ensures types { self.new.bodies.types ≡ self.old.bodies.types }
        ensures uses { self.new.uses ≡ self.old.uses }
        ensures bodies { OnOk result ((said : List (Row Said)) (defs : List (Row Definition)) → Knows self.old.names said → KnowsBodies self.old.bodies.types.bank self.old.bodies.bodies.items said defs source.now (line_of_text text.now.lines.items) → KnowsBodies self.new.bodies.types.bank self.new.bodies.bodies.items (said ++ said_in source.now text.now.lines.items) (defs ++ definitions_in source.now text.now.lines.items) source.now (line_of_text text.now.lines.items)) }
        ensures stay { OnOk result ((k : ℕ) → IsSettledAt self.old.bodies.bodies.items k → IsSettledAt self.new.bodies.bodies.items k) }
        ensures lines { OnOk result ((from : ℕ) (said : List (Row Said)) (defs : List (Row Definition)) → Knows self.old.names said → KnowsBodies self.old.bodies.types.bank self.old.bodies.bodies.items said defs source.now (line_of_text text.now.lines.items) → AreAnnounced from self.old.bodies.bodies.items said source.now (line_of_text text.now.lines.items) → AreAnnounced from self.new.bodies.bodies.items (said ++ said_in source.now text.now.lines.items) source.now (line_of_text text.now.lines.items)) }
    {
        for (line, declaration) in text.lines.as_slice().iter().enumerate() {
            self.announce_line(source, declaration, line)?;
        }
        Ok(())
    }

    fn announce_sentence(
        &mut self,
        source: &[u8],
        sentence: &Sentence,
        line: usize,
    ) -> Result<(), Memory>
        ensures names { OnOk result ((said : List (Row Said)) → Knows self.old.names said → Knows self.new.names (said ++ said_in source.now (declarations (sentence.now ∷ [])))) }
        ensures bodies { OnOk result ((said : List (Row Said)) (defs : List (Row Definition)) (declared : ℕ → Option Declaration) → Knows self.old.names said → declared line ≡ declared_by_sentence (Some sentence.now) → KnowsBodies self.old.bodies.types.bank self.old.bodies.bodies.items said defs source.now declared → KnowsBodies self.new.bodies.types.bank self.new.bodies.bodies.items (said ++ said_in source.now (declarations (sentence.now ∷ []))) (defs ++ definitions_in source.now (declarations (sentence.now ∷ []))) source.now declared) }
        ensures constants { self.new.constants ≡ self.old.constants }
        ensures types { self.new.bodies.types ≡ self.old.bodies.types }
        ensures operators { self.new.operators ≡ self.old.operators }
        ensures uses { self.new.uses ≡ self.old.uses }
    {
        match sentence {
            Sentence::Declares(declaration) => self.announce_line(source, declaration, line),
            Sentence::Says(_) => Ok(()),
        }
    }

    // The declarations of a module's text.
    pub(crate) fn announce_module(&mut self, source: &[u8], text: &ModuleText) -> Result<(), Memory>
        ensures names { OnOk result ((said : List (Row Said)) → Knows self.old.names said → Knows self.new.names (said ++ said_in source.now (declarations text.now.lines.items))) }
        ensures bodies { OnOk result ((said : List (Row Said)) (defs : List (Row Definition)) → Knows self.old.names said → KnowsBodies self.old.bodies.types.bank self.old.bodies.bodies.items said defs source.now (line_of_module text.now.lines.items) → KnowsBodies self.new.bodies.types.bank self.new.bodies.bodies.items (said ++ said_in source.now (declarations text.now.lines.items)) (defs ++ definitions_in source.now (declarations text.now.lines.items)) source.now (line_of_module text.now.lines.items)) }
        ensures constants { self.new.constants ≡ self.old.constants }
        ensures types { self.new.bodies.types ≡ self.old.bodies.types }
        ensures operators { self.new.operators ≡ self.old.operators }
        ensures uses { self.new.uses ≡ self.old.uses }
    {
        for at in 0..text.lines.len() {
            self.announce_sentence(source, &text.lines[at], at)?;
        }
        Ok(())
    }
}
