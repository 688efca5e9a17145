//! What terms and types become by a map: in another bank, or in the one in which they are.
ghost use Rattle.std.specs.Prelude.{◌≡◌, ◌<◌, IfOk, OnOk, length};
ghost use Rattle.lp_term.specs.Nodes.{Nodes, Extends, tree, type_tree};
ghost use Rattle.lp_term.specs.Mapped.{Map, IsMap, mapped, mapped_type};
ghost use Rattle.lp_term.specs.Memo.{AreMade};
ghost use Rattle.lp_term.specs.inner.Reading.{read_of};

use crate::bank::Bank;
use crate::becomes::TypeChange;
use crate::build::put_variable;
use crate::changed::Changed;
use crate::mapping::Mapping;
use crate::node::{TermId, TypeId};
use crate::put::put_index;
use crate::read::read;
use crate::walk::walk;
use crate::walked::Node;
use lp_base::Memory;
use std::alloc::Global;

fn term_mapped<M: Mapping>(
    alloc: Global,
    map: &M,
    here: bool,
    from: &Bank,
    term: TermId,
    done: &mut Changed,
    to: &mut Bank,
) -> Result<TermId, Memory>
    ensures kept { Extends to.old to.new }
    ensures within { IfOk result (λ id. id.0 < length to.new.terms) }
    ensures made { IfOk result (λ id. (m : Map) → IsMap (M.told map.now) m (read_of here from.now to.old) to.old → AreMade m (read_of here from.now to.old) to.old done.old →
        tree to.new id.0 ≡ mapped m (tree (read_of here from.now to.old) term.0)) }
    ensures memo { OnOk result ((m : Map) → IsMap (M.told map.now) m (read_of here from.now to.old) to.old → AreMade m (read_of here from.now to.old) to.old done.old → AreMade m (read_of here from.now to.old) to.new done.new) }
{
    if term.0 >= read(here, from, to).term_count() {
        let id = put_index(to, 0)?;
        return Ok(id);
    }
    walk(alloc, map, here, from, Node::Term(term.0), done, to)?;
    let id = to.inside(done.term(term))?;
    Ok(id)
}

// A number outside the bank is read as the type variable 0.
fn type_mapped<M: Mapping>(
    alloc: Global,
    map: &M,
    here: bool,
    from: &Bank,
    of: TypeId,
    done: &mut Changed,
    to: &mut Bank,
) -> Result<TypeId, Memory>
    ensures kept { Extends to.old to.new }
    ensures within { IfOk result (λ id. id.0 < length to.new.types) }
    ensures made { IfOk result (λ id. (m : Map) → IsMap (M.told map.now) m (read_of here from.now to.old) to.old → AreMade m (read_of here from.now to.old) to.old done.old →
        type_tree to.new id.0 ≡ mapped_type m (type_tree (read_of here from.now to.old) of.0)) }
    ensures memo { OnOk result ((m : Map) → IsMap (M.told map.now) m (read_of here from.now to.old) to.old → AreMade m (read_of here from.now to.old) to.old done.old → AreMade m (read_of here from.now to.old) to.new done.new) }
{
    if of.0 < read(here, from, to).type_count() {
        walk(alloc, map, here, from, Node::Type(of.0), done, to)?;
        let id = to.inside_type(done.type_of(of))?;
        return Ok(id);
    }
    let change = map.type_variable(0);
    if let TypeChange::As(other) = change {
        walk(alloc, map, here, from, Node::Type(other.0), done, to)?;
        let id = to.inside_type(done.type_of(other))?;
        return Ok(id);
    }
    let id = put_variable(to, done, change)?;
    Ok(id)
}

impl Changed {
    /// What the term of another bank becomes in this one.
    pub fn copy<M: Mapping>(
        &mut self,
        alloc: Global,
        map: &M,
        from: &Bank,
        term: TermId,
        to: &mut Bank,
    ) -> Result<TermId, Memory>
        ensures kept { Extends to.old to.new }
        ensures within { IfOk result (λ id. id.0 < length to.new.terms) }
        ensures made { IfOk result (λ id. (m : Map) → IsMap (M.told map.now) m from.now to.old → AreMade m from.now to.old self.old → tree to.new id.0 ≡ mapped m (tree from.now term.0)) }
        ensures memo { OnOk result ((m : Map) → IsMap (M.told map.now) m from.now to.old → AreMade m from.now to.old self.old → AreMade m from.now to.new self.new) }
    {
        term_mapped(alloc, map, false, from, term, self, to)
    }

    /// What the type of another bank becomes in this one.
    pub fn copy_type<M: Mapping>(
        &mut self,
        alloc: Global,
        map: &M,
        from: &Bank,
        of: TypeId,
        to: &mut Bank,
    ) -> Result<TypeId, Memory>
        ensures kept { Extends to.old to.new }
        ensures within { IfOk result (λ id. id.0 < length to.new.types) }
        ensures made { IfOk result (λ id. (m : Map) → IsMap (M.told map.now) m from.now to.old → AreMade m from.now to.old self.old → type_tree to.new id.0 ≡ mapped_type m (type_tree from.now of.0)) }
        ensures memo { OnOk result ((m : Map) → IsMap (M.told map.now) m from.now to.old → AreMade m from.now to.old self.old → AreMade m from.now to.new self.new) }
    {
        type_mapped(alloc, map, false, from, of, self, to)
    }

    /// What the term becomes in its own bank. What stays as it is keeps its number.
    pub fn change<M: Mapping>(
        &mut self,
        alloc: Global,
        map: &M,
        term: TermId,
        bank: &mut Bank,
    ) -> Result<TermId, Memory>
        ensures kept { Extends bank.old bank.new }
        ensures within { IfOk result (λ id. id.0 < length bank.new.terms) }
        ensures made { IfOk result (λ id. (m : Map) → IsMap (M.told map.now) m bank.old bank.old → AreMade m bank.old bank.old self.old → tree bank.new id.0 ≡ mapped m (tree bank.old term.0)) }
        ensures memo { OnOk result ((m : Map) → IsMap (M.told map.now) m bank.old bank.old → AreMade m bank.old bank.old self.old → AreMade m bank.old bank.new self.new) }
    {
        let none = Bank::new(alloc);
        term_mapped(alloc, map, true, &none, term, self, bank)
    }

    /// What the type becomes in its own bank. What stays as it is keeps its number.
    pub fn change_type<M: Mapping>(
        &mut self,
        alloc: Global,
        map: &M,
        of: TypeId,
        bank: &mut Bank,
    ) -> Result<TypeId, Memory>
        ensures kept { Extends bank.old bank.new }
        ensures within { IfOk result (λ id. id.0 < length bank.new.types) }
        ensures made { IfOk result (λ id. (m : Map) → IsMap (M.told map.now) m bank.old bank.old → AreMade m bank.old bank.old self.old → type_tree bank.new id.0 ≡ mapped_type m (type_tree bank.old of.0)) }
        ensures memo { OnOk result ((m : Map) → IsMap (M.told map.now) m bank.old bank.old → AreMade m bank.old bank.old self.old → AreMade m bank.old bank.new self.new) }
    {
        let none = Bank::new(alloc);
        type_mapped(alloc, map, true, &none, of, self, bank)
    }
}
