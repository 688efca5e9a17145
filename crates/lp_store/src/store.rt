ghost use Rattle.std.specs.Prelude.{◌≡◌, ◌⊎◌, ℕ, ◌+◌, ◌<◌, ◌≤◌, length, List, [], ◌∷◌, true, false, IfOk, OnOk, OnErr, All, MatchOption};
ghost use Rattle.lp_calculus.specs.Types.{Ty, instance};
ghost use Rattle.lp_calculus.specs.Term.{Term};
ghost use Rattle.lp_calculus.specs.Convert.{Converts, Reduces};
ghost use Rattle.lp_calculus.specs.Fill.{put};
ghost use Rattle.lp_calculus.specs.Instance.{instance_term};
ghost use Rattle.lp_store.specs.Contents.{Contents, cell_at, span, env_list, as_at};
ghost use Rattle.lp_store.specs.Reading.{Avoids, AvoidsAll, MayBeTerm, MayBeType, parts, types_in, terms_in, top, type_top, Reads, ReadAll, ReadsType, ReadTypes, Leads};
ghost use Rattle.lp_store.specs.Sound.{Stands, StandsEntry, IsSound};
ghost use Rattle.lp_store.specs.Change.{changed, with_cell, with_items, with_bytes, with_env, lengths, Extends, IsMark, KeepsMarks, IsNoLater, HasNoLoose, type_for};

use crate::cell::{Cell, CellId, Env, EnvEntry, EnvNode, Mark, Span};
use crate::cells::Cells;
use crate::slot::slot_of;
use crate::trail::{Kept, Trail};
use lp_base::Memory;
use std::alloc::Global;
use std::marker::Model;

/// Cells that are bound and overwritten in place. A trail keeps what they were.
#[derive(Drop)]
pub struct Store {
    cells: Cells,
    items: Vec<CellId>,
    bytes: Vec<u8>,
    envs: Vec<EnvNode>,
    trail: Trail,
}

impl Model for Store {
    ghost use Rattle.lp_store.specs.Contents.{Contents};

    ghost Value = { Contents };

    ghost view = { λ s. record { cells = s.cells; items = s.items.items; bytes = s.bytes.items; envs = s.envs.items; trail = s.trail } };

    ghost use Rattle.lp_store.specs.Sound.{IsSound};

    ghost invariant = { λ s. IsSound (record { cells = s.cells; items = s.items.items; bytes = s.bytes.items; envs = s.envs.items; trail = s.trail }) };
}

impl Store {
    pub fn new(alloc: Global) -> Store
        ensures cells { result.cells ≡ [] }
        ensures trail { result.trail ≡ [] }
        ensures sound { IsSound result }
    {
        Store {
            cells: Cells::new(alloc),
            items: Vec::new(alloc),
            bytes: Vec::new(alloc),
            envs: Vec::new(alloc),
            trail: Trail::new(alloc),
        }
    }

    /// A new cell.
    pub fn push(&mut self, cell: Cell) -> Result<CellId, Memory>
        requires { Stands self.old cell }
        ensures id { IfOk result (λ id. id.0 ≡ length self.old.cells) }
        ensures pushed { OnOk result (self.new ≡ with_cell self.old cell) }
        ensures reads { IfOk result (λ id. (ts : List Term) → ReadAll self.old (terms_in self.old cell) ts → MayBeTerm cell → (Ts : List Ty) → ReadTypes self.old (types_in self.old cell) Ts → Reads self.new id.0 (top self.old id.0 cell Ts ts)) }
        ensures reads_type { IfOk result (λ id. MayBeType cell → (Ts : List Ty) → ReadTypes self.old (parts self.old cell) Ts → ReadsType self.new id.0 (type_top id.0 cell Ts)) }
        ensures avoids { IfOk result (λ id. (c : ℕ) → c < length self.old.cells → AvoidsAll self.old c (parts self.old cell) → Avoids self.new c id.0) }
        ensures kept { Extends self.old self.new }
        ensures marks { KeepsMarks self.old self.new }
        ensures unchanged { OnErr result (self.new ≡ self.old) }
    {
        let id = CellId(self.cells.len());
        self.cells.push(cell)?;
        Ok(id)
    }

    pub fn list(&mut self, cells: &[CellId]) -> Result<Span, Memory>
        requires { All (λ t. t.0 < length self.old.cells) cells.now }
        ensures put { OnOk result (self.new ≡ with_items self.old cells.now) }
        ensures span { IfOk result (λ list. (list.from ≡ length self.old.items) × (list.count ≡ length cells.now)) }
        ensures kept { Extends self.old self.new }
        ensures marks { KeepsMarks self.old self.new }
        ensures unchanged { OnErr result (self.new ≡ self.old) }
    {
        let from = self.items.len();
        self.items.extend_from_slice(cells)?;
        Ok(Span {
            from,
            count: cells.len(),
        })
    }

    pub fn text(&mut self, bytes: &[u8]) -> Result<Span, Memory>
        ensures put { OnOk result (self.new ≡ with_bytes self.old bytes.now) }
        ensures span { IfOk result (λ list. (list.from ≡ length self.old.bytes) × (list.count ≡ length bytes.now)) }
        ensures kept { Extends self.old self.new }
        ensures marks { KeepsMarks self.old self.new }
        ensures unchanged { OnErr result (self.new ≡ self.old) }
    {
        let from = self.bytes.len();
        self.bytes.extend_from_slice(bytes)?;
        Ok(Span {
            from,
            count: bytes.len(),
        })
    }

    /// The entry in front of an environment.
    pub fn env(&mut self, entry: EnvEntry, rest: Env) -> Result<Env, Memory>
        requires entry { StandsEntry (length self.old.cells) entry }
        requires rest { rest.0 ≤ length self.old.envs }
        ensures put { OnOk result (self.new ≡ with_env self.old entry rest) }
        ensures list { IfOk result (λ made. env_list self.new.envs made.0 ≡ entry ∷ env_list self.old.envs rest.0) }
        ensures within { IfOk result (λ made. made.0 ≤ length self.new.envs) }
        ensures kept { Extends self.old self.new }
        ensures marks { KeepsMarks self.old self.new }
        ensures unchanged { OnErr result (self.new ≡ self.old) }
    {
        self.envs.push(EnvNode { entry, rest })?;
        Ok(Env(self.envs.len()))
    }

    /// Whether there is a cell of this number.
    pub fn has(&self, id: CellId) -> bool
        ensures within { result ≡ true → id.0 < length self.now.cells }
        ensures outside { result ≡ false → length self.now.cells ≤ id.0 }
    {
        id.0 < self.cells.len()
    }

    pub fn cell(&self, id: CellId) -> Cell
        requires { id.0 < length self.now.cells }
        ensures cell { result ≡ cell_at self.now id.0 }
        ensures stands { Stands self.now result }
        ensures sound { IsSound self.now }
    {
        self.cells.get(id.0)
    }

    pub fn items(&self, list: Span) -> &[CellId]
        requires { list.from + list.count ≤ length self.now.items }
        ensures items { result.now ≡ span self.now.items list.from list.count }
        ensures within { All (λ t. t.0 < length self.now.cells) result.now }
    {
        &self.items[list.from..list.from + list.count]
    }

    /// All but the first cell of a list.
    pub fn tail(&self, list: Span) -> Span
        requires list { list.from + list.count ≤ length self.now.items }
        requires some { 0 < list.count }
        ensures from { result.from ≡ list.from + 1 }
        ensures count { result.count + 1 ≡ list.count }
    {
        if list.from >= self.items.len() {
            unreachable!()
        }
        Span {
            from: list.from + 1,
            count: list.count - 1,
        }
    }

    pub fn bytes(&self, list: Span) -> &[u8]
        requires { list.from + list.count ≤ length self.now.bytes }
        ensures { result.now ≡ span self.now.bytes list.from list.count }
    {
        &self.bytes[list.from..list.from + list.count]
    }

    /// The first entry of an environment and the rest, where it has one.
    pub fn entry(&self, env: Env) -> Option<(EnvEntry, Env)>
        requires { env.0 ≤ length self.now.envs }
        ensures { MatchOption result (env_list self.now.envs env.0 ≡ []) (λ found. (env_list self.now.envs env.0 ≡ found.0 ∷ env_list self.now.envs found.1.0) × (found.1.0 ≤ length self.now.envs) × StandsEntry (length self.now.cells) found.0) }
    {
        if env.0 == 0 {
            return None;
        }
        let node = self.envs[env.0 - 1];
        Some((node.entry, node.rest))
    }

    pub fn mark(&self) -> Mark
        ensures lengths { result ≡ lengths self.now }
        ensures mark { IsMark result self.now }
        ensures same { as_at result self.now ≡ self.now }
        ensures sound { IsSound self.now }
    {
        Mark {
            cells: self.cells.len(),
            items: self.items.len(),
            bytes: self.bytes.len(),
            envs: self.envs.len(),
            trail: self.trail.len(),
        }
    }

    /// Goes back to the mark.
    pub fn undo(&mut self, mark: Mark)
        requires { IsMark mark self.old }
        ensures back { self.new ≡ as_at mark self.old }
        ensures marks { (m : Mark) → IsNoLater m mark → IsMark m self.old → IsMark m self.new × (as_at m self.new ≡ as_at m self.old) }
        ensures sound { IsSound self.new }
    {
        'changes: while self.trail.len() > mark.trail {
            let Some(kept) = self.trail.pop() else {
                unreachable!()
            };
            if kept.at < self.cells.len() {
                self.cells.put(kept.at, kept.was);
            }
        }
        self.cells.truncate(mark.cells);
        self.items.truncate(mark.items);
        self.bytes.truncate(mark.bytes);
        self.envs.truncate(mark.envs);
    }

    /// Binds an unbound variable of types to a type, or of terms to a term. Each reading has what the cell reads as in the
    /// place of the variable, where that has no loose index.
    pub fn bind(&mut self, variable: CellId, to: CellId) -> Result<(), Memory>
        requires variable { variable.0 < length self.old.cells }
        requires unbound { (cell_at self.old variable.0 ≡ Cell.TypeVar) ⊎ ((level : ℕ) × (cell_at self.old variable.0 ≡ Cell.Logic level)) }
        requires to { to.0 < length self.old.cells }
        requires no_circle { Leads self.old to.0 variable.0 → ⊥ }
        ensures changed { OnOk result (self.new ≡ changed self.old variable.0 to) }
        ensures terms { OnOk result (((t : Term) → Reads self.old to.0 t → HasNoLoose t) → (level : ℕ) → (cell_at self.old variable.0 ≡ Cell.Logic level) → (u : Term) → Reads self.old to.0 u →
            (i : ℕ) (t : Term) → Reads self.old i t → Reads self.new i (put (record { id = variable.0; level = level; value = u }) t)) }
        ensures types_stay { OnOk result ((level : ℕ) → (cell_at self.old variable.0 ≡ Cell.Logic level) → (i : ℕ) (T : Ty) → ReadsType self.old i T → ReadsType self.new i T) }
        ensures types { OnOk result ((cell_at self.old variable.0 ≡ Cell.TypeVar) → (S : Ty) → ReadsType self.old to.0 S →
            (i : ℕ) (T : Ty) → ReadsType self.old i T → ReadsType self.new i (instance (type_for variable.0 S) T)) }
        ensures types_of_terms { OnOk result ((cell_at self.old variable.0 ≡ Cell.TypeVar) → (S : Ty) → ReadsType self.old to.0 S →
            (i : ℕ) (t : Term) → Reads self.old i t → Reads self.new i (instance_term (type_for variable.0 S) t)) }
        ensures target { OnOk result ((t : Term) → Reads self.old to.0 t → Reads self.new to.0 t) }
        ensures target_type { OnOk result ((T : Ty) → ReadsType self.old to.0 T → ReadsType self.new to.0 T) }
        ensures avoids { OnOk result ((c : ℕ) → (Avoids self.old c variable.0 → Avoids self.old c to.0) → (i : ℕ) → Avoids self.old c i → Avoids self.new c i) }
        ensures marks { KeepsMarks self.old self.new }
        ensures unchanged { OnErr result (self.new ≡ self.old) }
    {
        let was = self.cells.slot(variable.0);
        let slot = slot_of(Cell::Ref(to))?;
        self.trail.push(Kept {
            at: variable.0,
            was,
        })?;
        self.cells.put(variable.0, slot);
        Ok(())
    }

    /// Lets a cell refer to one that reads as the same type, or as a convertible term.
    pub fn overwrite(&mut self, at: CellId, to: CellId) -> Result<(), Memory>
        requires at { at.0 < length self.old.cells }
        requires to { to.0 < length self.old.cells }
        requires no_circle { Leads self.old to.0 at.0 → ⊥ }
        requires same_type { (T : Ty) → ReadsType self.old at.0 T → ReadsType self.old to.0 T }
        requires converts { (t : Term) → Reads self.old at.0 t → (u : Term) × Reads self.old to.0 u × Converts t u }
        ensures changed { OnOk result (self.new ≡ changed self.old at.0 to) }
        ensures types { OnOk result ((i : ℕ) (T : Ty) → ReadsType self.old i T → ReadsType self.new i T) }
        ensures converts { OnOk result ((i : ℕ) (t : Term) → Reads self.old i t → (u : Term) × Reads self.new i u × Converts t u) }
        ensures same { OnOk result (((t : Term) → Reads self.old at.0 t → Reads self.old to.0 t) → (i : ℕ) (t : Term) → Reads self.old i t → Reads self.new i t) }
        ensures reduces { OnOk result (((t : Term) → Reads self.old at.0 t → (u : Term) × Reads self.old to.0 u × Reduces t u) → (i : ℕ) (t : Term) → Reads self.old i t → (u : Term) × Reads self.new i u × Reduces t u) }
        ensures target { OnOk result ((t : Term) → Reads self.old to.0 t → Reads self.new to.0 t) }
        ensures avoids { OnOk result ((c : ℕ) → (Avoids self.old c at.0 → Avoids self.old c to.0) → (i : ℕ) → Avoids self.old c i → Avoids self.new c i) }
        ensures marks { KeepsMarks self.old self.new }
        ensures unchanged { OnErr result (self.new ≡ self.old) }
    {
        let was = self.cells.slot(at.0);
        let slot = slot_of(Cell::Ref(to))?;
        self.trail.push(Kept { at: at.0, was })?;
        self.cells.put(at.0, slot);
        Ok(())
    }
}
