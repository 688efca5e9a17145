// The image in the making.
ghost use Rattle.std.specs.Prelude.{◌≡◌, ◌+◌, ◌<◌, ◌^◌, ℕ, min, List, [], ◌∷◌, length, map, if◌then◌else◌, IfOk, OnOk};
ghost use Rattle.std.specs.Str.{bytes_eq};
ghost use Rattle.lp_code.specs.Naming.{object_arity, scheme_in, image_tables, tables_of};
ghost use Rattle.lp_link.specs.Linked.{kinds_of, constants_of};
ghost use Rattle.lp_link.specs.inner.Named.{count_in, rows_of_kinds, rows_of_constants, AddsRows, AddsHidden};
ghost use Rattle.lp_link.specs.inner.Parts.{map_in, AddsMoved};
ghost use Rattle.lp_link.specs.inner.Entering.{open_copy};
ghost use Rattle.lp_link.specs.Names.{hidden_of, exported_of, exported_types, hidden_types, as_global, kind_row, constant_row, exported_kind_rows, exported_constant_rows, hidden_kind_rows, hidden_constant_rows};
ghost use Rattle.lp_link.specs.inner.Tabled.{arities_of, made_arities, made_schemes, AddsTables, IsLeft, counted};

use crate::names::Open;
use crate::records::Numbers;
use indexmap::IndexMap;
use lp_base::Memory;
use lp_code::{Code, Image, ImageConstant, ImageKind, ObjectConstant, ObjectKind, Record};
use lp_term::{Bank, Changed, TypeId};
use std::alloc::Global;

/// The tables so far, and how many hidden names there are of each name.
#[derive(Drop)]
pub(crate) struct Making {
    alloc: Global,
    bank: Bank,
    kinds: Vec<ImageKind>,
    constants: Vec<ImageConstant>,
    hidden_kinds: IndexMap<Vec<u8>, u16>,
    hidden_constants: IndexMap<Vec<u8>, u16>,
}

// How many hidden names of this name there are.
fn hidden_so_far(counts: &IndexMap<Vec<u8>, u16>, name: &[u8]) -> u16
    ensures { result ≡ count_in counts.now name.now }
{
    match counts.get(name) {
        None => 0,
        Some(count) => *count,
    }
}

// The number of the next hidden name of this name, from 1.
fn next_hidden(
    alloc: Global,
    counts: &mut IndexMap<Vec<u8>, u16>,
    name: &[u8],
) -> Result<u16, Memory>
    ensures number { IfOk result (λ n. n ≡ min (count_in counts.old name.now + 1) 65535) }
    ensures counted { IfOk result (λ n. (other : List ℕ) → count_in counts.new other ≡ (if bytes_eq other name.now then n else count_in counts.old other)) }
{
    let next = hidden_so_far(counts, name).saturating_add(1);
    let key = Vec::from_slice(alloc, name)?;
    counts.insert(key, next)?;
    Ok(next)
}

// The records of a copy, behind those so far.
fn add_records(
    numbers: &Numbers<'_>,
    of: &[Record],
    records: &mut Vec<Record>,
) -> Result<(), Memory>
    ensures length { OnOk result (length records.new.items ≡ length records.old.items + length of.now) }
    ensures moved { OnOk result (AddsMoved (map_in numbers.now) numbers.now.first of.now records.old.items records.new.items) }
{
    for at in 0..of.len() {
        records.push(numbers.record(&of[at])?)?;
    }
    Ok(())
}

// How many there are, as it is written in 32 bits.
fn count_of(records: &[Record]) -> u32
    ensures { result ≡ counted (length records.now) }
{
    records.len().min(u32::MAX as usize) as u32
}

impl Making {
    pub(crate) fn new(alloc: Global) -> Making
        ensures kinds { result.kinds.items ≡ [] }
        ensures constants { result.constants.items ≡ [] }
        ensures counted { (name : List ℕ) → (count_in result.hidden_kinds name ≡ 0) × (count_in result.hidden_constants name ≡ 0) }
    {
        Making {
            alloc,
            bank: Bank::new(alloc),
            kinds: Vec::new(alloc),
            constants: Vec::new(alloc),
            hidden_kinds: IndexMap::new(alloc),
            hidden_constants: IndexMap::new(alloc),
        }
    }

    fn add_kind(&mut self, kind: &ObjectKind, hidden: u16) -> Result<(), Memory>
        ensures tables { OnOk result (AddsTables self.old self.new (object_arity kind.now ∷ []) []) }
        ensures names { OnOk result (AddsRows self.old self.new ((kind.now.name.items, (hidden, kind.now.arity)) ∷ []) []) }
    {
        let name = Vec::from_slice(self.alloc, kind.name.as_slice())?;
        self.kinds.push(ImageKind {
            name,
            hidden,
            arity: kind.arity,
        })?;
        Ok(())
    }

    fn add_constant(
        &mut self,
        constant: &ObjectConstant,
        hidden: u16,
        scheme: TypeId,
    ) -> Result<(), Memory>
        requires { scheme.0 < length self.old.bank.types }
        ensures added { OnOk result (AddsTables self.old self.new [] (scheme_in self.old.bank constant.now.type_vars scheme.0 ∷ [])) }
        ensures bank { self.new.bank ≡ self.old.bank }
        ensures names { OnOk result (AddsRows self.old self.new [] ((constant.now.name.items, (hidden, constant.now.fixity)) ∷ [])) }
    {
        let name = Vec::from_slice(self.alloc, constant.name.as_slice())?;
        self.constants.push(ImageConstant {
            name,
            hidden,
            type_vars: constant.type_vars,
            scheme,
            fixity: constant.fixity,
        })?;
        Ok(())
    }

    // The exported kinds of the root, which are global.
    fn add_global_kinds(&mut self, root: &Open<'_, '_>) -> Result<(), Memory>
        ensures tables { OnOk result (AddsTables self.old self.new (exported_of (kinds_of root.now.member.now.object.now) (arities_of root.now.member.now.object.now)) []) }
        ensures names { OnOk result (AddsRows self.old self.new (map as_global (exported_kind_rows root.now.member.now.object.now)) []) }
    {
        let kinds = root.member.object.kinds.as_slice();
        for at in 0..kinds.len() {
            let kind = &kinds[at];
            if !kind.exported {
                continue;
            }
            self.add_kind(kind, 0)?;
        }
        Ok(())
    }

    // Its exported constants.
    fn add_global_constants(&mut self, root: &Open<'_, '_>) -> Result<(), Memory>
        ensures tables { OnOk result (AddsTables self.old self.new [] (exported_types (open_copy root.now))) }
        ensures names { OnOk result (AddsRows self.old self.new [] (map as_global (exported_constant_rows root.now.member.now.object.now))) }
    {
        let constants = root.member.object.constants.as_slice();
        let from = &root.member.object.bank;
        let mut types = Changed::new(self.alloc);
        for at in 0..constants.len() {
            let constant = &constants[at];
            if !constant.exported {
                continue;
            }
            let of = constant.scheme;
            let scheme = types.copy_type(self.alloc, &root.names, from, of, &mut self.bank)?;
            self.add_constant(constant, 0, scheme)?;
        }
        Ok(())
    }

    /// The names that the root exports, which are global.
    pub(crate) fn add_global(&mut self, root: &Open<'_, '_>) -> Result<(), Memory>
        ensures tables { OnOk result (AddsTables self.old self.new (exported_of (kinds_of root.now.member.now.object.now) (arities_of root.now.member.now.object.now)) (exported_types (open_copy root.now))) }
        ensures names { OnOk result (AddsRows self.old self.new (map as_global (exported_kind_rows root.now.member.now.object.now)) (map as_global (exported_constant_rows root.now.member.now.object.now))) }
    {
        self.add_global_kinds(root)?;
        self.add_global_constants(root)
    }

    // The hidden kinds of a copy.
    fn add_hidden_kinds(&mut self, copy: &Open<'_, '_>) -> Result<(), Memory>
        ensures tables { OnOk result (AddsTables self.old self.new (hidden_of (kinds_of copy.now.member.now.object.now) (arities_of copy.now.member.now.object.now)) []) }
        ensures names { OnOk result (AddsHidden self.old self.new (hidden_kind_rows copy.now.member.now.object.now) []) }
    {
        let kinds = copy.member.object.kinds.as_slice();
        for at in 0..kinds.len() {
            let kind = &kinds[at];
            if kind.exported {
                continue;
            }
            let name = kind.name.as_slice();
            let hidden = next_hidden(self.alloc, &mut self.hidden_kinds, name)?;
            self.add_kind(kind, hidden)?;
        }
        Ok(())
    }

    // Its hidden constants.
    fn add_hidden_constants(&mut self, copy: &Open<'_, '_>) -> Result<(), Memory>
        ensures tables { OnOk result (AddsTables self.old self.new [] (hidden_types (open_copy copy.now))) }
        ensures names { OnOk result (AddsHidden self.old self.new [] (hidden_constant_rows copy.now.member.now.object.now)) }
    {
        let constants = copy.member.object.constants.as_slice();
        let from = &copy.member.object.bank;
        let mut types = Changed::new(self.alloc);
        for at in 0..constants.len() {
            let constant = &constants[at];
            if constant.exported {
                continue;
            }
            let name = constant.name.as_slice();
            let hidden = next_hidden(self.alloc, &mut self.hidden_constants, name)?;
            let of = constant.scheme;
            let scheme = types.copy_type(self.alloc, &copy.names, from, of, &mut self.bank)?;
            self.add_constant(constant, hidden, scheme)?;
        }
        Ok(())
    }

    // The hidden names of a copy.
    fn add_hidden(&mut self, copy: &Open<'_, '_>) -> Result<(), Memory>
        ensures tables { OnOk result (AddsTables self.old self.new (hidden_of (kinds_of copy.now.member.now.object.now) (arities_of copy.now.member.now.object.now)) (hidden_types (open_copy copy.now))) }
        ensures names { OnOk result (AddsHidden self.old self.new (hidden_kind_rows copy.now.member.now.object.now) (hidden_constant_rows copy.now.member.now.object.now)) }
    {
        self.add_hidden_kinds(copy)?;
        self.add_hidden_constants(copy)
    }

    /// A copy, whose records come behind those of the ones below it.
    pub(crate) fn add_copy(
        &mut self,
        copy: &Open<'_, '_>,
        records: &mut Vec<Record>,
    ) -> Result<(), Memory>
        ensures { OnOk result (IsLeft self.old self.new records.old.items records.new.items (open_copy copy.now)) }
    {
        self.add_hidden(copy)?;
        let numbers = Numbers {
            alloc: self.alloc,
            names: &copy.names,
            first: count_of(records.as_slice()),
        };
        add_records(
            &numbers,
            copy.member.object.code.records.as_slice(),
            records,
        )
    }

    /// The image with these records.
    pub(crate) fn finish(self, name: Vec<u8>, records: Vec<Record>) -> Result<Image, Memory>
        requires few { length records.items < 2 ^ 32 }
        ensures name { IfOk result (λ image. image.name ≡ name) }
        ensures records { IfOk result (λ image. image.code.records ≡ records) }
        ensures tables { IfOk result (λ image. image_tables image ≡ tables_of (made_arities self) (made_schemes self)) }
        ensures kinds { IfOk result (λ image. map kind_row image.kinds.items ≡ rows_of_kinds self) }
        ensures constants { IfOk result (λ image. map constant_row image.constants.items ≡ rows_of_constants self) }
        ensures types { IfOk result (λ image. map (λ c. scheme_in image.bank c.type_vars c.scheme.0) image.constants.items ≡ made_schemes self) }
    {
        let image = Image::new(
            self.alloc,
            name,
            self.bank,
            self.kinds,
            self.constants,
            Code { records },
        )?;
        Ok(image)
    }
}
