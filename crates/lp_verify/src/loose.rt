// The loose indices of terms with their types, as lists that several terms share.
ghost use Rattle.std.specs.Prelude.{◌≡◌, ◌+◌, ◌-◌, ◌++◌, ◌∷◌, [], ◌<◌, ◌^◌, List, Vec, IfOk, OnOk, Option, Some, None, option_map, is_some, slice_get, length, map, drop, min, if◌then◌else◌};
ghost use Rattle.std.specs.Global.{Global};
ghost use Rattle.lp_calculus.specs.Types.{Ty};
ghost use Rattle.lp_code.specs.Rules.{has_none};
ghost use Rattle.lp_code.specs.Symbolic.{outer, bound_index};
ghost use Rattle.lp_verify.specs.declared.types.Types.{Types};
ghost use Rattle.lp_verify.specs.inner.FirstNumbers.{IsType};
ghost use Rattle.lp_verify.specs.inner.Indices.{entries_in, lowered_by, seen_in, innermost_of, innermost_in, next_of_both, next_of, merge, ListsGrow, store, StandFor, AreJoined};

use lp_base::Memory;
use lp_term::TypeId;
use std::alloc::Global;

// An index, and its type.
#[derive(Clone, Copy)]
struct Entry {
    index: u32,
    of: TypeId,
}

// Of two lists the entry that comes next, which stands in one of them or in both. A clash: an index has two types.
#[derive(Clone, Copy)]
enum Next {
    Done,
    Left(Entry),
    Right(Entry),
    Both(Entry),
    Clash,
}

// The entries of a list from one on, each index lowered by a number.
#[derive(Clone, Copy)]
pub(crate) struct Loose {
    list: usize,
    from: usize,
    lowered: u32,
}

// Lists of indices, ascending.
#[derive(Drop)]
pub(crate) struct Lists {
    alloc: Global,
    lists: Vec<Vec<Entry>>,
}

impl Loose {
    // No index is loose: no list has this number.
    pub(crate) const NONE: Loose = Loose {
        list: usize::MAX,
        from: 0,
        lowered: 0,
    };
}

impl Entry {
    fn lowered(self, by: u32) -> Entry
        ensures { result ≡ lowered_by by self }
    {
        Entry {
            index: self.index.saturating_sub(by),
            of: self.of,
        }
    }
}

// The entries from one on.
fn rest(entries: &[Entry], from: usize) -> &[Entry]
    ensures { result.now ≡ drop from entries.now }
{
    if from >= entries.len() {
        return &[];
    }
    &entries[from..]
}

fn first(entries: &[Entry]) -> Option<Entry>
    ensures { result ≡ slice_get entries.now 0 }
{
    entries.first().copied()
}

fn first_lowered(entries: &[Entry], by: u32) -> Option<Entry>
    ensures { result ≡ slice_get (map (lowered_by by) entries.now) 0 }
{
    match first(entries) {
        Some(entry) => Some(entry.lowered(by)),
        None => None,
    }
}

fn next_of_both(left: Entry, right: Entry) -> Next
    ensures { result ≡ next_of_both left right }
{
    if left.index == right.index {
        if left.of.0 == right.of.0 {
            return Next::Both(left);
        }
        return Next::Clash;
    }
    if left.index < right.index {
        return Next::Left(left);
    }
    Next::Right(right)
}

fn next_of(left: Option<Entry>, right: Option<Entry>) -> Next
    ensures { result ≡ next_of left right }
{
    match (left, right) {
        (None, None) => Next::Done,
        (Some(entry), None) => Next::Left(entry),
        (None, Some(entry)) => Next::Right(entry),
        (Some(one), Some(other)) => next_of_both(one, other),
    }
}

// The type of index 0 of entries that are lowered by a number.
fn innermost_of(lowered: u32, first: Option<Entry>) -> Option<TypeId>
    ensures { result ≡ innermost_of lowered first }
{
    match first {
        Some(entry) => {
            if entry.index == lowered {
                return Some(entry.of);
            }
            None
        }
        None => None,
    }
}

// The first entry behind index 0, where that is loose.
fn behind(from: usize, innermost: Option<TypeId>) -> usize
    ensures { result ≡ (if is_some innermost then min (from + 1) (2 ^ 64 - 1) else from) }
{
    match innermost {
        Some(_) => from.saturating_add(1),
        None => from,
    }
}

// The indices of both, ascending; None where one has two types.
fn merged(
    alloc: Global,
    left: &[Entry],
    left_by: u32,
    right: &[Entry],
    right_by: u32,
) -> Result<Option<Vec<Entry>>, Memory>
    ensures { IfOk result (λ merged. option_map (λ (v : Vec Entry Global). v.items) merged ≡ merge (min (length left.now + length right.now) (2 ^ 64 - 1)) (map (lowered_by left_by) left.now) (map (lowered_by right_by) right.now)) }
{
    let mut merged = Vec::new(alloc);
    let mut on_left = left;
    let mut on_right = right;
    let mut steps = left.len().saturating_add(right.len());
    while steps > 0 {
        steps = steps.saturating_sub(1);
        match next_of(
            first_lowered(on_left, left_by),
            first_lowered(on_right, right_by),
        ) {
            Next::Done => return Ok(Some(merged)),
            Next::Clash => return Ok(None),
            Next::Left(entry) => {
                merged.push(entry)?;
                on_left = rest(on_left, 1);
                continue;
            }
            Next::Right(entry) => {
                merged.push(entry)?;
                on_right = rest(on_right, 1);
                continue;
            }
            Next::Both(entry) => {
                merged.push(entry)?;
                on_left = rest(on_left, 1);
                on_right = rest(on_right, 1);
                continue;
            }
        }
    }
    Ok(Some(merged))
}

impl Lists {
    pub(crate) fn new(alloc: Global) -> Lists {
        Lists {
            alloc,
            lists: Vec::new(alloc),
        }
    }

    fn entries(&self, loose: Loose) -> &[Entry]
        ensures { result.now ≡ entries_in self.now loose }
    {
        match self.lists.get(loose.list) {
            Some(entries) => rest(entries.as_slice(), loose.from),
            None => &[],
        }
    }

    fn put(&mut self, entries: Vec<Entry>) -> Result<Loose, Memory>
        ensures lists { OnOk result (self.new.lists.items ≡ self.old.lists.items ++ entries ∷ []) }
        ensures put { IfOk result (λ loose. loose ≡ record { list = length self.old.lists.items; from = 0; lowered = 0 }) }
    {
        let list = self.lists.len();
        self.lists.push(entries)?;
        Ok(Loose {
            list,
            from: 0,
            lowered: 0,
        })
    }

    pub(crate) fn one(&mut self, index: u16, of: TypeId) -> Result<Loose, Memory>
        ensures grow { OnOk result (ListsGrow self.old self.new) }
        ensures one { IfOk result (λ loose. (x : Types) (T : Ty) → IsType x of T → StandFor (store x self.new) loose (bound_index index T).loose) }
    {
        let mut entries = Vec::new(self.alloc);
        entries.push(Entry {
            index: u32::from(index),
            of,
        })?;
        let loose = self.put(entries)?;
        Ok(loose)
    }

    pub(crate) fn is_closed(&self, loose: Loose) -> bool
        ensures { result ≡ has_none (entries_in self.now loose) }
    {
        first(self.entries(loose)).is_none()
    }

    // The type of index 0, where it is loose.
    pub(crate) fn innermost(&self, loose: Loose) -> Option<TypeId>
        ensures { result ≡ innermost_in self.now loose }
    {
        innermost_of(loose.lowered, first(self.entries(loose)))
    }

    // What is loose under an abstraction, seen from outside.
    pub(crate) fn outer(&self, loose: Loose) -> Loose
        ensures { (x : Types) (ts : List (Option Ty)) → StandFor (store x self.now) loose ts → StandFor (store x self.now) result (outer ts) }
    {
        let from = behind(loose.from, self.innermost(loose));
        let lowered = loose.lowered.saturating_add(1);
        Loose {
            list: loose.list,
            from,
            lowered,
        }
    }

    // What is loose in one of two terms; None where an index has two types.
    pub(crate) fn joined(&mut self, left: Loose, right: Loose) -> Result<Option<Loose>, Memory>
        ensures grow { OnOk result (ListsGrow self.old self.new) }
        ensures joined { IfOk result (λ found. (x : Types) (ts us : List (Option Ty)) → StandFor (store x self.old) left ts → StandFor (store x self.old) right us → AreJoined (store x self.new) ts us found) }
    {
        let closed_right = self.is_closed(right);
        if closed_right {
            return Ok(Some(left));
        }
        let closed_left = self.is_closed(left);
        if closed_left {
            return Ok(Some(right));
        }
        let on_left = self.entries(left);
        let on_right = self.entries(right);
        let Some(merged) = merged(self.alloc, on_left, left.lowered, on_right, right.lowered)?
        else {
            return Ok(None);
        };
        let only_left = merged.len() == on_left.len();
        if only_left {
            return Ok(Some(left));
        }
        let only_right = merged.len() == on_right.len();
        if only_right {
            return Ok(Some(right));
        }
        let put = self.put(merged)?;
        Ok(Some(put))
    }
}
