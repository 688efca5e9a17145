// The copies of a root.
ghost use Rattle.std.specs.Prelude.{◌≡◌, ◌⊎◌, ◌+◌, ◌-◌, ◌<◌, ◌≤◌, ◌^◌, ℕ, min, List, [], ◌∷◌, map, length, reverse, set, get_or, slice_get, Some, All, IfOk, IfErr, OnOk};
ghost use Rattle.lp_base.specs.declared.limit.Limit.TheVariants as limit;
ghost use Rattle.lp_copies.specs.Trees.{lists_in};
ghost use Rattle.lp_link.specs.declared.fault.LinkRefusal.TheVariants as refusal;
ghost use Rattle.lp_link.specs.declared.names.Open.{Open as OpenCopy};
ghost use Rattle.lp_code.specs.declared.object.Object.{Object as ObjectNow};
ghost use Rattle.lp_link.specs.Ends.{hidden_kinds, hidden_constants, kind_counts, constant_counts, total};
ghost use Rattle.lp_link.specs.Uses.{uses_of};
ghost use Rattle.lp_link.specs.Linked.{Copy, Ends as NameEnds, first_ends, IsLinked};
ghost use Rattle.lp_link.specs.Names.{IsNamed};
ghost use Rattle.lp_link.specs.Refusals.{CanBeLinked, HasFewCopies, HasManyCopies, HasManyRecords, IsLinkRefusal};
ghost use Rattle.lp_link.specs.inner.Members.{AreAllCompared, IsCompareRefusal, IsCopiesRefusal};
ghost use Rattle.lp_link.specs.inner.Entering.{AreFirst, AreFew, begun, ends_of, open_copy, IsShort, IsEntered, IsPlan};
ghost use Rattle.lp_link.specs.inner.Tabled.{counted, IsBegun, IsLeft, IsMade};

use crate::differ::Compared;
use crate::fault::LinkRefusal;
use crate::image::Making;
use crate::names::{Firsts, Names, Open};
use crate::order::{order_of, sum_over};
use crate::places::{Member, members_of, uses_of};
use lp_base::{Limit, MAX_CLAUSES, Memory};
use lp_code::{Image, Object, ObjectConstant, ObjectKind, Record};
use lp_copies::{Copying, END_OF_IMAGE_NUMBERS, Turn};
use lp_standard::{FIRST_CONSTANT, FIRST_KIND};
use std::alloc::Global;

// How many hidden names each object has.
#[derive(Drop)]
struct Counts {
    hidden_kinds: Vec<usize>,
    hidden_constants: Vec<usize>,
}

// Numbers below which those so far are.
#[derive(Clone, Copy)]
struct Ends {
    kind: usize,
    constant: usize,
}

fn hidden_kinds(kinds: &[ObjectKind]) -> usize
    ensures count { result ≡ hidden_kinds kinds.now }
    ensures few { result ≤ length kinds.now }
{
    let mut count = 0;
    for at in 0..kinds.len() {
        if !kinds[at].exported {
            count += 1;
        }
    }
    count
}

fn hidden_constants(constants: &[ObjectConstant]) -> usize
    ensures count { result ≡ hidden_constants constants.now }
    ensures few { result ≤ length constants.now }
{
    let mut count = 0;
    for at in 0..constants.len() {
        if !constants[at].exported {
            count += 1;
        }
    }
    count
}

// An object may have at most so many records.
fn check_records(objects: &[Object]) -> Result<(), LinkRefusal>
    ensures few { OnOk result (All (λ o. length o.code.records.items ≤ 65535) objects.now) }
    ensures refused { IfErr result (λ e. (e ≡ refusal.Limit limit.Clauses) × HasManyRecords objects.now) }
{
    for at in 0..objects.len() {
        if objects[at].code.records.len() as u64 > MAX_CLAUSES {
            return Err(LinkRefusal::Limit(Limit::Clauses));
        }
    }
    Ok(())
}

fn counts_of(alloc: Global, objects: &[Object]) -> Result<Counts, Memory>
    ensures kinds { IfOk result (λ c. c.hidden_kinds.items ≡ kind_counts objects.now) }
    ensures constants { IfOk result (λ c. c.hidden_constants.items ≡ constant_counts objects.now) }
{
    let mut counts = Counts {
        hidden_kinds: Vec::new(alloc),
        hidden_constants: Vec::new(alloc),
    };
    for at in 0..objects.len() {
        let object = &objects[at];
        counts
            .hidden_kinds
            .push(hidden_kinds(object.kinds.as_slice()))?;
        counts
            .hidden_constants
            .push(hidden_constants(object.constants.as_slice()))?;
    }
    Ok(counts)
}

// The numbers of the names that are hidden begin behind those that the root exports.
fn behind_root(root: &Object) -> Ends
    ensures kind { result.kind ≡ 8 + (length root.now.kinds.items - hidden_kinds root.now.kinds.items) }
    ensures constant { result.constant ≡ 32 + (length root.now.constants.items - hidden_constants root.now.constants.items) }
{
    let kinds = root.kinds.as_slice();
    let constants = root.constants.as_slice();
    Ends {
        kind: FIRST_KIND as usize + (kinds.len() - hidden_kinds(kinds)),
        constant: FIRST_CONSTANT as usize + (constants.len() - hidden_constants(constants)),
    }
}

// Whether the numbers of kinds and constants are all below their end.
fn check_names(counts: &Counts, order: &[usize], begin: Ends) -> Result<(), LinkRefusal>
    requires kinds { All (λ m. m < length counts.now.hidden_kinds.items) order.now }
    requires constants { All (λ m. m < length counts.now.hidden_constants.items) order.now }
    ensures few { OnOk result ((total begin.kind counts.now.hidden_kinds.items order.now ≤ 1048576) × (total begin.constant counts.now.hidden_constants.items order.now ≤ 1048576)) }
    ensures refused { IfErr result (λ e. (e ≡ refusal.Limit limit.Names) × ((1048576 < total begin.kind counts.now.hidden_kinds.items order.now) ⊎ (1048576 < total begin.constant counts.now.hidden_constants.items order.now))) }
{
    let most = END_OF_IMAGE_NUMBERS as usize;
    if sum_over(begin.kind, &counts.hidden_kinds, order, most).is_none() {
        return Err(LinkRefusal::Limit(Limit::Names));
    }
    if sum_over(begin.constant, &counts.hidden_constants, order, most).is_none() {
        return Err(LinkRefusal::Limit(Limit::Names));
    }
    Ok(())
}

// Compares each copy below the root with the one above it, in the order of copies.
fn compare(
    alloc: Global,
    members: &[Member<'_>],
    uses: &Vec<Vec<usize>>,
    root: usize,
) -> Result<(), LinkRefusal>
    requires root { root < length uses.now.items }
    requires members { length members.now ≡ length uses.now.items }
    requires within { All (λ out. All (λ m. m < length uses.now.items) out) (lists_in uses.now.items) }
    ensures same { OnOk result (AreAllCompared members.now (lists_in uses.now.items) root) }
    ensures refused { IfErr result (IsCompareRefusal members.now (lists_in uses.now.items) root) }
{
    let mut compared = Compared::new(alloc);
    let mut around = Vec::new(alloc);
    around.push(root)?;
    let mut copying = Copying::new(alloc, uses, root);
    'copies: loop {
        match copying.go_on(uses)? {
            Turn::Entered(at) => around.push(at)?,
            Turn::Left(at) => {
                let _copy = around.pop();
                if let Some(above) = around.last().copied() {
                    compared.compare(members, at, above)?;
                }
            }
            Turn::Ended(_) => return Ok(()),
        }
    }
}

// A number as it is written in 32 bits.
fn written(number: usize) -> u32
    ensures { result ≡ counted number }
{
    number.min(u32::MAX as usize) as u32
}

fn count_at(counts: &Vec<usize>, member: usize) -> usize
    ensures { result ≡ get_or counts.now.items member 0 }
{
    match counts.get(member) {
        None => 0,
        Some(count) => *count,
    }
}

impl Ends {
    // The numbers from here on.
    fn numbers(self) -> Firsts
        ensures kind { result.kind ≡ counted self.kind }
        ensures constant { result.constant ≡ counted self.constant }
    {
        Firsts {
            kind: written(self.kind),
            constant: written(self.constant),
        }
    }

    // Behind a copy.
    fn behind(self, counts: &Counts, member: usize) -> Ends
        ensures kind { result.kind ≡ min (self.kind + get_or counts.now.hidden_kinds.items member 0) 18446744073709551615 }
        ensures constant { result.constant ≡ min (self.constant + get_or counts.now.hidden_constants.items member 0) 18446744073709551615 }
    {
        Ends {
            kind: self
                .kind
                .saturating_add(count_at(&counts.hidden_kinds, member)),
            constant: self
                .constant
                .saturating_add(count_at(&counts.hidden_constants, member)),
        }
    }
}

// Puts the first numbers of the innermost open copy at its place.
fn fill(firsts: &mut Vec<Firsts>, inside: &mut Vec<usize>, own: Firsts)
    ensures { (at : ℕ) (rest : List ℕ) → reverse inside.old.items ≡ at ∷ rest → at < length firsts.old.items → (reverse inside.new.items ≡ rest) × (firsts.new.items ≡ set firsts.old.items at own) }
{
    let Some(at) = inside.pop() else {
        return;
    };
    if at >= firsts.len() {
        return;
    }
    firsts[at] = own;
}

// The first numbers of each copy, in the order in which copies are entered; the first one last.
fn firsts_of(
    alloc: Global,
    counts: &Counts,
    uses: &Vec<Vec<usize>>,
    root: usize,
    begin: Ends,
) -> Result<Vec<Firsts>, LinkRefusal>
    requires root { root < length uses.now.items }
    requires within { All (λ out. All (λ m. m < length uses.now.items) out) (lists_in uses.now.items) }
    ensures firsts { IfOk result (λ fs. (all : List NameEnds) (end : NameEnds) → AreFirst (lists_in uses.now.items) counts.now.hidden_kinds.items counts.now.hidden_constants.items (root ∷ []) (begun begin) all end → AreFew end → map ends_of (reverse fs.items) ≡ all) }
    ensures refused { IfErr result (IsCopiesRefusal (lists_in uses.now.items) root) }
{
    let mut ends = begin;
    let mut firsts = Vec::new(alloc);
    let mut inside = Vec::new(alloc);
    let unknown = Firsts {
        kind: 0,
        constant: 0,
    };
    inside.push(0)?;
    firsts.push(unknown)?;
    let mut copying = Copying::new(alloc, uses, root);
    'copies: loop {
        match copying.go_on(uses)? {
            Turn::Entered(_) => {
                inside.push(firsts.len())?;
                firsts.push(unknown)?;
            }
            Turn::Left(at) => {
                fill(&mut firsts, &mut inside, ends.numbers());
                ends = ends.behind(counts, at);
            }
            Turn::Ended(_) => {
                fill(&mut firsts, &mut inside, ends.numbers());
                firsts.reverse();
                return Ok(firsts);
            }
        }
    }
}

// The root is open, and the names that it exports are made.
fn begin<'m, 'a>(
    alloc: Global,
    member: &'m Member<'a>,
    firsts: Firsts,
) -> Result<(Making, Vec<Open<'m, 'a>>), Memory>
    requires few { length member.now.object.now.code.records.items ≤ 65535 }
    ensures begun { IfOk result (λ b. IsBegun member.now firsts b.0 b.1.items) }
    ensures few { IfOk result (λ b. All IsShort b.1.items) }
{
    let names = Names::of(alloc, member, firsts, None)?;
    let open = Open { member, names };
    let mut making = Making::new(alloc);
    making.add_global(&open)?;
    let mut around = Vec::new(alloc);
    around.push(open)?;
    Ok((making, around))
}

// Enters a copy: its names are known from those of the copy above, which is the last open one.
fn enter<'m, 'a>(
    alloc: Global,
    member: &'m Member<'a>,
    firsts: Firsts,
    around: &mut Vec<Open<'m, 'a>>,
) -> Result<(), Memory>
    requires few { length member.now.object.now.code.records.items ≤ 65535 }
    ensures entered { OnOk result (IsEntered around.old.items around.new.items member.now firsts) }
    ensures few { All IsShort around.old.items → OnOk result (All IsShort around.new.items) }
{
    let names = Names::of(alloc, member, firsts, around.as_slice().last())?;
    around.push(Open { member, names })?;
    Ok(())
}

// Leaves the last open copy, whose records come behind the others.
fn leave(
    making: &mut Making,
    records: &mut Vec<Record>,
    around: &mut Vec<Open<'_, '_>>,
) -> Result<(), Memory>
    requires { All IsShort around.old.items }
    ensures few { OnOk result (length records.new.items ≤ length records.old.items + 65535) }
    ensures open { OnOk result (All IsShort around.new.items) }
    ensures left { OnOk result ((o : OpenCopy) (rest : List OpenCopy) → reverse around.old.items ≡ o ∷ rest → (reverse around.new.items ≡ rest) × IsLeft making.old making.new records.old.items records.new.items (open_copy o)) }
{
    let Some(open) = around.pop() else {
        return Ok(());
    };
    making.add_copy(&open, records)
}

// The numbers of the copy that is entered next, which are the last ones.
fn next_firsts(firsts: &mut Vec<Firsts>) -> Firsts
    ensures { (f : NameEnds) (more : List NameEnds) → map ends_of (reverse firsts.old.items) ≡ f ∷ more → (ends_of result ≡ f) × (map ends_of (reverse firsts.new.items) ≡ more) }
{
    let Some(next) = firsts.pop() else {
        return Firsts {
            kind: 0,
            constant: 0,
        };
    };
    next
}

// The tables of the image and its records, copy by copy.
fn make(
    alloc: Global,
    members: &[Member<'_>],
    uses: &Vec<Vec<usize>>,
    firsts: Vec<Firsts>,
    root: usize,
) -> Result<(Making, Vec<Record>), LinkRefusal>
    requires root { root < length uses.now.items }
    requires members { length members.now ≡ length uses.now.items }
    requires within { All (λ out. All (λ m. m < length uses.now.items) out) (lists_in uses.now.items) }
    requires few { All (λ m. length m.object.now.code.records.items ≤ 65535) members.now }
    requires uses { lists_in uses.now.items ≡ uses_of (map (λ m. m.object.now) members.now) }
    ensures few { IfOk result (λ made. length made.1.items < 2 ^ 32) }
    ensures made { IfOk result (λ made. (c : Copy) (below : List Copy) → IsPlan (map (λ m. m.object.now) members.now) root (map ends_of (reverse firsts.items)) c below → IsMade c below made.0 made.1.items) }
    ensures refused { IfErr result (IsCopiesRefusal (lists_in uses.now.items) root) }
{
    let mut coming = firsts;
    let first = next_firsts(&mut coming);
    let (mut making, mut around) = begin(alloc, &members[root], first)?;
    let mut records = Vec::new(alloc);
    let mut copying = Copying::new(alloc, uses, root);
    'copies: loop {
        match copying.go_on(uses)? {
            Turn::Entered(at) => {
                let first = next_firsts(&mut coming);
                enter(alloc, &members[at], first, &mut around)?;
            }
            Turn::Left(_) => leave(&mut making, &mut records, &mut around)?,
            Turn::Ended(_) => {
                leave(&mut making, &mut records, &mut around)?;
                return Ok((making, records));
            }
        }
    }
}

/// Whether the root has not too many copies: the first test of `link`.
///
/// # Errors
/// `Limit(Copies)` where there are more than 4,096 copies.
pub fn check_copies(alloc: Global, objects: &[Object], root: u32) -> Result<(), LinkRefusal>
    requires root { root < length objects.now }
    ensures few { OnOk result (HasFewCopies objects.now root) }
    ensures refused { IfErr result (λ e. (e ≡ refusal.Memory) ⊎ ((e ≡ refusal.Limit limit.Copies) × HasManyCopies objects.now root)) }
{
    let uses = uses_of(alloc, objects)?;
    let _order = order_of(alloc, &uses, root as usize)?;
    Ok(())
}

// The objects that are linked, in the order of their copies.
#[derive(Drop)]
struct Plan<'a> {
    members: Vec<Member<'a>>,
    uses: Vec<Vec<usize>>,
    firsts: Vec<Firsts>,
}

// The first numbers of each copy, where nothing is to be refused.
fn plan_of<'a>(alloc: Global, objects: &'a [Object], root: usize) -> Result<Plan<'a>, LinkRefusal>
    requires root { root < length objects.now }
    ensures root { IfOk result (λ p. root < length p.uses.items) }
    ensures uses { IfOk result (λ p. lists_in p.uses.items ≡ uses_of objects.now) }
    ensures within { IfOk result (λ p. All (λ out. All (λ m. m < length p.uses.items) out) (lists_in p.uses.items)) }
    ensures few { IfOk result (λ p. All (λ m. length m.object.now.code.records.items ≤ 65535) p.members.items) }
    ensures members { IfOk result (λ p. map (λ m. m.object.now) p.members.items ≡ objects.now) }
    ensures firsts { IfOk result (λ p. (o : ObjectNow) (all : List NameEnds) (end : NameEnds) → slice_get objects.now root ≡ Some o → AreFirst (uses_of objects.now) (kind_counts objects.now) (constant_counts objects.now) (root ∷ []) (first_ends o) all end → AreFew end → map ends_of (reverse p.firsts.items) ≡ all) }
    ensures linked { OnOk result (CanBeLinked objects.now root) }
    ensures refused { IfErr result (IsLinkRefusal objects.now root) }
{
    let uses = uses_of(alloc, objects)?;
    let order = order_of(alloc, &uses, root)?;
    let members = members_of(alloc, objects)?;
    compare(alloc, members.as_slice(), &uses, root)?;
    check_records(objects)?;
    let counts = counts_of(alloc, objects)?;
    let begin = behind_root(&objects[root]);
    check_names(&counts, order.as_slice(), begin)?;
    let firsts = firsts_of(alloc, &counts, &uses, root, begin)?;
    Ok(Plan {
        members,
        uses,
        firsts,
    })
}

/// The image of the objects that the root uses, copy by copy: those below a copy in order, then the copy itself. The names that the root exports are
/// global and have the first numbers, in the root's order; then come the hidden ones of each copy. The records follow in the same order.
///
/// # Errors
/// `Limit(Copies)` where there are more than 4,096 copies; else `Differ` with the first exported name of a copy below the root, in the order of copies,
/// that the copy above has not, or with another arity or type; else `Limit(Clauses)` where an object has more than 65,535 records; else `Limit(Names)`
/// where a number of a kind or constant would not be below 1,048,576.
pub fn link(alloc: Global, objects: &[Object], root: u32) -> Result<Image, LinkRefusal>
    requires root { root < length objects.now }
    ensures few { IfOk result (λ image. length image.code.records.items < 2 ^ 32) }
    ensures linked { OnOk result (CanBeLinked objects.now root) }
    ensures denotes { IfOk result (IsLinked objects.now root) }
    ensures names { IfOk result (IsNamed objects.now root) }
    ensures refused { IfErr result (IsLinkRefusal objects.now root) }
{
    let Plan {
        members,
        uses,
        firsts,
    } = plan_of(alloc, objects, root as usize)?;
    let (making, records) = make(alloc, members.as_slice(), &uses, firsts, root as usize)?;
    let name = Vec::from_slice(alloc, objects[root as usize].name.as_slice())?;
    let image = making.finish(name, records)?;
    Ok(image)
}
