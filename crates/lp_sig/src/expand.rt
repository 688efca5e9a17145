// Types of a text, with abbreviations replaced.
ghost use Rattle.std.specs.Prelude.{◌≡◌, ◌⊎◌, ◌<◌, ◌≤◌, ◌+◌, ℕ, Vec, List, [], ◌∷◌, length, Option, Some, None, is_some, true, false, option_map, if◌then◌else◌, IfErr, IfOk, IfSome, OnOk, All, map};
ghost use Rattle.std.specs.Global.{Global};
ghost use Rattle.std.specs.Str.{bytes_eq};
ghost use Rattle.lp_sig.specs.declared.fault.SigFault.TheVariants as fault;
ghost use Rattle.lp_sig.specs.declared.names.Meaning.TheVariants as meaning;
ghost use Rattle.lp_sig.specs.Rows.{Row};
ghost use Rattle.lp_sig.specs.Said.{Said};
ghost use Rattle.lp_sig.specs.ModuleFaults.{IsTypeFault};
ghost use Rattle.lp_sig.specs.Words.{may_stand, on_count, fault_of_word, word_fault, beginning, WordsStand, IsFirstFault, parameters_of, earlier_of, IsLongType, IsSoundType};
ghost use Rattle.lp_sig.specs.Knowing.{Knows, Holds, number_of, blamed, said_as};
ghost use Rattle.lp_term.specs.Nodes.{Extends};
ghost use Rattle.lp_syntax.specs.declared.text.RawTypeNode.{RawTypeNode};
ghost use Rattle.lp_syntax.specs.declared.text.RawTypeNode.TheVariants as node;
ghost use Rattle.lp_base.specs.declared.place.Spot.{Spot};
ghost use Rattle.lp_base.specs.declared.limits.TheConstants.{MAX_ARGUMENTS};
ghost use Rattle.lp_sig.specs.Places.{first_place};
ghost use Rattle.lp_sig.specs.Abbreviations.{abbreviation_names, uses_in};
ghost use Rattle.lp_sig.specs.Types.{Definition, IsTypeOf, IsNode, by_parameters};
ghost use Rattle.lp_sig.specs.Holding.{given_number, AreParameters, type_done, IsTree, AreDone, HoldsBodies, IfType, IsReplaced, IsNumbered};
ghost use Rattle.lp_sig.specs.Limits.{AreApart, IsRepeated};
ghost use Rattle.lp_sig.specs.declared.expand.Made.TheVariants as outcome;
ghost use Rattle.lp_sig.specs.Schemes.{place};
ghost use Rattle.lp_sig.specs.Constants.{IsTyped, IsWrittenFault, IsSettledAt, AreUsesSettled, AllMade, written_in};
ghost use Rattle.lp_sig.specs.Ordering.{HasNames, names_with, names_by_word, names_by, in_order, AreNewNames};

use crate::bodies::Bodies;
use crate::constants::DeclaredType;
use crate::fault::SigFault;
use crate::names::{Meaning, Names};
use crate::pieces::{is_variable, spelled_at};
use crate::places::Places;
use indexmap::IndexMap;
use lp_base::{Limit, MAX_ARGUMENTS, Memory, Spot};
use lp_syntax::{RawType, RawTypeNode};
use lp_term::TypeId;
use std::alloc::Global;

// The type variables of a declared type, or the parameters of an abbreviation, with their numbers.
#[derive(Drop)]
pub(crate) struct Variables {
    alloc: Global,
    numbers: IndexMap<Vec<u8>, u64>,
    closed: bool,
    next: u64,
}

// No parameter stands a second time.
fn check_apart(alloc: Global, source: &[u8], parameters: &[Spot]) -> Result<(), SigFault>
    ensures repeated { IfErr result (λ e. (e ≡ fault.Memory) ⊎ ((s : Spot) × (e ≡ fault.Differ s) × IsRepeated source.now parameters.now s)) }
    ensures taken { IfOk result (λ done. AreApart source.now parameters.now) }
{
    let mut places = Places::new(alloc);
    for (i, spot) in parameters.iter().enumerate() {
        let word = spelled_at(source, *spot);
        if places.of(word).is_some() {
            return Err(SigFault::Differ(*spot));
        }
        places.add(word, i)?;
    }
    Ok(())
}

fn following(number: u64) -> Result<u64, Memory>
    ensures { IfOk result (λ n. n ≡ number + 1) }
{
    match number.checked_add(1) {
        Some(next) => Ok(next),
        None => Err(Memory),
    }
}

impl Variables {
    // Each name is taken as it comes.
    pub(crate) fn open(alloc: Global) -> Variables
        ensures open { Holds result None }
        ensures empty { (name : List ℕ) → number_of result name ≡ None }
        ensures first { result.next ≡ 0 }
        ensures names { HasNames result [] }
    {
        Variables {
            alloc,
            numbers: IndexMap::new(alloc),
            closed: false,
            next: 0,
        }
    }

    // These parameters alone, or the first of them that stands a second time.
    pub(crate) fn parameters(
        alloc: Global,
        source: &[u8],
        parameters: &[Spot],
    ) -> Result<Variables, SigFault>
        ensures repeated { IfErr result (λ e. (e ≡ fault.Memory) ⊎ ((s : Spot) × (e ≡ fault.Differ s) × IsRepeated source.now parameters.now s)) }
        ensures taken { IfOk result (λ variables. AreApart source.now parameters.now) }
        ensures held { IfOk result (λ variables. Holds variables (parameters_of source.now parameters.now)) }
        ensures numbered { IfOk result (λ variables. AreParameters variables source.now parameters.now) }
    {
        check_apart(alloc, source, parameters)?;
        let mut variables = Variables::open(alloc);
        for spot in parameters {
            variables.add(spelled_at(source, *spot))?;
        }
        variables.closed = true;
        Ok(variables)
    }

    fn add(&mut self, name: &[u8]) -> Result<u64, Memory>
        ensures closed { self.new.closed ≡ self.old.closed }
        ensures is { IfOk result (λ n. n ≡ self.old.next) }
        ensures next { OnOk result (self.new.next ≡ self.old.next + 1) }
        ensures added { OnOk result ((other : List ℕ) → number_of self.new other ≡ (if bytes_eq other name.now then Some self.old.next else number_of self.old other)) }
    {
        let number = self.next;
        let next = following(number)?;
        let key = Vec::from_slice(self.alloc, name)?;
        self.numbers.insert(key, number)?;
        self.next = next;
        Ok(number)
    }

    // The number of a name; in a declared type `_` is new at each place.
    fn number(&mut self, name: &[u8]) -> Result<Option<u64>, Memory>
        ensures is { IfOk result (λ o. o ≡ given_number self.old name.now) }
        ensures closed { (text : List ℕ) (ps : List Spot) → AreParameters self.old text ps → AreParameters self.new text ps }
        ensures given { (variables : Option (List (List ℕ))) → Holds self.old variables → IfOk result (λ o. is_some o ≡ may_stand variables name.now) }
        ensures held { (variables : Option (List (List ℕ))) → Holds self.old variables → Holds self.new variables }
        ensures names { OnOk result ((ks : List (List ℕ)) → HasNames self.old ks → HasNames self.new (names_with ks name.now)) }
    {
        if self.closed {
            return Ok(self.numbers.get(name).copied());
        }
        if name == b"_".as_slice() {
            let number = self.next;
            self.next = following(number)?;
            return Ok(Some(number));
        }
        if let Some(number) = self.numbers.get(name) {
            return Ok(Some(*number));
        }
        let number = self.add(name)?;
        Ok(Some(number))
    }
}

// A word with its arguments: a type, or one that is not known yet, or a fault of the word.
#[derive(Clone, Copy)]
pub(crate) enum Made {
    Type(TypeId),
    Open,
    Unknown,
    Arity,
}

// The types at these places, if all are known.
fn types_at(
    alloc: Global,
    done: &[Option<TypeId>],
    places: &[usize],
) -> Result<Option<Vec<TypeId>>, Memory>
    ensures are { IfOk result (λ o. IfSome o (λ types. map (type_done done.now) places.now ≡ map (λ t. Some t) types.items)) }
    ensures made { AllMade done.now → IfOk result (λ o. is_some o ≡ true) }
{
    let mut types = Vec::new(alloc);
    for place in places.iter().copied() {
        match done.get(place) {
            Some(Some(id)) => types.push(*id)?,
            Some(None) => return Ok(None),
            None => return Err(Memory),
        }
    }
    Ok(Some(types))
}

// The type at a place, if it is known.
fn type_at(done: &[Option<TypeId>], place: usize) -> Result<Option<TypeId>, Memory>
    ensures is { IfOk result (λ o. o ≡ type_done done.now place) }
    ensures made { AllMade done.now → IfOk result (λ o. is_some o ≡ true) }
{
    match done.get(place) {
        Some(id) => Ok(*id),
        None => Err(Memory),
    }
}

// The earlier of two faults in the text, if there are any.
fn earlier(
    first: Option<(usize, SigFault)>,
    other: Option<(usize, SigFault)>,
) -> Option<(usize, SigFault)>
    ensures one { (result ≡ first) ⊎ (result ≡ other) }
    ensures is { result ≡ earlier_of first other }
{
    match (first, other) {
        (Some((at, known)), Some((from, fault))) => {
            if at <= from {
                return Some((at, known));
            }
            Some((from, fault))
        }
        (Some((at, known)), None) => Some((at, known)),
        (None, _) => other,
    }
}

impl Bodies {
    fn word(
        &mut self,
        names: &Names,
        source: &[u8],
        spot: Spot,
        arguments: &[usize],
        done: &[Option<TypeId>],
        variables: &mut Variables,
    ) -> Result<Made, Memory>
        ensures kept { Extends self.old.types.bank self.new.types.bank }
        ensures bodies { self.new.bodies ≡ self.old.bodies }
        ensures closed { (text : List ℕ) (ps : List Spot) → AreParameters variables.old text ps → AreParameters variables.new text ps }
        ensures typed { (said : List (Row Said)) (defs : List (Row Definition)) (ν : ℕ → Spot → Option ℕ) (nodes : List RawTypeNode) (i : ℕ) (args : Vec ℕ Global) → Knows names.now said → HoldsBodies self.old.types.bank self.old.bodies.items said defs → AreDone self.old.types.bank said defs source.now ν nodes done.now → IsNode nodes i (node.Word spot args) → arguments.now ≡ args.items → IsNumbered ν (given_number variables.old) source.now i (node.Word spot args) → IfOk result (λ made. IfType made (IsTree self.new.types.bank (IsTypeOf said defs source.now ν nodes i))) }
        ensures fault { (said : List (Row Said)) (vs : Option (List (List ℕ))) → Knows names.now said → Holds variables.old vs → IfOk result (λ made. blamed spot made ≡ fault_of_word source.now said vs spot (length arguments.now)) }
        ensures held { (vs : Option (List (List ℕ))) → Holds variables.old vs → Holds variables.new vs }
        ensures names { OnOk result ((ks : List (List ℕ)) → HasNames variables.old ks → HasNames variables.new (names_by_word source.now ks spot)) }
        ensures settled { (said : List (Row Said)) (args : Vec ℕ Global) → Knows names.now said → AreUsesSettled self.old.bodies.items (uses_in (abbreviation_names said) source.now (node.Word spot args ∷ [])) → AllMade done.now → IfOk result (λ made. made ≡ outcome.Open → ⊥) }
    {
        let name = spelled_at(source, spot);
        if is_variable(name) {
            let Some(number) = variables.number(name)? else {
                return Ok(Made::Unknown);
            };
            let id = self.types.var(number)?;
            return Ok(Made::Type(id));
        }
        match names.meaning(name) {
            None => Ok(Made::Unknown),
            Some(Meaning::Kind(number, arity)) => {
                if arguments.len() as u64 != arity as u64 {
                    return Ok(Made::Arity);
                }
                let Some(parts) = types_at(self.alloc, done, arguments)? else {
                    return Ok(Made::Open);
                };
                let id = self.types.con(number, parts.as_slice())?;
                Ok(Made::Type(id))
            }
            Some(Meaning::Abbreviation(place)) => self.replaced(names, place, arguments, done),
        }
    }

    // An abbreviation on its arguments.
    fn replaced(
        &mut self,
        names: &Names,
        place: usize,
        arguments: &[usize],
        done: &[Option<TypeId>],
    ) -> Result<Made, Memory>
        ensures settled { IsSettledAt self.old.bodies.items place → AllMade done.now → IfOk result (λ made. made ≡ outcome.Open → ⊥) }
        ensures counted { (s : Spot) → IfOk result (λ made. blamed s made ≡ on_count s (length arguments.now) (said_as names.now (meaning.Abbreviation place))) }
        ensures kept { Extends self.old.types.bank self.new.types.bank }
        ensures bodies { self.new.bodies ≡ self.old.bodies }
        ensures typed { (said : List (Row Said)) (defs : List (Row Definition)) (name : List ℕ) → HoldsBodies self.old.types.bank self.old.bodies.items said defs → first_place name (abbreviation_names said) ≡ Some place → IfOk result (λ made. IfType made (IsReplaced self.old.types.bank self.new.types.bank said defs name done.now arguments.now)) }
    {
        if arguments.len() != names.parameters_at(place) {
            return Ok(Made::Arity);
        }
        let Some(body) = self.body_at(place) else {
            return Ok(Made::Open);
        };
        let Some(parts) = types_at(self.alloc, done, arguments)? else {
            return Ok(Made::Open);
        };
        let id = self.types.instance(body, parts.as_slice())?;
        Ok(Made::Type(id))
    }

    // A function type between the types at two places.
    fn between(
        &mut self,
        from: usize,
        to: usize,
        done: &[Option<TypeId>],
    ) -> Result<Option<TypeId>, Memory>
        ensures kept { Extends self.old.types.bank self.new.types.bank }
        ensures bodies { self.new.bodies ≡ self.old.bodies }
        ensures typed { (said : List (Row Said)) (defs : List (Row Definition)) (text : List ℕ) (ν : ℕ → Spot → Option ℕ) (nodes : List RawTypeNode) (i : ℕ) → AreDone self.old.types.bank said defs text ν nodes done.now → IsNode nodes i (node.Arrow from to) → IfOk result (λ o. IfSome o (IsTree self.new.types.bank (IsTypeOf said defs text ν nodes i))) }
        ensures made { AllMade done.now → IfOk result (λ o. is_some o ≡ true) }
    {
        let Some(left) = type_at(done, from)? else {
            return Ok(None);
        };
        let Some(right) = type_at(done, to)? else {
            return Ok(None);
        };
        let id = self.types.arrow(left, right)?;
        Ok(Some(id))
    }

    // The type of a node whose parts were looked at before, or the fault of its word with its place.
    fn expand_node(
        &mut self,
        names: &Names,
        source: &[u8],
        node: &RawTypeNode,
        done: &mut Vec<Option<TypeId>>,
        variables: &mut Variables,
    ) -> Result<Option<(usize, SigFault)>, Memory>
        ensures kept { Extends self.old.types.bank self.new.types.bank }
        ensures bodies { self.new.bodies ≡ self.old.bodies }
        ensures closed { (text : List ℕ) (ps : List Spot) → AreParameters variables.old text ps → AreParameters variables.new text ps }
        ensures more { IfOk result (λ fault. length done.new.items ≡ length done.old.items + 1) }
        ensures typed { (said : List (Row Said)) (defs : List (Row Definition)) (ν : ℕ → Spot → Option ℕ) (nodes : List RawTypeNode) → Knows names.now said → HoldsBodies self.old.types.bank self.old.bodies.items said defs → AreDone self.old.types.bank said defs source.now ν nodes done.old.items → IsNode nodes (length done.old.items) node.now → IsNumbered ν (given_number variables.old) source.now (length done.old.items) node.now → IfOk result (λ fault. AreDone self.new.types.bank said defs source.now ν nodes done.new.items) }
        ensures fault { (said : List (Row Said)) (vs : Option (List (List ℕ))) → Knows names.now said → Holds variables.old vs → IfOk result (λ o. o ≡ option_map (λ e. (beginning node.now, e)) (word_fault source.now said vs node.now)) }
        ensures held { (vs : Option (List (List ℕ))) → Holds variables.old vs → Holds variables.new vs }
        ensures names { OnOk result ((ks : List (List ℕ)) → HasNames variables.old ks → HasNames variables.new (names_by source.now ks node.now)) }
        ensures settled { (said : List (Row Said)) → Knows names.now said → AreUsesSettled self.old.bodies.items (uses_in (abbreviation_names said) source.now (node.now ∷ [])) → AllMade done.old.items → IfOk result (λ fault. fault ≡ None → AllMade done.new.items) }
    {
        match node {
            RawTypeNode::Arrow(from, to) => {
                let made = self.between(*from, *to, done.as_slice())?;
                done.push(made)?;
                Ok(None)
            }
            RawTypeNode::Word(spot, arguments) => {
                match self.word(
                    names,
                    source,
                    *spot,
                    arguments.as_slice(),
                    done.as_slice(),
                    variables,
                )? {
                    Made::Type(id) => {
                        done.push(Some(id))?;
                        Ok(None)
                    }
                    Made::Open => {
                        done.push(None)?;
                        Ok(None)
                    }
                    Made::Unknown => {
                        done.push(None)?;
                        Ok(Some((spot.from, SigFault::UnknownKind(*spot))))
                    }
                    Made::Arity => {
                        done.push(None)?;
                        Ok(Some((spot.from, SigFault::Arity(*spot))))
                    }
                }
            }
        }
    }

    // A type of a text with its abbreviations replaced, or its first fault. It is none where it has an abbreviation that has a
    // fault of its own.
    pub(crate) fn expand(
        &mut self,
        names: &Names,
        source: &[u8],
        raw: &RawType,
        variables: &mut Variables,
    ) -> Result<Option<TypeId>, SigFault>
        ensures kept { Extends self.old.types.bank self.new.types.bank }
        ensures bodies { self.new.bodies ≡ self.old.bodies }
        ensures body { (said : List (Row Said)) (defs : List (Row Definition)) (ps : List Spot) → Knows names.now said → HoldsBodies self.old.types.bank self.old.bodies.items said defs → AreParameters variables.old source.now ps → IfOk result (λ made. IfSome made (IsTree self.new.types.bank (IsTypeOf said defs source.now (by_parameters source.now ps) raw.now.nodes.items raw.now.root))) }
        ensures open { (said : List (Row Said)) (defs : List (Row Definition)) → Knows names.now said → HoldsBodies self.old.types.bank self.old.bodies.items said defs → HasNames variables.old [] → IfOk result (λ made. IfSome made (IsTree self.new.types.bank (IsTypeOf said defs source.now (in_order source.now raw.now.nodes.items) raw.now.nodes.items raw.now.root))) }
        ensures settled { (said : List (Row Said)) → Knows names.now said → AreUsesSettled self.old.bodies.items (uses_in (abbreviation_names said) source.now raw.now.nodes.items) → IfOk result (λ made. is_some made ≡ true) }
        ensures first { (said : List (Row Said)) (vs : Option (List (List ℕ))) → Knows names.now said → Holds variables.old vs → IfErr result (λ e. (e ≡ fault.Memory) ⊎ IsFirstFault source.now said vs raw.now.nodes.items e) }
        ensures stand { (said : List (Row Said)) (vs : Option (List (List ℕ))) → Knows names.now said → Holds variables.old vs → IfOk result (λ made. WordsStand source.now said vs raw.now.nodes.items) }
    {
        let mut done = Vec::new(self.alloc);
        let mut fault = None;
        for node in &raw.nodes {
            let found = self.expand_node(names, source, node, &mut done, variables)?;
            fault = earlier(fault, found);
        }
        if let Some((_, first)) = fault {
            return Err(first);
        }
        let made = type_at(done.as_slice(), raw.root)?;
        Ok(made)
    }

    // A declared type, its variables numbered by first place, with their count.
    pub(crate) fn scheme(
        &mut self,
        names: &Names,
        source: &[u8],
        raw: &RawType,
    ) -> Result<Option<DeclaredType>, SigFault>
        ensures reason { (said : List (Row Said)) → Knows names.now said → IfErr result (λ e. (e ≡ fault.Memory) ⊎ IsTypeFault source.now said raw.now e) }
        ensures stand { (said : List (Row Said)) → Knows names.now said → IfOk result (λ made. IsSoundType source.now said raw.now) }
        ensures kept { Extends self.old.types.bank self.new.types.bank }
        ensures bodies { self.new.bodies ≡ self.old.bodies }
        ensures exact { (said : List (Row Said)) (defs : List (Row Definition)) → Knows names.now said → HoldsBodies self.old.types.bank self.old.bodies.items said defs → IfErr result (λ e. (e ≡ fault.Memory) ⊎ IsWrittenFault source.now said defs raw.now e) }
        ensures few { IfOk result (λ made. IfSome made (λ d. d.type_vars ≤ MAX_ARGUMENTS)) }
        ensures settled { (said : List (Row Said)) → Knows names.now said → AreUsesSettled self.old.bodies.items (uses_in (abbreviation_names said) source.now raw.now.nodes.items) → IfOk result (λ made. is_some made ≡ true) }
        ensures typed { (said : List (Row Said)) (defs : List (Row Definition)) → Knows names.now said → HoldsBodies self.old.types.bank self.old.bodies.items said defs → IfOk result (λ made. IfSome made (IsTyped self.new.types.bank said defs (written_in source.now raw.now))) }
    {
        if has_many_arguments(raw) {
            return Err(SigFault::Limit(Limit::Arguments));
        }
        let mut variables = Variables::open(self.alloc);
        let Some(whole) = self.expand(names, source, raw, &mut variables)? else {
            return Ok(None);
        };
        let found = self.types.variables(whole)?;
        if found.len() > MAX_ARGUMENTS {
            return Err(SigFault::Limit(Limit::Arguments));
        }
        let new = self.new_names(found.as_slice())?;
        let scheme = self.types.instance(whole, new.as_slice())?;
        Ok(Some(DeclaredType {
            type_vars: found.len() as u8,
            scheme,
        }))
    }

    // For each variable up to the last of those that were found its new one: its place among them.
    fn new_names(&mut self, found: &[u64]) -> Result<Vec<TypeId>, Memory>
        ensures kept { Extends self.old.types.bank self.new.types.bank }
        ensures bodies { self.new.bodies ≡ self.old.bodies }
        ensures names { IfOk result (λ names. AreNewNames self.new.types.bank names.items found.now) }
        ensures far { IfOk result (λ names. All (λ x. x < length names.items) found.now) }
    {
        let end = end_of(found)?;
        let mut names = Vec::new(self.alloc);
        for number in 0..end {
            let place = place_among(found, number);
            let id = self.types.var(place as u64)?;
            names.push(id)?;
        }
        Ok(names)
    }
}

// The place of the first such number, the length where there is none.
fn place_among(numbers: &[u64], number: u64) -> usize
    ensures { result ≡ place numbers.now number }
{
    for at in 0..numbers.len() {
        if numbers[at] == number {
            return at;
        }
    }
    numbers.len()
}

fn larger(one: u64, other: u64) -> u64
    ensures first { one ≤ result }
    ensures second { other ≤ result }
{
    if one < other { other } else { one }
}

// A number above all of these.
fn end_of(numbers: &[u64]) -> Result<u64, Memory>
    ensures { IfOk result (λ end. All (λ n. n < end) numbers.now) }
{
    let mut end = 0;
    for at in 0..numbers.len() {
        let next = following(numbers[at])?;
        end = larger(end, next);
    }
    Ok(end)
}

// Whether a type as written has more than 255 arguments.
fn has_many_arguments(raw: &RawType) -> bool
    ensures many { result ≡ true → IsLongType raw.now.nodes.items raw.now.root }
    ensures few { result ≡ false → IsLongType raw.now.nodes.items raw.now.root → ⊥ }
{
    let mut at = raw.root;
    let mut count = 0u32;
    'arguments: while count < 256 {
        match raw.nodes.get(at) {
            Some(RawTypeNode::Arrow(_, to)) => {
                at = *to;
                count += 1;
            }
            Some(RawTypeNode::Word(_, _)) => return false,
            None => return false,
        }
    }
    true
}
