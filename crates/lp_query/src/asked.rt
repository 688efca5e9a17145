// Which variables of a query are shown.
ghost use Rattle.std.specs.Prelude.{◌≡◌, ◌≢◌, ◌<◌, ℕ, List, length, map, All, None, Some, slice_get, IfOk, IfErr, IfSome};
ghost use Rattle.std.specs.Str.{bytes_eq};
ghost use Rattle.lp_query.specs.Faults.{IsOfQuery, IsNotThere, AreThere, IsShownRefusal};

use crate::compiled::Compiled;
use crate::fault::AskRefusal;
use lp_base::{Limit, Memory};
use lp_code::Code;
use std::alloc::Global;

/// The code of a query, of whose variables some are shown: their places and names.
#[derive(Drop)]
pub(crate) struct Asked {
    pub code: Code,
    pub variables: u32,
    pub places: Vec<usize>,
    pub names: Vec<Vec<u8>>,
    ghost count: { length places.items ≡ length names.items },
    ghost within: { All (λ p. p < variables) places.items },
}

// How many variables there are: each has a register.
fn count_of(names: &[Vec<u8>]) -> Result<u32, AskRefusal>
    ensures count { IfOk result (λ n. n ≡ length names.now) }
    ensures refused { (text : List ℕ) → IfErr result (IsOfQuery text) }
{
    match u32::try_from(names.len()) {
        Ok(count) => Ok(count),
        Err(_) => Err(AskRefusal::Limit(Limit::Registers)),
    }
}

/// The query as it stands, whose variables are all shown.
pub(crate) fn all_shown(alloc: Global, compiled: Compiled) -> Result<Asked, AskRefusal>
    ensures code { IfOk result (λ asked. asked.code ≡ compiled.code) }
    ensures names { IfOk result (λ asked. asked.names ≡ compiled.names) }
    ensures refused { (text : List ℕ) → IfErr result (IsOfQuery text) }
{
    let Compiled { code, names } = compiled;
    let variables = count_of(names.as_slice())?;
    let mut places = Vec::new(alloc);
    for place in 0..names.len() {
        places.push(place)?;
    }
    Ok(Asked {
        code,
        variables,
        places,
        names,
    })
}

fn is_same(a: &[u8], b: &[u8]) -> bool
    ensures { result ≡ bytes_eq a.now b.now }
{
    a == b
}

// The place of the first variable of a name.
fn place_of(names: &[Vec<u8>], name: &[u8]) -> Option<usize>
    ensures there { IfSome result (λ place. place < length names.now) }
    ensures found { IfSome result (λ place. slice_get (map (λ n. n.items) names.now) place ≡ Some name.now) }
    ensures none { result ≡ None → All (λ n. n ≢ name.now) (map (λ n. n.items) names.now) }
{
    'names: for place in 0..names.len() {
        if is_same(names[place].as_slice(), name) {
            return Some(place);
        }
    }
    None
}

// The places of the names that are to be shown.
fn places_of(alloc: Global, names: &[Vec<u8>], shown: &[Vec<u8>]) -> Result<Vec<usize>, AskRefusal>
    ensures count { IfOk result (λ places. length places.items ≡ length shown.now) }
    ensures within { IfOk result (λ places. All (λ p. p < length names.now) places.items) }
    ensures there { IfOk result (λ _. AreThere (map (λ n. n.items) names.now) (map (λ n. n.items) shown.now)) }
    ensures refused { IfErr result (IsNotThere (map (λ n. n.items) names.now) (map (λ n. n.items) shown.now)) }
{
    let mut places = Vec::new(alloc);
    'shown: for at in 0..shown.len() {
        match place_of(names, shown[at].as_slice()) {
            Some(place) => places.push(place)?,
            None => return Err(AskRefusal::NotThere(at.min(u32::MAX as usize) as u32)),
        }
    }
    Ok(places)
}

/// The query with these variables shown alone, in this order.
pub(crate) fn some_shown(
    alloc: Global,
    compiled: Compiled,
    shown: &[Vec<u8>],
) -> Result<Asked, AskRefusal>
    ensures code { IfOk result (λ asked. asked.code ≡ compiled.code) }
    ensures names { IfOk result (λ asked. map (λ n. n.items) asked.names.items ≡ map (λ n. n.items) shown.now) }
    ensures there { IfOk result (λ _. AreThere (map (λ n. n.items) compiled.names.items) (map (λ n. n.items) shown.now)) }
    ensures refused { (text : List ℕ) → IfErr result (IsShownRefusal text (map (λ n. n.items) compiled.names.items) (map (λ n. n.items) shown.now)) }
{
    let Compiled { code, names } = compiled;
    let variables = count_of(names.as_slice())?;
    let places = places_of(alloc, names.as_slice(), shown)?;
    let mut chosen = Vec::new(alloc);
    for at in 0..shown.len() {
        chosen.push(Vec::from_slice(alloc, shown[at].as_slice())?)?;
    }
    Ok(Asked {
        code,
        variables,
        places,
        names: chosen,
    })
}
