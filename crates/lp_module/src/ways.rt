// The ways by which modules lead to one another.
ghost use Rattle.std.specs.Prelude.{◌≡◌, ℕ, List, map, length, IfOk, string_bytes};
ghost use Rattle.lp_module.specs.Files.{HasNames};
ghost use Rattle.lp_module.specs.Searching.{ways_in, AreWithin};
ghost use Rattle.lp_module.specs.Words.{accumulate_words, ways_of, all_ways};

use crate::files::Files;
use crate::words::accumulated;
use lp_base::{Memory, Spot};
use lp_sig::spelled_at;
use lp_syntax::ModuleText;
use std::alloc::Global;

// The ways out of a module, in text order.
fn ways_of(
    alloc: Global,
    files: &Files,
    source: &[u8],
    text: &ModuleText,
) -> Result<Vec<(Spot, usize)>, Memory>
    ensures { (names : List (List ℕ)) → HasNames files.now names → IfOk result (λ ways. ways.items ≡ ways_of names source.now (accumulate_words text.now.lines.items)) }
{
    let mut ways = Vec::new(alloc);
    let words = accumulated(alloc, text)?;
    for at in 0..words.len() {
        let word = words[at];
        match files.number(spelled_at(source, word)) {
            None => continue,
            Some(to) => ways.push((word, to))?,
        }
    }
    Ok(ways)
}

// The ways out of each module.
fn ways_of_all(
    alloc: Global,
    files: &Files,
    sources: &[Vec<u8>],
    texts: &[ModuleText],
) -> Result<Vec<Vec<(Spot, usize)>>, Memory>
    requires { length sources.now ≡ length texts.now }
    ensures { (names : List (List ℕ)) → HasNames files.now names → IfOk result (λ ways. ways_in ways.items ≡ all_ways names sources.now texts.now) }
{
    let mut ways = Vec::new(alloc);
    for at in 0..texts.len() {
        let out = ways_of(alloc, files, sources[at].as_slice(), &texts[at])?;
        ways.push(out)?;
    }
    Ok(ways)
}

/// The ways out of each module. There are as many names and sources as texts.
pub(crate) fn all_ways(
    alloc: Global,
    names: &[String],
    sources: &[Vec<u8>],
    texts: &[ModuleText],
) -> Result<Vec<Vec<(Spot, usize)>>, Memory>
    ensures ways { IfOk result (λ ways. ways_in ways.items ≡ all_ways (map string_bytes names.now) sources.now texts.now) }
    ensures within { IfOk result (λ ways. AreWithin (ways_in ways.items)) }
{
    if sources.len() != texts.len() {
        return Err(Memory);
    }
    if names.len() != texts.len() {
        return Err(Memory);
    }
    let files = Files::of(alloc, names)?;
    let ways = ways_of_all(alloc, &files, sources, texts)?;
    Ok(ways)
}
