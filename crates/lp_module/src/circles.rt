// Words of accumulate that lead back to the module in which they stand.
ghost use Rattle.std.specs.Prelude.{◌≡◌, ℕ, ◌<◌, List, [], ◌∷◌, length, replicate, false, All, IfOk, OnOk, Option};
ghost use Rattle.lp_base.specs.declared.place.Spot.{Spot};
ghost use Rattle.lp_module.specs.Order.{Way, Leads, out_of};
ghost use Rattle.lp_module.specs.Searching.{ways_in, AreWithin, IsMarked, IsFound, FindsMore, IsReached, AreReached, IsFirstBack, IsCircleFound};

use lp_base::{Memory, Spot};
use std::alloc::Global;

/// So many marks, none of them set.
pub(crate) fn no_marks(alloc: Global, count: usize) -> Result<Vec<bool>, Memory>
    ensures { IfOk result (λ marks. marks.items ≡ replicate count false) }
{
    let mut marks = Vec::new(alloc);
    for at in 0..count {
        marks.push(false)?;
    }
    Ok(marks)
}

// Takes a module up, if this is the first time.
fn find(to: usize, marks: &mut Vec<bool>, found: &mut Vec<usize>) -> Result<(), Memory>
    requires { to < length marks.old.items }
    ensures more { OnOk result (FindsMore marks.old.items found.old.items marks.new.items found.new.items) }
    ensures marked { OnOk result (IsMarked marks.new.items to) }
    ensures found { OnOk result ((ways : List (List Way)) (from : ℕ) → Leads ways from to → IsFound ways from marks.old.items found.old.items → IsFound ways from marks.new.items found.new.items) }
{
    if marks[to] {
        return Ok(());
    }
    found.push(to)?;
    marks[to] = true;
    Ok(())
}

// Takes up the modules that one accumulates.
fn find_all(
    out: &Vec<(Spot, usize)>,
    marks: &mut Vec<bool>,
    found: &mut Vec<usize>,
) -> Result<(), Memory>
    requires { All (λ w. w.1 < length marks.old.items) out.now.items }
    ensures more { OnOk result (FindsMore marks.old.items found.old.items marks.new.items found.new.items) }
    ensures marked { OnOk result (All (λ w. IsMarked marks.new.items w.1) out.now.items) }
    ensures found { OnOk result ((ways : List (List Way)) (from : ℕ) → All (λ w. Leads ways from w.1) out.now.items → IsFound ways from marks.old.items found.old.items → IsFound ways from marks.new.items found.new.items) }
{
    for at in 0..out.len() {
        find(out[at].1, marks, found)?;
    }
    Ok(())
}

// The modules to which one leads, itself among them.
fn reach(alloc: Global, ways: &Vec<Vec<(Spot, usize)>>, from: usize) -> Result<Vec<bool>, Memory>
    requires within { AreWithin (ways_in ways.now.items) }
    requires from { from < length ways.now.items }
    ensures { IfOk result (λ marks. IsReached (ways_in ways.now.items) from marks.items) }
{
    let mut marks = no_marks(alloc, ways.len())?;
    let mut found = Vec::new(alloc);
    find(from, &mut marks, &mut found)?;
    let mut next = 0;
    'found: while next < found.len() {
        let out = &ways[found[next]];
        find_all(out, &mut marks, &mut found)?;
        next += 1;
    }
    Ok(marks)
}

// For each module those to which it leads.
fn reach_all(alloc: Global, ways: &Vec<Vec<(Spot, usize)>>) -> Result<Vec<Vec<bool>>, Memory>
    requires { AreWithin (ways_in ways.now.items) }
    ensures count { IfOk result (λ reached. length reached.items ≡ length ways.now.items) }
    ensures reached { IfOk result (λ reached. AreReached (ways_in ways.now.items) reached.items) }
{
    let mut reached = Vec::new(alloc);
    for from in 0..ways.len() {
        let marks = reach(alloc, ways, from)?;
        reached.push(marks)?;
    }
    Ok(reached)
}

// The first of these words that leads back to a module.
fn first_back(out: &Vec<(Spot, usize)>, reached: &Vec<Vec<bool>>, home: usize) -> Option<Spot>
    requires places { All (λ w. w.1 < length reached.now.items) out.now.items }
    requires home { home < length reached.now.items }
    requires square { All (λ marks. length marks.items ≡ length reached.now.items) reached.now.items }
    ensures { (ways : List (List Way)) → AreReached ways reached.now.items → IsFirstBack ways home out.now.items result }
{
    for at in 0..out.len() {
        let way = &out[at];
        let row = &reached[way.1];
        if row[home] {
            return Some(way.0);
        }
    }
    None
}

/// The first word of accumulate, in the order of the texts, that leads back to the module in which it stands.
pub(crate) fn first_circle(
    alloc: Global,
    ways: &Vec<Vec<(Spot, usize)>>,
) -> Result<Option<Spot>, Memory>
    requires { AreWithin (ways_in ways.now.items) }
    ensures { IfOk result (IsCircleFound (ways_in ways.now.items)) }
{
    let reached = reach_all(alloc, ways)?;
    for home in 0..ways.len() {
        let out = &ways[home];
        match first_back(out, &reached, home) {
            Some(word) => return Ok(Some(word)),
            None => continue,
        }
    }
    Ok(None)
}
