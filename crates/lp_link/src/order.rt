// The order of copies, and sums over it.
ghost use Rattle.std.specs.Prelude.{◌≡◌, ℕ, ◌<◌, ◌≤◌, List, [], ◌∷◌, length, All, None, IfOk, IfErr, IfSome};
ghost use Rattle.lp_copies.specs.Copies.{Copies, IsTooMany};
ghost use Rattle.lp_link.specs.Ends.{total};
ghost use Rattle.lp_copies.specs.Trees.{lists_in};

use lp_copies::{Copying, TreeRefusal, Turn};
use std::alloc::Global;

/// The modules of the copies, in order. For each module the ones that it uses are given.
///
/// # Errors
/// `TooMany` where there are more than 4,096 copies.
pub(crate) fn order_of(
    alloc: Global,
    uses: &Vec<Vec<usize>>,
    root: usize,
) -> Result<Vec<usize>, TreeRefusal>
    requires root { root < length uses.now.items }
    requires within { All (λ out. All (λ m. m < length uses.now.items) out) (lists_in uses.now.items) }
    ensures copies { IfOk result (λ order. Copies (lists_in uses.now.items) (root ∷ []) order.items) }
    ensures few { IfOk result (λ order. length order.items ≤ 4096) }
    ensures only { IfOk result (λ order. (all : List ℕ) → Copies (lists_in uses.now.items) (root ∷ []) all → all ≡ order.items) }
    ensures refused { IfErr result (IsTooMany (lists_in uses.now.items) root) }
{
    let mut copying = Copying::new(alloc, uses, root);
    'copies: loop {
        match copying.go_on(uses)? {
            Turn::Ended(_) => return Ok(copying.left),
            Turn::Entered(_) => continue,
            Turn::Left(_) => continue,
        }
    }
}

/// A number and what all copies count together, where that is at most so many. For each module its count is given.
pub(crate) fn sum_over(base: usize, counts: &[usize], order: &[usize], most: usize) -> Option<usize>
    requires { All (λ m. m < length counts.now) order.now }
    ensures sum { IfSome result (λ all. (all ≡ total base counts.now order.now) × (all ≤ most)) }
    ensures passed { result ≡ None → most < total base counts.now order.now }
{
    if base > most {
        return None;
    }
    let mut all = base;
    for at in 0..order.len() {
        match all.checked_add(counts[order[at]]) {
            Some(sum) if sum <= most => all = sum,
            _ => return None,
        }
    }
    Some(all)
}
