// The walk from the root, depth first along the words of accumulate.
ghost use Rattle.std.specs.Prelude.{◌≡◌, ◌<◌, ◌≤◌, ◌+◌, [], ◌∷◌, ◌++◌, length, replicate, slice_set, get_or, true, false, IfOk, OnOk};
ghost use Rattle.lp_module.specs.Order.{HasNoCircle, Visits};
ghost use Rattle.lp_module.specs.Searching.{ways_in, AreWithin, IsMarked};
ghost use Rattle.lp_module.specs.Visiting.{IsWalk, Moves};

use crate::circles::no_marks;
use lp_base::{Memory, Spot};
use std::alloc::Global;

// The modules that were met; those that were left, in order; the innermost open one with the number of the next module that it
// accumulates; and the same of those around it.
#[derive(Drop)]
pub(crate) struct Walk {
    root: usize,
    seen: Vec<bool>,
    order: Vec<u32>,
    around: Vec<(usize, usize)>,
    at: usize,
    next: usize,
}

impl Walk {
    fn new(alloc: Global, ways: &Vec<Vec<(Spot, usize)>>, root: usize) -> Result<Walk, Memory>
        requires { root < length ways.now.items }
        ensures walk { IfOk result (IsWalk (ways_in ways.now.items)) }
        ensures root { IfOk result (λ walk. walk.root ≡ root) }
    {
        let mut seen = no_marks(alloc, ways.len())?;
        seen[root] = true;
        Ok(Walk {
            root,
            seen,
            order: Vec::new(alloc),
            around: Vec::new(alloc),
            at: root,
            next: 0,
        })
    }

    // Meets the next module that the innermost accumulates.
    fn meet(&mut self, to: usize) -> Result<(), Memory>
        requires to { to < length self.old.seen.items }
        requires next { self.old.next + 1 < 18446744073709551616 }
        ensures root { OnOk result (self.new.root ≡ self.old.root) }
        ensures order { OnOk result (self.new.order.items ≡ self.old.order.items) }
        ensures again { OnOk result (IsMarked self.old.seen.items to → (self.new.seen.items ≡ self.old.seen.items) × (self.new.around.items ≡ self.old.around.items) × (self.new.at ≡ self.old.at) × (self.new.next ≡ self.old.next + 1)) }
        ensures first { OnOk result (get_or self.old.seen.items to false ≡ false → (self.new.seen.items ≡ slice_set self.old.seen.items to true) × (self.new.around.items ≡ self.old.around.items ++ (self.old.at, self.old.next + 1) ∷ []) × (self.new.at ≡ to) × (self.new.next ≡ 0)) }
    {
        let next = self.next + 1;
        if self.seen[to] {
            self.next = next;
            return Ok(());
        }
        self.around.push((self.at, next))?;
        self.seen[to] = true;
        self.at = to;
        self.next = 0;
        Ok(())
    }

    // Meets the next module, or leaves the innermost; says whether there is more to do.
    fn go_on(&mut self, ways: &Vec<Vec<(Spot, usize)>>) -> Result<bool, Memory>
        requires few { length ways.now.items ≤ 4294967296 }
        requires within { AreWithin (ways_in ways.now.items) }
        requires free { HasNoCircle (ways_in ways.now.items) }
        requires walk { IsWalk (ways_in ways.now.items) self.old }
        ensures { IfOk result (Moves (ways_in ways.now.items) self.old self.new) }
    {
        let out = &ways[self.at];
        if self.next < out.len() {
            self.meet(out[self.next].1)?;
            return Ok(true);
        }
        self.order.push(self.at as u32)?;
        match self.around.pop() {
            None => Ok(false),
            Some(outer) => {
                self.at = outer.0;
                self.next = outer.1;
                Ok(true)
            }
        }
    }
}

/// The modules that the root leads to, each once and behind all that it accumulates.
pub(crate) fn visit(
    alloc: Global,
    ways: &Vec<Vec<(Spot, usize)>>,
    root: usize,
) -> Result<Vec<u32>, Memory>
    requires few { length ways.now.items ≤ 4294967296 }
    requires root { root < length ways.now.items }
    requires within { AreWithin (ways_in ways.now.items) }
    requires free { HasNoCircle (ways_in ways.now.items) }
    ensures { IfOk result (λ order. Visits (ways_in ways.now.items) [] (root ∷ []) order.items) }
{
    let mut walk = Walk::new(alloc, ways, root)?;
    'walk: loop {
        if !walk.go_on(ways)? {
            return Ok(walk.order);
        }
    }
}
