// The copies of the modules that the root accumulates, one behind the other.
ghost use Rattle.std.specs.Prelude.{◌≡◌, ◌+◌, ◌<◌, ◌++◌, [], ◌∷◌, length, All, IfOk, IfErr, OnOk};
ghost use Rattle.lp_copies.specs.Copies.{IsTooMany};
ghost use Rattle.lp_copies.specs.Trees.{lists_in, frames_of, IsCopying, Moves, Turns};

use crate::fault::TreeRefusal;
use lp_base::{MAX_COPIES, Memory};
use std::alloc::Global;

/// What came: a copy of a module was entered, or one was left, or the last.
#[derive(Clone, Copy)]
pub enum Turn {
    Entered(usize),
    Left(usize),
    Ended(usize),
}

/// The copies that were left, in order; how many were entered; the innermost open one, with the number of the next entry of its list;
/// and the same of those around it.
#[derive(Drop)]
pub struct Copying {
    root: usize,
    pub left: Vec<usize>,
    entered: usize,
    around: Vec<(usize, usize)>,
    at: usize,
    next: usize,
}

impl Copying {
    pub fn new(alloc: Global, uses: &Vec<Vec<usize>>, root: usize) -> Copying
        requires { root < length uses.now.items }
        ensures copying { IsCopying (lists_in uses.now.items) result }
        ensures root { result.root ≡ root }
        ensures left { result.left.items ≡ [] }
        ensures frames { frames_of result ≡ (root, 0) ∷ [] }
    {
        Copying {
            root,
            left: Vec::new(alloc),
            entered: 1,
            around: Vec::new(alloc),
            at: root,
            next: 0,
        }
    }

    // Enters a copy of a module.
    fn enter(&mut self, to: usize) -> Result<(), Memory>
        requires next { self.old.next + 1 < 18446744073709551616 }
        requires entered { self.old.entered < 4096 }
        ensures { OnOk result ((self.new.root ≡ self.old.root) × (self.new.left.items ≡ self.old.left.items) × (self.new.entered ≡ self.old.entered + 1) × (self.new.around.items ≡ self.old.around.items ++ (self.old.at, self.old.next + 1) ∷ []) × (self.new.at ≡ to) × (self.new.next ≡ 0)) }
    {
        self.around.push((self.at, self.next + 1))?;
        self.entered += 1;
        self.at = to;
        self.next = 0;
        Ok(())
    }

    /// Enters the next copy, or leaves the innermost.
    pub fn go_on(&mut self, uses: &Vec<Vec<usize>>) -> Result<Turn, TreeRefusal>
        requires within { All (λ out. All (λ m. m < length uses.now.items) out) (lists_in uses.now.items) }
        requires copying { IsCopying (lists_in uses.now.items) self.old }
        ensures turns { IfOk result (Turns (lists_in uses.now.items) self.old self.new) }
        ensures moves { IfOk result (Moves (lists_in uses.now.items) (frames_of self.old) (frames_of self.new)) }
        ensures refused { IfErr result (IsTooMany (lists_in uses.now.items) self.old.root) }
    {
        let out = &uses[self.at];
        if self.next < out.len() {
            let to = out[self.next];
            if self.entered >= MAX_COPIES {
                return Err(TreeRefusal::TooMany);
            }
            self.enter(to)?;
            return Ok(Turn::Entered(to));
        }
        let at = self.at;
        self.left.push(at)?;
        match self.around.pop() {
            None => Ok(Turn::Ended(at)),
            Some(outer) => {
                self.at = outer.0;
                self.next = outer.1;
                Ok(Turn::Left(at))
            }
        }
    }
}
