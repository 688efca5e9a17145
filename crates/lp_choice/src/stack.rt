// The stack of choice points.
ghost use Rattle.std.specs.Prelude.{◌≡◌, ◌++◌, ◌∷◌, [], take, length, nat_lt, List, MatchOption, OnOk, OnErr};
ghost use Rattle.lp_choice.specs.declared.point.ChoicePoint.{ChoicePoint};

use crate::point::ChoicePoint;
use lp_base::Memory;
use std::alloc::Global;
use std::marker::Model;

/// Choice points, oldest first.
#[derive(Drop)]
pub struct Choices {
    points: Vec<ChoicePoint>,
}

impl Model for Choices {
    ghost use Rattle.std.specs.Prelude.{List};
    ghost use Rattle.lp_choice.specs.declared.point.ChoicePoint.{ChoicePoint};

    ghost Value = { List ChoicePoint };

    ghost view = { λ c. c.points.items };
}

impl Choices {
    /// No choice point.
    pub fn new(alloc: Global) -> Choices
        ensures { result ≡ [] }
    {
        Choices {
            points: Vec::new(alloc),
        }
    }

    /// How many there are.
    pub fn height(&self) -> usize
        ensures { result ≡ length self.now }
    {
        self.points.len()
    }

    /// One more.
    pub fn push(&mut self, point: ChoicePoint) -> Result<(), Memory>
        ensures pushed { OnOk result (self.new ≡ self.old ++ point ∷ []) }
        ensures unchanged { OnErr result (self.new ≡ self.old) }
    {
        self.points.push(point)?;
        Ok(())
    }

    /// The newest, which stays.
    pub fn newest(&self) -> Option<ChoicePoint>
        ensures { MatchOption result (self.now ≡ []) (λ point. (older : List ChoicePoint) × (self.now ≡ older ++ point ∷ [])) }
    {
        self.points.last().copied()
    }

    /// Takes off the newest.
    pub fn retry(&mut self) -> Option<ChoicePoint>
        ensures { MatchOption result ((self.old ≡ []) × (self.new ≡ [])) (λ point. self.old ≡ self.new ++ point ∷ []) }
    {
        self.points.pop()
    }

    /// Keeps the oldest `height`. Whether any was removed.
    pub fn cut(&mut self, height: usize) -> bool
        ensures kept { self.new ≡ take height self.old }
        ensures removed { result ≡ nat_lt height (length self.old) }
    {
        let removed = height < self.points.len();
        self.points.truncate(height);
        removed
    }
}
