ghost use Rattle.std.specs.Prelude.{◌≡◌, ℕ, true};
ghost use Rattle.lp_calculus.specs.Term.{Term, Atom, index, atom, abs, app};
ghost use Rattle.lp_term.specs.Facts.{AreFacts, IsFixed, IsNoAbstraction, IsReach, AreNodes};

/// What is known of a term without a look at its parts.
#[derive(Clone, Copy)]
pub(crate) struct Facts {
    /// The loose indices are below it, where there is one.
    pub(crate) reach: Option<u64>,
    /// Only where the term is beta-normal.
    pub(crate) normal: bool,
    /// How many heads and abstractions the term has, where that fits.
    pub(crate) nodes: Option<u64>,
    /// Only where the term is ground and of first order.
    pub(crate) ground: bool,
}

impl Facts {
    pub(crate) fn of_index(i: u64) -> Facts
        ensures { AreFacts result (index i) }
    {
        Facts {
            reach: i.checked_add(1),
            normal: true,
            nodes: Some(1),
            ground: false,
        }
    }

    /// Of an atom; `ground` only where it is neither an eigenconstant nor a variable.
    pub(crate) fn of_atom(ground: bool) -> Facts
        ensures { (a : Atom) → (ground ≡ true → IsFixed a) → AreFacts result (atom a) }
    {
        Facts {
            reach: Some(0),
            normal: true,
            nodes: Some(1),
            ground,
        }
    }

    pub(crate) fn abstracted(self) -> Facts
        ensures { (t : Term) → AreFacts self t → AreFacts result (abs t) }
    {
        Facts {
            reach: lowered(self.reach),
            normal: self.normal,
            nodes: total(self.nodes, Some(1)),
            ground: false,
        }
    }

    /// Of the term on one argument. A term with an abstraction at its top must not pass as normal here.
    pub(crate) fn applied(self, argument: Facts) -> Facts
        ensures { (t u : Term) → AreFacts self t → (self.normal ≡ true → IsNoAbstraction t) → AreFacts argument u → AreFacts result (app t u) }
    {
        Facts {
            reach: higher(self.reach, argument.reach),
            normal: both(self.normal, argument.normal),
            nodes: total(self.nodes, argument.nodes),
            ground: both(self.ground, argument.ground),
        }
    }
}

fn lowered(reach: Option<u64>) -> Option<u64>
    ensures { (t : Term) → IsReach reach t → IsReach result (abs t) }
{
    match reach {
        Some(r) => Some(r.saturating_sub(1)),
        None => None,
    }
}

fn higher(a: Option<u64>, b: Option<u64>) -> Option<u64>
    ensures { (t u : Term) → IsReach a t → IsReach b u → IsReach result (app t u) }
{
    match (a, b) {
        (Some(r), Some(s)) => Some(r.max(s)),
        _ => None,
    }
}

fn total(a: Option<u64>, b: Option<u64>) -> Option<u64>
    ensures { (t u : Term) → AreNodes a t → AreNodes b u → AreNodes result (app t u) }
{
    match (a, b) {
        (Some(n), Some(m)) => n.checked_add(m),
        _ => None,
    }
}

fn both(a: bool, b: bool) -> bool
    ensures { result ≡ true → (a ≡ true) × (b ≡ true) }
{
    a && b
}
