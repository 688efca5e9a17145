// Flattened clauses and goals, over the nodes of a bank.

use lp_term::{TermId, TypeId};

/// A flattened clause: `type_vars` type variables, variables of the types `vars`, the first of them index 0, a head and the goals of its body. In an
/// assumed clause `type_vars` is 0: the type variables in it are those of its sentence or query. `specs/Flattened` says what it means.
#[cycle(flattened)]
pub struct Clause {
    pub type_vars: u32,
    pub vars: Vec<TypeId>,
    pub head: TermId,
    pub body: Vec<Goal>,
}

/// A flattened goal. `Some` and `All` bind index 0 in their goals. A `Some` takes the goals behind it into its scope, so it is the last of its list,
/// and a text may nest as many as it has goals: `drop` walks along them.
#[cycle(flattened)]
pub enum Goal {
    Atom(TermId),
    Cut,
    Either(Vec<Goal>, Vec<Goal>),
    Some(TypeId, Vec<Goal>),
    All(TypeId, Vec<Goal>),
    Assume(Vec<Clause>, Vec<Goal>),
    Not(Vec<Goal>),
}

impl Drop for Clause {
    #[cycle(flattened)]
    fn drop(self) {
        let Clause {
            type_vars: _,
            vars: _,
            head: _,
            body: _,
        } = self;
    }
}

impl Drop for Goal {
    #[cycle(flattened)]
    fn drop(mut self) {
        loop {
            match self {
                Goal::Some(_, mut goals) => match goals.pop() {
                    Some(last) => self = last,
                    None => return,
                },
                Goal::Atom(_) | Goal::Cut => return,
                Goal::Either(_, _) => return,
                Goal::All(_, _) => return,
                Goal::Assume(_, _) => return,
                Goal::Not(_) => return,
            }
        }
    }
}
