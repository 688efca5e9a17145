// What the records of a clause or query have in common.
ghost use Rattle.std.specs.Prelude.{◌≤◌, All};

use crate::plan::Assumption;
use lp_model::Declared;
use lp_term::Bank;

/// The bank, the declared constants, how many type variables there are, the assumptions, none of more clauses than there may be records, and the number of
/// the first record.
#[derive(Clone, Copy)]
pub(crate) struct Tables<'a> {
    pub bank: &'a Bank,
    pub constants: &'a [Declared],
    pub type_vars: u16,
    pub assumptions: &'a [Assumption<'a>],
    pub first: u32,
    ghost few: { All (λ x. x.count ≤ 65535) assumptions.now },
}
