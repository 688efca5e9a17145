// Modules as they are handed out.

use lp_model::ClauseFormula;
use lp_sig::Signature;
use lp_term::Bank;

/// What a module means. The signature has all names that the module sees, in order of first declaration, with the fixities of the module's own
/// signature; then come the numbers of its hidden names, the accumulated modules in order, and the typed clauses, whose terms stand in `bank`.
#[derive(Drop)]
pub struct Module {
    pub name: Vec<u8>,
    pub signature: Signature,
    pub hidden_kinds: Vec<u32>,
    pub hidden_constants: Vec<u32>,
    pub uses: Vec<Vec<u8>>,
    pub bank: Bank,
    pub clauses: Vec<ClauseFormula>,
}
