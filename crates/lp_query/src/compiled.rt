// A query in code.
ghost use Rattle.std.specs.Prelude.{◌≡◌, List, map, IfOk, IfErr};
ghost use Rattle.lp_lexer.specs.declared.token.Token.{Token};
ghost use Rattle.lp_lexer.specs.Lexis.{HasTokens};
ghost use Rattle.lp_fixity.specs.Table.{entry_of};
ghost use Rattle.lp_syntax.specs.Tokens.{lexemes, spot_at};
ghost use Rattle.lp_syntax.specs.Queries.{IsQueryText};
ghost use Rattle.lp_sig.specs.Pieces.{spelled};
ghost use Rattle.lp_infer.specs.Typing.{Typing};
ghost use Rattle.lp_infer.specs.Texts.{IsPrincipalTyping};
ghost use Rattle.lp_code.specs.Length.{AllFit};
ghost use Rattle.lp_query.specs.Faults.{IsOfQuery};
ghost use Rattle.lp_query.specs.Variables.{AreVariables};

use crate::fault::AskRefusal;
use crate::seen::Seen;
use lp_base::{Limit, Memory};
use lp_code::Code;
use lp_gen::generate_query;
use lp_infer::type_query;
use lp_lexer::tokens;
use lp_model::{Goal, Typed};
use lp_module::{has_many_arguments, query_form_under};
use lp_normal::query_body;
use lp_sig::spelled_at;
use lp_syntax::{RawQuery, query_text};
use std::alloc::Global;

/// The code of a query, and the names of its variables.
#[derive(Drop)]
pub(crate) struct Compiled {
    pub code: Code,
    pub names: Vec<Vec<u8>>,
}

// The query as it is written.
fn read(alloc: Global, seen: &Seen, query: &[u8]) -> Result<RawQuery, AskRefusal>
    ensures refused { IfErr result (IsOfQuery query.now) }
    ensures text { IfOk result (λ raw. (ts : List Token) × (HasTokens query.now ts × IsQueryText (spot_at 0 query.now ts) (entry_of seen.now.table) (lexemes query.now ts) raw)) }
{
    let tokens = tokens(alloc, query)?;
    let raw = query_text(alloc, query, tokens.as_slice(), &seen.table)?;
    if has_many_arguments(alloc, &raw.term)? {
        return Err(AskRefusal::Limit(Limit::Arguments));
    }
    Ok(raw)
}

// The typed query, whose terms stand in the bank, and its goals.
fn goals_of(
    alloc: Global,
    seen: &mut Seen,
    query: &[u8],
    raw: &RawQuery,
) -> Result<(Typed, Vec<Goal>), AskRefusal>
    ensures refused { IfErr result (IsOfQuery query.now) }
    ensures typed { IfOk result (λ r. (T : Typing) × IsPrincipalTyping seen.old.signature query.now raw.now.term (map (λ v. v.0) r.0.vars.items) T) }
    ensures glossary { seen.new.glossary ≡ seen.old.glossary }
    ensures signature { seen.new.signature ≡ seen.old.signature }
    ensures table { seen.new.table ≡ seen.old.table }
{
    let bank = &mut seen.bank;
    let typed = type_query(alloc, &seen.signature, query, raw, bank)?;
    query_form_under(alloc, bank, &seen.signature, &typed, raw.term.first)?;
    let body = query_body(alloc, bank, &typed)?;
    Ok((typed, body))
}

// The names of the variables, as the text writes them.
fn names_of(alloc: Global, text: &[u8], typed: &Typed) -> Result<Vec<Vec<u8>>, Memory>
    ensures { IfOk result (λ names. map (λ n. n.items) names.items ≡ map (spelled text.now) (map (λ v. v.0) typed.now.vars.items)) }
{
    let vars = typed.vars.as_slice();
    let mut names = Vec::new(alloc);
    'names: for at in 0..vars.len() {
        let (spot, _) = vars[at];
        let name = spelled_at(text, spot).to_vec(alloc)?;
        names.push(name)?;
    }
    Ok(names)
}

impl Compiled {
    /// The code of a query over what it sees.
    pub(crate) fn of(alloc: Global, seen: &mut Seen, query: &[u8]) -> Result<Compiled, AskRefusal>
        ensures fit { IfOk result (λ c. AllFit c.code.records.items) }
        ensures refused { IfErr result (IsOfQuery query.now) }
        ensures variables { IfOk result (λ c. AreVariables (record { signature = seen.old.signature; table = seen.old.table }) query.now (map (λ n. n.items) c.names.items)) }
        ensures glossary { seen.new.glossary ≡ seen.old.glossary }
        ensures signature { seen.new.signature ≡ seen.old.signature }
        ensures table { seen.new.table ≡ seen.old.table }
    {
        let raw = read(alloc, seen, query)?;
        let (typed, body) = goals_of(alloc, seen, query, &raw)?;
        let code = generate_query(
            alloc,
            &seen.bank,
            seen.constants.as_slice(),
            &typed,
            body.as_slice(),
        )?;
        let names = names_of(alloc, query, &typed)?;
        Ok(Compiled { code, names })
    }
}
