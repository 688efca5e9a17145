// The lines that a session writes by itself.
ghost use Rattle.std.specs.Prelude.{◌≡◌, ◌++◌, codes, decimal, IfOk};
ghost use Rattle.lp_session.specs.Said.{query_line, unexpected_line, undeclared_line, summary_line};

use lp_base::Memory;
use std::alloc::Global;

// Appends a word and a number.
fn put_number(out: &mut Vec<u8>, word: &str, number: u64) -> Result<(), Memory>
    ensures { IfOk result (λ _. out.new.items ≡ out.old.items ++ word.now ++ decimal number) }
{
    out.extend_from_slice(word.as_bytes())?;
    let mut buffer = itoa::Buffer::new();
    out.extend_from_slice(buffer.format(number).as_bytes())?;
    Ok(())
}

/// In front of the reply to the query of this number.
#[tactic(auto, unfolding(crate::specs::Said::query_line))]
pub(crate) fn query_line(alloc: Global, number: u64) -> Result<Vec<u8>, Memory>
    ensures { IfOk result (λ line. line.items ≡ query_line number) }
{
    let mut line = Vec::new(alloc);
    put_number(&mut line, "query ", number)?;
    line.extend_from_slice(b"\n")?;
    Ok(line)
}

/// What stands at a column does not fit.
#[tactic(auto, unfolding(crate::specs::Said::unexpected_line))]
pub(crate) fn unexpected_line(alloc: Global, column: u64) -> Result<Vec<u8>, Memory>
    ensures { IfOk result (λ line. line.items ≡ unexpected_line column) }
{
    let mut line = Vec::new(alloc);
    put_number(&mut line, "source: query:1:", column)?;
    line.extend_from_slice(b": unexpected token\n")?;
    Ok(line)
}

/// The name at a column is no variable of its query.
#[tactic(auto, unfolding(crate::specs::Said::undeclared_line))]
pub(crate) fn undeclared_line(alloc: Global, column: u64, name: &[u8]) -> Result<Vec<u8>, Memory>
    ensures { IfOk result (λ line. line.items ≡ undeclared_line column name.now) }
{
    let mut line = Vec::new(alloc);
    put_number(&mut line, "source: query:1:", column)?;
    line.extend_from_slice(b": undeclared name ")?;
    line.extend_from_slice(name)?;
    line.extend_from_slice(b"\n")?;
    Ok(line)
}

/// How many queries and answers there were.
#[tactic(auto, unfolding(crate::specs::Said::summary_line))]
pub(crate) fn summary_line(alloc: Global, queries: u64, answers: u64) -> Result<Vec<u8>, Memory>
    ensures { IfOk result (λ line. line.items ≡ summary_line queries answers) }
{
    let mut line = Vec::new(alloc);
    put_number(&mut line, "queries ", queries)?;
    put_number(&mut line, ", answers ", answers)?;
    line.extend_from_slice(b"\n")?;
    Ok(line)
}
