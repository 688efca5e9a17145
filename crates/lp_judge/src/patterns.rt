// Whether a program and a query are pattern text.
ghost use Rattle.std.specs.Prelude.{◌≡◌, ◌≢◌, ◌<◌, ◌++◌, ℕ, List, Option, IfOk, OnOk, length, get_or, codes, [], true};
ghost use Rattle.std.specs.Fmt.{decimal};
ghost use Rattle.lp_base.specs.Counts.{Counts};
ghost use Rattle.lp_base.specs.Held.{Held};
ghost use Rattle.lp_lines.specs.Ends.{Grows, KeepsFiles, Ran};
ghost use Rattle.lp_lines.specs.Lines.{is_of_search};
ghost use Rattle.lp_load.specs.Placed.{WritesPlaced};
ghost use Rattle.lp_term.specs.Nodes.{tree};
ghost use Rattle.lp_judge.specs.Asked.{AreToldTexts};
ghost use Rattle.lp_judge.specs.Judged.{names_of, IsVerdictLine, Judges};

use crate::texts::{Texts, prepare};
use itoa::Buffer;
use lp_base::{Folder, Memory, Sink, Status};
use lp_lambda::{Verdict, survey};
use lp_lines::{refuse, say_memory, tell};
use lp_model::Typed;
use lp_module::Module;
use lp_term::Bank;
use std::alloc::Global;

/// The line of a verdict, with the status of its run.
#[derive(Drop)]
struct Judgement {
    line: Vec<u8>,
    status: Status,
}

fn push_number(line: &mut Vec<u8>, number: u32) -> Result<(), Memory>
    ensures { OnOk result (line.new.items ≡ line.old.items ++ decimal number) }
{
    let mut buffer = Buffer::new();
    line.extend_from_slice(buffer.format(number).as_bytes())?;
    Ok(())
}

// `no: NAME clause I`.
fn clause_line(
    alloc: Global,
    modules: &[Module],
    place: u32,
    number: u32,
) -> Result<Vec<u8>, Memory>
    requires { place < length modules.now }
    ensures { IfOk result (λ line. line.items ≡ codes "no: " ++ get_or (names_of modules.now) place [] ++ codes " clause " ++ decimal number ++ codes "\n") }
{
    let mut line = b"no: ".to_vec(alloc)?;
    line.extend_from_slice(modules[place as usize].name.as_slice())?;
    line.extend_from_slice(b" clause ")?;
    push_number(&mut line, number)?;
    line.extend_from_slice(b"\n")?;
    Ok(line)
}

// The verdict on modules and a query, as it is told.
fn said_on(
    alloc: Global,
    modules: &mut [Module],
    bank: &mut Bank,
    query: &Typed,
) -> Result<Judgement, Memory>
    ensures { IfOk result (λ told. IsVerdictLine modules.old (tree bank.old query.now.formula.0) told.line.items told.status) }
{
    match survey(alloc, modules, bank, query)? {
        Verdict::Yes => {
            let line = b"yes\n".to_vec(alloc)?;
            Ok(Judgement {
                line,
                status: Status::Done,
            })
        }
        Verdict::Clause(place, number) => {
            let line = clause_line(alloc, modules, place, number)?;
            Ok(Judgement {
                line,
                status: Status::No,
            })
        }
        Verdict::Query => {
            let line = b"no: query\n".to_vec(alloc)?;
            Ok(Judgement {
                line,
                status: Status::No,
            })
        }
    }
}

// The verdict on texts, as it is told.
fn verdict_on(alloc: Global, texts: Texts) -> Result<Judgement, Memory>
    ensures { IfOk result (λ told. IsVerdictLine texts.modules.items (tree texts.bank texts.query.formula.0) told.line.items told.status) }
{
    let Texts {
        mut modules,
        mut bank,
        query,
    } = texts;
    said_on(alloc, modules.as_mut_slice(), &mut bank, &query)
}

// Writes the verdict on texts.
fn judge<K: Sink>(alloc: Global, texts: Texts, out: &mut K) -> Status
    ensures grows { Grows (K.written out.old) (K.written out.new) }
    ensures of_search { result ≢ Status.WriteFault → is_of_search result ≡ true }
    ensures write_faults { Counts (result ≡ Status.WriteFault) (K.faults out.old) (K.faults out.new) }
    ensures judges { (told : Option Held) (name text : List ℕ) → AreToldTexts told name text texts.modules.items texts.bank texts.query → Judges told name text (K.written out.old) (K.written out.new) result }
{
    match verdict_on(alloc, texts) {
        Ok(told) => refuse(out, told.line, told.status),
        Err(Memory) => say_memory(out),
    }
}

/// Says whether all clauses of a module and of those that it accumulates, and a query on it, are pattern text: `yes`; else `no: NAME clause I` for the
/// first clause that is none, or `no: query`. Of a refusal its line is written.
pub fn lambda<F: Folder, K: Sink>(
    alloc: Global,
    name: &str,
    query: &str,
    folder: &mut F,
    out: &mut K,
) -> Status
    ensures ran { Ran F.read_faults F.misses F.overs K.written folder.old folder.new out.old out.new result }
    ensures keeps { KeepsFiles F.write_faults F.held K.faults folder.old folder.new out.old out.new result }
    ensures placed { result ≡ Status.Source → WritesPlaced (F.held folder.old) query.now (K.written out.old) (K.written out.new) }
    ensures judges { Judges (F.held folder.old) name.now query.now (K.written out.old) (K.written out.new) result }
{
    match prepare(alloc, name, query, folder) {
        Ok(texts) => judge(alloc, texts, out),
        Err(refusal) => tell(out, refusal),
    }
}
