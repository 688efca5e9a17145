// What answers are shown with: the names of the query's variables, and the constants of the program.
ghost use Rattle.std.specs.Prelude.{◌≡◌, length, map, IfErr, IfOk};
ghost use Rattle.lp_model.specs.Whole.{IsWhole};
ghost use Rattle.lp_show.specs.Glossary.{entries_of, entry_of as shown_entry};
ghost use Rattle.lp_solve.specs.Shown.{IsShownWith, all_constants, constant_shown, constants_in, names_in, names_written};
ghost use Rattle.lp_solve.specs.Written.{CannotBeShown, IsLines};
ghost use Rattle.lp_solve.specs.inner.Events.{IfDeep, plain};

use lp_base::Memory;
use lp_build::Built;
use lp_model::{Answer, Typed};
use lp_module::GlobalName;
use lp_show::{Entry, Glossary};
use lp_sig::{Signature, spelled_at};
use lp_term::TermRefusal;
use std::alloc::Global;

/// What answers are shown with.
#[derive(Drop)]
pub struct Shown {
    pub names: Vec<Vec<u8>>,
    pub glossary: Glossary,
}

// The names of a query's variables, as they are written.
fn names_of(alloc: Global, text: &[u8], typed: &Typed) -> Result<Vec<Vec<u8>>, Memory>
    ensures { IfOk result (λ names. map (λ n. n.items) names.items ≡ names_written text.now typed.now) }
{
    let vars = typed.vars.as_slice();
    let mut names = Vec::new(alloc);
    'names: for at in 0..vars.len() {
        let (spot, _) = vars[at];
        let name = spelled_at(text, spot).to_vec(alloc)?;
        names.push(name)?;
    }
    Ok(names)
}

// A constant of a program, as it is shown.
fn entry_of(
    alloc: Global,
    number: u32,
    constant: &GlobalName,
    signature: &Signature,
) -> Result<Entry, Memory>
    ensures { IfOk result (λ entry. shown_entry entry ≡ constant_shown signature.now number constant.now) }
{
    let name = constant.name.as_slice();
    let fixity = if constant.hidden == 0 {
        signature.fixity(name)
    } else {
        None
    };
    Ok(Entry {
        number,
        name: name.to_vec(alloc)?,
        hidden: constant.hidden,
        fixity,
    })
}

// The constants of a program. Those of the root's signature are shown as operators.
fn glossary_of(alloc: Global, built: &Built) -> Result<Glossary, Memory>
    ensures { IfOk result (λ glossary. entries_of glossary.entries.items ≡ all_constants built.now) }
{
    let constants = built.assembled.constants.as_slice();
    let mut entries = Vec::new(alloc);
    let mut number: u32 = 32;
    'constants: for at in 0..constants.len() {
        let constant = &constants[at];
        let entry = entry_of(alloc, number, constant, &built.signature)?;
        entries.push(entry)?;
        number = number.saturating_add(1);
    }
    Ok(Glossary { entries })
}

/// What the answers of a query are shown with.
pub fn shown_with(alloc: Global, text: &[u8], typed: &Typed, built: &Built) -> Result<Shown, Memory>
    ensures { IfOk result (IsShownWith text.now typed.now built.now) }
{
    Ok(Shown {
        names: names_of(alloc, text, typed)?,
        glossary: glossary_of(alloc, built)?,
    })
}

impl Shown {
    /// The lines of an answer.
    pub fn answer(
        &self,
        alloc: Global,
        number: u64,
        answer: &mut Answer,
    ) -> Result<Vec<u8>, TermRefusal>
        requires { IsWhole (length self.now.names.items) answer.old }
        ensures text { IfOk result (λ text. IsLines (constants_in self.now) (names_in self.now) number (plain answer.old) text.items) }
        ensures refused { IfErr result (IfDeep (CannotBeShown (names_in self.now) (plain answer.old))) }
    {
        lp_show::answer(alloc, number, &self.names, answer, &self.glossary)
    }
}
