// What is said of objects and images.
ghost use Rattle.std.specs.Prelude.{◌≡◌, ◌⊎◌, ◌<◌, ◌++◌, ℕ, codes, IfOk};
ghost use Rattle.lp_base.specs.declared.limit.Limit.TheVariants as limit;
ghost use Rattle.lp_lines.specs.Refusals.{IsJudged, TellsLimit};
ghost use Rattle.lp_lines.specs.declared.refusal.Refusal.TheVariants as refused;
ghost use Rattle.lp_object.specs.Refusing.{IsLimit};
ghost use Rattle.lp_lines.specs.Refusals.{TellsImage};
ghost use Rattle.lp_files.specs.Said.{TellsMisnamed, TellsMisread, TellsRejected, broken_rule, rule_name};
ghost use Rattle.lp_files.specs.Unopened.{object_file};

use lp_base::Memory;
use lp_code::Object;
use lp_lines::{Refusal, limited, numbered, said_of, said_with};
use lp_object::{FormatFault, WriteRefusal};
use lp_verify::{Rule, VerifyRefusal};
use std::alloc::Global;

/// The bytes of a file are none of its kind.
pub fn misread(alloc: Global, file: &[u8], fault: FormatFault) -> Refusal
    ensures judged { IsJudged result }
    ensures says { TellsMisread file.now fault result }
{
    match fault {
        FormatFault::BadMagic => said_of(alloc, file, b"bad magic"),
        FormatFault::BadVersion(version) => {
            said_with(alloc, file, "bad version ", u64::from(version))
        }
        FormatFault::Truncated(at) => said_with(alloc, file, "truncated at ", at),
        FormatFault::BadField(at) => said_with(alloc, file, "bad field at ", at),
        FormatFault::Trailing(at) => said_with(alloc, file, "trailing bytes at ", at),
        FormatFault::Limit(limit) => limited(alloc, limit),
        FormatFault::Memory => Refusal::Memory,
    }
}

/// A value takes more bytes than a file may have.
pub fn unwritten(alloc: Global, refusal: WriteRefusal) -> Refusal
    ensures judged { IsJudged result }
    ensures says { (bytes : ℕ) → IsLimit refusal (16777216 < bytes) → (result ≡ refused.Memory) ⊎ ((16777216 < bytes) × TellsLimit limit.Image result) }
{
    match refusal {
        WriteRefusal::Limit(limit) => limited(alloc, limit),
        WriteRefusal::Memory => Refusal::Memory,
    }
}

#[tactic(auto, unfolding(crate::specs::Said::rule_name))]
fn rule_name(rule: Rule) -> &'static str
    ensures { result.now ≡ rule_name rule }
{
    match rule {
        Rule::Register => "register",
        Rule::Unset => "unset",
        Rule::Set => "set",
        Rule::Constant => "constant",
        Rule::Typing => "type",
        Rule::Index => "index",
        Rule::Term => "term",
        Rule::Order => "order",
        Rule::Head => "head",
        Rule::Block => "block",
        Rule::Clause => "clause",
        Rule::Key => "key",
    }
}

// `invalid clause C at N: RULE`.
#[tactic(auto, unfolding(crate::specs::Said::broken_rule))]
fn invalid(alloc: Global, clause: u32, at: u32, rule: Rule) -> Result<Vec<u8>, Memory>
    ensures { IfOk result (λ said. said.items ≡ broken_rule clause at rule) }
{
    let mut said = numbered(alloc, "invalid clause ", u64::from(clause))?;
    let behind = numbered(alloc, " at ", u64::from(at))?;
    said.extend_from_slice(behind.as_slice())?;
    said.extend_from_slice(b": ")?;
    said.extend_from_slice(rule_name(rule).as_bytes())?;
    Ok(said)
}

/// The code of a file denotes nothing.
pub fn rejected(alloc: Global, file: &[u8], refusal: VerifyRefusal) -> Refusal
    ensures judged { IsJudged result }
    ensures says { TellsRejected file.now refusal result }
{
    match refusal {
        VerifyRefusal::Invalid { clause, at, rule } => match invalid(alloc, clause, at, rule) {
            Ok(said) => said_of(alloc, file, said.as_slice()),
            Err(Memory) => Refusal::Memory,
        },
        VerifyRefusal::Memory => Refusal::Memory,
    }
}

/// Two pieces behind one another.
pub fn joined(alloc: Global, first: &[u8], second: &[u8]) -> Result<Vec<u8>, Memory>
    ensures { IfOk result (λ both. both.items ≡ first.now ++ second.now) }
{
    let mut both = first.to_vec(alloc)?;
    both.extend_from_slice(second)?;
    Ok(both)
}

/// `signatures differ NAME`.
pub fn differ(alloc: Global, file: &[u8], name: &[u8]) -> Refusal
    ensures judged { IsJudged result }
    ensures says { TellsImage file.now (codes "signatures differ " ++ name.now) result }
{
    match joined(alloc, b"signatures differ ", name) {
        Ok(said) => said_of(alloc, file, said.as_slice()),
        Err(Memory) => Refusal::Memory,
    }
}

/// An object uses a name that no file has.
pub fn misnamed(alloc: Global, user: &Object) -> Refusal
    ensures judged { IsJudged result }
    ensures says { TellsMisnamed (object_file user.now.name.items) result }
{
    match joined(alloc, user.name.as_slice(), b".lpo") {
        Ok(file) => said_of(alloc, file.as_slice(), b"name differs"),
        Err(Memory) => Refusal::Memory,
    }
}
