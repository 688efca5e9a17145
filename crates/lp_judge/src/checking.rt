// Whether certificates of a query's answers are proofs.
ghost use Rattle.std.specs.Prelude.{◌≡◌, ◌≢◌, ◌++◌, ℕ, List, Option, map, All, IfOk, IfErr, OnOk, codes, true};
ghost use Rattle.std.specs.Fmt.{decimal};
ghost use Rattle.lp_base.specs.Counts.{Counts};
ghost use Rattle.lp_base.specs.Held.{Held};
ghost use Rattle.lp_lines.specs.Ends.{Grows, KeepsFiles, Ran};
ghost use Rattle.lp_lines.specs.Lines.{is_of_search};
ghost use Rattle.lp_lines.specs.Looked.{Found, Looked, refusal_of};
ghost use Rattle.lp_lines.specs.Placed.{IfSource};
ghost use Rattle.lp_lines.specs.Refusals.{IsJudged};
ghost use Rattle.lp_load.specs.Placed.{IsPlaced, WritesPlaced};
ghost use Rattle.lp_base.specs.Written.{Appends};
ghost use Rattle.lp_term.specs.Nodes.{Extends};
ghost use Rattle.lp_cert.specs.Arities.{counts_in};
ghost use Rattle.lp_cert.specs.Certified.{certificate_of, ground_of, query_of};
ghost use Rattle.lp_cert.specs.Spellable.{AreCertificates};
ghost use Rattle.lp_cert.specs.Spelling.{spelled_certificates};
ghost use Rattle.lp_cert.specs.Standing.{AreNumbersInside, IsCertificateInside, IsSameProgram};
ghost use Rattle.lp_build.specs.Told.{IsTold};
ghost use Rattle.lp_judge.specs.Asked.{IsAskedFrom};
ghost use Rattle.lp_judge.specs.Checked.{Checks, IsCheckOf, IsChecked, IsJudgedOn, IsVerdictOn};

use crate::asking::{Asked, prepare_asked};
use itoa::Buffer;
use lp_base::{Folder, Limit, MAX_IMAGE_BYTES, Memory, Sink, Status};
use lp_cert::{CertFault, CheckVerdict, check, read_cert};
use lp_lines::{Refusal, file_name, limited, read_file, refuse, said_of, said_with, tell};
use lp_model::{Certificate, Typed};
use lp_module::Assembled;
use lp_term::Bank;
use std::alloc::Global;
use std::mem::replace;

/// The line of a verdict, with the status of its run.
#[derive(Drop)]
struct Checked {
    line: Vec<u8>,
    status: Status,
}

// What is said of an image, with the status of one.
fn of_image(refusal: Refusal) -> Refusal
    ensures judged { IsJudged result }
    ensures nowhere { IfSource (λ line. ⊥) result }
{
    match refusal {
        Refusal::Line(_, line) => Refusal::Line(Status::Image, line),
        Refusal::Memory => Refusal::Memory,
    }
}

// What is said of bytes that are no certificates.
fn misread(alloc: Global, file: &[u8], fault: CertFault) -> Refusal
    ensures judged { IsJudged result }
    ensures nowhere { IfSource (λ line. ⊥) result }
{
    match fault {
        CertFault::BadMagic => of_image(said_of(alloc, file, b"bad magic")),
        CertFault::BadVersion(version) => {
            of_image(said_with(alloc, file, "bad version ", u64::from(version)))
        }
        CertFault::Truncated(at) => of_image(said_with(alloc, file, "truncated at ", at)),
        CertFault::BadField(at) => of_image(said_with(alloc, file, "bad field at ", at)),
        CertFault::Trailing(at) => of_image(said_with(alloc, file, "trailing bytes at ", at)),
        CertFault::Limit(passed) => limited(alloc, passed),
        CertFault::Memory => Refusal::Memory,
    }
}

// A word and a number, as a line.
fn counted(alloc: Global, word: &str, number: u64) -> Result<Vec<u8>, Memory>
    ensures { IfOk result (λ line. line.items ≡ word.now ++ decimal number ++ codes "\n") }
{
    let mut buffer = Buffer::new();
    let mut line = word.as_bytes().to_vec(alloc)?;
    line.extend_from_slice(buffer.format(number).as_bytes())?;
    line.extend_from_slice(b"\n")?;
    Ok(line)
}

// The verdict on so many certificates, as it is told.
fn said_of_verdict(alloc: Global, count: u64, verdict: CheckVerdict) -> Result<Checked, Memory>
    ensures { IfOk result (λ told. IsChecked count verdict told.line.items told.status) }
{
    match verdict {
        CheckVerdict::Accepted => {
            let line = counted(alloc, "accepted ", count)?;
            Ok(Checked {
                line,
                status: Status::Done,
            })
        }
        CheckVerdict::Rejected(number) => {
            let line = counted(alloc, "no: certificate ", u64::from(number))?;
            Ok(Checked {
                line,
                status: Status::No,
            })
        }
        CheckVerdict::Deep(_) => {
            let line = b"stopped: term too deep\n".to_vec(alloc)?;
            Ok(Checked {
                line,
                status: Status::Deep,
            })
        }
    }
}

// The certificates that the bytes spell, in the program's bank.
pub(crate) fn read(
    alloc: Global,
    bytes: &[u8],
    names: &mut Assembled,
) -> Result<Vec<Certificate>, CertFault>
    ensures kept { Extends names.old.program.bank names.new.program.bank }
    ensures same { IsSameProgram names.old names.new }
    ensures inside { IfOk result (λ cs. All (IsCertificateInside names.new.program.bank) cs.items) }
    ensures found { IfOk result (λ cs. AreCertificates (counts_in names.old) (map (certificate_of names.new.program.bank) cs.items) × (bytes.now ≡ spelled_certificates (map (certificate_of names.new.program.bank) cs.items))) }
{
    let mut bank = replace(&mut names.program.bank, Bank::new(alloc));
    let found = read_cert(alloc, bytes, names, &mut bank);
    names.program.bank = bank;
    found
}

// The verdict on certificates that stand in the program's bank.
fn verdict_on(
    alloc: Global,
    names: &mut Assembled,
    query: &Typed,
    certificates: &[Certificate],
) -> Result<CheckVerdict, Memory>
    ensures kept { Extends names.old.program.bank names.new.program.bank }
    ensures same { IsSameProgram names.old names.new }
    ensures right { AreNumbersInside names.old.program query.now certificates.now → IfOk result (IsVerdictOn (ground_of names.new.program) (query_of names.new.program.bank query.now) (map (certificate_of names.new.program.bank) certificates.now)) }
{
    check(alloc, names, query, certificates)
}

// Judges the certificates that the bytes of the file spell.
fn judged(alloc: Global, file: &str, bytes: &[u8], asked: Asked) -> Result<Checked, Refusal>
    ensures judged { IfErr result IsJudged }
    ensures nowhere { IfErr result (IfSource (λ line. ⊥)) }
    ensures checked { IfOk result (λ told. (count : ℕ) × (verdict : CheckVerdict) × IsChecked count verdict told.line.items told.status) }
    ensures right { (held : Option Held) (name text : List ℕ) → IsAskedFrom held name text asked.names asked.query → IfOk result (λ told. (count : ℕ) × (verdict : CheckVerdict) × IsJudgedOn held name text bytes.now count verdict × IsChecked count verdict told.line.items told.status) }
{
    let Asked { mut names, query } = asked;
    let certificates = match read(alloc, bytes, &mut names) {
        Ok(certificates) => certificates,
        Err(fault) => return Err(misread(alloc, file.as_bytes(), fault)),
    };
    let verdict = match verdict_on(alloc, &mut names, &query, certificates.as_slice()) {
        Ok(verdict) => verdict,
        Err(Memory) => return Err(Refusal::Memory),
    };
    match said_of_verdict(alloc, certificates.len() as u64, verdict) {
        Ok(told) => Ok(told),
        Err(Memory) => Err(Refusal::Memory),
    }
}

// The bytes of the certificates of a module.
fn bytes_of<F: Folder>(alloc: Global, file: &str, folder: &mut F) -> Result<Vec<u8>, Refusal>
    ensures looked { Looked F.read_faults F.misses F.overs F.write_faults F.held folder.old folder.new (refusal_of result) }
    ensures nowhere { IfErr result (IfSource (λ line. ⊥)) }
    ensures there { IfOk result (λ bytes. IsTold (F.held folder.old) file.now bytes.items) }
{
    read_file(alloc, folder, file, MAX_IMAGE_BYTES, Limit::Image)
}

// Reads and judges certificates for a program and a query.
fn read_and_judged<F: Folder>(
    alloc: Global,
    name: &str,
    asked: Asked,
    folder: &mut F,
) -> Result<Checked, Refusal>
    ensures looked { Looked F.read_faults F.misses F.overs F.write_faults F.held folder.old folder.new (refusal_of result) }
    ensures nowhere { IfErr result (IfSource (λ line. ⊥)) }
    ensures checked { IfOk result (λ told. (count : ℕ) × (verdict : CheckVerdict) × IsChecked count verdict told.line.items told.status) }
    ensures right { (text : List ℕ) → IsAskedFrom (F.held folder.old) name.now text asked.names asked.query → IfOk result (λ told. IsCheckOf (F.held folder.old) name.now text told.line.items told.status) }
{
    let file = match file_name(alloc, name, ".cert") {
        Ok(file) => file,
        Err(Memory) => return Err(Refusal::Memory),
    };
    match bytes_of(alloc, file.as_str(), folder) {
        Ok(bytes) => judged(alloc, file.as_str(), bytes.as_slice(), asked),
        Err(refusal) => Err(refusal),
    }
}

// Writes what is told.
fn say_checked<K: Sink>(out: &mut K, told: Checked) -> Status
    requires { (count : ℕ) × (verdict : CheckVerdict) × IsChecked count verdict told.line.items told.status }
    ensures grows { Grows (K.written out.old) (K.written out.new) }
    ensures of_search { result ≢ Status.WriteFault → is_of_search result ≡ true }
    ensures write_faults { Counts (result ≡ Status.WriteFault) (K.faults out.old) (K.faults out.new) }
    ensures said { result ≢ Status.WriteFault → (result ≡ told.status) × Appends (K.written out.old) (K.written out.new) told.line.items }
{
    refuse(out, told.line, told.status)
}

// Judges the certificates of a module for a program and a query.
fn check_asked<F: Folder, K: Sink>(
    alloc: Global,
    name: &str,
    asked: Asked,
    folder: &mut F,
    out: &mut K,
) -> Status
    ensures ran { Ran F.read_faults F.misses F.overs K.written folder.old folder.new out.old out.new result }
    ensures keeps { KeepsFiles F.write_faults F.held K.faults folder.old folder.new out.old out.new result }
    ensures nowhere { result ≢ Status.Source }
    ensures checks { (text : List ℕ) → IsAskedFrom (F.held folder.old) name.now text asked.names asked.query → Checks (F.held folder.old) name.now text (K.written out.old) (K.written out.new) result }
{
    match read_and_judged(alloc, name, asked, folder) {
        Ok(told) => say_checked(out, told),
        Err(refusal) => tell(out, refusal),
    }
}

/// Says whether each certificate of `NAME.cert` is an instance of a query with a proof of it from a module and those that it accumulates: `accepted N`
/// for N certificates; `no: certificate I` for the first that is not; or that a term that it needs is too deep. Of a refusal its line is written.
pub fn check_certificates<F: Folder, K: Sink>(
    alloc: Global,
    name: &str,
    query: &str,
    folder: &mut F,
    out: &mut K,
) -> Status
    ensures ran { Ran F.read_faults F.misses F.overs K.written folder.old folder.new out.old out.new result }
    ensures keeps { KeepsFiles F.write_faults F.held K.faults folder.old folder.new out.old out.new result }
    ensures placed { result ≡ Status.Source → WritesPlaced (F.held folder.old) query.now (K.written out.old) (K.written out.new) }
    ensures checks { Checks (F.held folder.old) name.now query.now (K.written out.old) (K.written out.new) result }
{
    match prepare_asked(alloc, name, query, folder) {
        Ok(asked) => check_asked(alloc, name, asked, folder, out),
        Err(refusal) => tell(out, refusal),
    }
}
