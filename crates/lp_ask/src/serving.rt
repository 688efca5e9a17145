// Many queries of one file.
ghost use Rattle.std.specs.Prelude.{◌≡◌, ◌≢◌, true, IfOk};
ghost use Rattle.lp_base.specs.Counts.{Counts};
ghost use Rattle.lp_code.specs.Length.{AllFit};
ghost use Rattle.lp_lines.specs.Ends.{Grows, KeepsFiles, Ran};
ghost use Rattle.lp_lines.specs.Lines.{is_of_search};
ghost use Rattle.lp_lines.specs.Looked.{Looked, refusal_of};
ghost use Rattle.lp_ask.specs.Ended.{EndsSo};

use crate::answering::Answering;
use lp_base::{Folder, Limit, MAX_FILE_BYTES, Sink, Status};
use lp_files::open_image;
use lp_lines::{Refusal, file_name, read_file, say_memory, tell};
use lp_query::Asker;
use lp_session::{SessionRefusal, Summary, serve};
use lp_verify::Verified;
use std::alloc::Global;

// The image of a module, and the queries that are asked of it.
#[derive(Drop)]
struct Opened {
    image: Verified,
    lines: Vec<u8>,
}

fn open<F: Folder>(alloc: Global, name: &str, folder: &mut F) -> Result<Opened, Refusal>
    ensures looked { Looked F.read_faults F.misses F.overs F.write_faults F.held folder.old folder.new (refusal_of result) }
    ensures fit { IfOk result (λ opened. AllFit opened.image.image.code.records.items) }
{
    let image = open_image(alloc, folder, name)?;
    let file = file_name(alloc, name, ".qry")?;
    let lines = read_file(alloc, folder, file.as_str(), MAX_FILE_BYTES, Limit::File)?;
    Ok(Opened { image, lines })
}

// How the run of a session ends.
fn end_of<K: Sink>(told: Result<Summary, SessionRefusal>, out: &mut K) -> Status
    ensures grows { Grows (K.written out.old) (K.written out.new) }
    ensures ends { EndsSo told (K.faults out.old) (K.faults out.new) result }
{
    match told {
        Ok(_) => Status::Done,
        Err(SessionRefusal::Write) => Status::WriteFault,
        Err(SessionRefusal::Memory) => say_memory(out),
    }
}

// Replies to each line.
fn reply<K: Sink>(alloc: Global, opened: &Opened, steps: u64, answers: u64, out: &mut K) -> Status
    requires { AllFit opened.now.image.image.code.records.items }
    ensures grows { Grows (K.written out.old) (K.written out.new) }
    ensures of_search { result ≢ Status.WriteFault → is_of_search result ≡ true }
    ensures write_faults { Counts (result ≡ Status.WriteFault) (K.faults out.old) (K.faults out.new) }
{
    let asker = match Asker::new(alloc, &opened.image) {
        Ok(asker) => asker,
        Err(_) => return say_memory(out),
    };
    let mut answering = Answering {
        asker,
        steps,
        answers,
    };
    let told = serve(alloc, &mut answering, opened.lines.as_slice(), out);
    end_of(told, out)
}

/// Replies to each line of `NAME.qry`, in order, as a query on the image `NAME.lp`, within these limits for each. Of a refusal its line is written: of
/// the image, then of the file; a query that is refused ends nothing.
pub fn session<F: Folder, K: Sink>(
    alloc: Global,
    name: &str,
    steps: u64,
    answers: u64,
    folder: &mut F,
    out: &mut K,
) -> Status
    ensures ran { Ran F.read_faults F.misses F.overs K.written folder.old folder.new out.old out.new result }
    ensures keeps { KeepsFiles F.write_faults F.held K.faults folder.old folder.new out.old out.new result }
{
    match open(alloc, name, folder) {
        Ok(opened) => reply(alloc, &opened, steps, answers, out),
        Err(refusal) => tell(out, refusal),
    }
}
