ghost use Rattle.std.specs.Prelude.{◌≡◌, ◌<◌, ◌*◌, length, OnOk};
ghost use Rattle.lp_term.specs.Nodes.{tree};
ghost use Rattle.lp_term.specs.Walk.{size};
ghost use Rattle.lp_show.specs.Places.{placed};
ghost use Rattle.lp_show.specs.Scene.{Scene, piece_at};
ghost use Rattle.lp_show.specs.Tasks.{Adds};

use crate::place::Place;
use lp_base::Memory;
use lp_term::TermId;

/// What is still to be written: a term under so many binders, where it stands, or bytes.
#[derive(Clone, Copy)]
pub(crate) enum Task<'a> {
    Show(TermId, u64, Place),
    Bytes(&'a [u8]),
}

/// Puts bytes before what is still to be written.
pub(crate) fn put_bytes<'a>(bytes: &'a [u8], tasks: &mut Vec<Task<'a>>) -> Result<(), Memory>
    ensures { OnOk result ((scene : Scene) → Adds scene tasks.old.items tasks.new.items bytes.now 1) }
{
    tasks.push(Task::Bytes(bytes))?;
    Ok(())
}

/// Puts a term before what is still to be written.
pub(crate) fn put_show(
    term: TermId,
    depth: u64,
    place: Place,
    tasks: &mut Vec<Task<'_>>,
) -> Result<(), Memory>
    ensures { OnOk result ((scene : Scene) → term.0 < length scene.nodes.terms → Adds scene tasks.old.items tasks.new.items (placed place (piece_at scene depth term.0)) (6 * size (tree scene.nodes term.0))) }
{
    tasks.push(Task::Show(term, depth, place))?;
    Ok(())
}
