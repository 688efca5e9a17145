// The names of goals, as a note tells them.
ghost use Rattle.std.specs.Prelude.{◌≡◌, List, [], ◌∷◌, map, OnOk};
ghost use Rattle.lp_watch.specs.Crowd.{places};
ghost use Rattle.lp_model.specs.Skeleton.{GoalNote, named, eigenconstant, variable};
ghost use Rattle.lp_model.specs.declared.program.Declared.{Declared as Named};
ghost use Rattle.lp_plain.specs.Hearing.{Hears, HearsPart};

use itoa::Buffer;
use lp_base::Memory;
use lp_model::Declared;
use lp_standard::{Constant, FIRST_CONSTANT};
use lp_watch::{Crowd, Note, Watch};
use std::alloc::Global;

/// Tells that a goal is taken whose head is this constant.
pub(crate) fn tell_constant<W: Watch>(
    crowd: &mut Crowd<'_, W>,
    constants: &[Declared],
    number: u32,
) -> Result<(), Memory>
    ensures told { OnOk result (Hears constants.now (GoalNote (named number) ∷ []) (places crowd.old.texts.items (map W.seen crowd.old.watchers.now.items)) (places crowd.new.texts.items (map W.seen crowd.new.watchers.now.items))) }
    ensures part { HearsPart constants.now (GoalNote (named number) ∷ []) (places crowd.old.texts.items (map W.seen crowd.old.watchers.now.items)) (places crowd.new.texts.items (map W.seen crowd.new.watchers.now.items)) }
    ensures same { crowd.new.watchers.ghost_name ≡ crowd.old.watchers.ghost_name }
{
    if let Some(constant) = Constant::from_number(number) {
        return crowd.tell(Note::Goal(constant.name()));
    }
    let place = number.saturating_sub(FIRST_CONSTANT) as usize;
    match constants.get(place) {
        Some(declared) => crowd.tell(Note::Goal(declared.shown.as_slice())),
        None => tell_variable(crowd),
    }
}

/// Tells that a goal is taken whose head is the eigenconstant of this level.
pub(crate) fn tell_eigen<W: Watch>(
    alloc: Global,
    crowd: &mut Crowd<'_, W>,
    level: u64,
) -> Result<(), Memory>
    ensures told { OnOk result ((cs : List Named) → Hears cs (GoalNote (eigenconstant level) ∷ []) (places crowd.old.texts.items (map W.seen crowd.old.watchers.now.items)) (places crowd.new.texts.items (map W.seen crowd.new.watchers.now.items))) }
    ensures part { (cs : List Named) → HearsPart cs (GoalNote (eigenconstant level) ∷ []) (places crowd.old.texts.items (map W.seen crowd.old.watchers.now.items)) (places crowd.new.texts.items (map W.seen crowd.new.watchers.now.items)) }
    ensures same { crowd.new.watchers.ghost_name ≡ crowd.old.watchers.ghost_name }
{
    let mut name = Vec::new(alloc);
    let mut buffer = Buffer::new();
    name.push(b'#')?;
    name.extend_from_slice(buffer.format(level).as_bytes())?;
    crowd.tell(Note::Goal(name.as_slice()))
}

/// Tells that a goal is taken whose head has no name.
pub(crate) fn tell_variable<W: Watch>(crowd: &mut Crowd<'_, W>) -> Result<(), Memory>
    ensures told { OnOk result ((cs : List Named) → Hears cs (GoalNote variable ∷ []) (places crowd.old.texts.items (map W.seen crowd.old.watchers.now.items)) (places crowd.new.texts.items (map W.seen crowd.new.watchers.now.items))) }
    ensures part { (cs : List Named) → HearsPart cs (GoalNote variable ∷ []) (places crowd.old.texts.items (map W.seen crowd.old.watchers.now.items)) (places crowd.new.texts.items (map W.seen crowd.new.watchers.now.items)) }
    ensures same { crowd.new.watchers.ghost_name ≡ crowd.old.watchers.ghost_name }
{
    crowd.tell(Note::Goal(b"_"))
}
