// How the search goes on, and what is counted on its way.
ghost use Rattle.std.specs.Prelude.{◌≡◌, ◌+◌, ◌<◌, ◌≤◌, true, false};
ghost use Rattle.lp_plain.specs.Apart.{apart, one_apart};
ghost use Rattle.lp_plain.specs.Assuming.{KeepsAssumed};
ghost use Rattle.lp_plain.specs.Cuts.{one_step, stepped};
ghost use Rattle.lp_plain.specs.Entries.{KeepsGoals};
ghost use Rattle.lp_plain.specs.Keeping.{KeepsKnown};
ghost use Rattle.lp_plain.specs.Moving.{turn_for};

use crate::machine::Machine;
use crate::unified::Unified;
use lp_base::RUN_LIMIT;
use lp_model::Ending;

/// How the search goes on: with the branch at work, with the newest alternative, with the answer that the branch is, or
/// not at all.
#[derive(Clone, Copy)]
pub(crate) enum Turn {
    On,
    Back,
    Answered,
    Ended(Ending),
}

/// How the search goes on after a unification.
pub(crate) fn turn_of(unified: Unified) -> Turn
    ensures { result ≡ turn_for unified }
{
    match unified {
        Unified::Fits => Turn::On,
        Unified::Fails => Turn::Back,
        Unified::Deep => Turn::Ended(Ending::Deep),
    }
}

/// Counts a goal that is taken apart. Whether it may be.
pub(crate) fn take_apart(machine: &mut Machine) -> bool
    ensures taken { result ≡ true → (machine.old.counts.row < 1000000) × (machine.new.counts ≡ one_apart machine.old.counts) }
    ensures apart { result ≡ true → machine.new ≡ apart machine.old }
    ensures spent { result ≡ false → (machine.new ≡ machine.old) × (1000000 ≤ machine.old.counts.row) }
{
    if machine.counts.row >= RUN_LIMIT {
        return false;
    }
    machine.counts.row += 1;
    true
}

/// Counts a step. Whether it may be taken.
pub(crate) fn take_step(machine: &mut Machine) -> bool
    ensures taken { result ≡ true → machine.new.counts.steps ≡ machine.old.counts.steps + 1 }
    ensures spent { result ≡ false → (machine.new ≡ machine.old) × (machine.old.counts.limit ≤ machine.old.counts.steps) }
    ensures lost { machine.new.counts.lost ≡ machine.old.counts.lost }
    ensures choices { machine.new.choices ≡ machine.old.choices }
    ensures denied { machine.new.denied ≡ machine.old.denied }
    ensures known { KeepsKnown machine.old machine.new }
    ensures counts { result ≡ true → machine.new.counts ≡ one_step machine.old.counts }
    ensures branch { machine.new.branch ≡ machine.old.branch }
    ensures goals { KeepsGoals machine.old machine.new }
    ensures there { result ≡ true → machine.old.counts.steps < machine.old.counts.limit }
    ensures frames { machine.new.frames ≡ machine.old.frames }
    ensures assumed { KeepsAssumed machine.old machine.new }
    ensures stepped { result ≡ true → machine.new ≡ stepped machine.old }
{
    if machine.counts.steps >= machine.counts.limit {
        return false;
    }
    machine.counts.steps += 1;
    machine.counts.row = 0;
    true
}
