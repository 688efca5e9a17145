ghost use Rattle.std.specs.Prelude.{◌≡◌};
ghost use Rattle.lp_show.specs.Endings.{ending_line, fault_line};

use lp_model::{Ending, Fault};

#[tactic(auto, unfolding(crate::specs::Endings::fault_line))]
fn fault(fault: Fault) -> &'static str
    ensures { result.now ≡ fault_line fault }
{
    match fault {
        Fault::Overflow => "stopped: arithmetic: overflow",
        Fault::ZeroDivisor => "stopped: arithmetic: zero divisor",
        Fault::NotClosed => "stopped: arithmetic: not closed",
    }
}

/// The last line of a run, without its line feed.
#[tactic(auto, unfolding(crate::specs::Endings::ending_line))]
pub fn ending(ending: Ending) -> &'static str
    ensures { result.now ≡ ending_line ending }
{
    match ending {
        Ending::NoMore => "no more answers",
        Ending::NoMoreCut => "no more answers; some were cut away",
        Ending::Enough => "stopped: answers",
        Ending::Steps => "stopped: steps",
        Ending::Flexible => "stopped: flexible goal",
        Ending::Arithmetic(kind) => fault(kind),
        Ending::OpenNot => "stopped: open negation",
        Ending::Deep => "stopped: term too deep",
    }
}
