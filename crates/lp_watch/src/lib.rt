//! Notes of a search, and watchers that take them.
#![tactic(auto)]

// The watcher that counts.
mod counter;
// All watchers of a run.
mod crowd;
// What many notes do.
mod laws;
// The watcher for tests that leaves.
mod leaver;
// The notes, and what is answered to one.
mod note;
// The watcher for tests that has no memory.
mod refuser;
// How many notes of each kind.
mod tally;
// The watcher that keeps its notes.
mod tracer;
// A watcher as the search sees it.
mod watch;

pub use counter::Counter;
pub use crowd::{Crowd, Lent};
pub use laws::{
    each_has_the_notes, each_place_is_noted, each_reports_what_it_took, notes_add_up, who_stays,
};
pub use leaver::Leaver;
pub use note::{Go, Note};
pub use refuser::Refuser;
pub use tracer::Tracer;
pub use watch::Watch;
