// Laws of what many notes do.
ghost use Rattle.std.specs.Prelude.{◌≡◌, ◌++◌, ◌∷◌, [], ◌-◌, List, length, map, filter, option_map};
ghost use Rattle.std.specs.List.{flat_map};
ghost use Rattle.lp_watch.specs.Crowd.{Place, crowd_after, here, reports, still_here};
ghost use Rattle.lp_watch.specs.Notes.{Event};
ghost use Rattle.lp_watch.specs.Seen.{Seen};
ghost use Rattle.lp_watch.specs.Reports.{report_of};
ghost use Rattle.lp_watch.specs.Told.{after_all, count_all, crowd_after_all, seen_after_all, stays_for, taken};

/// Notes that are told one after the other add up: one more note at the end is one more step.
pub fn notes_add_up()
    ensures { (notes : List Event) → (e : Event) → (places : List Place) → crowd_after_all (notes ++ e ∷ []) places ≡ crowd_after e (crowd_after_all notes places) }
{}

/// After many notes each place is as they leave it, whatever stands at the others.
pub fn each_place_is_noted()
    ensures { (notes : List Event) → (places : List Place) → crowd_after_all notes places ≡ map (after_all notes) places }
{}

/// After many notes exactly those watchers are there that were to stay for so many, in the old
/// order, each with all the notes.
pub fn who_stays()
    ensures { (notes : List Event) → (seen : List Seen)
        → still_here (crowd_after_all notes (map here seen)) ≡ map (seen_after_all notes) (filter (λ s. stays_for (length notes) s.left) seen) }
{}

/// The reports after many notes are those of the watchers in the old order, each with the notes
/// that it takes.
pub fn each_reports_what_it_took()
    ensures { (notes : List Event) → (seen : List Seen)
        → reports (crowd_after_all notes (map here seen)) ≡ flat_map (λ s. report_of (seen_after_all (taken notes s.left) s)) seen }
{}

/// A watcher that took many notes has exactly their tally, tells exactly them behind what it
/// told, and takes so many fewer.
pub fn each_has_the_notes()
    ensures tally { (notes : List Event) → (s : Seen) → (seen_after_all notes s).tally ≡ count_all s.tally notes }
    ensures told { (notes : List Event) → (s : Seen) → (seen_after_all notes s).told ≡ option_map (λ told. told ++ notes) s.told }
    ensures left { (notes : List Event) → (s : Seen) → (seen_after_all notes s).left ≡ option_map (λ n. n - length notes) s.left }
{}
