// Boxed watchers of two kinds through a run of notes.

use lp_base::Memory;
use lp_watch::{
    Counter, Crowd, Note, Tracer, Watch, each_has_the_notes, each_place_is_noted,
    each_reports_what_it_took, notes_add_up, who_stays,
};

const NOTES: [Note<'static>; 7] = [
    Note::Goal(b"append"),
    Note::Answer(1),
    Note::Back,
    Note::Goal(b"append"),
    Note::Answer(2),
    Note::Back,
    Note::Cut,
];

const COUNTS: &[u8] = b"goals 2, backs 2, answers 2, cuts 1\n";

const FIRST_THREE: &[u8] = b"goal append\nanswer 1\nback\n";

const ALL: &[u8] = b"goal append\nanswer 1\nback\ngoal append\nanswer 2\nback\ncut\n";

#[test]
fn one_of_three_leaves_in_the_middle(rt: HostRuntime) -> Result<(), Memory> {
    let alloc = rt.alloc();
    let mut watchers: Vec<Box<dyn Watch>> = Vec::new(alloc);
    watchers.push(Box::new(alloc, Counter::new())?)?;
    watchers.push(Box::new(alloc, Tracer::first(alloc, 3))?)?;
    watchers.push(Box::new(alloc, Tracer::first(alloc, 20))?)?;

    let mut crowd = Crowd::new(alloc, &mut watchers);
    for note in NOTES {
        crowd.tell(note)?;
    }
    let mut reports = Vec::new(alloc);
    for report in [COUNTS, FIRST_THREE, ALL] {
        reports.extend_from_slice(report)?;
    }
    assert_eq!(rt; crowd.reports()?, reports);
    drop(crowd);

    assert_eq!(rt; watchers.len(), 2);
    for (watcher, report) in watchers.iter().zip([COUNTS, ALL]) {
        assert_eq!(rt; watcher.text(alloc)?.as_slice(), report);
    }
    Ok(())
}

#[test]
fn nobody_reports(rt: HostRuntime) -> Result<(), Memory> {
    let mut nobody: Vec<Counter> = Vec::new(rt.alloc());
    let mut crowd = Crowd::silent(rt.alloc(), &mut nobody);
    crowd.tell(Note::Cut)?;
    assert_eq!(rt; crowd.reports()?.as_slice(), b"".as_slice());
    Ok(())
}

#[test]
fn laws_hold() {
    each_has_the_notes();
    notes_add_up();
    each_place_is_noted();
    each_reports_what_it_took();
    who_stays();
}
