//! What of a history is drawn in a window.

ghost use Rattle.std.specs.Prelude.{◌≡◌, ◌++◌, ◌∷◌, [], ◌<◌, ◌-◌, ◌^◌, IfOk, OnOk, length};
ghost use Rattle.std.specs.List.{filter};
ghost use Rattle.dine_bars.specs.Marks.{drawn_after, marks_at, opening_drawn};
ghost use Rattle.dine_chart.specs.Gather.{IsPictureOf, lanes_in, marks_in, stays_into, touches};

use crate::picture::Picture;
use dine_bars::{Drawing, Lane, Mark, Window, lanes};
use dine_journal::Journal;
use dine_lines::Label;
use dine_words::Entry;
use std::alloc::{AllocError, Global};

impl Picture {
    /// The picture of the places of a journal that a window has. Marks outside the window are not kept. An error is want of
    /// memory.
    pub fn of(
        alloc: Global,
        journal: &Journal,
        window: Window,
        labels: Vec<Label>,
    ) -> Result<Picture, AllocError>
        ensures { IfOk result (λ picture. IsPictureOf journal.now window labels.items picture) }
    {
        let marks = marks_in(alloc, journal, window)?;
        let lanes = lanes_in(alloc, &marks, window)?;
        Ok(Picture {
            entries: journal.len(),
            window,
            labels,
            lanes,
            marks,
        })
    }
}

// The marks of a journal of which something is drawn.
fn marks_in(alloc: Global, journal: &Journal, window: Window) -> Result<Vec<Mark>, AllocError>
    ensures { IfOk result (λ marks. marks.items ≡ marks_in window journal.now) }
{
    let mut kept = Vec::new(alloc);
    keep_in(alloc, journal, window, &mut kept)?;
    Ok(kept)
}

// Puts the marks of a journal of which something is drawn into an empty vector.
fn keep_in(
    alloc: Global,
    journal: &Journal,
    window: Window,
    kept: &mut Vec<Mark>,
) -> Result<(), AllocError>
    requires { kept.old.items ≡ [] }
    ensures { OnOk result (kept.new.items ≡ marks_in window journal.now) }
{
    // No list is that long, but no contract of a journal says so.
    if journal.len() == u64::MAX {
        return Err(AllocError);
    }
    let mut drawing = Drawing::new(alloc, journal.limits())?;
    let mut ended = Vec::new(alloc);
    keep_of_all(alloc, journal, window, &mut drawing, &mut ended, kept)
}

// Takes in all entries of a history, from its first on, and keeps the marks of which something is drawn. `ended` is room
// for the marks of an entry.
fn keep_of_all(
    alloc: Global,
    journal: &Journal,
    window: Window,
    drawing: &mut Drawing,
    ended: &mut Vec<Mark>,
    kept: &mut Vec<Mark>,
) -> Result<(), AllocError>
    requires few { length journal.now.entries < 2 ^ 64 - 1 }
    requires opened { drawing.old ≡ opening_drawn journal.now.limits }
    requires none_ended { ended.old.items ≡ [] }
    requires none_kept { kept.old.items ≡ [] }
    ensures { OnOk result (kept.new.items ≡ marks_in window journal.now) }
{
    for place in 0..journal.len() {
        if let Some(entry) = journal.entry(place) {
            keep_of_entry(alloc, drawing, entry, window, ended, kept)?;
        }
    }
    drawing.end(ended)?;
    keep_drawn(kept, ended, window)
}

// Takes in an entry, and appends those of its marks of which something is drawn. `ended` is room for all of them, empty
// before and after.
fn keep_of_entry(
    alloc: Global,
    drawing: &mut Drawing,
    entry: Entry,
    window: Window,
    ended: &mut Vec<Mark>,
    kept: &mut Vec<Mark>,
) -> Result<(), AllocError>
    requires place { drawing.old.place < 2 ^ 64 - 1 }
    requires empty { ended.old.items ≡ [] }
    ensures drawn { OnOk result (drawing.new ≡ drawn_after drawing.old entry) }
    ensures kept { OnOk result (kept.new.items
        ≡ kept.old.items ++ filter (touches window) (marks_at drawing.old entry)) }
    ensures empty { OnOk result (ended.new.items ≡ []) }
{
    drawing.take_in(alloc, entry, ended)?;
    keep_drawn(kept, ended, window)?;
    ended.clear();
    Ok(())
}

// Appends those of the marks of which something is drawn.
fn keep_drawn(kept: &mut Vec<Mark>, marks: &[Mark], window: Window) -> Result<(), AllocError>
    ensures { OnOk result (kept.new.items ≡ kept.old.items ++ filter (touches window) marks.now) }
{
    for mark in marks {
        keep_if_drawn(kept, *mark, window)?;
    }
    Ok(())
}

// Appends a mark, if something of it is drawn.
fn keep_if_drawn(kept: &mut Vec<Mark>, mark: Mark, window: Window) -> Result<(), AllocError>
    ensures { OnOk result (kept.new.items ≡ kept.old.items ++ filter (touches window) (mark ∷ [])) }
{
    if touches(window, mark) {
        kept.push(mark)?;
    }
    Ok(())
}

/// Whether something of a mark is drawn in a window. Who joined or left before it is kept too, for the lanes are made of
/// these.
pub(crate) fn touches(window: Window, mark: Mark) -> bool
    ensures { result ≡ touches window mark }
{
    match mark {
        Mark::Bar(bar) => bar.from < window.to && window.from < bar.to,
        Mark::Joined(at) | Mark::Left(at) => at.place < window.to,
        Mark::Declared(at) | Mark::Separated(at) => window.has(at.place),
        Mark::Refused(call) => window.has(call.place),
    }
}

// The lanes of the marks that are seen in a window.
fn lanes_in(alloc: Global, marks: &[Mark], window: Window) -> Result<Vec<Lane>, AllocError>
    ensures { IfOk result (λ lanes. lanes.items ≡ lanes_in window marks.now) }
{
    let all = lanes(alloc, marks)?;
    let mut seen = Vec::new(alloc);
    for lane in &all {
        keep_if_seen(&mut seen, *lane, window)?;
    }
    Ok(seen)
}

// Appends a lane, if it is seen.
fn keep_if_seen(seen: &mut Vec<Lane>, lane: Lane, window: Window) -> Result<(), AllocError>
    ensures { OnOk result (seen.new.items
        ≡ seen.old.items ++ filter (λ lane. stays_into window lane.left) (lane ∷ [])) }
{
    if stays_into(window, lane) {
        seen.push(lane)?;
    }
    Ok(())
}

// Whether a task was present at a place of the window.
fn stays_into(window: Window, lane: Lane) -> bool
    ensures { result ≡ stays_into window lane.left }
{
    match lane.left {
        Some(left) => window.from < left,
        None => true,
    }
}
