//! What is said beside the output where something was wrong with a scenario, or with a journal that can't be drawn or gone on
//! with, in words for people. Where there is no memory for the words, nothing is said.

use dine_chart::{MOST_LANES, MOST_PLACES};
use dine_lines::{Listener, Remark, error_remark, tell};
use dine_scenario::{ScenarioFault, push_scenario_fault};
use std::alloc::{AllocError, Global};

/// Tells what is wrong with a text that is no scenario.
pub fn explain_scenario<L: Listener>(
    alloc: Global,
    text: &[u8],
    fault: ScenarioFault,
    listener: &mut L,
) {
    if let Ok(remark) = scenario_remark(alloc, text, fault) {
        listener.tell(&remark);
    }
}

// What is said of a text that is no scenario.
fn scenario_remark(alloc: Global, text: &[u8], fault: ScenarioFault) -> Result<Remark, AllocError> {
    let mut remark = error_remark(alloc)?;
    push_scenario_fault(alloc, &mut remark, text, fault)?;
    Ok(remark)
}

/// Tells that the last line of a journal with so many entries lacks its line feed, and is left out. The text is its front.
pub fn explain_torn_line<L: Listener>(alloc: Global, text: &[u8], entries: u64, listener: &mut L) {
    if let Ok(remark) = torn_remark(alloc, text, entries) {
        listener.tell(&remark);
    }
}

/// Tells that a journal is of an older version than is written, and why nobody goes on with it.
pub fn explain_version<L: Listener>(alloc: Global, listener: &mut L) {
    let _ = tell(
        alloc,
        b"error: line 0: the journal is of version 1, and what goes on with it would be of version 2",
        listener,
    );
}

/// Tells that a picture can't have so many lines of a journal.
pub fn explain_places<L: Listener>(alloc: Global, places: u64, listener: &mut L) {
    let _ = if places == 0 {
        tell(
            alloc,
            b"error: --from and --to choose no line that the journal has",
            listener,
        )
    } else {
        tell_too_many(alloc, places, b"lines", MOST_PLACES, listener)
    };
}

/// Tells that a picture can't have so many lanes.
pub fn explain_lanes<L: Listener>(alloc: Global, lanes: u64, listener: &mut L) {
    let _ = tell_too_many(alloc, lanes, b"tasks", MOST_LANES as u64, listener);
}

// Tells that there are too many of something, and what can be done.
fn tell_too_many<L: Listener>(
    alloc: Global,
    number: u64,
    word: &[u8],
    most: u64,
    listener: &mut L,
) -> Result<(), AllocError> {
    let mut remark = error_remark(alloc)?;
    push_too_many(&mut remark, number, word, most)?;
    listener.tell(&remark);
    Ok(())
}

// Appends that there are too many of something, and what can be done.
fn push_too_many(
    remark: &mut Remark,
    number: u64,
    word: &[u8],
    most: u64,
) -> Result<(), AllocError> {
    remark.push_number(number)?;
    remark.push(b" ")?;
    remark.push(word)?;
    remark.push(b" are to be drawn, and a picture has at most ")?;
    remark.push_number(most)?;
    remark.push(b": --from and --to choose fewer lines, and --trace takes any number")
}

// What is said of a journal whose last line, behind so many entries, lacks its line feed.
fn torn_remark(alloc: Global, text: &[u8], entries: u64) -> Result<Remark, AllocError> {
    let mut remark = Remark::new(alloc);
    push_torn(&mut remark, text, entries)?;
    Ok(remark)
}

// Appends what is said of such a journal.
fn push_torn(remark: &mut Remark, text: &[u8], entries: u64) -> Result<(), AllocError> {
    remark.push(b"note: line ")?;
    remark.push_number(entries.saturating_add(1))?;
    remark.push(b" of the journal lacks its line feed, and is left out: ")?;
    remark.push_quoted(text)
}
