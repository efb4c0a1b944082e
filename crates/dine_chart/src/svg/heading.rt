//! The heading: how many calls, tasks and meals there are, and which lines are drawn. On `Err` a part may have been
//! appended.

ghost use Rattle.std.specs.Prelude.{◌≡◌, ◌++◌, codes, count_by, OnOk, OnErr};
ghost use mathlib.Core.List.{IsPrefix};
ghost use Rattle.dine_chart.specs.Pieces.{counted};
ghost use Rattle.dine_chart.specs.Svg.{counts_text, heading_text, is_meal_mark, lines_drawn};

use crate::fixed::{FixedText, push_fixed};
use crate::picture::Picture;
use crate::piece::{Pushed, push, push_counted};
use dine_bars::{BarKind, Mark, Window};
use dine_words::push_numbered;

/// Appends the heading.
#[tactic(auto, unfolding(crate::specs::Svg::heading_text))]
pub(crate) fn push_heading(out: &mut Vec<u8>, picture: &Picture) -> Pushed
    ensures ok { OnOk result (out.new.items ≡ out.old.items ++ heading_text picture.now) }
    ensures err { OnErr result (IsPrefix out.old.items out.new.items) }
{
    push_fixed(out, FixedText::HeadingOpening)?;
    push_counts(out, picture)?;
    push_fixed(out, FixedText::HeadingMiddle)?;
    push_lines_drawn(out, picture.window)?;
    push_fixed(out, FixedText::HeadingEnd)
}

// Appends which lines of the journal are drawn.
#[tactic(auto, unfolding(crate::specs::Svg::lines_drawn))]
fn push_lines_drawn(out: &mut Vec<u8>, window: Window) -> Pushed
    ensures ok { OnOk result (out.new.items ≡ out.old.items ++ lines_drawn window) }
    ensures err { OnErr result (IsPrefix out.old.items out.new.items) }
{
    push_numbered(out, b"lines ", window.from)?;
    push_numbered(out, b" to ", window.to.saturating_sub(1))
}

// Appends how many calls, tasks and meals there are.
#[tactic(auto, unfolding(crate::specs::Svg::counts_text))]
fn push_counts(out: &mut Vec<u8>, picture: &Picture) -> Pushed
    ensures ok { OnOk result (out.new.items ≡ out.old.items ++ counts_text picture.now) }
    ensures err { OnErr result (IsPrefix out.old.items out.new.items) }
{
    push_counted(out, picture.entries, b" call")?;
    push_more(out, picture.lanes.len() as u64, b" task")?;
    push_more(out, meals_among(&picture.marks), b" meal")
}

// Appends a comma, and how many there are of something.
fn push_more(out: &mut Vec<u8>, number: u64, word: &[u8]) -> Pushed
    ensures ok { OnOk result (out.new.items
        ≡ out.old.items ++ (codes ", " ++ counted number word.now)) }
    ensures err { OnErr result (IsPrefix out.old.items out.new.items) }
{
    push(out, b", ")?;
    push_counted(out, number, word)
}

// How many meals there are among marks.
fn meals_among(marks: &[Mark]) -> u64
    ensures { result ≡ count_by is_meal_mark marks.now }
{
    marks.iter().filter(|mark| is_meal(**mark)).count() as u64
}

// Whether a mark is a meal.
fn is_meal(mark: Mark) -> bool
    ensures { result ≡ is_meal_mark mark }
{
    match mark {
        Mark::Bar(bar) => matches!(bar.kind, BarKind::Meal),
        _ => false,
    }
}
