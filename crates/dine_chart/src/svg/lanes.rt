//! The lanes: the ground of each, the line of its task, its name, and what its bars come to. On `Err` a part may have
//! been appended.

ghost use Rattle.std.specs.Prelude.{◌≡◌, ◌++◌, codes, OnOk, OnErr};
ghost use mathlib.Core.List.{IsPrefix};
ghost use Rattle.dine_chart.specs.Picture.{HasFewLanes, IsLaneRow};
ghost use Rattle.dine_chart.specs.Pieces.{counted};
ghost use Rattle.dine_chart.specs.Svg.{end_of, ground_text, lane_text, lanes_text, level_text, life_text, naming_text, totals_at, totals_text, waits_text};

use crate::elements::push_name;
use crate::fixed::{FixedText, push_fixed};
use crate::picture::{Picture, y_of};
use crate::piece::{Pushed, push, push_counted, push_point};
use dine_bars::{Lane, Window};
use dine_words::{Task, push_number, push_numbered};

/// Appends the lanes.
pub(crate) fn push_lanes(out: &mut Vec<u8>, picture: &Picture) -> Pushed
    requires { HasFewLanes picture.now }
    ensures ok { OnOk result (out.new.items ≡ out.old.items
        ++ lanes_text picture.now picture.now.lanes.items) }
    ensures err { OnErr result (IsPrefix out.old.items out.new.items) }
{
    for lane in &picture.lanes {
        push_lane(out, picture, *lane)?;
    }
    Ok(())
}

// Appends a lane.
#[tactic(auto, unfolding(crate::specs::Svg::lane_in))]
fn push_lane(out: &mut Vec<u8>, picture: &Picture, lane: Lane) -> Pushed
    requires { HasFewLanes picture.now }
    ensures ok { OnOk result (out.new.items ≡ out.old.items ++ lane_text picture.now lane) }
    ensures err { OnErr result (IsPrefix out.old.items out.new.items) }
{
    let Some(row) = picture.row_of(lane.task) else {
        return Ok(());
    };
    push_ground(out, row)?;
    push_life(out, picture, row, lane)?;
    push_naming(out, picture, row, lane.task)?;
    push_totals(out, picture, row, lane)
}

// Appends the ground of a lane.
#[tactic(auto, unfolding(crate::specs::Svg::ground_text))]
fn push_ground(out: &mut Vec<u8>, row: u64) -> Pushed
    requires { IsLaneRow row }
    ensures ok { OnOk result (out.new.items ≡ out.old.items ++ ground_text row) }
    ensures err { OnErr result (IsPrefix out.old.items out.new.items) }
{
    push_numbered(out, b"<rect class=\"z", row % 2)?;
    push_numbered(out, b"\" y=\"", y_of(row))?;
    push_fixed(out, FixedText::GroundEnd)
}

// Appends the line of a task.
fn push_life(out: &mut Vec<u8>, picture: &Picture, row: u64, lane: Lane) -> Pushed
    requires { IsLaneRow row }
    ensures ok { OnOk result (out.new.items ≡ out.old.items ++ life_text picture.now row lane) }
    ensures err { OnErr result (IsPrefix out.old.items out.new.items) }
{
    let from = picture.x_of(lane.joined);
    let to = picture.x_of(end_of(picture.window, lane));
    push_level(out, from, y_of(row) + 17, to)
}

// Where the line of a task ends.
fn end_of(window: Window, lane: Lane) -> u64
    ensures { result ≡ end_of window lane }
{
    lane.left.unwrap_or(window.to)
}

// Appends a level line.
#[tactic(auto, unfolding(crate::specs::Svg::level_text))]
fn push_level(out: &mut Vec<u8>, from: u64, y: u64, to: u64) -> Pushed
    ensures ok { OnOk result (out.new.items ≡ out.old.items ++ level_text from y to) }
    ensures err { OnErr result (IsPrefix out.old.items out.new.items) }
{
    push_point(out, b"<path class=\"b\" d=\"M", from, y)?;
    push_numbered(out, b"H", to)
}

// Appends the name of a task, to the left of its lane.
#[tactic(auto, unfolding(crate::specs::Svg::naming_text))]
fn push_naming(out: &mut Vec<u8>, picture: &Picture, row: u64, task: Task) -> Pushed
    requires { IsLaneRow row }
    ensures ok { OnOk result (out.new.items ≡ out.old.items ++ naming_text picture.now row task) }
    ensures err { OnErr result (IsPrefix out.old.items out.new.items) }
{
    push_fixed(out, FixedText::NamingOpening)?;
    push_number(out, y_of(row) + 21)?;
    push(out, b"\">")?;
    push_name(out, picture, task)
}

// Appends what the bars of a lane come to, to the right of it.
#[tactic(auto, unfolding(crate::specs::Svg::totals_text))]
fn push_totals(out: &mut Vec<u8>, picture: &Picture, row: u64, lane: Lane) -> Pushed
    requires { IsLaneRow row }
    ensures ok { OnOk result (out.new.items ≡ out.old.items ++ totals_text picture.now row lane) }
    ensures err { OnErr result (IsPrefix out.old.items out.new.items) }
{
    let x = picture.x_of(picture.window.to) + 14;
    push_totals_at(out, x, y_of(row) + 21)?;
    push_meals(out, lane.meals)?;
    push_waits(out, lane.kept_waiting)
}

// Appends where the totals stand.
#[tactic(auto, unfolding(crate::specs::Svg::totals_at))]
fn push_totals_at(out: &mut Vec<u8>, x: u64, y: u64) -> Pushed
    ensures ok { OnOk result (out.new.items ≡ out.old.items ++ totals_at x y) }
    ensures err { OnErr result (IsPrefix out.old.items out.new.items) }
{
    push_fixed(out, FixedText::TotalsOpening)?;
    push_number(out, x)?;
    push_numbered(out, b"\" y=\"", y)
}

// Appends at how many places a task was kept waiting.
#[tactic(auto, unfolding(crate::specs::Svg::waits_text))]
fn push_waits(out: &mut Vec<u8>, places: u64) -> Pushed
    ensures ok { OnOk result (out.new.items ≡ out.old.items ++ waits_text places) }
    ensures err { OnErr result (IsPrefix out.old.items out.new.items) }
{
    push_numbered(out, b", waits ", places)?;
    push(out, b"</text>\n")
}

// Appends how many meals a task began.
fn push_meals(out: &mut Vec<u8>, meals: u64) -> Pushed
    ensures ok { OnOk result (out.new.items ≡ out.old.items
        ++ (codes "\">" ++ counted meals (codes " meal"))) }
    ensures err { OnErr result (IsPrefix out.old.items out.new.items) }
{
    push(out, b"\">")?;
    push_counted(out, meals, b" meal")
}
