//! What a picture is made of, and where in it a task and a place are found.

ghost use Rattle.std.specs.Prelude.{◌≡◌, ◌<◌, ◌≤◌, ◌+◌, ◌*◌, ◌/◌, length, option_map, IfSome};
ghost use Rattle.dine_bars.specs.Marks.{named_first};
ghost use Rattle.dine_chart.specs.Picture.{HasFewLanes, IsLaneRow, given_in, given_to, most_lanes, row_from, row_of, row_of_any, window_in, x_of, y_of};

use dine_bars::{Lane, Mark, RefusedCall, Window};
use dine_lines::Label;
use dine_words::Task;

/// The most lanes that a picture has.
pub const MOST_LANES: usize = 128;

/// The most places that a picture has, so that each is at least one unit wide.
pub const MOST_PLACES: u64 = 1000;

/// Where the places begin: to the left of it stand the names.
pub const LEFT: u64 = 130;

/// How wide all places are together.
pub const BREADTH: u64 = 1000;

/// A picture of few places gives each as much room as one of so many.
pub const FEW_PLACES: u64 = 20;

/// Where the lanes begin: above stand the heading and the numbers of the places.
pub const TOP: u64 = 66;

/// How high a lane is.
pub const LANE: u64 = 34;

/// All that is drawn. It is gathered from a journal in `gather.rt`. Its text is written in `picture_form.rt`: as an SVG in
/// `svg.rt`, as a page in `page.rt`. None is read.
#[derive(Drop)]
pub struct Picture {
    /// How many entries the journal has.
    pub entries: u64,
    /// The places that are drawn.
    pub window: Window,
    pub labels: Vec<Label>,
    /// From the top to the bottom.
    pub lanes: Vec<Lane>,
    pub marks: Vec<Mark>,
}

impl Picture {
    /// The text that is given for a task.
    pub(crate) fn given_to(&self, task: Task) -> Option<&[u8]>
        ensures { option_map (λ text. text.now) result ≡ given_to self.now task }
    {
        given_in(&self.labels, task)
    }

    /// The number of a task's lane, from the top.
    pub(crate) fn row_of(&self, task: Task) -> Option<u64>
        requires { HasFewLanes self.now }
        ensures row { result ≡ row_of self.now task }
        ensures bound { IfSome result IsLaneRow }
    {
        row_in(&self.lanes, task)
    }

    /// The number of the lane of the task that a refused call names first.
    pub(crate) fn row_of_refused(&self, mark: RefusedCall) -> Option<u64>
        requires { HasFewLanes self.now }
        ensures row { result ≡ row_of_any self.now (named_first mark.call) }
        ensures bound { IfSome result IsLaneRow }
    {
        match mark.task() {
            Some(task) => self.row_of(task),
            None => None,
        }
    }

    /// Where a place stands, from the left. One before the window stands at its beginning, and one behind it at its end.
    pub(crate) fn x_of(&self, place: u64) -> u64
        ensures x { result ≡ x_of self.now.window place }
        ensures bound { result ≤ LEFT + BREADTH }
    {
        let window = self.window;
        let places = window.to.saturating_sub(window.from);
        let along = place.saturating_sub(window.from).min(places);
        LEFT + share_of(along, places.max(FEW_PLACES))
    }
}

// How far so many of all places go, of the breadth that all have together.
fn share_of(along: u64, all: u64) -> u64
    requires part { along ≤ all }
    requires some { 0 < all }
    ensures share { result ≡ BREADTH * along / all }
    ensures bound { result ≤ BREADTH }
{
    (u128::from(BREADTH) * u128::from(along) / u128::from(all)) as u64
}

/// What of a window a journal of so many entries has: it has one place more than entries.
pub fn window_in(window: Window, entries: u64) -> Window
    ensures { result ≡ window_in window entries }
{
    let to = if entries < window.to {
        entries + 1
    } else {
        window.to
    };
    Window {
        from: window.from,
        to,
    }
}

/// The first of the texts that are given for a task.
pub(crate) fn given_in(labels: &[Label], task: Task) -> Option<&[u8]>
    ensures { option_map (λ text. text.now) result ≡ given_in labels.now task }
{
    for label in labels {
        if label.task == task {
            return Some(&label.text);
        }
    }
    None
}

// The number of a task's lane.
fn row_in(lanes: &[Lane], task: Task) -> Option<u64>
    requires { length lanes.now ≤ most_lanes }
    ensures row { result ≡ row_from 0 lanes.now task }
    ensures bound { IfSome result IsLaneRow }
{
    let mut row = 0;
    for lane in lanes {
        if lane.task == task {
            return Some(row);
        }
        row += 1;
    }
    None
}

/// Where a lane begins, from the top.
pub(crate) fn y_of(row: u64) -> u64
    requires { IsLaneRow row }
    ensures y { result ≡ y_of row }
    ensures bound { result ≤ TOP + LANE * most_lanes }
{
    TOP + LANE * row
}
