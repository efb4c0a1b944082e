//! The text of an SVG: a head, a heading, the numbers of the places, the lanes, the marks in layers, and a legend. On `Err`
//! a part may have been appended.

ghost use Rattle.std.specs.Prelude.{◌≡◌, ◌++◌, ◌≤◌, ◌+◌, ◌*◌, OnOk, OnErr};
ghost use mathlib.Core.List.{IsPrefix};
ghost use Rattle.dine_chart.specs.Picture.{HasFewLanes, most_lanes};
ghost use Rattle.dine_chart.specs.Svg.{bottom_of, front_text, svg_text};

mod head;
mod heading;
mod lanes;
mod layers;
mod legend;
mod places;

use crate::picture::{LANE, Picture, TOP};
use crate::piece::Pushed;
use head::{height_of, push_head};
use heading::push_heading;
use lanes::push_lanes;
use layers::push_layers;
use legend::push_legend;
use places::push_ticks;
use std::alloc::AllocError;

impl Picture {
    /// Appends the picture as an SVG. It should have no more than [`crate::MOST_PLACES`] places. On `Err`, which is want of
    /// memory, a part may have been appended, behind what stood there before.
    #[tactic(auto, unfolding(crate::specs::Svg::svg_text))]
    pub(crate) fn write_svg(&self, out: &mut Vec<u8>) -> Result<(), AllocError>
        requires { HasFewLanes self.now }
        ensures ok { OnOk result (out.new.items ≡ out.old.items ++ svg_text self.now) }
        ensures err { OnErr result (IsPrefix out.old.items out.new.items) }
    {
        push_front(out, self)?;
        push_lanes(out, self)?;
        push_layers(out, self)?;
        push_legend(out, self)
    }
}

// Appends what stands around the lanes.
#[tactic(auto, unfolding(crate::specs::Svg::front_text))]
fn push_front(out: &mut Vec<u8>, picture: &Picture) -> Pushed
    requires { HasFewLanes picture.now }
    ensures ok { OnOk result (out.new.items ≡ out.old.items ++ front_text picture.now) }
    ensures err { OnErr result (IsPrefix out.old.items out.new.items) }
{
    push_head(out, height_of(picture.lanes.len()))?;
    push_heading(out, picture)?;
    push_ticks(out, picture)
}

/// Where the lanes end, from the top.
pub(crate) fn bottom_of(picture: &Picture) -> u64
    requires { HasFewLanes picture.now }
    ensures bottom { result ≡ bottom_of picture.now }
    ensures bound { result ≤ TOP + LANE * most_lanes }
{
    TOP + LANE * picture.lanes.len() as u64
}
