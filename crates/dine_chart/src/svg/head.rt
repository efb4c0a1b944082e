//! The head of an SVG: its size, and how each class of elements looks. On `Err` a part may have been appended.

ghost use Rattle.std.specs.Prelude.{◌≡◌, ◌++◌, ◌≤◌, codes, decimal, OnOk, OnErr};
ghost use mathlib.Core.List.{IsPrefix};
ghost use Rattle.dine_chart.specs.Picture.{most_lanes};
ghost use Rattle.dine_chart.specs.Svg.{head_text, height_of};

use crate::fixed::{FixedText, push_fixed};
use crate::picture::{LANE, TOP};
use crate::piece::{Pushed, push};
use dine_words::{push_number, push_numbered};

/// How high a picture of so many lanes is.
pub(crate) fn height_of(lanes: usize) -> u64
    requires { lanes ≤ most_lanes }
    ensures { result ≡ height_of lanes }
{
    TOP + LANE * lanes as u64 + 64
}

/// Appends the head of a picture of this height.
#[tactic(auto, unfolding(crate::specs::Svg::head_text))]
pub(crate) fn push_head(out: &mut Vec<u8>, height: u64) -> Pushed
    ensures ok { OnOk result (out.new.items ≡ out.old.items ++ head_text height) }
    ensures err { OnErr result (IsPrefix out.old.items out.new.items) }
{
    push_fixed(out, FixedText::SvgOpening)?;
    push_sizes(out, height)?;
    push_fixed(out, FixedText::Looks)?;
    push_size(out, height)
}

// Appends the height, and the view box.
fn push_sizes(out: &mut Vec<u8>, height: u64) -> Pushed
    ensures ok { OnOk result (out.new.items ≡ out.old.items
        ++ (decimal height ++ codes "\" viewBox=\"0 0 1280 " ++ decimal height)) }
    ensures err { OnErr result (IsPrefix out.old.items out.new.items) }
{
    push_number(out, height)?;
    push_numbered(out, b"\" viewBox=\"0 0 1280 ", height)
}

// Appends the height of the ground.
fn push_size(out: &mut Vec<u8>, height: u64) -> Pushed
    ensures ok { OnOk result (out.new.items ≡ out.old.items ++ (decimal height ++ codes "\"/>\n")) }
    ensures err { OnErr result (IsPrefix out.old.items out.new.items) }
{
    push_number(out, height)?;
    push(out, b"\"/>\n")
}
