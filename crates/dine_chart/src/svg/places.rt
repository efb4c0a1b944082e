//! The numbers of the places, above the lanes. On `Err` a part may have been appended.

ghost use Rattle.std.specs.Prelude.{◌≡◌, ◌++◌, ◌<◌, OnOk, OnErr};
ghost use mathlib.Core.List.{IsPrefix};
ghost use Rattle.dine_chart.specs.Picture.{HasFewLanes, places_of};
ghost use Rattle.dine_chart.specs.Svg.{place_text, rule_text, stride_of, tick_if, tick_text, ticks_text, ticks_to};

use crate::fixed::{FixedText, push_fixed};
use crate::picture::{BREADTH, FEW_PLACES, Picture};
use crate::piece::{Pushed, push, push_point};
use crate::svg::bottom_of;
use dine_words::{push_number, push_numbered};

/// Appends the numbers of the places.
#[tactic(auto, unfolding(crate::specs::Svg::ticks_text))]
pub(crate) fn push_ticks(out: &mut Vec<u8>, picture: &Picture) -> Pushed
    requires { HasFewLanes picture.now }
    ensures ok { OnOk result (out.new.items ≡ out.old.items ++ ticks_text picture.now) }
    ensures err { OnErr result (IsPrefix out.old.items out.new.items) }
{
    let places = picture.window.to.saturating_sub(picture.window.from);
    let stride = stride_of(BREADTH / places.max(FEW_PLACES));
    push_ticks_by(out, picture, stride)
}

// Appends the numbers of every so many places.
fn push_ticks_by(out: &mut Vec<u8>, picture: &Picture, stride: u64) -> Pushed
    requires lanes { HasFewLanes picture.now }
    requires stride { 0 < stride }
    ensures ok { OnOk result (out.new.items ≡ out.old.items
        ++ ticks_to stride picture.now (places_of picture.now.window)) }
    ensures err { OnErr result (IsPrefix out.old.items out.new.items) }
{
    let window = picture.window;
    let places = window.to.saturating_sub(window.from);
    for n in 0..places {
        push_tick_if(
            out,
            picture,
            (window.from + n) % stride == 0,
            window.from + n,
        )?;
    }
    Ok(())
}

// Appends the number of a place, if it is its turn.
fn push_tick_if(out: &mut Vec<u8>, picture: &Picture, has_number: bool, place: u64) -> Pushed
    requires { HasFewLanes picture.now }
    ensures ok { OnOk result
        (out.new.items ≡ out.old.items ++ tick_if has_number picture.now place) }
    ensures err { OnErr result (IsPrefix out.old.items out.new.items) }
{
    if has_number {
        push_tick(out, picture, place)
    } else {
        Ok(())
    }
}

// How many places there are from a number to the next.
fn stride_of(step: u64) -> u64
    ensures stride { result ≡ stride_of step }
    ensures some { 0 < result }
{
    match step {
        40.. => 1,
        20.. => 2,
        9.. => 5,
        5.. => 10,
        3.. => 20,
        2.. => 25,
        _ => 50,
    }
}

// Appends a place's line and its number.
#[tactic(auto, unfolding(crate::specs::Svg::tick_text))]
fn push_tick(out: &mut Vec<u8>, picture: &Picture, place: u64) -> Pushed
    requires { HasFewLanes picture.now }
    ensures ok { OnOk result (out.new.items ≡ out.old.items ++ tick_text picture.now place) }
    ensures err { OnErr result (IsPrefix out.old.items out.new.items) }
{
    push_rule(out, picture, place)?;
    push_place(out, picture, place)
}

// Appends a line down from a place.
#[tactic(auto, unfolding(crate::specs::Svg::rule_text))]
fn push_rule(out: &mut Vec<u8>, picture: &Picture, place: u64) -> Pushed
    requires { HasFewLanes picture.now }
    ensures ok { OnOk result (out.new.items ≡ out.old.items ++ rule_text picture.now place) }
    ensures err { OnErr result (IsPrefix out.old.items out.new.items) }
{
    push_point(out, b"<path class=\"i\" d=\"M", picture.x_of(place), 60)?;
    push_numbered(out, b"V", bottom_of(picture))
}

// Appends the number of a place.
#[tactic(auto, unfolding(crate::specs::Svg::place_text))]
fn push_place(out: &mut Vec<u8>, picture: &Picture, place: u64) -> Pushed
    ensures ok { OnOk result (out.new.items ≡ out.old.items ++ place_text picture.now place) }
    ensures err { OnErr result (IsPrefix out.old.items out.new.items) }
{
    push_fixed(out, FixedText::PlaceOpening)?;
    push_number(out, picture.x_of(place))?;
    push_numbered(out, b"\">", place)?;
    push(out, b"</text>\n")
}
