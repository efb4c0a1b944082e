//! What is drawn of the marks, layer by layer. On `Err` a part may have been appended.

ghost use Rattle.std.specs.Prelude.{◌≡◌, ◌++◌, OnOk, OnErr};
ghost use mathlib.Core.List.{IsPrefix};
ghost use Rattle.dine_chart.specs.Picture.{HasFewLanes};
ghost use Rattle.dine_chart.specs.Svg.{conflict_of, drawn_in, layer_text, layers_text, sign_of};

use crate::elements::{
    push_arrow, push_bar, push_conflict, push_joining, push_leaving, push_refused,
};
use crate::picture::Picture;
use crate::piece::Pushed;
use dine_bars::Mark;

// What is drawn of the marks, from the lowest to the highest.
#[derive(Clone, Copy)]
enum Layer {
    Conflicts,
    Bars,
    Signs,
    Turns,
}

/// Appends the layers.
#[tactic(auto, unfolding(crate::specs::Svg::layers_text))]
pub(crate) fn push_layers(out: &mut Vec<u8>, picture: &Picture) -> Pushed
    requires { HasFewLanes picture.now }
    ensures ok { OnOk result (out.new.items ≡ out.old.items ++ layers_text picture.now) }
    ensures err { OnErr result (IsPrefix out.old.items out.new.items) }
{
    push_layer(out, picture, Layer::Conflicts, &picture.marks)?;
    push_layer(out, picture, Layer::Bars, &picture.marks)?;
    push_layer(out, picture, Layer::Signs, &picture.marks)?;
    push_layer(out, picture, Layer::Turns, &picture.marks)
}

// Appends a layer.
fn push_layer(out: &mut Vec<u8>, picture: &Picture, layer: Layer, marks: &[Mark]) -> Pushed
    requires { HasFewLanes picture.now }
    ensures ok { OnOk result (out.new.items
        ≡ out.old.items ++ layer_text picture.now layer marks.now) }
    ensures err { OnErr result (IsPrefix out.old.items out.new.items) }
{
    for mark in marks {
        push_drawn(out, picture, layer, *mark)?;
    }
    Ok(())
}

// Appends what a mark draws in a layer.
fn push_drawn(out: &mut Vec<u8>, picture: &Picture, layer: Layer, mark: Mark) -> Pushed
    requires { HasFewLanes picture.now }
    ensures ok { OnOk result (out.new.items ≡ out.old.items ++ drawn_in picture.now layer mark) }
    ensures err { OnErr result (IsPrefix out.old.items out.new.items) }
{
    match (layer, mark) {
        (Layer::Conflicts, _) => push_conflict_of(out, picture, mark),
        (Layer::Bars, Mark::Bar(bar)) => push_bar(out, picture, bar),
        (Layer::Signs, _) => push_sign_of(out, picture, mark),
        (Layer::Turns, Mark::Bar(bar)) => push_arrow(out, picture, bar),
        (Layer::Bars | Layer::Turns, _) => Ok(()),
    }
}

// Appends the conflict that a mark draws.
fn push_conflict_of(out: &mut Vec<u8>, picture: &Picture, mark: Mark) -> Pushed
    requires { HasFewLanes picture.now }
    ensures ok { OnOk result (out.new.items ≡ out.old.items ++ conflict_of picture.now mark) }
    ensures err { OnErr result (IsPrefix out.old.items out.new.items) }
{
    match mark {
        Mark::Declared(ends) => {
            push_conflict(
                out,
                picture,
                b"<path class=\"c\" d=\"M",
                b"conflict of ",
                ends,
            )
        }
        Mark::Separated(ends) => {
            push_conflict(
                out,
                picture,
                b"<path class=\"s\" d=\"M",
                b"no conflict of ",
                ends,
            )
        }
        _ => Ok(()),
    }
}

// Appends the sign that a mark draws.
fn push_sign_of(out: &mut Vec<u8>, picture: &Picture, mark: Mark) -> Pushed
    requires { HasFewLanes picture.now }
    ensures ok { OnOk result (out.new.items ≡ out.old.items ++ sign_of picture.now mark) }
    ensures err { OnErr result (IsPrefix out.old.items out.new.items) }
{
    match mark {
        // Whoever joined or left before the window stands among the marks for its lane alone.
        Mark::Joined(joined) if joined.place >= picture.window.from => {
            match picture.row_of(joined.task) {
                Some(row) => push_joining(out, picture, row, joined),
                None => Ok(()),
            }
        }
        Mark::Left(left) if left.place >= picture.window.from => match picture.row_of(left.task) {
            Some(row) => push_leaving(out, picture, row, left),
            None => Ok(()),
        },
        Mark::Refused(refused) => push_refused(out, picture, refused),
        _ => Ok(()),
    }
}
