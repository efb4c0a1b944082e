//! The elements of an SVG. On `Err` a part may have been appended.

ghost use Rattle.std.specs.Prelude.{◌≡◌, ◌++◌, ◌+◌, ◌^◌, ◌<◌, IfSome, OnErr, OnOk};
ghost use mathlib.Core.List.{IsPrefix};
ghost use Rattle.dine_words.specs.Texts.{entry_text};
ghost use Rattle.dine_chart.specs.Picture.{HasFewLanes, IsLaneRow, row_of};
ghost use Rattle.dine_chart.specs.Elements.{arrow_text, bar_box, bar_text, between_text, box_opening, box_text, conflict_text, curve_text, doing_at, doing_text, ends_text, inset_of, joining_in, leaving_in, line_text, markup_name, refused_entry, refused_in, refused_text, refused_y, shown_text, sign_text, turn_at, turn_curve};

use crate::escape::{Setting, push_name_in};
use crate::fixed::{FixedText, push_fixed};
use crate::picture::{LANE, Picture, y_of};
use crate::piece::{Pushed, push, push_point};
use dine_bars::{Bar, BarKind, ConflictMark, RefusedCall, TaskMark, Turn};
use dine_words::{Entry, Reply, Task, push_numbered};

/// Appends a task's name: the text that is given for it, or its own.
#[tactic(auto, unfolding(crate::specs::Elements::markup_name))]
pub(crate) fn push_name(out: &mut Vec<u8>, picture: &Picture, task: Task) -> Pushed
    ensures ok { OnOk result (out.new.items ≡ out.old.items ++ markup_name picture.now task) }
    ensures err { OnErr result (IsPrefix out.old.items out.new.items) }
{
    push_name_in(out, Setting::Markup, picture.given_to(task), task)
}

// How the bars of a kind are drawn.
#[derive(Clone, Copy)]
struct BoxLook {
    // How a box begins.
    opening: &'static [u8],
    // How far below the beginning of its lane it stands.
    inset: u64,
    // What its task does.
    doing: &'static [u8],
}

// How the bars of this kind are drawn.
fn look_of(kind: BarKind) -> BoxLook
    ensures opening { result.opening.now ≡ box_opening kind }
    ensures value { result.inset ≡ inset_of kind }
    ensures bound { result.inset < LANE }
    ensures doing { result.doing.now ≡ doing_text kind }
{
    match kind {
        BarKind::Meal => BoxLook {
            opening: b"<rect class=\"e\" height=\"24\" rx=\"3\" x=\"",
            inset: 5,
            doing: b" eats",
        },
        BarKind::KeptWaiting => BoxLook {
            opening: b"<rect class=\"w\" height=\"12\" x=\"",
            inset: 11,
            doing: b" is kept waiting",
        },
        BarKind::MayBegin => BoxLook {
            opening: b"<rect class=\"r\" height=\"12\" x=\"",
            inset: 11,
            doing: b" may begin",
        },
    }
}

// Appends a box up to its title.
#[tactic(auto, unfolding(crate::specs::Elements::box_text))]
fn push_box(out: &mut Vec<u8>, kind: BarKind, x: u64, y: u64, width: u64) -> Pushed
    ensures ok { OnOk result (out.new.items ≡ out.old.items ++ box_text kind x y width) }
    ensures err { OnErr result (IsPrefix out.old.items out.new.items) }
{
    push_numbered(out, look_of(kind).opening, x)?;
    push_numbered(out, b"\" y=\"", y)?;
    push_numbered(out, b"\" width=\"", width)?;
    push(out, b"\"><title>")
}

/// Appends a bar, if its task has a lane.
#[tactic(auto, unfolding(crate::specs::Elements::bar_in))]
pub(crate) fn push_bar(out: &mut Vec<u8>, picture: &Picture, bar: Bar) -> Pushed
    requires { HasFewLanes picture.now }
    ensures ok { OnOk result (out.new.items ≡ out.old.items ++ bar_text picture.now bar) }
    ensures err { OnErr result (IsPrefix out.old.items out.new.items) }
{
    let Some(row) = picture.row_of(bar.task) else {
        return Ok(());
    };
    push_bar_box(out, picture, row, bar)?;
    push_name(out, picture, bar.task)?;
    push_shown(out, look_of(bar.kind).doing, bar.from, bar.to)
}

// Appends the box of a bar in a lane, up to its title.
#[tactic(auto, unfolding(crate::specs::Elements::bar_box))]
fn push_bar_box(out: &mut Vec<u8>, picture: &Picture, row: u64, bar: Bar) -> Pushed
    requires { IsLaneRow row }
    ensures ok { OnOk result (out.new.items ≡ out.old.items ++ bar_box picture.now row bar) }
    ensures err { OnErr result (IsPrefix out.old.items out.new.items) }
{
    let x = picture.x_of(bar.from);
    let width = picture.x_of(bar.to).saturating_sub(x);
    push_box(out, bar.kind, x, y_of(row) + look_of(bar.kind).inset, width)
}

// Appends what a box shows, and its end.
#[tactic(auto, unfolding(crate::specs::Elements::shown_text))]
fn push_shown(out: &mut Vec<u8>, said: &[u8], from: u64, to: u64) -> Pushed
    ensures ok { OnOk result (out.new.items ≡ out.old.items ++ shown_text said.now from to) }
    ensures err { OnErr result (IsPrefix out.old.items out.new.items) }
{
    push(out, said)?;
    push_numbered(out, b", lines ", from)?;
    push_numbered(out, b" to ", to)?;
    push_fixed(out, FixedText::BoxEnd)
}

/// Appends the arrow of a meal that took a turn, where both tasks have a lane.
pub(crate) fn push_arrow(out: &mut Vec<u8>, picture: &Picture, bar: Bar) -> Pushed
    requires { HasFewLanes picture.now }
    ensures ok { OnOk result (out.new.items ≡ out.old.items ++ arrow_text picture.now bar) }
    ensures err { OnErr result (IsPrefix out.old.items out.new.items) }
{
    match (bar.kind, bar.turn) {
        (BarKind::Meal, Some(turn)) => push_turn(out, picture, turn, bar),
        _ => Ok(()),
    }
}

// Appends the arrow of a turn that a meal took, where both have a lane.
#[tactic(auto, unfolding(crate::specs::Elements::turn_in, crate::specs::Elements::giving_text, crate::specs::Elements::taking_text))]
fn push_turn(out: &mut Vec<u8>, picture: &Picture, turn: Turn, meal: Bar) -> Pushed
    requires { HasFewLanes picture.now }
    ensures ok { OnOk result (out.new.items ≡ out.old.items
        ++ turn_at picture.now (row_of picture.now turn.giver) (row_of picture.now meal.task)
        turn meal) }
    ensures err { OnErr result (IsPrefix out.old.items out.new.items) }
{
    let Some(giver) = picture.row_of(turn.giver) else {
        return Ok(());
    };
    let Some(taker) = picture.row_of(meal.task) else {
        return Ok(());
    };
    push_turn_curve(out, picture, giver, taker, turn, meal)?;
    push_doing_at(
        out,
        picture,
        b"\"><title>",
        turn.giver,
        b" gave the turn at line ",
        turn.place,
    )?;
    push_doing_at(
        out,
        picture,
        b", ",
        meal.task,
        b" took it at line ",
        meal.from,
    )?;
    push_fixed(out, FixedText::PathEnd)
}

// Appends a text, and behind it a task and what it did at a line.
#[tactic(auto, unfolding(crate::specs::Elements::doing_at))]
fn push_doing_at(
    out: &mut Vec<u8>,
    picture: &Picture,
    opening: &[u8],
    task: Task,
    did: &[u8],
    place: u64,
) -> Pushed
    ensures ok { OnOk result (out.new.items
        ≡ out.old.items ++ doing_at picture.now opening.now task did.now place) }
    ensures err { OnErr result (IsPrefix out.old.items out.new.items) }
{
    push(out, opening)?;
    push_name(out, picture, task)?;
    push_numbered(out, did, place)
}

// Appends the curve of a turn, up to its title.
#[tactic(auto, unfolding(crate::specs::Elements::turn_curve))]
fn push_turn_curve(
    out: &mut Vec<u8>,
    picture: &Picture,
    giver: u64,
    taker: u64,
    turn: Turn,
    meal: Bar,
) -> Pushed
    requires giver { IsLaneRow giver }
    requires taker { IsLaneRow taker }
    ensures ok { OnOk result (out.new.items ≡ out.old.items
        ++ turn_curve picture.now giver taker turn meal) }
    ensures err { OnErr result (IsPrefix out.old.items out.new.items) }
{
    let (leaving, coming) = if giver < taker { (29, 5) } else { (5, 29) };
    push_curve(
        out,
        picture.x_of(turn.place),
        y_of(giver) + leaving,
        picture.x_of(meal.from),
        y_of(taker) + coming,
    )
}

// Appends a curve from a point to another, up to its title.
#[tactic(auto, unfolding(crate::specs::Elements::curve_text))]
fn push_curve(out: &mut Vec<u8>, x1: u64, y1: u64, x2: u64, y2: u64) -> Pushed
    requires { y1 + y2 < 2 ^ 64 }
    ensures ok { OnOk result (out.new.items ≡ out.old.items ++ curve_text x1 y1 x2 y2) }
    ensures err { OnErr result (IsPrefix out.old.items out.new.items) }
{
    let y = (y1 + y2) / 2;
    push_point(out, b"<path class=\"t\" d=\"M", x1, y1)?;
    push_point(out, b"C", x1, y)?;
    push_point(out, b" ", x2, y)?;
    push_point(out, b" ", x2, y2)
}

/// Appends the sign of a task that joins, in its lane.
#[tactic(auto, unfolding(crate::specs::Elements::joining_in))]
pub(crate) fn push_joining(out: &mut Vec<u8>, picture: &Picture, row: u64, mark: TaskMark) -> Pushed
    requires { IsLaneRow row }
    ensures ok { OnOk result (out.new.items ≡ out.old.items ++ joining_in picture.now row mark) }
    ensures err { OnErr result (IsPrefix out.old.items out.new.items) }
{
    let x = picture.x_of(mark.place);
    push_sign(out, b"<path class=\"j\" d=\"M", x, y_of(row) + 9, b"v16")?;
    push_name(out, picture, mark.task)?;
    push_line(out, b" joins", mark.place)
}

/// Appends the sign of a task that leaves, in its lane.
#[tactic(auto, unfolding(crate::specs::Elements::leaving_in))]
pub(crate) fn push_leaving(out: &mut Vec<u8>, picture: &Picture, row: u64, mark: TaskMark) -> Pushed
    requires { IsLaneRow row }
    ensures ok { OnOk result (out.new.items ≡ out.old.items ++ leaving_in picture.now row mark) }
    ensures err { OnErr result (IsPrefix out.old.items out.new.items) }
{
    let x = picture.x_of(mark.place).saturating_sub(4);
    let y = y_of(row) + 13;
    push_sign(out, b"<path class=\"l\" d=\"M", x, y, b"l8 8m0-8l-8 8")?;
    push_name(out, picture, mark.task)?;
    push_line(out, b" leaves", mark.place)
}

// Appends a sign up to its title.
#[tactic(auto, unfolding(crate::specs::Elements::sign_text))]
fn push_sign(out: &mut Vec<u8>, opening: &[u8], x: u64, y: u64, shape: &[u8]) -> Pushed
    ensures ok { OnOk result
        (out.new.items ≡ out.old.items ++ sign_text opening.now x y shape.now) }
    ensures err { OnErr result (IsPrefix out.old.items out.new.items) }
{
    push_point(out, opening, x, y)?;
    push(out, shape)?;
    push(out, b"\"><title>")
}

// Appends what happens at a line, and the end of a sign.
#[tactic(auto, unfolding(crate::specs::Elements::line_text))]
fn push_line(out: &mut Vec<u8>, said: &[u8], place: u64) -> Pushed
    ensures ok { OnOk result (out.new.items ≡ out.old.items ++ line_text said.now place) }
    ensures err { OnErr result (IsPrefix out.old.items out.new.items) }
{
    push(out, said)?;
    push_numbered(out, b", line ", place)?;
    push_fixed(out, FixedText::PathEnd)
}

/// Appends the sign of a refused call.
pub(crate) fn push_refused(out: &mut Vec<u8>, picture: &Picture, mark: RefusedCall) -> Pushed
    requires { HasFewLanes picture.now }
    ensures ok { OnOk result (out.new.items ≡ out.old.items
        ++ refused_text picture.now mark) }
    ensures err { OnErr result (IsPrefix out.old.items out.new.items) }
{
    push_refused_in(out, picture, picture.row_of_refused(mark), mark)
}

// Appends the sign of a refused call in a lane, or above all lanes.
#[tactic(auto, unfolding(crate::specs::Elements::refused_in))]
fn push_refused_in(
    out: &mut Vec<u8>,
    picture: &Picture,
    row: Option<u64>,
    mark: RefusedCall,
) -> Pushed
    requires { IfSome row IsLaneRow }
    ensures ok { OnOk result (out.new.items ≡ out.old.items ++ refused_in picture.now row mark) }
    ensures err { OnErr result (IsPrefix out.old.items out.new.items) }
{
    let x = picture.x_of(mark.place);
    push_sign(
        out,
        b"<path class=\"n\" d=\"M",
        x,
        refused_y(row),
        b"l-4 6h8z",
    )?;
    push_refused_entry(out, mark)?;
    push_line(out, b"", mark.place)
}

// Where the sign of a refused call stands, from the top.
fn refused_y(row: Option<u64>) -> u64
    requires { IfSome row IsLaneRow }
    ensures { result ≡ refused_y row }
{
    match row {
        Some(row) => y_of(row) + 28,
        None => 60,
    }
}

/// Appends the entry of a refused call.
pub(crate) fn push_refused_entry(out: &mut Vec<u8>, mark: RefusedCall) -> Pushed
    ensures ok { OnOk result (out.new.items ≡ out.old.items ++ entry_text (refused_entry mark)) }
    ensures err { OnErr result (IsPrefix out.old.items out.new.items) }
{
    let entry = Entry {
        pass: mark.pass,
        call: mark.call,
        reply: Reply::Refused(mark.refusal),
    };
    entry.write_to(out)
}

/// Appends a conflict that is declared or taken away, if both of its tasks have a lane.
#[tactic(auto, unfolding(crate::specs::Elements::conflict_in))]
pub(crate) fn push_conflict(
    out: &mut Vec<u8>,
    picture: &Picture,
    opening: &[u8],
    word: &[u8],
    mark: ConflictMark,
) -> Pushed
    requires { HasFewLanes picture.now }
    ensures ok { OnOk result (out.new.items ≡ out.old.items
        ++ conflict_text picture.now opening.now word.now mark) }
    ensures err { OnErr result (IsPrefix out.old.items out.new.items) }
{
    let Some(first) = picture.row_of(mark.first) else {
        return Ok(());
    };
    let Some(second) = picture.row_of(mark.second) else {
        return Ok(());
    };
    let x = picture.x_of(mark.place);
    push_between(out, opening, x, y_of(first) + 17, y_of(second) + 17)?;
    push_ends(out, picture, word, mark)?;
    push_line(out, b"", mark.place)
}

// Appends what becomes of whose conflict.
#[tactic(auto, unfolding(crate::specs::Elements::ends_text))]
fn push_ends(out: &mut Vec<u8>, picture: &Picture, word: &[u8], mark: ConflictMark) -> Pushed
    ensures ok { OnOk result
        (out.new.items ≡ out.old.items ++ ends_text picture.now word.now mark) }
    ensures err { OnErr result (IsPrefix out.old.items out.new.items) }
{
    push(out, word)?;
    push_name(out, picture, mark.first)?;
    push(out, b" and ")?;
    push_name(out, picture, mark.second)
}

// Appends a line between two lanes, up to its title.
#[tactic(auto, unfolding(crate::specs::Elements::between_text))]
fn push_between(out: &mut Vec<u8>, opening: &[u8], x: u64, y1: u64, y2: u64) -> Pushed
    ensures ok { OnOk result (out.new.items ≡ out.old.items ++ between_text opening.now x y1 y2) }
    ensures err { OnErr result (IsPrefix out.old.items out.new.items) }
{
    push_point(out, opening, x, y1)?;
    push_numbered(out, b"V", y2)?;
    push(out, b"\"><title>")
}
