//! The text of a page. On `Err` a part may have been appended.

ghost use Rattle.std.specs.Prelude.{◌≡◌, ◌++◌, codes, OnErr, OnOk};
ghost use mathlib.Core.List.{IsPrefix};
ghost use Rattle.dine_chart.specs.Picture.{HasFewLanes};
ghost use Rattle.dine_chart.specs.Page.{if_any, names_text, numbers_text, page_text, row_text, rows_text, table_text};

use crate::elements::push_name;
use crate::fixed::{FixedText, push_fixed};
use crate::picture::Picture;
use crate::piece::{Pushed, push, push_labelled};
use dine_bars::Lane;
use dine_words::{Task, push_number};
use std::alloc::AllocError;

impl Picture {
    /// Appends the picture as a page, in one file that asks for nothing else: the SVG, a script by which it is moved and
    /// tells of its bars, and a table of its lanes. On `Err`, which is want of memory, a part may have been appended, behind
    /// what stood there before.
    #[tactic(auto, unfolding(crate::specs::Page::page_text))]
    pub(crate) fn write_page(&self, out: &mut Vec<u8>) -> Result<(), AllocError>
        requires { HasFewLanes self.now }
        ensures ok { OnOk result (out.new.items ≡ out.old.items ++ page_text self.now) }
        ensures err { OnErr result (IsPrefix out.old.items out.new.items) }
    {
        push_fixed(out, FixedText::PageOpening)?;
        self.write_svg(out)?;
        push_table(out, self)?;
        push_fixed(out, FixedText::PageEnd)
    }
}

// Appends the table.
#[tactic(auto, unfolding(crate::specs::Page::table_text))]
fn push_table(out: &mut Vec<u8>, picture: &Picture) -> Pushed
    ensures ok { OnOk result (out.new.items ≡ out.old.items ++ table_text picture.now) }
    ensures err { OnErr result (IsPrefix out.old.items out.new.items) }
{
    push_fixed(out, FixedText::TableOpening)?;
    push_rows(out, picture)
}

// Appends the rows.
fn push_rows(out: &mut Vec<u8>, picture: &Picture) -> Pushed
    ensures ok { OnOk result (out.new.items ≡ out.old.items
        ++ rows_text picture.now picture.now.lanes.items) }
    ensures err { OnErr result (IsPrefix out.old.items out.new.items) }
{
    for lane in &picture.lanes {
        push_row(out, picture, *lane)?;
    }
    Ok(())
}

// Appends the row of a lane.
#[tactic(auto, unfolding(crate::specs::Page::row_text))]
fn push_row(out: &mut Vec<u8>, picture: &Picture, lane: Lane) -> Pushed
    ensures ok { OnOk result (out.new.items ≡ out.old.items ++ row_text picture.now lane) }
    ensures err { OnErr result (IsPrefix out.old.items out.new.items) }
{
    push_names(out, picture, lane.task)?;
    push_numbers(out, lane)?;
    push_fixed(out, FixedText::RowEnd)
}

// Appends a task's name, and the task.
#[tactic(auto, unfolding(crate::specs::Page::names_text))]
fn push_names(out: &mut Vec<u8>, picture: &Picture, task: Task) -> Pushed
    ensures ok { OnOk result (out.new.items ≡ out.old.items ++ names_text picture.now task) }
    ensures err { OnErr result (IsPrefix out.old.items out.new.items) }
{
    push(out, b"<tr><td>")?;
    push_name(out, picture, task)?;
    push(out, b"</td><td>")?;
    task.write_to(out)
}

// Appends the numbers of a lane.
#[tactic(auto, unfolding(crate::specs::Page::numbers_text))]
fn push_numbers(out: &mut Vec<u8>, lane: Lane) -> Pushed
    ensures ok { OnOk result (out.new.items ≡ out.old.items ++ numbers_text lane) }
    ensures err { OnErr result (IsPrefix out.old.items out.new.items) }
{
    push_labelled(out, b"</td><td>", lane.joined)?;
    push_if_any(out, lane.left)?;
    push_labelled(out, b"</td><td>", lane.meals)?;
    push_labelled(out, b"</td><td>", lane.kept_waiting)
}

// Appends a number, if there is one.
fn push_if_any(out: &mut Vec<u8>, number: Option<u64>) -> Pushed
    ensures ok { OnOk result
        (out.new.items ≡ out.old.items ++ (codes "</td><td>" ++ if_any number)) }
    ensures err { OnErr result (IsPrefix out.old.items out.new.items) }
{
    push(out, b"</td><td>")?;
    match number {
        Some(number) => push_number(out, number),
        None => Ok(()),
    }
}
