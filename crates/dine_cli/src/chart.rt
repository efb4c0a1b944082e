//! A legal journal's chart.

ghost use Rattle.std.specs.Prelude.{IfOk};
ghost use Rattle.dine_cli.specs.ChartOutput.{IsDrawn};

use crate::input_remarks::{explain_lanes, explain_places};
use dine_bars::Window;
use dine_chart::{MOST_LANES, MOST_PLACES, Picture, window_in};
use dine_command_line::Chart;
use dine_journal::Journal;
use dine_lines::Listener;
use dine_script::Ended;
use dine_words::push_number_line;
use std::alloc::{AllocError, Global};

/// Appends the chart of a legal journal, and answers `Good`; or a line that says how much more is asked for than a picture
/// can show, and answers `Fault`. The listener is told so.
pub(crate) fn draw<L: Listener>(
    alloc: Global,
    journal: &Journal,
    chart: Chart,
    out: &mut Vec<u8>,
    listener: &mut L,
) -> Result<Ended, AllocError>
    ensures { IfOk result (λ ended.
        IsDrawn chart journal.now out.old.items out.new.items ended) }
{
    let Chart {
        form,
        from,
        to,
        labels,
    } = chart;
    let window = window_in(Window { from, to }, journal.len());
    let places = window.to.saturating_sub(window.from);
    if places == 0 || places > MOST_PLACES {
        explain_places(alloc, places, listener);
        push_number_line(out, b"fault places ", places)?;
        return Ok(Ended::Fault);
    }
    let picture = Picture::of(alloc, journal, window, labels)?;
    let lanes = picture.lanes.len();
    if lanes > MOST_LANES {
        explain_lanes(alloc, lanes as u64, listener);
        push_number_line(out, b"fault lanes ", lanes as u64)?;
        return Ok(Ended::Fault);
    }
    picture.write(form, out)?;
    Ok(Ended::Good)
}
