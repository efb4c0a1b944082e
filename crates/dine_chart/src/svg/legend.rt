//! The legend, below the lanes. On `Err` a part may have been appended.

ghost use Rattle.std.specs.Prelude.{◌≡◌, ◌++◌, OnOk, OnErr};
ghost use mathlib.Core.List.{IsPrefix};
ghost use Rattle.dine_chart.specs.Picture.{HasFewLanes};
ghost use Rattle.dine_chart.specs.Svg.{legend_text};

use crate::fixed::{FixedText, push_fixed};
use crate::picture::Picture;
use crate::piece::{Pushed, push};
use crate::svg::bottom_of;
use dine_words::push_numbered;

/// Appends the legend.
#[tactic(auto, unfolding(crate::specs::Svg::legend_text))]
pub(crate) fn push_legend(out: &mut Vec<u8>, picture: &Picture) -> Pushed
    requires { HasFewLanes picture.now }
    ensures ok { OnOk result (out.new.items ≡ out.old.items ++ legend_text picture.now) }
    ensures err { OnErr result (IsPrefix out.old.items out.new.items) }
{
    push_numbered(out, b"<g transform=\"translate(0 ", bottom_of(picture) + 26)?;
    push_fixed(out, FixedText::LegendSigns)
}
