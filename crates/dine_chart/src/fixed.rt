//! The texts that stand in every picture of a kind as they are. On `Err` a part may have been appended.

ghost use Rattle.std.specs.Prelude.{◌≡◌, ◌++◌, OnErr, OnOk};
ghost use mathlib.Core.List.{IsPrefix};
ghost use Rattle.dine_chart.specs.FixedTexts.{fixed_text};

use crate::piece::{Pushed, push};

/// A text that stands in every picture of a kind as it is.
#[derive(Clone, Copy)]
pub(crate) enum FixedText {
    /// The beginning, up to the height.
    SvgOpening,
    /// How each class of elements looks, and the signs at the ends of lines.
    Looks,
    /// What the first line of the heading begins with.
    HeadingOpening,
    /// Between the two lines of the heading.
    HeadingMiddle,
    /// What the second line of the heading ends with.
    HeadingEnd,
    /// How the number of a place begins.
    PlaceOpening,
    /// What the ground of a lane ends with.
    GroundEnd,
    /// Where a lane's line ends and its name begins.
    NamingOpening,
    /// Where a lane's name ends and its totals begin.
    TotalsOpening,
    /// What each look stands for.
    LegendSigns,
    /// The end of a title and of the box that has it.
    BoxEnd,
    /// The end of a title and of the path that has it.
    PathEnd,
    /// What stands before the picture.
    PageOpening,
    /// The head of the table.
    TableOpening,
    /// The end of a row.
    RowEnd,
    /// The end of the table, and what lets the picture be moved.
    PageEnd,
    /// The beginning: how nodes and edges look.
    GraphOpening,
}

// Those that are longer than a line.
const SVG_OPENING: &[u8] =
    b"<svg xmlns=\"http://www.w3.org/2000/svg\" font-family=\"DejaVu Sans, Verdana, sans-serif\" font-size=\"11\" width=\"1280\" height=\"";

const LOOKS: &[u8] =
    b"\">\n<style>.g{fill:#fff}.h{font-size:15px;font-weight:bold;fill:#000}.o{fill:#555}.k{fill:#666;font-size:10px;text-anchor:middle}.i{stroke:#e6e6e6}.z0{fill:none}.z1{fill:#f5f5f5}.a{font-weight:bold;text-anchor:end;fill:#000}.b{stroke:#56b4e9;stroke-width:2}.e{fill:#0072b2}.w{fill:url(#w);stroke:#e69f00}.r{fill:#d9f2e9;stroke:#009e73}.t{fill:none;stroke:#333;marker-end:url(#t)}.c{stroke:#999;stroke-dasharray:2 2;marker-start:url(#d);marker-end:url(#d)}.s{stroke:#cc79a7;stroke-width:2;stroke-dasharray:1 3;marker-start:url(#d);marker-end:url(#d)}.j{stroke:#000;stroke-width:2}.l{stroke:#000;stroke-width:2;fill:none}.n{fill:#d55e00}</style>\n<defs><pattern id=\"w\" width=\"6\" height=\"6\" patternUnits=\"userSpaceOnUse\" patternTransform=\"rotate(45)\"><rect width=\"6\" height=\"6\" fill=\"#fff6e0\"/><rect width=\"2\" height=\"6\" fill=\"#e69f00\"/></pattern><marker id=\"t\" viewBox=\"0 0 6 6\" refX=\"5\" refY=\"3\" markerWidth=\"6\" markerHeight=\"6\" orient=\"auto\"><path d=\"M0 0L6 3L0 6z\" fill=\"#333\"/></marker><marker id=\"d\" markerUnits=\"userSpaceOnUse\" viewBox=\"0 0 4 4\" refX=\"2\" refY=\"2\" markerWidth=\"4\" markerHeight=\"4\"><circle cx=\"2\" cy=\"2\" r=\"2\" fill=\"#888\"/></marker></defs>\n<rect class=\"g\" width=\"1280\" height=\"";

const HEADING_END: &[u8] = b" of a legal journal: no two tasks in conflict eat at once</text>\n";

const LEGEND_SIGNS: &[u8] =
    b")\"><path class=\"b\" d=\"M130 0h24\"/><text class=\"o\" x=\"160\" y=\"4\">thinks</text><rect class=\"r\" x=\"222\" y=\"-6\" width=\"24\" height=\"12\"/><text class=\"o\" x=\"252\" y=\"4\">hungry, may begin</text><rect class=\"w\" x=\"376\" y=\"-6\" width=\"24\" height=\"12\"/><text class=\"o\" x=\"406\" y=\"4\">hungry, kept waiting</text><rect class=\"e\" x=\"544\" y=\"-12\" width=\"24\" height=\"24\" rx=\"3\"/><text class=\"o\" x=\"574\" y=\"4\">eats</text><path class=\"t\" d=\"M626 -8C626 2 652 -4 652 8\"/><text class=\"o\" x=\"662\" y=\"4\">whose call gave it the turn</text><path class=\"n\" d=\"M846 -3l-4 6h8z\"/><text class=\"o\" x=\"858\" y=\"4\">refused</text><path class=\"c\" d=\"M916 -10V10\"/><text class=\"o\" x=\"926\" y=\"4\">conflict</text><path class=\"s\" d=\"M988 -10V10\"/><text class=\"o\" x=\"998\" y=\"4\">separated</text><path class=\"j\" d=\"M1068 -8v16\"/><text class=\"o\" x=\"1076\" y=\"4\">joins</text><path class=\"l\" d=\"M1116 -4l8 8m0-8l-8 8\"/><text class=\"o\" x=\"1132\" y=\"4\">leaves</text><text class=\"o\" x=\"130\" y=\"26\">from left to right: the lines of the journal, a step for each call; a journal has no clock</text></g>\n</svg>\n";

const PAGE_OPENING: &[u8] =
    b"<!doctype html>\n<html lang=\"en\">\n<head>\n<meta charset=\"utf-8\">\n<meta name=\"viewport\" content=\"width=device-width\">\n<title>hygienic chart</title>\n<style>body{margin:16px;font:14px DejaVu Sans,Verdana,sans-serif;background:#fff;color:#111}svg{display:block;width:100%;height:auto;border:1px solid #ccc;cursor:grab;touch-action:none}svg [aria-label]:hover{stroke:#000;stroke-width:2}#tip{position:fixed;display:none;padding:3px 7px;background:#222;color:#fff;border-radius:3px;font-size:12px;pointer-events:none}table{border-collapse:collapse;margin-top:16px}th,td{padding:3px 10px;border-bottom:1px solid #ccc;text-align:right}th:first-child,td:first-child{text-align:left}@media(prefers-color-scheme:dark){body{background:#1b1b1b;color:#ddd}th,td,svg{border-color:#555}#tip{background:#eee;color:#111}}</style>\n</head>\n<body>\n<p>The wheel zooms, a drag moves, and a double click shows all. A bar tells what it is when it is pointed at.</p>\n";

const TABLE_OPENING: &[u8] =
    b"<div id=\"tip\"></div>\n<table>\n<thead><tr><th>Name</th><th>Task</th><th>Joins at line</th><th>Leaves at line</th><th>Meals</th><th>Kept waiting</th></tr></thead>\n<tbody>\n";

const PAGE_END: &[u8] =
    b"</tbody>\n</table>\n<script>\n(function () {\n  var svg = document.querySelector('svg'), tip = document.getElementById('tip');\n  var all = svg.viewBox.baseVal, width = all.width, height = all.height, held = null;\n  svg.removeAttribute('width');\n  svg.removeAttribute('height');\n  svg.querySelectorAll('title').forEach(function (title) {\n    title.parentNode.setAttribute('aria-label', title.textContent);\n    title.remove();\n  });\n  function show(x, y, w) {\n    w = Math.min(width, Math.max(40, w));\n    var h = w * height / width;\n    x = Math.max(0, Math.min(width - w, x));\n    y = Math.max(0, Math.min(height - h, y));\n    svg.setAttribute('viewBox', [x, y, w, h].join(' '));\n  }\n  svg.addEventListener('wheel', function (event) {\n    event.preventDefault();\n    var box = svg.getBoundingClientRect(), view = svg.viewBox.baseVal;\n    var x = (event.clientX - box.left) / box.width, y = (event.clientY - box.top) / box.height;\n    var w = Math.min(width, Math.max(40, view.width * (event.deltaY > 0 ? 1.25 : 0.8)));\n    show(view.x + x * (view.width - w), view.y + y * (view.height - w * height / width), w);\n  }, { passive: false });\n  svg.addEventListener('pointerdown', function (event) {\n    var view = svg.viewBox.baseVal;\n    held = { x: event.clientX, y: event.clientY, left: view.x, top: view.y };\n  });\n  window.addEventListener('pointerup', function () { held = null; });\n  svg.addEventListener('pointermove', function (event) {\n    var box = svg.getBoundingClientRect(), view = svg.viewBox.baseVal;\n    if (held) {\n      show(held.left - (event.clientX - held.x) * view.width / box.width,\n           held.top - (event.clientY - held.y) * view.height / box.height, view.width);\n    }\n    var said = event.target.getAttribute('aria-label');\n    tip.style.display = said ? 'block' : 'none';\n    tip.style.left = event.clientX + 14 + 'px';\n    tip.style.top = event.clientY + 14 + 'px';\n    tip.textContent = said;\n  });\n  svg.addEventListener('pointerleave', function () { tip.style.display = 'none'; });\n  svg.addEventListener('dblclick', function () { show(0, 0, width); });\n}());\n</script>\n</body>\n</html>\n";

const GRAPH_OPENING: &[u8] =
    b"digraph conflicts {\n  node [shape=box, style=\"rounded,filled\", fontname=\"DejaVu Sans\", fontsize=11];\n";

/// Appends a text that stands in every picture of a kind.
#[tactic(auto, unfolding(crate::specs::Svg::opening_text, crate::specs::Svg::heading_opening, crate::specs::Svg::heading_middle, crate::specs::Svg::heading_end, crate::specs::Svg::place_opening, crate::specs::Svg::ground_end, crate::specs::Svg::naming_opening, crate::specs::Svg::totals_opening, crate::specs::Elements::box_end, crate::specs::Elements::path_end, crate::specs::Page::table_opening, crate::specs::Page::row_end, crate::specs::Graph::graph_opening))]
pub(crate) fn push_fixed(out: &mut Vec<u8>, text: FixedText) -> Pushed
    ensures ok { OnOk result (out.new.items ≡ out.old.items ++ fixed_text text) }
    ensures err { OnErr result (IsPrefix out.old.items out.new.items) }
{
    match text {
        FixedText::SvgOpening => push(out, SVG_OPENING),
        FixedText::Looks => push(out, LOOKS),
        FixedText::HeadingOpening => push(out, b"<text class=\"h\" x=\"14\" y=\"24\">"),
        FixedText::HeadingMiddle => push(out, b"</text>\n<text class=\"o\" x=\"14\" y=\"42\">"),
        FixedText::HeadingEnd => push(out, HEADING_END),
        FixedText::PlaceOpening => push(out, b"\"/><text class=\"k\" y=\"56\" x=\""),
        FixedText::GroundEnd => push(out, b"\" width=\"1280\" height=\"34\"/>"),
        FixedText::NamingOpening => push(out, b"\"/><text class=\"a\" x=\"118\" y=\""),
        FixedText::TotalsOpening => push(out, b"</text><text class=\"o\" x=\""),
        FixedText::LegendSigns => push(out, LEGEND_SIGNS),
        FixedText::BoxEnd => push(out, b"</title></rect>\n"),
        FixedText::PathEnd => push(out, b"</title></path>\n"),
        FixedText::PageOpening => push(out, PAGE_OPENING),
        FixedText::TableOpening => push(out, TABLE_OPENING),
        FixedText::RowEnd => push(out, b"</td></tr>\n"),
        FixedText::PageEnd => push(out, PAGE_END),
        FixedText::GraphOpening => push(out, GRAPH_OPENING),
    }
}
