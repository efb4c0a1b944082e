//! A table as a graph in DOT. On `Err` a part may have been appended.

ghost use Rattle.std.specs.Prelude.{◌≡◌, ◌++◌, OnOk, OnErr};
ghost use Rattle.dine_chart.specs.Graph.{edge_look, edge_of, edge_text, edges_from, edges_text, edges_to, graph_text, node_look, node_name, node_text, nodes_text, present};
ghost use mathlib.Core.List.{IsPrefix};
ghost use Rattle.dine_chart.specs.Reading.{IsGraphed, IsLegalText};

use crate::escape::{Setting, push_name_in};
use crate::fixed::{FixedText, push_fixed};
use crate::picture::given_in;
use crate::piece::{Pushed, push};
use crate::standing::Standing;
use dine_arbiter::Arbiter;
use dine_bars::{BarKind, kind_of};
use dine_lines::Label;
use dine_words::{State, Task};
use std::alloc::{AllocError, Global};

/// Appends the graph of the table that stands after so many entries of the journal whose text this is, or after all of
/// them where it has fewer: who is present, and who is in conflict with whom. On `Err`, which is want of memory, a part
/// may have been appended, behind what stood there before.
pub fn push_graph(
    alloc: Global,
    text: &[u8],
    place: u64,
    labels: &[Label],
    out: &mut Vec<u8>,
) -> Result<(), AllocError>
    requires legal { IsLegalText text.now }
    ensures ok { OnOk result
        (IsGraphed text.now labels.now place out.old.items out.new.items) }
    ensures err { OnErr result (IsPrefix out.old.items out.new.items) }
{
    let standing = Standing::at(alloc, text, place)?;
    push_table(alloc, out, labels, &standing)
}

// Appends the graph of the table that stands.
#[tactic(auto, unfolding(crate::specs::Graph::graph_text))]
fn push_table(alloc: Global, out: &mut Vec<u8>, labels: &[Label], standing: &Standing) -> Pushed
    requires { standing.now.order.items ≡ present standing.now.arbiter.table }
    ensures ok { OnOk result (out.new.items
        ≡ out.old.items ++ graph_text labels.now standing.now.arbiter.table) }
    ensures err { OnErr result (IsPrefix out.old.items out.new.items) }
{
    push_fixed(out, FixedText::GraphOpening)?;
    push_nodes(out, labels, &standing.arbiter, &standing.order)?;
    push_edges(alloc, out, &standing.arbiter, &standing.order)?;
    push(out, b"}\n")
}

// Appends the nodes of tasks.
fn push_nodes(out: &mut Vec<u8>, labels: &[Label], arbiter: &Arbiter, tasks: &[Task]) -> Pushed
    ensures ok { OnOk result (out.new.items
        ≡ out.old.items ++ nodes_text labels.now arbiter.now.table tasks.now) }
    ensures err { OnErr result (IsPrefix out.old.items out.new.items) }
{
    for task in tasks {
        push_node(out, labels, kind_of(arbiter, *task), *task)?;
    }
    Ok(())
}

// What a task does, and how its node looks.
fn node_look(kind: Option<BarKind>) -> &'static [u8]
    ensures { result.now ≡ node_look kind }
{
    match kind {
        None => b"\\nthinks\", color=\"#56b4e9\", fillcolor=\"#ffffff\"];\n",
        Some(BarKind::Meal) => {
            b"\\neats\", color=\"#0072b2\", fillcolor=\"#0072b2\", fontcolor=\"#ffffff\"];\n"
        }
        Some(BarKind::KeptWaiting) => {
            b"\\nhungry, kept waiting\", color=\"#e69f00\", fillcolor=\"#fff6e0\"];\n"
        }
        Some(BarKind::MayBegin) => {
            b"\\nhungry, may begin\", color=\"#009e73\", fillcolor=\"#d9f2e9\"];\n"
        }
    }
}

// Appends a task as the name of a node.
#[tactic(auto, unfolding(crate::specs::Graph::node_name))]
fn push_node_name(out: &mut Vec<u8>, task: Task) -> Pushed
    ensures ok { OnOk result (out.new.items ≡ out.old.items ++ node_name task) }
    ensures err { OnErr result (IsPrefix out.old.items out.new.items) }
{
    push(out, b"\"")?;
    task.write_to(out)?;
    push(out, b"\"")
}

// Appends the node of a task that does this.
#[tactic(auto, unfolding(crate::specs::Graph::node_text))]
fn push_node(out: &mut Vec<u8>, labels: &[Label], kind: Option<BarKind>, task: Task) -> Pushed
    ensures ok { OnOk result (out.new.items ≡ out.old.items ++ node_text labels.now kind task) }
    ensures err { OnErr result (IsPrefix out.old.items out.new.items) }
{
    push(out, b"  ")?;
    push_node_name(out, task)?;
    push(out, b" [label=\"")?;
    push_name_in(out, Setting::Dot, given_in(labels, task), task)?;
    push(out, node_look(kind))
}

// Appends the edges that begin at tasks.
fn push_edges(alloc: Global, out: &mut Vec<u8>, arbiter: &Arbiter, tasks: &[Task]) -> Pushed
    ensures ok { OnOk result (out.new.items
        ≡ out.old.items ++ edges_text arbiter.now.table tasks.now) }
    ensures err { OnErr result (IsPrefix out.old.items out.new.items) }
{
    for task in tasks {
        push_edges_from(alloc, out, arbiter, *task)?;
    }
    Ok(())
}

// Appends the edges that begin at a task.
fn push_edges_from(alloc: Global, out: &mut Vec<u8>, arbiter: &Arbiter, task: Task) -> Pushed
    ensures ok { OnOk result (out.new.items
        ≡ out.old.items ++ edges_from arbiter.now.table task) }
    ensures err { OnErr result (IsPrefix out.old.items out.new.items) }
{
    match arbiter.neighbours(alloc, task)? {
        Some(neighbours) => push_edges_to(out, arbiter, task, &neighbours),
        None => Ok(()),
    }
}

// Appends the edges from a task to those of its neighbours that it goes before.
fn push_edges_to(out: &mut Vec<u8>, arbiter: &Arbiter, task: Task, neighbours: &[Task]) -> Pushed
    ensures ok { OnOk result (out.new.items
        ≡ out.old.items ++ edges_to arbiter.now.table task neighbours.now) }
    ensures err { OnErr result (IsPrefix out.old.items out.new.items) }
{
    for neighbour in neighbours {
        push_edge_if(out, arbiter, task, *neighbour)?;
    }
    Ok(())
}

// Appends the edge from a task to another, if it goes before that.
fn push_edge_if(out: &mut Vec<u8>, arbiter: &Arbiter, first: Task, second: Task) -> Pushed
    ensures ok { OnOk result (out.new.items
        ≡ out.old.items ++ edge_of arbiter.now.table first second) }
    ensures err { OnErr result (IsPrefix out.old.items out.new.items) }
{
    if arbiter.stands_before(first, second) {
        let look = edge_look(arbiter.state(first), arbiter.state(second));
        push_edge(out, look, first, second)
    } else {
        Ok(())
    }
}

// How an edge looks between two tasks in these states.
fn edge_look(first: Option<State>, second: Option<State>) -> &'static [u8]
    ensures { result.now ≡ edge_look first second }
{
    match (first, second) {
        (Some(State::Eating | State::Hungry), Some(State::Hungry)) => {
            b" [color=\"#e69f00\", penwidth=2];\n"
        }
        (Some(State::Hungry), Some(State::Eating)) => {
            b" [color=\"#e69f00\", penwidth=2, style=dashed];\n"
        }
        _ => b" [color=\"#888888\"];\n",
    }
}

// Appends the edge from a task to another, which looks so.
#[tactic(auto, unfolding(crate::specs::Graph::edge_text))]
fn push_edge(out: &mut Vec<u8>, look: &[u8], first: Task, second: Task) -> Pushed
    ensures ok { OnOk result (out.new.items ≡ out.old.items ++ edge_text look.now first second) }
    ensures err { OnErr result (IsPrefix out.old.items out.new.items) }
{
    push(out, b"  ")?;
    push_node_name(out, first)?;
    push(out, b" -> ")?;
    push_node_name(out, second)?;
    push(out, look)
}
