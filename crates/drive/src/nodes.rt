//! How many nodes a graph has, and where each stands.

use sn_graph::{Graph, Step, Trail};
use sn_list::{Memory, Seq};
use sn_record::Text;
use std::alloc::Global;

/// More nodes are not told apart.
const MOST_NODES: u32 = 1 << 31;

fn has_node(graph: &Graph, node: u32) -> bool {
    graph.steps_of(u64::from(node)).is_some()
}

/// How many nodes there are, found by halving.
pub fn count_nodes(graph: &Graph) -> u32 {
    let mut past = 1;
    while past < MOST_NODES && has_node(graph, past) {
        past *= 2;
    }
    let mut count = past / 2;
    while count < past {
        let middle = count + (past - count) / 2;
        if has_node(graph, middle) {
            count = middle + 1;
        } else {
            past = middle;
        }
    }
    count
}

/// The steps of a trail, from the last to the first.
fn backwards(alloc: Global, trail: &Trail) -> Result<Vec<Step>, Memory> {
    let mut steps = Vec::new(alloc);
    let mut rest = trail;
    while let Some((above, step)) = rest.last() {
        steps.push(step)?;
        rest = above;
    }
    Ok(steps)
}

fn push_step(alloc: Global, text: &mut Text, step: Step) -> Result<(), Memory> {
    let shown = match step {
        Step::Left => format!(in alloc; " left")?,
        Step::Right => format!(in alloc; " right")?,
        Step::Branch(i) => format!(in alloc; " branch {i}")?,
        Step::Inside => format!(in alloc; " inside")?,
        Step::Value(v) => format!(in alloc; " value {v}")?,
    };
    text.extend_from_slice(shown.as_bytes())
}

/// A line for each node: its number, and the steps to it.
pub fn steps_of_all(alloc: Global, graph: &Graph) -> Result<Text, Memory> {
    let mut text = Seq::new(alloc);
    for node in 0..count_nodes(graph) {
        let Some(trail) = graph.steps_of(u64::from(node)) else {
            break;
        };
        let number = format!(in alloc; "{node}:")?;
        text.extend_from_slice(number.as_bytes())?;
        for step in backwards(alloc, trail)?.into_iter().rev() {
            push_step(alloc, &mut text, step)?;
        }
        text.extend_from_slice(b"\n")?;
    }
    Ok(text)
}
