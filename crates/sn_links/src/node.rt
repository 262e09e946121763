//! Which node makes a call.
ghost use Rattle.std.specs.Prelude.{◌≡◌, ◌<◌, ◌↔◌, IsTrue, slice_get};
ghost use Rattle.sn_links.specs.Nodes.{IsMade, MayServe, node_of as the_node, node_of_value as the_node_of_value, values_of};

use sn_home::Home;
use sn_model::Step;

/// The node for a value, counted round so many nodes: the rest of a division, which is never negative.
fn node_of_value(nodes: u32, value: i64) -> u32
    requires { 0 < nodes }
    ensures { result ≡ the_node_of_value nodes value }
{
    value.rem_euclid(i64::from(nodes)) as u32
}

/// The value of the split of that number on the way, from 0 and from the outermost.
fn value_of(steps: &[Step], split: u32) -> Option<i64>
    ensures { result ≡ slice_get (values_of steps.now) split }
{
    let mut left = split;
    for step in steps {
        if let Step::Value(value) = *step {
            if left == 0 {
                return Some(value);
            }
            left -= 1;
        }
    }
    None
}

/// The node, among so many, that makes the calls of a box with that home to which these steps lead.
pub fn node_of(nodes: u32, home: Home, steps: &[Step]) -> u32
    requires { 0 < nodes }
    ensures { result ≡ the_node nodes home steps.now }
{
    match home {
        Home::Node(number) => (number % u64::from(nodes)) as u32,
        Home::Spread(split) => match value_of(steps, split) {
            Some(value) => node_of_value(nodes, value),
            None => 0,
        },
        Home::Here => 0,
    }
}

/// Whether a node, among so many, may make the calls of boxes with that home.
fn may_serve(nodes: u32, node: u32, home: Home) -> bool
    requires { 0 < nodes }
    ensures { IsTrue result ↔ MayServe nodes node home }
{
    match home {
        Home::Node(number) => number % u64::from(nodes) == u64::from(node),
        Home::Spread(_) => true,
        Home::Here => false,
    }
}

/// Whether that node makes the calls of a box with that home to which these steps lead.
pub(crate) fn is_made(nodes: u32, node: u32, home: Home, steps: &[Step]) -> bool
    requires { 0 < nodes }
    ensures { IsTrue result ↔ IsMade nodes node steps.now home }
{
    may_serve(nodes, node, home) && node_of(nodes, home, steps) == node
}
