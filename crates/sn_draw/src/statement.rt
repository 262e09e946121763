//! What a picture is made of.
ghost use Rattle.std.specs.Prelude.{◌≡◌};
ghost use Rattle.sn_draw.specs.Dot.{flow_text, shape_text};

use sn_record::Text;

/// What a node is, which its outline shows.
#[derive(Clone, Copy, PartialEq, Eq)]
pub enum Shape {
    /// Where records come in, or go out.
    End,
    Box,
    Filter,
    Cell,
    /// Where records part.
    Fork,
    /// Where they merge in the order of the records that caused them.
    MergeInOrder,
    /// Where they merge in any order.
    MergeFreely,
}

/// Whether something flows along an edge.
#[derive(Clone, Copy, PartialEq, Eq)]
pub enum Flow {
    Some,
    /// Back to a fork, to the next replica of a star.
    Back,
    Nothing,
}

/// A statement of a picture. The nodes have different numbers, and so have the clusters.
#[derive(Drop)]
pub enum Statement {
    /// A cluster, which has what follows up to its end.
    Open {
        number: u64,
        label: Text,
    },
    Close,
    Node {
        number: u64,
        shape: Shape,
        label: Text,
    },
    Edge {
        from: u64,
        to: u64,
        flow: Flow,
        label: Text,
    },
}

impl Shape {
    /// The attributes of a node.
    pub fn text(self) -> &'static [u8]
        ensures { result.now ≡ shape_text self }
    {
        match self {
            Shape::End => b"shape=plaintext",
            Shape::Box => b"shape=box, style=filled, fillcolor=\"#dbe9f6\"",
            Shape::Filter => b"shape=box, style=\"rounded,filled\", fillcolor=\"#f4f4e4\"",
            Shape::Cell => b"shape=component, style=filled, fillcolor=\"#e8f3e4\"",
            Shape::Fork => b"shape=diamond",
            Shape::MergeInOrder => b"shape=octagon, peripheries=2",
            Shape::MergeFreely => b"shape=octagon, style=dashed",
        }
    }
}

impl Flow {
    /// The attributes of an edge.
    pub fn text(self) -> &'static [u8]
        ensures { result.now ≡ flow_text self }
    {
        match self {
            Flow::Some => b"style=solid",
            Flow::Back => b"style=solid, constraint=false",
            Flow::Nothing => b"style=dotted",
        }
    }
}
