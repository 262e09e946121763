//! What a turn of a node answers.
ghost use Rattle.std.specs.Prelude.{◌≡◌, None, Some, if◌then◌else◌};
ghost use Rattle.std.specs.Option.{option_map};
ghost use Rattle.sn_component.specs.Moved.{is_done};
ghost use Rattle.sn_component.specs.Outbox.{has_ended};
ghost use Rattle.sn_turn.specs.Kinds.{way_out};

use crate::node::{Kind, Node};
use sn_component::Moved;

/// What became of a node in a turn.
#[derive(Drop)]
pub struct Turned {
    /// The node, unless it passed on the end.
    pub node: Option<Node>,
    /// The nodes of new replicas.
    pub spawned: Vec<Node>,
    pub moved: Moved,
}

/// Want of memory before anything moved. The node is as it was.
#[derive(Drop)]
pub struct TurnFault {
    pub node: Node,
}

/// The answer of a turn after which a node is this, with the nodes of new replicas.
pub(crate) fn answer(kind: Kind, spawned: Vec<Node>, moved: Moved) -> Turned
    requires { has_ended (way_out kind) ≡ is_done moved }
    ensures spawned { result.spawned ≡ spawned }
    ensures moved { result.moved ≡ moved }
    ensures node { option_map (λ n. n.kind) result.node ≡ (if is_done moved then None else Some kind) }
{
    match moved {
        Moved::Done => Turned {
            node: None,
            spawned,
            moved,
        },
        Moved::Some | Moved::Idle => Turned {
            node: Some(Node { kind }),
            spawned,
            moved,
        },
    }
}
