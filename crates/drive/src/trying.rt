//! Events by chance.
ghost use Rattle.std.specs.Prelude.{◌<◌};
ghost use Rattle.sn_model.specs.declared.run.Run.{Run};
ghost use Rattle.sn_graph.specs.Event.{IsEventOf};

use crate::chance::Chance;
use sn_graph::Event;

/// An event of any kind but an answer, at a node and a child by chance. Only some may happen.
pub fn any_event(chance: &mut Chance, nodes: u32) -> Event
    requires { 0 < nodes }
    ensures { (run : Run) → IsEventOf run result }
{
    let node = u64::from(chance.below(nodes));
    match chance.below(9) {
        0 => Event::Take,
        1 => Event::Emit,
        2 => Event::Start { node },
        3 | 4 => Event::Local { node },
        5 => Event::Route { node },
        6 => Event::Unfold { node },
        _ => Event::Merge {
            node,
            child: u64::from(chance.below(nodes)),
        },
    }
}
