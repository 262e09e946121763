//! The nodes of a whole network.
ghost use Rattle.std.specs.Prelude.{◌≡◌, [], IfOk};
ghost use Rattle.sn_net_histories.specs.Places.{root_at};
ghost use Rattle.sn_net_histories.specs.declared.place.Port.TheVariants as port;
ghost use Rattle.sn_model.specs.Run.{items_of};
ghost use Rattle.sn_stream.specs.Ended.{ended};
ghost use Rattle.sn_component.specs.Facts.{history_for};
ghost use Rattle.sn_turn.specs.Nodes.{AreNodesOf, IsNewSource};

use crate::grow::grow;
use crate::heap::OnHeap;
use crate::node::{Kind, Node};
use crate::spot::Spot;
use sn_component::Source;
use sn_list::{Memory, Seq};
use sn_model::{Run, Trail};
use sn_net_histories::Port;
use sn_stream::{GetEnd, PutEnd, make_at_root};
use std::alloc::Global;
use std::sync::Arc;

/// The node of the source.
fn source_node(alloc: Global, run: &Arc<Run>, put: PutEnd) -> Result<Node, Memory>
    requires whole { history_for put.made ≡ ended (items_of run.now.value) }
    requires put { put.moved ≡ [] }
    ensures { IfOk result IsNewSource }
{
    let run = run.clone()?;
    let source = OnHeap::new(alloc, Source::new(alloc, run, put))?;
    Ok(Node {
        kind: Kind::Source(source),
    })
}

impl Node {
    /// The nodes of a run's network before any replica, the source first, and the end from which the network's answer comes. No node has
    /// received anything.
    pub fn network(alloc: Global, run: &Arc<Run>) -> Result<(Vec<Node>, GetEnd), Memory>
        ensures nodes { IfOk result (λ made. AreNodesOf run.now.value made.0.items) }
        ensures run { IfOk result (λ made. made.1.made.run ≡ run.now.value) }
        ensures place { IfOk result (λ made. made.1.made.place ≡ root_at port.Out) }
        ensures got { IfOk result (λ made. made.1.moved ≡ []) }
    {
        let (put, input) = make_at_root(alloc, run, Port::In, run.queue())?;
        let (output, root) = make_at_root(alloc, run, Port::Out, run.queue())?;
        let mut nodes = Vec::new(alloc);
        nodes.push(source_node(alloc, run, put)?)?;
        let spot = Spot {
            steps: Trail::new(),
            path: Seq::new(alloc),
        };
        grow(alloc, run, &mut nodes, run.net(), &spot, input, output)?;
        Ok((nodes, root))
    }
}
