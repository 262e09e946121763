//! The streams of parts of a network.
ghost use Rattle.std.specs.Prelude.{◌≡◌, [], IfOk, IsTrue, map, true};
ghost use Rattle.sn_net.specs.Dispatchers.{stream_key};
ghost use Rattle.sn_net_histories.specs.Histories.{history, leads_somewhere};
ghost use Rattle.sn_net_histories.specs.Places.{tree_port, tree_step};
ghost use Rattle.sn_stream.specs.Ends.{is_open};
ghost use Rattle.sn_component.specs.Facts.{history_for};
ghost use Rattle.sn_fork.specs.Fork.{child_seen};
ghost use Rattle.sn_turn.specs.Places.{AreNewAt, IsNewChildAt};

use sn_component::Outbox;
use sn_fork::Child;
use sn_list::Memory;
use sn_model::{Run, Trail};
use sn_net::Key;
use sn_net_histories::{Place, Port};
use sn_stream::{GetEnd, PutEnd, make};
use std::alloc::Global;
use std::sync::Arc;

/// A stream for a port of what the steps reach.
pub(crate) fn stream(
    alloc: Global,
    run: &Arc<Run>,
    steps: &Trail,
    port: Port,
) -> Result<(PutEnd, GetEnd), Memory>
    requires leads { leads_somewhere run.now.value.depth run.now.value.net (map tree_step steps.now) ≡ true }
    requires port { IsTrue (is_open port) }
    ensures passes { IfOk result (λ ends. history_for ends.0.made ≡ history run.now.value (map tree_step steps.now) (tree_port port)) }
    ensures put { IfOk result (λ ends. ends.0.moved ≡ []) }
    ensures get { IfOk result (λ ends. ends.1 ≡ ends.0) }
{
    let place = Place {
        steps: steps.share()?,
        port,
    };
    make(alloc, run, &place, run.queue())
}

/// A new child of a fork, and the other ends of its streams, for its nodes.
#[derive(Drop)]
pub(crate) struct NewChild {
    pub(crate) child: Child,
    pub(crate) input: GetEnd,
    pub(crate) output: PutEnd,
}

/// The streams to the child of the key that the steps reach, and back.
pub(crate) fn ways(
    alloc: Global,
    run: &Arc<Run>,
    steps: &Trail,
    key: Key,
) -> Result<NewChild, Memory>
    requires { leads_somewhere run.now.value.depth run.now.value.net (map tree_step steps.now) ≡ true }
    ensures key { IfOk result (λ ways. ways.child.key ≡ key) }
    ensures child { IfOk result (λ ways. IsNewChildAt run.now.value steps.now (stream_key key) (child_seen ways.child)) }
    ensures ends { IfOk result (λ ways. AreNewAt run.now.value steps.now ways.input ways.output) }
{
    let (to, input) = stream(alloc, run, steps, Port::In)?;
    let (output, from) = stream(alloc, run, steps, Port::Out)?;
    let child = Child {
        key,
        to: Outbox::new(alloc, to),
        from,
    };
    Ok(NewChild {
        child,
        input,
        output,
    })
}
