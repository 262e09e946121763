ghost use Rattle.std.specs.Prelude.{◌≡◌, ◌≤◌};
ghost use Rattle.sn_links.specs.Ends.{run_of};
ghost use Rattle.sn_links.specs.Nodes.{nodes_of};

use crate::jobs::{given, job_of, started};
use sn_boxrun::make_done;
use sn_home::Home;
use sn_links::{DonePort, Far, JobLink, Near, Placement, SendCause, link, node_of};
use sn_list::Seq;
use sn_model::{Run, Step};
use sn_wire::{are_counted, is_counted};
use std::alloc::Global;
use std::process::Abort;
use std::sync::{Arc, Wait};

/// The home of the run's one box, and so many nodes.
fn placed(rt: &impl Abort, alloc: Global, home: Home, nodes: u32) -> Arc<Placement>
    requires { 1 ≤ nodes }
    ensures { nodes_of result.value ≡ nodes }
{
    let mut homes = Seq::new(alloc);
    assert!(rt; homes.push(home).is_ok());
    Arc::new(alloc, Placement::new(homes, nodes)).expect(rt, "memory")
}

/// What becomes of a job of the run's box.
#[derive(Clone, Copy, PartialEq, Eq, Debug)]
enum Sent {
    /// The link does not lead there.
    Elsewhere,
    Refused(SendCause),
    Away,
}

/// Sends a job of the run's box with a copy of the record, if the link leads there.
fn sends<R: Abort + Wait>(
    rt: &R,
    alloc: Global,
    run: &Run,
    link: &mut JobLink,
    steps: &[Step],
) -> Sent
    requires { run_of link.old ≡ run.now }
    ensures { link.new.made ≡ link.old.made }
{
    let Some(job) = job_of(rt, alloc, run, 7, given(rt, run)) else {
        return Sent::Elsewhere;
    };
    if !is_counted(&job) || !link.leads(&job, steps) {
        return Sent::Elsewhere;
    }
    match link.send(rt, job, steps) {
        Ok(()) => Sent::Away,
        Err(fault) => Sent::Refused(fault.cause),
    }
}

/// Takes a job at the node and sends back what its call gives, if there is one.
fn works<R: Wait>(rt: &R, alloc: Global, run: &Arc<Run>, far: &mut Far) -> bool
    requires jobs { run_of far.old.jobs ≡ run.now.value }
    requires results { run_of far.old.results ≡ run.now.value }
    ensures jobs { far.new.jobs.made ≡ far.old.jobs.made }
    ensures results { far.new.results.made ≡ far.old.results.made }
{
    let Ok(Some(job)) = far.jobs.take(rt) else {
        return false;
    };
    let Ok(done) = make_done(alloc, run, job) else {
        return false;
    };
    are_counted(&done) && far.results.answer(rt, done).is_ok()
}

/// Collects what the call gave, which is one record.
fn collects<R: Wait>(rt: &R, port: &mut DonePort) -> bool {
    match port.collect(rt) {
        Ok(Some(done)) => done.job().call == 7 && done.items().len() == 1,
        Ok(None) | Err(_) => false,
    }
}

/// Sends two jobs over a link with room for one, to node 1 of 3.
fn one_goes_there_and_back<R: Abort + Wait>(rt: &R, alloc: Global, run: &Arc<Run>) {
    let steps = [Step::Left, Step::Value(9), Step::Inside, Step::Value(-2)];
    let homes = placed(rt, alloc, Home::Spread(1), 3);
    let (near, mut far) = link(alloc, run, &homes, 1, 1).expect(rt, "memory");
    let Near {
        mut jobs,
        mut results,
    } = near;
    assert!(rt; !works(rt, alloc, run, &mut far));
    assert!(rt; !collects(rt, &mut results));
    assert!(rt; sends(rt, alloc, run, &mut jobs, &steps) == Sent::Away);
    assert!(rt; sends(rt, alloc, run, &mut jobs, &steps) == Sent::Refused(SendCause::Full));
    assert!(rt; works(rt, alloc, run, &mut far));
    assert!(rt; !works(rt, alloc, run, &mut far));
    assert!(rt; collects(rt, &mut results));
    assert!(rt; !collects(rt, &mut results));
}

#[test]
fn jobs_go_over_a_link_and_back(rt: HostRuntime) {
    one_goes_there_and_back(&rt, rt.alloc(), &started(&rt, rt.alloc()));
}

/// Whether a job of the run's box goes over a link to node 1 of 3.
fn goes<R: Abort + Wait>(
    rt: &R,
    alloc: Global,
    run: &Arc<Run>,
    home: Home,
    steps: &[Step],
) -> bool {
    let homes = placed(rt, alloc, home, 3);
    let (near, _) = link(alloc, run, &homes, 1, 1).expect(rt, "memory");
    let Near {
        mut jobs,
        results: _,
    } = near;
    sends(rt, alloc, run, &mut jobs, steps) == Sent::Away
}

#[test]
fn links_lead_to_their_node_alone(rt: HostRuntime) {
    let run = started(&rt, rt.alloc());
    let steps = [Step::Value(9), Step::Value(-2)];
    assert!(rt; goes(&rt, rt.alloc(), &run, Home::Node(4), &[]));
    assert!(rt; !goes(&rt, rt.alloc(), &run, Home::Node(3), &[]));
    assert!(rt; !goes(&rt, rt.alloc(), &run, Home::Here, &[]));
    assert!(rt; goes(&rt, rt.alloc(), &run, Home::Spread(1), &steps));
    assert!(rt; !goes(&rt, rt.alloc(), &run, Home::Spread(0), &steps));
}

#[test]
fn calls_have_their_node(rt: HostRuntime) {
    let steps = [Step::Value(9), Step::Branch(5), Step::Value(-2)];
    assert!(rt; node_of(4, Home::Node(11), &steps) == 3);
    assert!(rt; node_of(4, Home::Spread(0), &steps) == 1);
    assert!(rt; node_of(4, Home::Spread(1), &steps) == 2);
    assert!(rt; node_of(4, Home::Spread(2), &steps) == 0);
    assert!(rt; node_of(4, Home::Here, &steps) == 0);
}
