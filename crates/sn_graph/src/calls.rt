//! Calls of boxes that are begun and finished in a graph.
ghost use Rattle.std.specs.Prelude.{◌≡◌, ◌<◌, ◌^◌, ◌↔◌, IfErr, IfNone, IfOk, IfSome, IsTrue, MatchOption, OnErr, OnOk, Some, false, slice_get, ℕ};
ghost use Rattle.sn_net.specs.declared.net.Net.TheOpen.{Net-F};
ghost use Rattle.sn_model.specs.Run.{net_of};
ghost use Rattle.sn_boxrun.specs.Job.{IsJobOf};
ghost use Rattle.sn_view.specs.Next.{HasCall, IsEnabled, enabled, is_box, is_box_of};
ghost use Rattle.sn_view.specs.Placed.{NoneInFlight};
ghost use Rattle.sn_view.specs.Routed.{BoxesAreFed};
ghost use Rattle.sn_view.specs.View as view;
ghost use Rattle.sn_node.specs.Answered.{form_at};
ghost use Rattle.sn_graph.specs.Arena.{IsOf, view_of};
ghost use Rattle.sn_graph.specs.Started.{AreBelow, Finishes, Refuses, StandOnce, Starts, finish_of};
ghost use Rattle.sn_graph.specs.Tabled.{IsTabled};

use crate::arena::{Arena, Place};
use sn_boxrun::{Done, Job};
use sn_list::Memory;
use sn_model::Run;
use sn_net::Net;
use sn_node::{Node, part_at};

/// The place and the number of the box at the end of a path.
fn box_at(net: &Net, path: &[u32]) -> Option<(u32, u32)>
    ensures { MatchOption result (is_box (form_at net.now path.now) ≡ false) (λ b. form_at net.now path.now ≡ Some (Net-F.Box b.0 b.1)) }
{
    match part_at(net, path) {
        Some(part) => match part {
            Net::Box { place, number } => Some((*place, *number)),
            Net::Filter(_) | Net::Sync { .. } | Net::Serial { .. } => None,
            Net::Choice { .. } | Net::Star { .. } | Net::Split { .. } => None,
        },
        None => None,
    }
}

/// Whether a node is the box of a job.
fn is_box_of(run: &Run, node: &Node, job: &Job) -> bool
    ensures { result ≡ is_box_of job.now.number job.now.place (form_at (net_of run.now) node.now.made.path) }
{
    match box_at(run.net(), node.made.path.as_slice()) {
        Some((place, number)) => job.number == number && job.place == place,
        None => false,
    }
}

impl Arena {
    ghost use Rattle.sn_graph.specs.Started.{IsCallAt};

    /// Whether a box at this node has a record that has no call.
    pub(crate) fn may_start(&self, run: &Run, i: usize) -> bool
        requires { IsOf self.now run.now }
        ensures { result ≡ enabled (view_of self.now) (view.Start i) }
    {
        if i >= self.nodes.len() {
            return false;
        }
        match box_at(run.net(), self.nodes[i].made.path.as_slice()) {
            Some(_) => self.nodes[i].has_free(),
            None => false,
        }
    }

    /// Begins the call of a box on the first record at a node that has none, and answers what is to be called.
    pub(crate) fn start_call(&mut self, run: &Run, i: usize) -> Result<Option<Job>, Memory>
        requires of { IsOf self.old run.now }
        requires few { self.old.calls < 2 ^ 62 }
        requires tabled { IsTabled self.old }
        requires below { AreBelow (view_of self.old) }
        requires fed { BoxesAreFed (view_of self.old) }
        ensures starts { IfOk result (λ job. Starts i job (view_of self.old) (view_of self.new)) }
        ensures job { IfOk result (λ job. IfSome job (IsJobOf run.now)) }
        ensures same { OnErr result (view_of self.new ≡ view_of self.old) }
        ensures tabled { IsTabled self.new }
        ensures of { IsOf self.new run.now }
        ensures agenda { self.new.agenda ≡ self.old.agenda }
    {
        if i >= self.nodes.len() {
            return Ok(None);
        }
        let Some((place, number)) = box_at(run.net(), self.nodes[i].made.path.as_slice()) else {
            return Ok(None);
        };
        let Some((p, given)) = self.nodes[i].next_call()? else {
            return Ok(None);
        };
        let call = self.calls;
        let ticket = self.nodes[i].waiting.ticket(p);
        self.places.insert(call, Place { node: i, ticket })?;
        self.nodes[i].begin(p, call);
        self.calls += 1;
        Ok(Some(Job {
            call,
            number,
            place,
            given,
        }))
    }

    /// Whether the answer to a job is wanted.
    pub(crate) fn may_finish(&self, run: &Run, done: &Done) -> bool
        requires of { IsOf self.now run.now }
        requires tabled { IsTabled self.now }
        ensures { IsTrue result ↔ IsEnabled (view_of self.now) (finish_of done.now.job) }
    {
        self.call_of(run, done.job()).is_some()
    }

    /// Where the call of a job is in flight at this node, if it is the job's box.
    fn call_at(&self, run: &Run, i: usize, ticket: u64, job: &Job) -> Option<usize>
        requires { IsOf self.now run.now }
        ensures found { IfSome result (λ p. IsCallAt i p job.now (view_of self.now)) }
        ensures none { IfNone result ((n : view.Node) → slice_get (view_of self.now).nodes i ≡ Some n → HasCall (view_of self.now) job.now.call job.now.number job.now.place job.now.given n → ⊥) }
    {
        if i >= self.nodes.len() {
            return None;
        }
        let node = &self.nodes[i];
        if is_box_of(run, node, job) {
            node.call_at(ticket, job.call, &job.given)
        } else {
            None
        }
    }

    /// The node at which the call of a job is in flight, and its place there.
    fn call_of(&self, run: &Run, job: &Job) -> Option<(usize, usize)>
        requires of { IsOf self.now run.now }
        requires tabled { IsTabled self.now }
        ensures found { IfSome result (λ at. IsCallAt at.0 at.1 job.now (view_of self.now)) }
        ensures none { IfNone result (IsEnabled (view_of self.now) (finish_of job.now) → ⊥) }
    {
        match self.places.get(&job.call) {
            Some(begun) => match self.call_at(run, begun.node, begun.ticket, job) {
                Some(p) => Some((begun.node, p)),
                None => None,
            },
            None => None,
        }
    }

    /// Finishes the call of a job with its answer, if that is wanted. It takes no memory.
    pub(crate) fn finish(&mut self, run: &Run, done: Done) -> Result<(), Done>
        requires of { IsOf self.old run.now }
        requires tabled { IsTabled self.old }
        requires run { done.run.value ≡ run.now }
        requires once { StandOnce (view_of self.old) }
        ensures ok { OnOk result (Finishes done.job (view_of self.old) (view_of self.new)) }
        ensures err { OnErr result (Refuses done.job (view_of self.old) (view_of self.new)) }
        ensures back { IfErr result (λ back. back ≡ done) }
        ensures tabled { IsTabled self.new }
        ensures of { IsOf self.new run.now }
        ensures agenda { self.new.agenda ≡ self.old.agenda }
    {
        let Some((i, p)) = self.call_of(run, done.job()) else {
            return Err(done);
        };
        let (job, items) = done.into_parts();
        self.nodes[i].finish(p, items);
        let _place = self.places.swap_remove(&job.call);
        Ok(())
    }

    /// Whether no call is in flight.
    pub(crate) fn none_in_flight(&self) -> bool
        requires { IsTabled self.now }
        ensures { IsTrue result ↔ ((i : ℕ) (n : view.Node) → slice_get (view_of self.now).nodes i ≡ Some n → NoneInFlight n.waiting) }
    {
        self.places.is_empty()
    }
}
