//! The rules of both queues of a link, and what their steps tell. All of it stands in proofs alone.
use crate::placement::Placement;
use crossbeam_queue::RuledArrayQueue;
use crossbeam_queue::protocol::{Lesson, Outcome, Protocol};
use sn_model::Run;
use sn_ruled::Known;
use sn_wire::Bytes;
use std::snapshot::Snapshot;

/// Where a link leads, and of which run all on it is. It owns what is on both queues.
#[derive(Drop)]
pub struct Target {
    pub run: Snapshot<Run>,
    pub placement: Snapshot<Placement>,
    pub node: u32,
}

/// The rule of the queue of jobs, into which one pass pushes.
pub struct Jobs;

impl Protocol<Bytes, Known<Target, Bytes>> for Jobs {
    ghost use Rattle.sn_ruled.specs.Rule.{maker};
    ghost use Rattle.sn_links.specs.Queues.{JobRule};

    ghost holds = { JobRule };

    ghost first = { maker };
}

/// The rule of the queue of what calls gave, from which one pass pops.
pub struct Dones;

impl Protocol<Bytes, Known<Target, Bytes>> for Dones {
    ghost use Rattle.sn_ruled.specs.Rule.{maker};
    ghost use Rattle.sn_links.specs.Queues.{DoneRule};

    ghost holds = { DoneRule };

    ghost first = { maker };
}

/// A push of a job.
pub struct Sends;

impl Outcome<Bytes, Known<Target, Bytes>> for Sends {
    ghost use Rattle.sn_ruled.specs.Rule.{Pushed};

    ghost then = { Pushed };
}

impl Lesson<Bytes, Known<Target, Bytes>> for Sends {
    ghost use Rattle.sn_ruled.specs.Rule.{IsLastOf};

    ghost fact = { λ v waiting. IsLastOf v.pushed waiting };
}

/// A pop of a job.
pub struct Takes;

impl Outcome<Bytes, Known<Target, Bytes>> for Takes {
    ghost use Rattle.sn_links.specs.Queues.{IsLinkJob};
    ghost use Rattle.sn_ruled.specs.Rule.{Popped};

    ghost then = { Popped IsLinkJob };
}

impl Lesson<Bytes, Known<Target, Bytes>> for Takes {
    ghost use Rattle.sn_links.specs.Queues.{JobMoment};

    ghost fact = { JobMoment };
}

/// A push of what a call gave.
pub struct Answers;

impl Outcome<Bytes, Known<Target, Bytes>> for Answers {
    ghost use Rattle.sn_ruled.specs.Rule.{Pushed};

    ghost then = { Pushed };
}

impl Lesson<Bytes, Known<Target, Bytes>> for Answers {
    ghost use Rattle.sn_links.specs.Queues.{DoneMoment};

    ghost fact = { DoneMoment };
}

/// A pop of what a call gave.
pub struct Collects;

impl Outcome<Bytes, Known<Target, Bytes>> for Collects {
    ghost use Rattle.sn_links.specs.Queues.{IsLinkDone};
    ghost use Rattle.sn_ruled.specs.Rule.{Popped};

    ghost then = { Popped IsLinkDone };
}

impl Lesson<Bytes, Known<Target, Bytes>> for Collects {
    ghost use Rattle.sn_links.specs.Queues.{DoneMoment};

    ghost fact = { DoneMoment };
}

pub type JobLine = RuledArrayQueue<Bytes, Known<Target, Bytes>, Jobs>;

pub type DoneLine = RuledArrayQueue<Bytes, Known<Target, Bytes>, Dones>;
