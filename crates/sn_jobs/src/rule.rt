//! The rules of both queues, and what their steps tell. All of it stands in proofs alone: no value of these types is made.
use crossbeam_queue::RuledArrayQueue;
use crossbeam_queue::protocol::{Lesson, Outcome, Protocol};
use sn_boxrun::{Done, Job};
use sn_model::Run;
use sn_ruled::Known;

/// The rule of the queue of jobs, into which one pass pushes.
pub struct Jobs;

impl Protocol<Job, Known<Run, Job>> for Jobs {
    ghost use Rattle.sn_ruled.specs.Rule.{maker};
    ghost use Rattle.sn_jobs.specs.Queues.{JobRule};

    ghost holds = { JobRule };

    ghost first = { maker };
}

/// The rule of the queue of answers, from which one pass pops.
pub struct Dones;

impl Protocol<Done, Known<Run, Done>> for Dones {
    ghost use Rattle.sn_ruled.specs.Rule.{maker};
    ghost use Rattle.sn_jobs.specs.Queues.{DoneRule};

    ghost holds = { DoneRule };

    ghost first = { maker };
}

/// A push of a job.
pub struct Gives;

impl Outcome<Job, Known<Run, Job>> for Gives {
    ghost use Rattle.sn_ruled.specs.Rule.{Pushed};

    ghost then = { Pushed };
}

impl Lesson<Job, Known<Run, Job>> for Gives {
    ghost use Rattle.sn_ruled.specs.Rule.{IsLastOf};

    ghost fact = { λ v waiting. IsLastOf v.pushed waiting };
}

/// A pop of a job.
pub struct Takes;

impl Outcome<Job, Known<Run, Job>> for Takes {
    ghost use Rattle.sn_boxrun.specs.Job.{IsJobOf};
    ghost use Rattle.sn_ruled.specs.Rule.{Popped};

    ghost then = { Popped IsJobOf };
}

impl Lesson<Job, Known<Run, Job>> for Takes {
    ghost use Rattle.sn_jobs.specs.Queues.{JobMoment};

    ghost fact = { JobMoment };
}

/// A push of an answer.
pub struct Answers;

impl Outcome<Done, Known<Run, Done>> for Answers {
    ghost use Rattle.sn_ruled.specs.Rule.{Pushed};

    ghost then = { Pushed };
}

impl Lesson<Done, Known<Run, Done>> for Answers {
    ghost use Rattle.sn_jobs.specs.Queues.{DoneMoment};

    ghost fact = { DoneMoment };
}

/// A pop of an answer.
pub struct Collects;

impl Outcome<Done, Known<Run, Done>> for Collects {
    ghost use Rattle.sn_jobs.specs.Queues.{IsDoneOf};
    ghost use Rattle.sn_ruled.specs.Rule.{Popped};

    ghost then = { Popped IsDoneOf };
}

impl Lesson<Done, Known<Run, Done>> for Collects {
    ghost use Rattle.sn_jobs.specs.Queues.{DoneMoment};

    ghost fact = { DoneMoment };
}

pub type JobLine = RuledArrayQueue<Job, Known<Run, Job>, Jobs>;

pub type DoneLine = RuledArrayQueue<Done, Known<Run, Done>, Dones>;
