use crate::jobs::{given, job_of, started};
use sn_boxrun::{Done, Job, make_done};
use sn_model::Run;
use sn_record::{Kind, Label, Record, Value};
use sn_wire::{WireFault, are_counted, is_counted, read_done, read_job, write_done, write_job};
use std::alloc::Global;
use std::process::Abort;
use std::sync::Arc;

/// Call 0 of box 0 at place 5, with the record in which field 0 is 1; and a byte more.
const BYTES: [u8; 35] = [
    0, 0, 0, 0, 0, 0, 0, 0, 0, 0, 0, 0, 0, 0, 0, 5, 0, 0, 0, 1, 0, 0, 0, 0, 0, 0, 0, 0, 0, 0, 0, 0,
    0, 1, 0,
];

/// How many of them are the job's.
const LENGTH: usize = 34;

fn small_record(rt: &impl Abort, alloc: Global) -> Record {
    let label = Label {
        kind: Kind::Field,
        id: 0,
    };
    let mut record = Record::new(alloc);
    assert!(rt; matches!(record.set(label, Value::Int(1)), Ok(None)));
    record
}

fn small_job(rt: &impl Abort, alloc: Global) -> Job {
    Job {
        call: 0,
        number: 0,
        place: 5,
        given: small_record(rt, alloc),
    }
}

/// Whether these bytes are what the job is written as.
fn is_written(alloc: Global, job: &Job, bytes: &[u8]) -> bool {
    if !is_counted(job) {
        return false;
    }
    match write_job(alloc, job) {
        Ok(written) => written.as_slice() == bytes,
        Err(_) => false,
    }
}

#[test]
fn a_job_has_its_bytes(rt: HostRuntime) {
    let job = small_job(&rt, rt.alloc());
    assert!(rt; is_written(rt.alloc(), &job, &BYTES[..LENGTH]));
}

/// Whether two jobs are one.
fn are_same(left: &Job, right: &Job) -> bool {
    left.call == right.call
        && left.number == right.number
        && left.place == right.place
        && left.given == right.given
}

#[test]
fn bytes_have_their_job(rt: HostRuntime) {
    let job = read_job(rt.alloc(), &BYTES[..LENGTH]).expect(&rt, "a job");
    assert!(rt; are_same(&job, &small_job(&rt, rt.alloc())));
}

#[test]
fn a_byte_less_or_more_is_bad(rt: HostRuntime) {
    for length in [LENGTH - 1, LENGTH + 1] {
        let read = read_job(rt.alloc(), &BYTES[..length]);
        assert!(rt; matches!(read, Err(WireFault::Bad)), "{length}");
    }
}

/// Whether the bytes are bad, or spell a job that is written as just these.
fn is_bad_or_back(alloc: Global, bytes: &[u8]) -> bool {
    match read_job(alloc, bytes) {
        Ok(job) => is_written(alloc, &job, bytes),
        Err(fault) => fault == WireFault::Bad,
    }
}

#[test]
fn another_byte_is_bad_or_another_job(rt: HostRuntime) {
    for place in 0..LENGTH {
        for more in [1, 2, 127, 255] {
            let mut bytes = BYTES;
            bytes[place] = bytes[place].wrapping_add(more);
            assert!(rt;
                is_bad_or_back(rt.alloc(), &bytes[..LENGTH]),
                "{place} {more}"
            );
        }
    }
}

/// Whether what a call gave is read back as it was, from the bytes that it is written as.
fn comes_back(alloc: Global, done: &Done) -> bool {
    if !are_counted(done) {
        return false;
    }
    let Ok(written) = write_done(alloc, done) else {
        return false;
    };
    match read_done(alloc, written.as_slice()) {
        Ok((job, items)) => are_same(&job, done.job()) && items == *done.items(),
        Err(_) => false,
    }
}

/// Whether what the first box gives for the first record comes back.
fn first_call_comes_back(rt: &impl Abort, alloc: Global, run: &Arc<Run>) -> bool {
    let Some(job) = job_of(rt, alloc, run, 3, given(rt, run)) else {
        return false;
    };
    match make_done(alloc, run, job) {
        Ok(done) => comes_back(alloc, &done),
        Err(_) => false,
    }
}

#[test]
fn what_a_call_gave_comes_back(rt: HostRuntime) {
    let run = started(&rt, rt.alloc());
    assert!(rt; first_call_comes_back(&rt, rt.alloc(), &run));
}
