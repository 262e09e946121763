//! A long input: read in pieces, and answered as they come.
ghost use Rattle.std.specs.Prelude.{◌≡◌, ◌<◌, ◌≤◌, ◌+◌, ℕ, List, IfErr, IfOk, IfSome, drop, length, max, take};
ghost use Rattle.sn_net.specs.declared.net.Claim.{Claim as SomeClaim};
ghost use Rattle.sn_net.specs.WellFormed.{FitsBoxes};
ghost use Rattle.sn_typing.specs.Accepted.{IsAccepted};
ghost use Rattle.sn_stream_labels.specs.Known.{Knows};
ghost use Rattle.sn_pieces.specs.Known.{is_known};
ghost use Rattle.sn_feed.specs.Still.{is_of, names_of};
ghost use Rattle.sn_feed.specs.declared.feed.TheConstants.{MOST_INPUT as AT_MOST};
ghost use Rattle.sn_load.specs.Load.{AreLimits, limits_of};
ghost use Rattle.sn_plain.specs.Feeding.{cause_refusal, fed_by, fed_of};
ghost use Rattle.sn_plain.specs.Pieces.{CameThrough, CameToEnd, HasFed, IsToldStop, Starts, WhyEndStopped, WhyNotFed, WhyPartUnread, WhyPieceStopped};
ghost use Rattle.sn_plain.specs.Seen.{seen_file, seen_sink};

use crate::transcript::print_items;
use sn_feed::{Feed, FeedStop, LineCause, MOST_INPUT};
use sn_io::{Bytes, Files, FilesFault, Sink};
use sn_list::Held;
use sn_load::Program;
use sn_model::Run;
use sn_record::{Fault, Items};
use sn_stop::{LineFault, Refusal, Stop, Which};
use sn_words::DEFAULT_QUEUE;
use std::alloc::Global;

/// The refusal that names a line and why it is refused.
fn refusal_of(number: u64, cause: LineCause) -> Refusal
    ensures { result ≡ cause_refusal number cause }
{
    match cause {
        LineCause::TooLong => Refusal::Line(LineFault::TooLong(number)),
        LineCause::BadLine => Refusal::Line(LineFault::BadLine(number)),
        LineCause::Twice(kind, name) => Refusal::Line(LineFault::Twice(number, kind, name)),
        LineCause::TooManyNames => Refusal::TooManyNames,
        LineCause::Untyped => Refusal::Line(LineFault::Untyped(number)),
    }
}

/// Prints what stands before a line that is refused, and tells why the command stops: for that line, or at a fault before it.
fn print_before<O: Sink>(alloc: Global, stop: FeedStop, out: &mut O) -> Stop
    ensures told { IsToldStop stop (seen_sink O.held O.faults out.old out.new) result }
    ensures later { O.faults out.old ≤ O.faults out.new }
{
    match stop {
        FeedStop::Memory => Stop::Memory,
        FeedStop::Line {
            number,
            cause,
            items,
            names,
        } => match print_items(alloc, &names, items, out) {
            Ok(None) => Stop::Refused(refusal_of(number, cause)),
            Ok(Some(fault)) => Stop::Faulted(fault),
            Err(why) => why,
        },
    }
}

/// A feed behind a piece, and the fault that ends what was printed.
struct Went {
    feed: Feed,
    fault: Option<Fault>,
}

/// Gives a feed a piece, and prints what comes of it.
fn print_piece<O: Sink>(
    alloc: Global,
    run: &Run,
    feed: Feed,
    bytes: &[u8],
    out: &mut O,
) -> Result<Went, Stop>
    requires { is_of feed run.now }
    ensures went { IfOk result (λ went. CameThrough run.now feed bytes.now (seen_sink O.held O.faults out.old out.new) went.feed went.fault) }
    ensures stopped { IfErr result (WhyPieceStopped feed bytes.now (seen_sink O.held O.faults out.old out.new)) }
    ensures later { O.faults out.old ≤ O.faults out.new }
{
    match feed.piece(alloc, run, bytes) {
        Ok((next, items)) => {
            let next = Held { value: next };
            let fault = print_items(alloc, next.value.names(), items, out)?;
            let feed = next.into_inner();
            Ok(Went { feed, fault })
        }
        Err(stop) => Err(print_before(alloc, stop, out)),
    }
}

/// Ends a feed, prints what comes of a last line without its line feed, and answers the fault that ends it.
fn print_end<O: Sink>(
    alloc: Global,
    run: &Run,
    feed: Feed,
    out: &mut O,
) -> Result<Option<Fault>, Stop>
    requires { is_of feed run.now }
    ensures ended { IfOk result (CameToEnd feed (seen_sink O.held O.faults out.old out.new)) }
    ensures stopped { IfErr result (WhyEndStopped feed (seen_sink O.held O.faults out.old out.new)) }
    ensures later { O.faults out.old ≤ O.faults out.new }
{
    match feed.end(alloc, run) {
        Ok((names, items)) => print_items(alloc, &names, items, out),
        Err(stop) => Err(print_before(alloc, stop, out)),
    }
}

/// How many bytes to ask for behind so many. Where an input may have no more, one is asked for, to see whether it has.
fn piece_length(from: u64, batch: u64) -> u64
    requires within { from ≤ AT_MOST }
    requires some { 0 < batch }
    ensures some { 0 < result }
    ensures few { result ≤ batch }
    ensures within { from < AT_MOST → from + result ≤ AT_MOST }
{
    batch.min((MOST_INPUT - from).max(1))
}

/// The bytes of an input from a place on, as many as there are and at most so many.
fn read_piece<F: Files>(
    alloc: Global,
    files: &mut F,
    name: &[u8],
    from: u64,
    most: u64,
) -> Result<Bytes, Stop>
    requires { 0 < most }
    ensures part { IfOk result (λ bytes. IfSome (F.bytes_of files.old name.now) (λ told. bytes ≡ take most (drop from told))) }
    ensures within { IfOk result (λ bytes. length bytes ≤ most) }
    ensures unread { IfErr result (WhyPartUnread (seen_file F.bytes_of F.faults files.old files.new name.now)) }
    ensures later { (any : List ℕ) → F.faults files.old any ≤ F.faults files.new any }
    ensures same { (any : List ℕ) → F.bytes_of files.new any ≡ F.bytes_of files.old any }
    ensures asked { F.asked files.new ≡ max (F.asked files.old) most }
{
    match files.read_part(alloc, name, from, most) {
        Ok(bytes) => Ok(bytes),
        Err(FilesFault::ReadFault) => Err(Stop::Unread(Which::Input)),
        Err(FilesFault::Memory) => Err(Stop::Memory),
        Err(FilesFault::TooLarge) => unreachable!(),
    }
}

/// Reads an input piece by piece, prints what comes of each before the next is read, and answers the fault that ends it. Behind a fault or a
/// refused line nothing is read.
fn print_pieces<F: Files, O: Sink>(
    alloc: Global,
    run: &Run,
    feed: Feed,
    input_name: &[u8],
    batch: u32,
    files: &mut F,
    out: &mut O,
) -> Result<Option<Fault>, Stop>
    requires made_by { is_of feed run.now }
    requires some { 0 < batch }
    ensures done { IfOk result (λ fault. (claim : SomeClaim) → Starts run.now claim feed
        → HasFed (fed_by run.now claim (names_of feed)) (seen_file F.bytes_of F.faults files.old files.new input_name.now) (seen_sink O.held O.faults out.old out.new) fault) }
    ensures stopped { IfErr result (λ why. (claim : SomeClaim) → Starts run.now claim feed
        → WhyNotFed (fed_by run.now claim (names_of feed)) (seen_file F.bytes_of F.faults files.old files.new input_name.now) (seen_sink O.held O.faults out.old out.new) why) }
    ensures same { (name : List ℕ) → F.bytes_of files.new name ≡ F.bytes_of files.old name }
    ensures later { (name : List ℕ) → F.faults files.old name ≤ F.faults files.new name }
    ensures asked { F.asked files.new ≤ max (F.asked files.old) batch }
    ensures out_later { O.faults out.old ≤ O.faults out.new }
{
    let mut engine = Held { value: feed };
    let mut from: u64 = 0;
    loop {
        let bytes = read_piece(
            alloc,
            files,
            input_name,
            from,
            piece_length(from, batch as u64),
        )?;
        if bytes.is_empty() {
            return print_end(alloc, run, engine.into_inner(), out);
        }
        if from == MOST_INPUT {
            return Err(Stop::Refused(Refusal::TooLarge(Which::Input)));
        }
        let Went { feed, fault } = print_piece(
            alloc,
            run,
            engine.into_inner(),
            bytes.as_slice(),
            out,
        )?;
        engine = Held { value: feed };
        if fault.is_some() {
            return Ok(fault);
        }
        from += bytes.len() as u64;
    }
}

/// Feeds an input to the network of a program on one thread. The fuel is that of each call of a box, and the depth how many replicas a star
/// may have.
pub(crate) fn feed_program<F: Files, O: Sink>(
    alloc: Global,
    program: Program,
    input_name: &[u8],
    batch: u32,
    fuel: u64,
    depth: u32,
    files: &mut F,
    out: &mut O,
) -> Result<Option<Fault>, Stop>
    requires limits { AreLimits (limits_of fuel depth) }
    requires some { 0 < batch }
    requires formed { FitsBoxes program.boxes program.claim.net }
    requires accepted { IsAccepted program.boxes program.claim }
    requires known { Knows (is_known program.names) program.boxes program.claim.net }
    ensures done { IfOk result (HasFed (fed_of (limits_of fuel depth) program) (seen_file F.bytes_of F.faults files.old files.new input_name.now) (seen_sink O.held O.faults out.old out.new)) }
    ensures stopped { IfErr result (WhyNotFed (fed_of (limits_of fuel depth) program) (seen_file F.bytes_of F.faults files.old files.new input_name.now) (seen_sink O.held O.faults out.old out.new)) }
    ensures same { (name : List ℕ) → F.bytes_of files.new name ≡ F.bytes_of files.old name }
    ensures later { (name : List ℕ) → F.faults files.old name ≤ F.faults files.new name }
    ensures asked { F.asked files.new ≤ max (F.asked files.old) batch }
    ensures out_later { O.faults out.old ≤ O.faults out.new }
{
    let Program {
        names,
        boxes,
        claim,
    } = program;
    let net = claim.net.copy(alloc)?;
    let run = Run::new(net, boxes, fuel, depth, DEFAULT_QUEUE, Items::new(alloc));
    let run = Held { value: run };
    let claim = Held { value: claim };
    let feed = Feed::new(alloc, &run.value, &claim.value, names)?;
    print_pieces(alloc, &run.value, feed, input_name, batch, files, out)
}
