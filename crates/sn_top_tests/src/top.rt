ghost use Rattle.std.specs.Prelude.{◌≡◌, IfOk, true};
ghost use Rattle.sn_words.specs.Command.{IsInRange};
ghost use Rattle.sn_plain.specs.Answer.{is_plain};

use crate::served::{Served, files, serve_files, sink, try_files, try_sink};
use sn_io::OpenGate;
use sn_list::{Memory, Seq};
use sn_top::{Command, DEFAULT_DEPTH, DEFAULT_FUEL, Status, serve_plain};
use std::alloc::Global;

const SOURCE: &[u8] = b"net main ({a} -> {b}) connect [{a} -> {b=a}];";

const INPUT: &[u8] = b"{a=1}\n{a=2, <t>=7}\n";

const OUTPUT: &[u8] = b"{b=1}\n{b=2, <t>=7}\n";

fn command(alloc: Global) -> Result<Command, Memory>
    ensures plain { IfOk result (λ command. is_plain command ≡ true) }
    ensures numbers { IfOk result IsInRange }
{
    let source = Seq::from_slice(alloc, b"s")?;
    let input = Seq::from_slice(alloc, b"i")?;
    Ok(Command::Once {
        source,
        input,
        fuel: DEFAULT_FUEL,
        depth: DEFAULT_DEPTH,
    })
}

/// What may be left where memory may be wanted: all of the output, or some first bytes of it and of the line.
fn is_allowed(served: &Served) -> bool {
    match served.status {
        Status::Ok => served.out.held() == OUTPUT && served.err.held().is_empty(),
        Status::Memory => {
            OUTPUT.starts_with(served.out.held()) && b"memory\n".starts_with(served.err.held())
        }
        _ => false,
    }
}

/// What is served, if the test itself finds memory to start with.
fn try_serve(alloc: Global) -> Result<Served, Memory> {
    let command = command(alloc)?;
    let mut stored = try_files(alloc, SOURCE, INPUT)?;
    let mut out = try_sink(alloc, 64)?;
    let mut err = try_sink(alloc, 64)?;
    let status = serve_plain(alloc, &command, &mut stored, &mut out, &mut err);
    Ok(Served { status, out, err })
}

/// Run with the first allocation refused, then with the second, and so on. That the test itself finds no memory to
/// start with is no fault of the call.
#[test]
fn wanted_memory_is_told(rt: HostRuntime) {
    if let Ok(served) = try_serve(rt.alloc()) {
        assert!(rt; is_allowed(&served));
    }
}

#[test]
fn words_are_served(rt: HostRuntime) {
    for command in ["once", "run"] {
        let words = [command, "s", "i"];
        let stored = files(&rt, rt.alloc(), SOURCE, INPUT);
        let out = sink(&rt, rt.alloc(), 64);
        let served = serve_files(&rt, rt.alloc(), &words, stored, out, &OpenGate);
        assert!(rt; served.is(Status::Ok, OUTPUT, b""), "{command}");
    }
}
