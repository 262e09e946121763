//! The commands of snet that need one thread alone: `once`, `check` and `print`. It stands on fewer crates than snet, and so is built
//! sooner, and answers by the same call.
#![tactic(auto)]

use sn_io::{StdFiles, StdSink, write_whole};
use sn_plain::serve_alone;
use std::alloc::Global;
use std::process::ExitCode;
use std::rt::Env;
use std::{env, io};

/// The exit status where the system does not give the words. It is the number of no status.
const NO_WORDS: u8 = 14;

/// The exit status where the command needs workers, which this program has not. It is the number of no status either.
const NO_WORKERS: u8 = 15;

/// The words of the command line after the program's name.
fn words<R: Env + Alloc<A = Global>>(rt: &R) -> io::Result<Vec<String>> {
    Ok(env::args(rt)?.skip(1).collect(rt.alloc())?)
}

fn main(rt: HostRuntime) -> ExitCode {
    let Ok(words) = words(&rt) else {
        return ExitCode::from(NO_WORDS);
    };
    let mut err = StdSink::new(rt.stderr());
    let status = serve_alone(
        rt.alloc(),
        words.as_slice(),
        &mut StdFiles::new(&rt),
        &mut StdSink::new(rt.stdout()),
        &mut err,
    );
    let Some(status) = status else {
        let _ = write_whole(
            &mut err,
            b"plain: run and sample need workers, which snet has\n",
        );
        return ExitCode::from(NO_WORKERS);
    };
    let code = status.code();
    prove!(code != NO_WORDS && code != NO_WORKERS);
    ExitCode::from(code)
}
