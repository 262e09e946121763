//! The program: it makes the real files and sinks, makes the top call, and ends with the number of its status.
#![tactic(auto)]

use sn_io::{OpenGate, StdFiles, StdSink};
use sn_top::serve_words;
use std::alloc::Global;
use std::process::ExitCode;
use std::rt::Env;
use std::{env, io};

/// The exit status where the system does not give the words. It is the number of no status.
const NO_WORDS: u8 = 14;

/// The words of the command line after the program's name.
fn words<R: Env + Alloc<A = Global>>(rt: &R) -> io::Result<Vec<String>> {
    Ok(env::args(rt)?.skip(1).collect(rt.alloc())?)
}

fn main(rt: HostRuntime) -> ExitCode {
    let Ok(words) = words(&rt) else {
        return ExitCode::from(NO_WORDS);
    };
    let status = serve_words(
        &rt,
        rt.alloc(),
        words.as_slice(),
        &mut StdFiles::new(&rt),
        &mut StdSink::new(rt.stdout()),
        &mut StdSink::new(rt.stderr()),
        &OpenGate,
    );
    let code = status.code();
    prove!(code != NO_WORDS);
    ExitCode::from(code)
}
