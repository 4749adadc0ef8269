//! The program `fastpass`: the words, standard input, standard output and standard error, given to the arbiter's `run`.
#![tactic(auto)]

use fastpass_run::run;
use fp_edge::{OpenGate, StdSink, StdSource};
use std::env;
use std::io::{self, ErrorKind};
use std::process::ExitCode;

/// The status where the words cannot be had for want of memory, as for any other want of it.
const MEMORY: u8 = 5;

/// The status where the words cannot be had for another cause.
const UNREADABLE: u8 = 8;

fn main(rt: HostRuntime) -> ExitCode {
    let args = match args_of(&rt) {
        Ok(args) => args,
        Err(error) if error.kind() == ErrorKind::OutOfMemory => return ExitCode::from(MEMORY),
        Err(_) => return ExitCode::from(UNREADABLE),
    };
    let mut words = Vec::new(rt.alloc());
    for arg in args.iter().skip(1) {
        if words.push(arg.as_str()).is_err() {
            return ExitCode::from(MEMORY);
        }
    }
    let mut src = StdSource::new(rt.stdin());
    let mut out = StdSink::new(rt.stdout());
    let mut notes = StdSink::new(rt.stderr());
    ExitCode::from(run(
        &rt,
        rt.alloc(),
        &words,
        &mut src,
        &mut out,
        &mut notes,
        &OpenGate,
    ))
}

/// The program's name and the words after it.
fn args_of(rt: &HostRuntime) -> io::Result<Vec<String>> {
    let mut args = Vec::new(rt.alloc());
    for arg in env::args(rt)? {
        args.push(arg)?;
    }
    Ok(args)
}
