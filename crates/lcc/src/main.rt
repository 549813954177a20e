//! The program: it hands its words and its three streams to the one call that does the work.
#![tactic(auto)]

use lcc_base::{Memory, StdSink, StdSource};
use lcc_top::{Status, top};
use std::process::ExitCode;
use std::rt::Env;
use std::{env, io};

/// The words behind the program's name. Words that aren't text are no command, and count as none.
fn words<R: Env + AllocGlobal>(rt: &R) -> Result<Vec<String>, Memory> {
    match env::args(rt) {
        Ok(args) => Ok(args.skip(1).collect(rt.alloc())?),
        Err(error) if error.kind() == io::ErrorKind::OutOfMemory => Err(Memory),
        Err(_) => Ok(Vec::new(rt.alloc())),
    }
}

fn main(rt: HostRuntime) -> ExitCode {
    let mut input = StdSource::new(rt.stdin());
    let mut output = StdSink::new(rt.stdout());
    let mut report = StdSink::new(rt.stderr());
    let status = match words(&rt) {
        Ok(words) => top(rt.alloc(), &words, &mut input, &mut output, &mut report),
        Err(Memory) => Status::Memory,
    };
    ExitCode::from(status.number())
}
