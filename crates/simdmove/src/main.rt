//! The program: `simdmove` over standard input, standard output and standard error.
#![tactic(auto)]

mod standard;

use simd_top::{Status, simdmove};
use standard::{StandardSink, StandardSource};
use std::io::ErrorKind;
use std::process::ExitCode;
use std::{env, io};

// The words after the program's name.
fn words_of<R: env::Env + AllocGlobal>(rt: &R) -> io::Result<Vec<String>> {
    let mut words = Vec::new(rt.alloc());
    for word in env::args(rt)?.skip(1) {
        words.push(word)?;
    }
    Ok(words)
}

fn main(rt: HostRuntime) -> ExitCode {
    let alloc = rt.alloc();
    let words = match words_of(&rt) {
        Ok(words) => words,
        // A word isn't UTF-8: it is none that the tool knows.
        Err(error) if error.kind() == ErrorKind::InvalidData => Vec::new(alloc),
        Err(_) => return ExitCode::from(Status::NoMemory.code()),
    };
    let mut source = StandardSource::new(rt.stdin());
    let mut out = StandardSink::new(rt.stdout());
    let mut report = StandardSink::new(rt.stderr());
    let status = simdmove(alloc, &words, &mut source, &mut out, &mut report);
    ExitCode::from(status.code())
}
