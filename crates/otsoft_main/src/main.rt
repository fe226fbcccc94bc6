//! The program `otsoft`: the system's files and streams, handed to the top call.
//!
//! The adapters are proved against the traits of files and sinks. They tell no bytes: that the system gives and takes the
//! bytes of the files is trusted.
#![tactic(auto)]

mod files;
mod sink;

use files::SystemFiles;
use ot_base::NoGate;
use otsoft_run::run;
use sink::SystemSink;
use std::alloc::AllocError;
use std::io;
use std::process::ExitCode;

/// The words after the program's name.
fn words(rt: &HostRuntime) -> io::Result<Vec<String>> {
    let mut words = Vec::new(rt.alloc());
    for word in std::env::args(rt)?.skip(1) {
        words.push(word).map_err(AllocError::from)?;
    }
    Ok(words)
}

fn main(rt: HostRuntime) -> ExitCode {
    let words = match words(&rt) {
        Ok(words) => words,
        Err(error) if error.kind() == io::ErrorKind::OutOfMemory => {
            let _ = eprintln!(rt; "otsoft: out of memory");
            return ExitCode::from(6);
        }
        // Words that are not UTF-8 give no settings, as none do.
        Err(_) => Vec::new(rt.alloc()),
    };
    let mut files = SystemFiles::new(&rt);
    let mut out = SystemSink::new(rt.stdout());
    let mut err = SystemSink::new(rt.stderr());
    let ended = run(
        &rt,
        rt.alloc(),
        words.as_slice(),
        &mut files,
        &mut out,
        &mut err,
        &NoGate,
    );
    ExitCode::from(ended.status.code())
}
