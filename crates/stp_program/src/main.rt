//! The program `stp`: the words of the command line, the real files and the real standard output.
#![tactic(auto)]

use std::alloc::Global;
use std::process::ExitCode;
use std::{env, io};
use stp_cli::run;
use stp_io::{FileStore, OutSink};

/// The exit status where the words were not collected for want of memory.
const NO_MEMORY: u8 = 5;
/// The exit status where the words were not collected for another reason.
const NO_WORDS: u8 = 7;

/// The words of the command line, the program's name first; or the exit status where they are not to be had.
fn words(rt: &HostRuntime) -> Result<Vec<String>, u8> {
    let alloc: Global = rt.alloc();
    match env::args(rt) {
        Ok(args) => {
            let mut words = Vec::new(alloc);
            for word in args {
                if words.push(word).is_err() {
                    return Err(NO_MEMORY);
                }
            }
            Ok(words)
        }
        Err(fault) => {
            if fault.kind() == io::ErrorKind::OutOfMemory {
                Err(NO_MEMORY)
            } else {
                Err(NO_WORDS)
            }
        }
    }
}

fn main(rt: HostRuntime) -> ExitCode {
    match words(&rt) {
        Ok(words) => {
            let mut store = FileStore::new(rt);
            let mut sink = OutSink::new(rt);
            let status = run(rt.alloc(), words.as_slice(), &mut store, &mut sink);
            ExitCode::from(status.exit_number())
        }
        Err(status) => ExitCode::from(status),
    }
}
