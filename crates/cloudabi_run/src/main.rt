//! `cloudabi-run PROGRAM`: runs a program on the launch text of standard input, and prints its report. `cloudabi-run --generate N` generates
//! a program and its inputs, runs it, and prints a summary.
#![tactic(auto)]

use host_files::{FileSource, OutSink};
use launch_run::{LaunchRefusal, OpenGate, asks_to_generate, run_generated, run_launch};
use std::process::ExitCode;
use std::rt::Env;
use std::{env, fs, io};

// The words of the command line. Words that aren't text are refused like words that aren't in the grammar.
fn command_line(rt: &(impl Env + AllocGlobal)) -> Result<Vec<String>, LaunchRefusal<'static>> {
    match env::args(rt) {
        Ok(args) => args.collect(rt.alloc()).map_err(|_| LaunchRefusal::Memory),
        Err(error) if error.kind() == io::ErrorKind::OutOfMemory => Err(LaunchRefusal::Memory),
        Err(_) => Err(LaunchRefusal::Words),
    }
}

fn main(rt: HostRuntime) -> ExitCode {
    // The number of a standard stream that is closed goes to the file that is opened next. A directory can be neither read
    // nor written, so no file of the launch is taken for standard input, and none for standard output.
    let _numbers = (fs::open(&rt, "/"), fs::open(&rt, "/"));
    let mut sink = OutSink::new(&rt);
    let status = match command_line(&rt) {
        Ok(words) => {
            if asks_to_generate(&words) {
                run_generated(&rt, rt.alloc(), &words, &OpenGate, &mut sink).status
            } else {
                let mut source = FileSource::new(rt.alloc(), &rt);
                run_launch(&rt, rt.alloc(), &words, &OpenGate, &mut source, &mut sink).status
            }
        }
        Err(refusal) => {
            let _ = refusal.write_line(&mut sink);
            refusal.status()
        }
    };
    ExitCode::from(status)
}
