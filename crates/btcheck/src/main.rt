//! Checks the hash trees of BitTorrent version 2.
#![tactic(auto)]

use command_line::{ExplainFault, action, explain};
use performing::perform;
use printing::{Fault, OUTPUT};
use real_files::{System, print_fault};
use std::process::ExitCode;
use std::{env, io};

// All arguments of the command line, the program's name first.
fn all_arguments(rt: &HostRuntime) -> Result<Vec<String>, Fault<'static>> {
    match env::args(rt) {
        Ok(arguments) => Ok(arguments.collect(rt.alloc())?),
        Err(error) if error.kind() == io::ErrorKind::OutOfMemory => Err(Fault::NoMemory),
        Err(_) => Err(Fault::NotUtf8),
    }
}

// Does what the arguments ask for, or says why they were refused. Gives the exit status.
fn run<'a>(system: &System, rt: &HostRuntime, line: &'a [&'a str]) -> Result<u8, Fault<'a>> {
    match action(rt.alloc(), line) {
        Ok(asked) => perform(system, &asked),
        Err(error) => match explain(rt, &error) {
            Ok(status) => Ok(status),
            Err(ExplainFault::NoMemory) => Err(Fault::NoMemory),
            Err(ExplainFault::Write) => Err(Fault::Write(OUTPUT)),
        },
    }
}

fn main(rt: HostRuntime) -> ExitCode {
    let system = System::new(&rt);
    let owned = match all_arguments(&rt) {
        Ok(owned) => owned,
        Err(fault) => return print_fault(&system, &fault),
    };
    let Ok(line) = owned
        .iter()
        .map(|argument| argument.as_str())
        .collect::<Vec<&str>>(rt.alloc())
    else {
        return print_fault(&system, &Fault::NoMemory);
    };
    match run(&system, &rt, line.as_slice()) {
        Ok(status) => ExitCode::from(status),
        Err(fault) => print_fault(&system, &fault),
    }
}
