//! Cadence on one machine: command lines come in, and one reply line goes out for each.
#![tactic(auto)]

use cad_host::FileHost;
use cad_serve::{Status, serve};
use cad_syntax::{Items, Text};
use std::alloc::Global;
use std::env;
use std::io::ErrorKind;
use std::process::ExitCode;

// The words behind the program's name. Usage where they aren't text.
fn given_words(alloc: Global, rt: &HostRuntime) -> Result<Items<Text>, Status> {
    let arguments = match env::args(rt) {
        Ok(arguments) => arguments,
        Err(error) => {
            return match error.kind() {
                ErrorKind::OutOfMemory => Err(Status::Memory),
                _ => Err(Status::Usage),
            };
        }
    };
    let mut words = Items::new(alloc);
    for argument in arguments.skip(1) {
        if words.push(Text::from_string(argument)).is_err() {
            return Err(Status::Memory);
        }
    }
    Ok(words)
}

// The second word, or `.` where there is none.
fn folder_of(words: &[Text]) -> &str {
    match words {
        [_, folder, ..] => folder.as_str(),
        _ => ".",
    }
}

fn run(rt: &HostRuntime) -> Status {
    let alloc = rt.alloc();
    let words = match given_words(alloc, rt) {
        Ok(words) => words,
        Err(status) => return status,
    };
    let words = words.as_slice();
    let Ok(own) = rt.clone() else {
        return Status::Memory;
    };
    match FileHost::new(alloc, own, folder_of(words)) {
        Ok(mut host) => serve(alloc, words, &mut host),
        Err(_) => Status::Memory,
    }
}

fn main(rt: HostRuntime) -> ExitCode {
    let status = run(&rt);
    if let Some(line) = status.line() {
        let _ = eprintln!(rt; "{line}");
    }
    ExitCode::from(status.number())
}
