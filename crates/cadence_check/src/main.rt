//! Checks contracts and programs together, before anything is deployed: a JSON line comes in for each, and a verdict goes out.
#![tactic(auto)]

mod judge;
mod reply;
mod request;
mod telling;
mod verdict;

use cad_syntax::Text;
use reply::{no_text, reply_to};
use std::alloc::{AllocError, Global};
use std::env;
use std::io::{self, BufRead, BufReader, ErrorKind};
use std::process::ExitCode;
use telling::{told_of, told_of_no_text};

/// What is written for each line.
#[derive(Clone, Copy)]
enum Form {
    /// A reply line.
    Reply,
    /// Lines for people.
    Text,
}

/// The form that one more word asks for; None where it is none of the program's words, or stands behind one.
fn form_with(found: Option<Form>, word: &str) -> Option<Form> {
    match found {
        Some(Form::Reply) if word == "--text" => Some(Form::Text),
        _ => None,
    }
}

/// The form that the words behind the program's name ask for; None where they are no words of its.
fn form_by_words(rt: &HostRuntime) -> io::Result<Option<Form>> {
    let mut found = Some(Form::Reply);
    for word in env::args(rt)?.skip(1) {
        found = form_with(found, word.as_str());
    }
    Ok(found)
}

/// What is written for a line.
fn written(alloc: Global, form: Form, line: &[u8]) -> Result<Text, AllocError> {
    match form {
        Form::Reply => reply_to(alloc, line),
        Form::Text => told_of(alloc, line),
    }
}

/// What is written for a line that isn't UTF-8.
fn written_of_no_text(alloc: Global, form: Form) -> Result<Text, AllocError> {
    match form {
        Form::Reply => no_text(alloc),
        Form::Text => told_of_no_text(alloc),
    }
}

/// Writes what is asked for of each line of the input.
fn run(rt: &HostRuntime, form: Form) -> io::Result<()> {
    let alloc = rt.alloc();
    for line in BufReader::new(alloc, rt.reader())?.lines(alloc) {
        let text = match line {
            Ok(line) => written(alloc, form, line.as_bytes())?,
            Err(fault) => {
                if fault.kind() != ErrorKind::InvalidData {
                    return Err(fault);
                }
                written_of_no_text(alloc, form)?
            }
        };
        let shown = text.as_str();
        println!(rt; "{shown}")?;
    }
    Ok(())
}

/// The status of a run: 2 for words that are none of the program's, 1 after a fault.
fn main(rt: HostRuntime) -> ExitCode {
    let done = match form_by_words(&rt) {
        Ok(Some(form)) => run(&rt, form),
        Ok(None) => {
            let _ = eprintln!(rt; "cadence_check: usage: cadence_check [--text]");
            return ExitCode::from(2);
        }
        Err(fault) => Err(fault),
    };
    match done {
        Ok(()) => ExitCode::from(0),
        Err(fault) => {
            let _ = eprintln!(rt; "cadence_check: {fault}");
            ExitCode::from(1)
        }
    }
}
