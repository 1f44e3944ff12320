//! Answers questions about the run of a query over a program of Constraint Handling Rules.
//!
//! `look answer PROGRAM QUERY` shows how the run ended, `look firings PROGRAM QUERY` each firing, `look life PROGRAM QUERY ID` how a constraint
//! came and went, `look profile PROGRAM QUERY` what the run cost, `look why PROGRAM QUERY RULE ID ..` why a rule does not fire with a list of
//! constraints, and `look check PROGRAM` what is wrong with a program; `look page PROGRAM QUERY` writes a page of the run for a browser.
#![tactic(auto)]

use chr_words::Disk;
use look_run::command;
use std::io::{Error, ErrorKind};
use std::process::ExitCode;
use std::{env, io, thread};

/// The bytes of stack of the thread that runs a program: a term may be nested as deep as its text is long, and a text has up to 2^20 bytes.
const STACK: usize = 0x4000_0000;

/// The exit status where there is no answer.
const REFUSED: u8 = 2;

/// What is said where the words are no text, or where there is no memory for them or for the stack.
fn line(error: &Error) -> &'static str {
    match error.kind() {
        ErrorKind::InvalidData => "error: invalid UTF-8 was detected in one or more arguments",
        _ => "look: Memory",
    }
}

fn main(rt: HostRuntime) -> io::Result<ExitCode> {
    let rt = &rt;
    let run = || -> io::Result<u8> {
        let words: Vec<String> = env::args(rt)?.skip(1).collect(rt.alloc())?;
        let run = || {
            command(
                rt.alloc(),
                words.as_slice(),
                &Disk(rt),
                &mut rt.stdout(),
                &mut rt.stderr(),
            )
        };
        thread::scope(thread::scope_env(), rt, |scope| {
            let large = thread::Builder::new().stack_size(STACK);
            Ok(large.spawn_scoped(scope, run)?.join(rt))
        })
    };
    match run() {
        Ok(status) => Ok(ExitCode::from(status)),
        Err(error) => {
            eprintln!(rt; "{}", line(&error))?;
            Ok(ExitCode::from(REFUSED))
        }
    }
}
