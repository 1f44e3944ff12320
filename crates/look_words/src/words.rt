//! What words ask for.

use crate::commands::look_command;
use clap::error::ErrorKind;
use clap::{ArgMatches, Error};
use std::alloc::{AllocError, Global};

/// The run that is asked about.
#[derive(Clone, Copy, Debug, Drop)]
pub struct Run<'a> {
    /// The path of the program's file.
    pub program: &'a str,
    /// The text of the query.
    pub query: &'a str,
    /// The greatest number of transitions.
    pub budget: Option<u64>,
}

/// What is asked about a run.
#[derive(Debug, Drop)]
pub enum Question<'a> {
    /// How it ended.
    Answer,
    /// Each firing.
    Firings,
    /// How the constraint of an identity came and went.
    Life(u64),
    /// What it cost.
    Profile,
    /// A page to look at.
    Page,
    /// Why the rule of a label does not fire with these, or where there are none with those of the store: where the run stands, or after so many
    /// transitions.
    Why(&'a str, Vec<u64>, Option<u64>),
}

/// What the words ask for.
#[derive(Debug, Drop)]
pub enum Request<'a> {
    /// A question about a run.
    Look(Question<'a>, Run<'a>),
    /// What is wrong with the program in the file of a path, and with a query over it where there is one.
    Check(&'a str, Option<&'a str>),
    /// This text of help.
    Help(String),
    /// Nothing that there is, for the reason in this text.
    Refused(String),
}

/// The run that words name.
fn run_of<'a>(matches: &ArgMatches<'a>) -> Option<Run<'a>> {
    Some(Run {
        program: matches.get_str("PROGRAM")?,
        query: matches.get_str("QUERY")?,
        budget: matches.get_one::<u64>("budget"),
    })
}

/// The identities that words name.
fn ids_of(alloc: Global, matches: &ArgMatches<'_>) -> Result<Vec<u64>, AllocError> {
    let mut ids = Vec::new(alloc);
    if let Some(values) = matches.get_many::<u64>("ID") {
        // The parser of the argument has taken each of them.
        for id in values {
            if let Ok(id) = id {
                ids.push(id)?;
            }
        }
    }
    Ok(ids)
}

/// What the words of a command ask about a run.
fn question_of<'a>(
    alloc: Global,
    name: &str,
    matches: &ArgMatches<'a>,
) -> Result<Option<Question<'a>>, AllocError> {
    let question = match name {
        "answer" => Question::Answer,
        "firings" => Question::Firings,
        "profile" => Question::Profile,
        "page" => Question::Page,
        "life" => match matches.get_one::<u64>("ID") {
            Some(id) => Question::Life(id),
            None => return Ok(None),
        },
        _ => match matches.get_str("RULE") {
            Some(rule) => {
                let at = matches.get_one::<u64>("at");
                Question::Why(rule, ids_of(alloc, matches)?, at)
            }
            None => return Ok(None),
        },
    };
    Ok(Some(question))
}

/// The program and the query that words have checked.
fn check_of<'a>(matches: &ArgMatches<'a>) -> Option<Request<'a>> {
    Some(Request::Check(matches.get_str("PROGRAM")?, matches.get_str("QUERY")))
}

/// What words that were taken ask for.
fn taken<'a>(alloc: Global, matches: &ArgMatches<'a>) -> Result<Option<Request<'a>>, AllocError> {
    let Some((name, matches)) = matches.subcommand() else {
        return Ok(None);
    };
    if name == "check" {
        return Ok(check_of(matches));
    }
    let Some(question) = question_of(alloc, name, matches)? else {
        return Ok(None);
    };
    match run_of(matches) {
        Some(run) => Ok(Some(Request::Look(question, run))),
        None => Ok(None),
    }
}

/// What is said in place of an answer.
fn refusal_of<'a>(alloc: Global, error: &Error) -> Result<Request<'a>, AllocError> {
    match error.kind() {
        ErrorKind::OutOfMemory => Err(AllocError),
        ErrorKind::DisplayHelp => Ok(Request::Help(format!(in alloc; "{error}")?)),
        _ => Ok(Request::Refused(format!(in alloc; "{error}")?)),
    }
}

/// What the words after the program's name ask for, as `clap` reads them.
pub fn asked<'a>(alloc: Global, words: &'a [String]) -> Result<Request<'a>, AllocError> {
    match look_command(alloc)?.try_get_matches_from(words) {
        Ok(matches) => match taken(alloc, &matches)? {
            Some(request) => Ok(request),
            None => Ok(Request::Refused(format!(in alloc; "look: nothing is asked")?)),
        },
        Err(error) => refusal_of(alloc, &error),
    }
}
