//! The words that the program takes.

use clap::{Arg, Command, value_parser};
use std::alloc::{AllocError, Global};

/// A command that asks about a run: it takes a program, a query, and perhaps a budget.
fn question<'a>(alloc: Global, name: &'a str, about: &'a str) -> Result<Command<'a>, AllocError> {
    let program = Arg::new(alloc, "PROGRAM")
        .required(true)
        .help("The file of the program");
    let query = Arg::new(alloc, "QUERY")
        .required(true)
        .help("The text of the query");
    let budget = Arg::new(alloc, "budget")
        .long("budget")
        .value_name("N")
        .value_parser(value_parser!(u64))
        .help("The greatest number of transitions, 100000 where not given");
    Command::new(alloc, name)
        .about(about)
        .arg(program)?
        .arg(query)?
        .arg(budget)
}

/// The same, of a constraint.
fn life<'a>(alloc: Global) -> Result<Command<'a>, AllocError> {
    let id = Arg::new(alloc, "ID")
        .required(true)
        .value_parser(value_parser!(u64))
        .help("The identity of the constraint");
    question(
        alloc,
        "life",
        "Tells how a constraint came, which firing made it, and how it went",
    )?
    .arg(id)
}

/// The same, of a rule and a list of constraints.
fn why<'a>(alloc: Global) -> Result<Command<'a>, AllocError> {
    let rule = Arg::new(alloc, "RULE")
        .required(true)
        .help("The label of the rule, or #k for the k-th one");
    let ids = Arg::new(alloc, "ID")
        .num_args(1..)
        .value_parser(value_parser!(u64))
        .help(
            "The identities of the constraints, in the order of the rule's heads; all lists of the store where there are none",
        );
    let at = Arg::new(alloc, "at")
        .long("at")
        .value_name("K")
        .value_parser(value_parser!(u64))
        .help("Tells it of the state after K transitions, and not of the last one");
    question(
        alloc,
        "why",
        "Tells why a rule does not fire: with a list of constraints, or with those of the store",
    )?
    .arg(rule)?
    .arg(ids)?
    .arg(at)
}

/// A command that looks at texts alone: it takes a program, and perhaps a query.
fn check<'a>(alloc: Global) -> Result<Command<'a>, AllocError> {
    let program = Arg::new(alloc, "PROGRAM")
        .required(true)
        .help("The file of the program");
    let query = Arg::new(alloc, "QUERY").help("The text of the query");
    Command::new(alloc, "check")
        .about("Shows what is wrong with a program, and with a query over it")
        .arg(program)?
        .arg(query)
}

/// All that the program takes.
pub(crate) fn look_command<'a>(alloc: Global) -> Result<Command<'a>, AllocError> {
    Command::new(alloc, "look")
        .no_binary_name(true)
        .subcommand_required(true)
        .about(
            "Answers questions about the run of a query over a program of Constraint Handling Rules",
        )
        .subcommand(question(alloc, "answer", "Shows how the run ended")?)?
        .subcommand(question(alloc, "firings", "Shows each firing with its constraints")?)?
        .subcommand(life(alloc)?)?
        .subcommand(question(
            alloc,
            "profile",
            "Shows what the run cost, by heads, rules and kinds",
        )?)?
        .subcommand(why(alloc)?)?
        .subcommand(question(
            alloc,
            "page",
            "Writes a page of the run for a browser: each transition, and how it left the run",
        )?)?
        .subcommand(check(alloc)?)
}
