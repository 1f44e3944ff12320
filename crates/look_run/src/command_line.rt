//! The program `look`: what it reads, what it writes, and its exit status.

use crate::answering::answer;
use crate::checked::{Source, write_checked};
use crate::page::Page;
use crate::reading::read_texts;
use crate::refusal::Refusal;
use crate::showing::Titles;
use chr_machine::Status;
use chr_semantics::limits::MAX_TRANSITIONS;
use chr_words::files::write_all;
use chr_words::{Opens, asks_version, read_file};
use look_words::{Question, Request, Run, asked};
use std::alloc::{AllocError, Global};
use std::io::Write;

/// The budget of a run where the words give none.
const BUDGET: u64 = 100_000;

/// What `--version` answers: the version, and the kit that proved it.
const VERSION: &str = "look 0.1.0\nrattle-kit-13f logic dac8208d650f15bf\n";

/// The exit status where there is no answer.
const REFUSED: u8 = 2;

/// The exit status of a run.
fn status_code(status: Status) -> u8 {
    match status {
        Status::Done => 0,
        Status::Failed => 3,
        Status::Faulted(_) => 4,
        Status::Running => 5,
    }
}

/// Says why there is no answer, as far as it can be written.
fn refuse<E: Write>(alloc: Global, error: &mut E, refusal: Refusal) -> u8 {
    let text: Result<String, AllocError> = format!(in alloc; "look: {refusal}\n");
    let said = match &text {
        Ok(text) => text.as_str(),
        Err(_) => "look: Memory\n",
    };
    // What cannot be said is not said.
    let _ = write_all(error, said.as_bytes());
    REFUSED
}

/// Says all that is wrong with texts that are refused.
fn tell<E: Write>(
    alloc: Global,
    program: Source<'_>,
    query: &str,
    error: &mut E,
) -> Result<u8, Refusal> {
    let mut page = Page::new(alloc);
    write_checked(alloc, program, Some(query), &mut page)?;
    let _ = write_all(error, page.whole()?);
    Ok(REFUSED)
}

/// Answers a question about the run that words name, of n transitions or fewer of the program with this text.
fn answer_text<W: Write>(
    alloc: Global,
    question: &Question<'_>,
    run: Run<'_>,
    program: &[u8],
    n: u64,
    output: &mut W,
) -> Result<u8, Refusal> {
    let texts = read_texts(alloc, program, run.query.as_bytes())?;
    let titles = Titles {
        file: run.program,
        program,
        query: run.query,
    };
    let status = answer(alloc, question, &texts, titles, n, output)?;
    Ok(status_code(status))
}

/// Answers a question about the run that words name, or says what is wrong with its texts.
fn look<O: Opens, W: Write, E: Write>(
    alloc: Global,
    question: &Question<'_>,
    run: Run<'_>,
    files: &O,
    output: &mut W,
    error: &mut E,
) -> Result<u8, Refusal> {
    let n = run.budget.unwrap_or(BUDGET);
    if n > MAX_TRANSITIONS {
        return Err(Refusal::BudgetTooLarge);
    }
    let program = read_file(alloc, files, run.program).ok_or(Refusal::Unreadable)?;
    let source = Source {
        name: run.program,
        text: program.as_slice(),
    };
    match answer_text(alloc, question, run, source.text, n, output) {
        Err(Refusal::Mistaken) => tell(alloc, source, run.query, error),
        answered => answered,
    }
}

/// Shows what is wrong with the program in the file of a path, and with a query over it.
fn check<O: Opens, W: Write>(
    alloc: Global,
    path: &str,
    query: Option<&str>,
    files: &O,
    output: &mut W,
) -> Result<u8, Refusal> {
    let text = read_file(alloc, files, path).ok_or(Refusal::Unreadable)?;
    let source = Source {
        name: path,
        text: text.as_slice(),
    };
    let mut page = Page::new(alloc);
    let is_wrong = write_checked(alloc, source, query, &mut page)?;
    page.send(output)?;
    Ok(if is_wrong { REFUSED } else { 0 })
}

/// Shows a text.
fn show<W: Write>(text: &str, output: &mut W) -> Result<u8, Refusal> {
    match write_all(output, text.as_bytes()) {
        Some(()) => Ok(0),
        None => Err(Refusal::Write),
    }
}

/// Does what the words ask for.
fn does<O: Opens, W: Write, E: Write>(
    alloc: Global,
    words: &[String],
    files: &O,
    output: &mut W,
    error: &mut E,
) -> Result<u8, Refusal> {
    if asks_version(words) {
        return show(VERSION, output);
    }
    match asked(alloc, words) {
        Ok(Request::Look(question, run)) => look(alloc, &question, run, files, output, error),
        Ok(Request::Check(program, query)) => check(alloc, program, query, files, output),
        Ok(Request::Help(text)) => show(text.as_str(), output),
        Ok(Request::Refused(text)) => {
            let _ = write_all(error, text.as_bytes());
            Ok(REFUSED)
        }
        Err(_) => Err(Refusal::Memory),
    }
}

/// What the program `look` does with the words after its name: `answer`, `firings`, `life`, `profile` or `why`, then PROGRAM, the path of a
/// file, and QUERY, the text of a query, for `life` the identity of a constraint, for `why` a rule and the identities of its list, and perhaps
/// `--budget N`; or `check`, then PROGRAM and perhaps QUERY; or `--version` alone. The answer goes out; it is about a run of 100,000
/// transitions where there is no N. The answer of this call is the exit status: 0 done, 2 refused, 3 failed, 4 a fault, 5 the budget used up.
/// Where a text is refused, what is wrong with it goes out of `check`, and else to `error`; where else it is 2, a line on `error` says why.
pub fn command<O: Opens, W: Write, E: Write>(
    alloc: Global,
    words: &[String],
    files: &O,
    output: &mut W,
    error: &mut E,
) -> u8 {
    match does(alloc, words, files, output, error) {
        Ok(status) => status,
        Err(refusal) => refuse(alloc, error, refusal),
    }
}
