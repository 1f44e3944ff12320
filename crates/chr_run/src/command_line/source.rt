//! The program and the query that the words of the command line name.
ghost use Rattle.std.specs.Prelude.{◌≡◌, IfErr, IfOk, option_map};
ghost use Rattle.chr_run.specs.Command.{after_line, first_line};
ghost use Rattle.chr_run.specs.Output.{AppendsPart};
ghost use Rattle.chr_run.specs.Sources.{IsSource, missing_line, missing_text, program_in, query_in};

use crate::refusal::{say, say_unread};
use chr_words::files::read_all;
use chr_words::{Opens, read_file};
use std::alloc::Global;
use std::io::{Read, Write};

/// The text of a program, and that of a query; without the latter the first line is the query, and the rest the program.
#[derive(Drop)]
pub(super) struct Source<'q> {
    text: Vec<u8>,
    query: Option<&'q str>,
}

/// What there is none of.
#[derive(Clone, Copy, Drop)]
pub(super) enum Missing<'p> {
    Input,
    Query,
    /// The file of this path.
    File(&'p str),
}

/// The first line, without its line feed, and what stands after that.
fn split(text: &[u8]) -> (&[u8], &[u8])
    ensures line { result.0.now ≡ first_line text.now }
    ensures rest { result.1.now ≡ after_line text.now }
{
    for k in 0..text.len() {
        if text[k] == b'\n' {
            return (&text[..k], &text[k + 1..]);
        }
    }
    (text, &[])
}

impl Source<'_> {
    /// The query and the program.
    pub(super) fn texts(&self) -> (&[u8], &[u8])
        ensures query { result.0.now ≡ query_in self.now }
        ensures program { result.1.now ≡ program_in self.now }
    {
        match self.query {
            None => split(self.text.as_slice()),
            Some(query) => (query.as_bytes(), self.text.as_slice()),
        }
    }
}

/// Reads the program in a file, which a query has to stand beside; or where no file is named, the input, which has both.
pub(super) fn read_source<'w, O: Opens, I: Read>(
    alloc: Global,
    program: Option<&'w str>,
    query: Option<&'w str>,
    files: &O,
    input: &mut I,
) -> Result<Source<'w>, Missing<'w>>
    ensures ok { IfOk result (IsSource (option_map (λ t. t.now) program.entry) (option_map (λ t. t.now) query.entry)
        (O.bytes_of files.now) (I.remaining input.old)) }
    ensures err { IfErr result (λ missing. missing_text missing
        ≡ missing_line (option_map (λ t. t.now) program.entry) (option_map (λ t. t.now) query.entry)) }
{
    match (program, query) {
        (None, _) => match read_all(alloc, input) {
            Some(text) => Ok(Source { text, query: None }),
            None => Err(Missing::Input),
        },
        (Some(_), None) => Err(Missing::Query),
        (Some(path), Some(query)) => match read_file(alloc, files, path) {
            Some(text) => Ok(Source {
                text,
                query: Some(query),
            }),
            None => Err(Missing::File(path)),
        },
    }
}

/// Says what is missing, as far as it can be written.
pub(super) fn say_missing<E: Write>(error: &mut E, missing: Missing<'_>)
    ensures { AppendsPart (E.contents error.old) (E.contents error.new) (missing_text missing.entry) }
{
    match missing {
        Missing::Input => say(error, &["chr: cannot read\n"]),
        Missing::Query => say(error, &["chr: QUERY is missing\n"]),
        Missing::File(path) => say_unread(error, path),
    }
}
