//! What could stand where a token was not expected.
ghost use Rattle.std.specs.Prelude.{◌≡◌, ◌++◌, true, IfOk, IfSome};
ghost use Rattle.chr_read.specs.Refusals.{place_of};
ghost use Rattle.chr_tokens.specs.TokenView.{place_view};
ghost use Rattle.chr_check.specs.Standing.{AreStanding, EndsAt, GoesOnIn, IsAnswerIn, IsParted, example};

use crate::candidate::{CANDIDATES, Candidate};
use chr_read::{ReadError, ReadErrorKind, read_program, read_query};
use chr_term::Memory;
use chr_tokens::{Place, Token, Unread, characters, tokens};
use std::alloc::{AllocError, Allocator};

/// Which texts are read.
#[derive(Clone, Copy, PartialEq, Eq, Debug, Drop)]
pub enum Language {
    /// A program, or a part of one up to an END.
    Program,
    /// A query.
    Query,
}

/// What is wrong with a text first, where something is.
fn error_of<A: Allocator + Copy>(alloc: A, language: Language, text: &[u8]) -> Option<ReadError>
    ensures { IsAnswerIn language text.now result }
{
    match language {
        Language::Program => match read_program(alloc, text) {
            Ok(_) => None,
            Err(error) => Some(error),
        },
        Language::Query => match read_query(alloc, text) {
            Ok(_) => None,
            Err(error) => Some(error),
        },
    }
}

/// The place where the tokens of a text end, where there is no fault among them.
fn end_of<A: Allocator + Copy>(alloc: A, text: &[u8]) -> Result<Option<Place>, Memory>
    ensures { IfOk result (λ end. IfSome end (λ place. EndsAt text.now (place_view place))) }
{
    let characters = match characters(alloc, text) {
        Ok(characters) => characters,
        Err(Unread::Memory) => return Err(AllocError),
        Err(_) => return Ok(None),
    };
    let tokens = tokens(alloc, &characters)?;
    match tokens.as_slice() {
        [.., last] => match last.token {
            Token::Over => Ok(Some(last.place)),
            _ => Ok(None),
        },
        [] => Ok(None),
    }
}

/// Whether an error stands at a place.
fn is_at(error: ReadError, place: Place) -> bool
    ensures { result ≡ true → place_of error ≡ place_view place }
{
    error.line == place.line && error.column == place.column
}

/// Whether some text of the language begins with the tokens of this one; where it does, that is found, unless a bracket too many opens.
fn goes_on<A: Allocator + Copy>(alloc: A, language: Language, text: &[u8]) -> Result<bool, Memory>
    ensures { IfOk result (λ goes. goes ≡ true → GoesOnIn language text.now) }
{
    let Some(end) = end_of(alloc, text)? else {
        return Ok(false);
    };
    match error_of(alloc, language, text) {
        None => Ok(true),
        Some(error) => match error.kind {
            ReadErrorKind::Memory => Err(AllocError),
            ReadErrorKind::Expected => Ok(is_at(error, end)),
            _ => Ok(false),
        },
    }
}

/// The front of a text, parted by a blank from a token that is to stand behind it; but a `-` stays beside its number.
fn parted<A: Allocator + Copy>(alloc: A, front: &[u8]) -> Result<Vec<u8, A>, Memory>
    ensures { IfOk result (λ text. IsParted front.now text.items) }
{
    let mut text = Vec::new(alloc);
    text.extend_from_slice(front)?;
    match front {
        [.., b'-'] => {}
        _ => text.push(b' ')?,
    }
    Ok(text)
}

/// Whether a candidate is told by a wider one.
fn is_told(told: &[Candidate], candidate: Candidate) -> bool {
    match candidate.wider() {
        Some(wider) => told.contains(&wider),
        None => false,
    }
}

/// Whether a candidate may stand behind a text, and is not told by a wider one.
fn is_found<A: Allocator + Copy>(
    alloc: A,
    language: Language,
    front: &[u8],
    told: &[Candidate],
    candidate: Candidate,
) -> Result<bool, Memory>
    ensures { IfOk result (λ found. found ≡ true → GoesOnIn language (front.now ++ example candidate)) }
{
    if is_told(told, candidate) {
        return Ok(false);
    }
    let mut text = Vec::new(alloc);
    text.extend_from_slice(front)?;
    text.extend_from_slice(candidate.example().as_bytes())?;
    goes_on(alloc, language, text.as_slice())
}

/// What may stand behind the front of a text: of each candidate, some text of the language begins with the tokens of the front and then
/// its example. The only error is want of memory.
pub fn expected<A: Allocator + Copy>(
    alloc: A,
    language: Language,
    front: &[u8],
) -> Result<Vec<Candidate, A>, Memory>
    ensures { IfOk result (λ found. AreStanding language front.now found.items) }
{
    let text = parted(alloc, front)?;
    let mut found = Vec::new(alloc);
    for candidate in CANDIDATES {
        if is_found(
            alloc,
            language,
            text.as_slice(),
            found.as_slice(),
            candidate,
        )? {
            found.push(candidate)?;
        }
    }
    Ok(found)
}
