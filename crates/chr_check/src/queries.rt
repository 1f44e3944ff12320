//! All that is wrong with the text of a query.
ghost use Rattle.std.specs.Prelude.{◌≡◌, IfOk, length};
ghost use Rattle.chr_semantics.specs.Accepted.{IsAcceptedProgram};
ghost use Rattle.chr_semantics.specs.Checked.{Checked};
ghost use Rattle.chr_check.specs.Accepted.{IsSomeQuery};

use crate::expecting::Language;
use crate::mistake::{Kind, Mistake};
use crate::pieces::Piece;
use crate::programs::symbols_of;
use crate::reading::reading_mistake;
use crate::refusal::{QueryRefusal, query_refusal};
use crate::rules::Mistaken;
use crate::spots::spots;
use chr_read::ReadError;
use chr_rules::RuleErrorKind;
use chr_term::Memory;
use chr_tokens::{Unread, characters};
use std::alloc::{AllocError, Allocator};

/// The mistake of a query that is not read.
fn unread_query<A: Allocator + Copy>(
    alloc: A,
    text: &[u8],
    error: ReadError,
) -> Result<Mistake<A>, Memory> {
    match characters(alloc, text) {
        Ok(characters) => {
            let piece = Piece {
                begin: 0,
                line: 1,
                characters: characters.as_slice(),
                bytes: text,
            };
            reading_mistake(alloc, Language::Query, piece, error)
        }
        Err(Unread::Memory) => Err(AllocError),
        Err(_) => Ok(Mistake::at(Kind::Read(error.kind), 0, 0)),
    }
}

/// The mistakes of a query that is read, over the text of a program, in the order of the places.
fn goal_mistakes<A: Allocator + Copy>(
    alloc: A,
    program: &[u8],
    text: &[u8],
    kind: RuleErrorKind,
) -> Result<Vec<Mistake<A>, A>, Memory> {
    let (program_characters, query_characters) = match (
        characters(alloc, program),
        characters(alloc, text),
    ) {
        (Ok(program), Ok(query)) => (program, query),
        (Err(Unread::Memory), _) | (_, Err(Unread::Memory)) => return Err(AllocError),
        _ => return Ok(Vec::new(alloc)),
    };
    let symbols = symbols_of(alloc, program_characters.as_slice(), program)?;
    let tokens = spots(alloc, query_characters.as_slice())?;
    let mistaken = Mistaken {
        begin: 0,
        tokens: tokens.as_slice(),
        kind,
        named_before: None,
    };
    let mut found = mistaken.mistakes(alloc, symbols.as_slice())?;
    found
        .as_mut_slice()
        .sort_by_key(alloc, |mistake| mistake.begin)?;
    Ok(found)
}

/// All that is wrong with the text of a query over a program, in the order of the places. A query that is accepted has no mistake, and one
/// that is refused has one at least. Where the program is refused, the query is only read.
pub fn query_mistakes<A: Allocator + Copy>(
    alloc: A,
    program: &[u8],
    text: &[u8],
) -> Result<Vec<Mistake<A>, A>, Memory>
    ensures accepted { (c : Checked) → IsAcceptedProgram program.now c → IfOk result
        (λ found. length found.items ≡ 0 → IsSomeQuery c text.now) }
    ensures refused { (c : Checked) → IsAcceptedProgram program.now c → IsSomeQuery c text.now → IfOk result
        (λ found. length found.items ≡ 0) }
{
    let mut found = Vec::new(alloc);
    let kind = match query_refusal(alloc, program, text)? {
        None => return Ok(found),
        Some(kind) => kind,
    };
    match kind {
        QueryRefusal::Unread(error) => found.push(unread_query(alloc, text, error)?)?,
        QueryRefusal::Mistaken(kind) => found = goal_mistakes(alloc, program, text, kind)?,
    }
    if found.is_empty() {
        found.push(Mistake::at(kind.kind(), 0, 0))?;
    }
    Ok(found)
}
