//! All that is wrong with the text of a program.
ghost use Rattle.std.specs.Prelude.{◌≡◌, IfOk, length};
ghost use Rattle.chr_check.specs.Accepted.{IsSomeProgram};

use crate::expecting::Language;
use crate::mistake::{Declared, Kind, Mistake};
use crate::pieces::{Piece, pieces};
use crate::reading::reading_mistake;
use crate::refusal::refusal;
use crate::rules::{MOST, Mistaken};
use crate::spots::spots;
use crate::symbols::{Symbol, declared, is_built_in};
use chr_read::{Declaration, Part, ProgramSyntax, ReadErrorKind, read_program};
use chr_rules::{Program, RuleErrorKind};
use chr_semantics::limits::MAX_ARITY;
use chr_term::Memory;
use chr_tokens::{Sign, Token, Unread, characters};
use std::alloc::{AllocError, Allocator};

/// What was found of a part of a text.
#[derive(Clone, Copy, PartialEq, Eq, Debug, Drop)]
enum Finding {
    /// It is read, and needs no check.
    Ignored,
    /// It declares symbols.
    Declares,
    /// It is a rule, and no mistake of it was told.
    Rule,
    /// Its mistakes were told.
    Told,
}

/// A part of a program that was read, and what was found of it.
#[derive(Clone, Copy, Drop)]
struct ReadPiece<'a> {
    piece: Piece<'a>,
    finding: Finding,
}

impl<'a> ReadPiece<'a> {
    /// What is wrong with the rule, by its tokens.
    fn mistakes<A: Allocator + Copy>(
        self,
        alloc: A,
        kind: RuleErrorKind,
        named_before: Option<u64>,
        symbols: &[Symbol<'_>],
    ) -> Result<Vec<Mistake<A>, A>, Memory> {
        let tokens = spots(alloc, self.piece.characters)?;
        let mistaken = Mistaken {
            begin: self.piece.begin,
            tokens: tokens.as_slice(),
            kind,
            named_before,
        };
        mistaken.mistakes(alloc, symbols)
    }
}

/// Reads the parts of a program, and tells the mistakes of those that are not read.
fn read_pieces<'a, A: Allocator + Copy>(
    alloc: A,
    pieces: &[Piece<'a>],
    mistakes: &mut Vec<Mistake<A>, A>,
) -> Result<Vec<ReadPiece<'a>, A>, Memory> {
    let mut found = Vec::new(alloc);
    for piece in pieces {
        let finding = match read_program(alloc, piece.bytes) {
            Ok(syntax) => match syntax.parts.first() {
                Some(Part::Declares(_, _)) => Finding::Declares,
                Some(Part::Rule(_, _)) => Finding::Rule,
                Some(Part::Ignored(_)) | None => Finding::Ignored,
            },
            Err(error) => {
                if error.kind == ReadErrorKind::Memory {
                    return Err(AllocError);
                }
                if mistakes.len() < MOST {
                    mistakes.push(reading_mistake(alloc, Language::Program, *piece, error)?)?;
                }
                Finding::Told
            }
        };
        found.push(ReadPiece {
            piece: *piece,
            finding,
        })?;
    }
    Ok(found)
}

/// The kind of the mistake that a declared symbol is, where it is one.
fn declaration_mistake(symbol: Symbol<'_>) -> Option<RuleErrorKind> {
    if is_built_in(symbol) {
        Some(RuleErrorKind::BuiltinInHead)
    } else if symbol.arity > MAX_ARITY as u128 {
        Some(RuleErrorKind::ArityTooLarge)
    } else {
        None
    }
}

/// The symbols that are declared, and the mistakes among them.
fn declared_symbols<'a, A: Allocator + Copy>(
    alloc: A,
    parts: &[ReadPiece<'a>],
    mistakes: &mut Vec<Mistake<A>, A>,
) -> Result<Vec<Symbol<'a>, A>, Memory> {
    let mut symbols = Vec::new(alloc);
    for part in parts {
        if part.finding == Finding::Declares {
            let tokens = spots(alloc, part.piece.characters)?;
            for named in declared(alloc, tokens.as_slice())? {
                let kind = declaration_mistake(named.symbol);
                if let (Some(kind), true) = (kind, mistakes.len() < MOST) {
                    let begin = part.piece.begin.saturating_add(named.spot.begin);
                    mistakes.push(Mistake::at(Kind::Rule(kind), begin, named.spot.width))?;
                }
                symbols.push(named.symbol)?;
            }
        }
    }
    Ok(symbols)
}

/// The declarations of symbols, without those that are mistakes.
fn declarations<A: Allocator + Copy>(alloc: A, symbols: &[Symbol<'_>]) -> Result<Part<A>, Memory> {
    let mut found = Vec::new(alloc);
    for symbol in symbols {
        if declaration_mistake(*symbol).is_none() {
            let Declared { name, arity } = symbol.told(alloc)?;
            found.push(Declaration { name, arity })?;
        }
    }
    Ok(Part::Declares(1, found))
}

/// What the declarations and those rules spell whose mistakes were not told.
fn syntax_of<A: Allocator + Copy>(
    alloc: A,
    symbols: &[Symbol<'_>],
    parts: &[ReadPiece<'_>],
) -> Result<ProgramSyntax<A>, Memory> {
    let mut found = Vec::new(alloc);
    found.push(declarations(alloc, symbols)?)?;
    for part in parts {
        if part.finding == Finding::Rule {
            match read_program(alloc, part.piece.bytes) {
                Ok(syntax) => {
                    for rule in syntax.parts {
                        found.push(rule)?;
                    }
                }
                Err(error) => {
                    if error.kind == ReadErrorKind::Memory {
                        return Err(AllocError);
                    }
                }
            }
        }
    }
    Ok(ProgramSyntax { parts: found })
}

/// Where the rule with a number, from 1, stands among the parts of a program.
fn place_of(parts: &[ReadPiece<'_>], rule: usize) -> Option<usize> {
    let mut count = 0_usize;
    for place in 0..parts.len() {
        if parts.get(place)?.finding == Finding::Rule {
            count = count.saturating_add(1);
            if count == rule {
                return Some(place);
            }
        }
    }
    None
}

/// How many lines of a text end before so many characters.
fn lines_before(text: &[char], end: usize) -> u64 {
    let mut count = 0_u64;
    for c in text.iter().take(end) {
        if *c == '\n' {
            count = count.saturating_add(1);
        }
    }
    count
}

/// The name of a rule, and the line where it begins.
fn named<'a, A: Allocator + Copy>(
    alloc: A,
    piece: Piece<'a>,
) -> Result<Option<(&'a [char], u64)>, Memory> {
    let tokens = spots(alloc, piece.characters)?;
    if let [first, second, ..] = tokens.as_slice() {
        if let (Token::Name(name), Token::Sign(Sign::Label)) = (first.token, second.token) {
            let line = piece
                .line
                .saturating_add(lines_before(piece.characters, first.begin));
            return Ok(Some((name, line)));
        }
    }
    Ok(None)
}

/// The line of the first of these rules that has a name, where one has.
fn line_of<A: Allocator + Copy>(
    alloc: A,
    parts: &[ReadPiece<'_>],
    name: &[char],
) -> Result<Option<u64>, Memory> {
    for part in parts {
        if part.finding == Finding::Rule {
            if let Some((other, line)) = named(alloc, part.piece)? {
                if other == name {
                    return Ok(Some(line));
                }
            }
        }
    }
    Ok(None)
}

/// The line of a rule before the one at a place that has its name, where one has.
fn named_before<A: Allocator + Copy>(
    alloc: A,
    parts: &[ReadPiece<'_>],
    place: usize,
) -> Result<Option<u64>, Memory> {
    let (Some((before, _)), Some(part)) = (parts.split_at_checked(place), parts.get(place)) else {
        return Ok(None);
    };
    match named(alloc, part.piece)? {
        Some((name, _)) => line_of(alloc, before, name),
        None => Ok(None),
    }
}

/// Tells the mistakes of the rules, those of one after those of another.
fn check_rules<A: Allocator + Copy>(
    alloc: A,
    symbols: &[Symbol<'_>],
    parts: &mut [ReadPiece<'_>],
    mistakes: &mut Vec<Mistake<A>, A>,
) -> Result<(), Memory> {
    for _ in 0..MOST {
        let error = match Program::build(alloc, syntax_of(alloc, symbols, &*parts)?) {
            Ok(_) => return Ok(()),
            Err(error) => error,
        };
        if error.kind == RuleErrorKind::Memory {
            return Err(AllocError);
        }
        let Some(place) = place_of(&*parts, error.rule) else {
            return Ok(());
        };
        let before = named_before(alloc, &*parts, place)?;
        let Some(part) = parts.get_mut(place) else {
            return Ok(());
        };
        for mistake in part.mistakes(alloc, error.kind, before, symbols)? {
            mistakes.push(mistake)?;
        }
        part.finding = Finding::Told;
        if mistakes.len() >= MOST || error.kind == RuleErrorKind::TooManyRules {
            return Ok(());
        }
    }
    Ok(())
}

/// All that is wrong with a text that is given by its characters, and in UTF-8.
fn all_mistakes<A: Allocator + Copy>(
    alloc: A,
    characters: &[char],
    text: &[u8],
) -> Result<Vec<Mistake<A>, A>, Memory> {
    let mut found = Vec::new(alloc);
    let pieces = pieces(alloc, characters, text)?;
    let mut parts = read_pieces(alloc, pieces.as_slice(), &mut found)?;
    let symbols = declared_symbols(alloc, parts.as_slice(), &mut found)?;
    check_rules(alloc, symbols.as_slice(), parts.as_mut_slice(), &mut found)?;
    found
        .as_mut_slice()
        .sort_by_key(alloc, |mistake| mistake.begin)?;
    Ok(found)
}

/// All that is wrong with the text of a program, in the order of the places, but not much more than `MOST` mistakes. A text that is
/// accepted has none, and one that is refused has one at least.
pub fn mistakes<A: Allocator + Copy>(alloc: A, text: &[u8]) -> Result<Vec<Mistake<A>, A>, Memory>
    ensures accepted { IfOk result
        (λ found. length found.items ≡ 0 → IsSomeProgram text.now) }
    ensures refused { IfOk result
        (λ found. IsSomeProgram text.now → length found.items ≡ 0) }
{
    let Some(kind) = refusal(alloc, text)? else {
        return Ok(Vec::new(alloc));
    };
    let mut found = match characters(alloc, text) {
        Ok(characters) => all_mistakes(alloc, characters.as_slice(), text)?,
        Err(Unread::Memory) => return Err(AllocError),
        Err(_) => Vec::new(alloc),
    };
    if found.is_empty() {
        found.push(Mistake::at(kind, 0, 0))?;
    }
    Ok(found)
}

/// The symbols that the text of a program declares, where it is read, by its characters and in UTF-8.
pub(crate) fn symbols_of<'a, A: Allocator + Copy>(
    alloc: A,
    characters: &'a [char],
    text: &'a [u8],
) -> Result<Vec<Symbol<'a>, A>, Memory> {
    let mut mistakes = Vec::new(alloc);
    let pieces = pieces(alloc, characters, text)?;
    let parts = read_pieces(alloc, pieces.as_slice(), &mut mistakes)?;
    declared_symbols(alloc, parts.as_slice(), &mut mistakes)
}
