//! All that looks wrong in a program that is accepted, each with the token that it stands at.

use crate::items::{Item, Role, items};
use crate::pieces::{Piece, pieces};
use crate::refusal::program_of;
use crate::spots::{Spot, spots};
use crate::suspicion::{Doubt, Suspicion};
use crate::symbols::{declared, is_word};
use chr_read::{Part, ReadErrorKind, RuleSyntax, read_program, read_query};
use chr_rules::{Goal, Program, Query, Rule, RuleErrorKind};
use chr_suspicions::{
    is_barren, is_hopeless, is_made_again, is_unevaluated, lone_variables, looks_before,
    made_symbols, takes_from, unused_symbols,
};
use chr_term::{Memory, Sym};
use chr_tokens::{Token, Unread, characters};
use std::alloc::{AllocError, Allocator};

/// What is known of a program before its parts are looked at.
#[derive(Drop)]
struct Facts<A: Allocator> {
    /// For each symbol by its number, whether it stands nowhere.
    unused: Vec<bool, A>,
    /// Whether a body or the query makes it; nothing is known without a query.
    made: Option<Vec<bool, A>>,
}

/// What the program, with a query where there is one, says of its symbols.
fn facts_of<A: Allocator + Copy>(
    alloc: A,
    program: &Program<A>,
    query: &Option<Query<A>>,
) -> Result<Facts<A>, Memory> {
    let Some(query) = query else {
        let none = Vec::new(alloc);
        let unused = unused_symbols(alloc, program, none.as_slice())?;
        return Ok(Facts { unused, made: None });
    };
    let goals = query.goals.as_slice();
    let made = Some(made_symbols(alloc, program, goals)?);
    let unused = unused_symbols(alloc, program, goals)?;
    Ok(Facts { unused, made })
}

/// Where the parts of a rule stand.
#[derive(Clone, Copy, Drop)]
struct Sites<'a> {
    /// The number of characters before the part of the text.
    begin: usize,
    tokens: &'a [Spot<'a>],
    items: &'a [Item<'a>],
}

/// Whether an item is `true`, which stands for nothing.
fn is_true(item: Item<'_>) -> bool {
    match item.tokens {
        [only] => match only.token {
            Token::Name(name) => is_word(name, "true"),
            _ => false,
        },
        _ => false,
    }
}

impl<'a> Sites<'a> {
    /// The first token of the k-th head, test or goal, from 0.
    fn item(self, role: Role, k: usize) -> Option<Spot<'a>> {
        let mut left = k;
        for item in self.items {
            if item.role == role && !is_true(*item) {
                if left == 0 {
                    return item.tokens.first().copied();
                }
                left = left.saturating_sub(1);
            }
        }
        None
    }

    /// The first token that is a variable.
    fn variable(self, name: &str) -> Option<Spot<'a>> {
        for spot in self.tokens {
            if let Token::Variable(word) = spot.token {
                if is_word(word, name) {
                    return Some(*spot);
                }
            }
        }
        None
    }

    /// Notes a suspicion at a token.
    fn note<A: Allocator>(
        self,
        doubt: Doubt,
        spot: Option<Spot<'a>>,
        found: &mut Vec<Suspicion, A>,
    ) -> Result<(), Memory> {
        if let Some(spot) = spot {
            found.push(Suspicion {
                doubt,
                begin: self.begin.saturating_add(spot.begin),
                width: spot.width,
            })?;
        }
        Ok(())
    }
}

/// Notes the declared symbols that stand nowhere.
fn suspect_declarations<A: Allocator + Copy>(
    alloc: A,
    program: &Program<A>,
    facts: &Facts<A>,
    sites: Sites<'_>,
    found: &mut Vec<Suspicion, A>,
) -> Result<(), Memory> {
    for named in declared(alloc, sites.tokens)? {
        let symbol = named.symbol.told(alloc)?;
        let arity = symbol.arity.min(usize::MAX as u128) as usize;
        let number = program.names().find(symbol.name.as_str(), arity);
        if let Some(Sym(number)) = number {
            if facts.unused.get(number as usize) == Some(&true) {
                sites.note(Doubt::UnusedSymbol, Some(named.spot), found)?;
            }
        }
    }
    Ok(())
}

/// Notes what is odd about the heads of a rule.
fn suspect_heads<A: Allocator + Copy>(
    rule: &Rule<A>,
    facts: &Facts<A>,
    sites: Sites<'_>,
    found: &mut Vec<Suspicion, A>,
) -> Result<(), Memory> {
    let heads = rule.heads.as_slice();
    for k in 0..heads.len() {
        let (sym, args) = &heads[k];
        let spot = sites.item(Role::Head, k);
        if let Some(made) = &facts.made {
            if made.get(sym.0 as usize) == Some(&false) {
                sites.note(Doubt::UnmadeHead, spot, found)?;
            }
        }
        if k >= rule.kept && is_made_again(rule.body.as_slice(), *sym, args.as_slice()) {
            sites.note(Doubt::MadeAgain, spot, found)?;
        }
    }
    Ok(())
}

/// Notes the tests of a rule that hold under no match.
fn suspect_guard<A: Allocator + Copy>(
    alloc: A,
    rule: &Rule<A>,
    sites: Sites<'_>,
    found: &mut Vec<Suspicion, A>,
) -> Result<(), Memory> {
    let tests = rule.guard.as_slice();
    for k in 0..tests.len() {
        if is_hopeless(alloc, &tests[k])? {
            sites.note(Doubt::HopelessTest, sites.item(Role::Guard, k), found)?;
        }
    }
    Ok(())
}

/// Notes the constraints of a body with arithmetic in them.
fn suspect_body<A: Allocator + Copy>(
    goals: &[Goal<A>],
    sites: Sites<'_>,
    found: &mut Vec<Suspicion, A>,
) -> Result<(), Memory> {
    for k in 0..goals.len() {
        if is_unevaluated(&goals[k]) {
            sites.note(Doubt::Unevaluated, sites.item(Role::Goal, k), found)?;
        }
    }
    Ok(())
}

/// The number of the first of the rules before the k-th that takes constraints away from it.
fn taker<A: Allocator + Copy>(program: &Program<A>, k: usize) -> Option<usize> {
    if k >= program.rules() {
        return None;
    }
    for earlier in 0..k {
        if takes_from(program.rule(earlier), program.rule(k)) {
            return Some(earlier);
        }
    }
    None
}

/// The number of the first of the rules before the k-th that looks for its duplicates.
fn looker<A: Allocator + Copy>(program: &Program<A>, k: usize) -> Option<usize> {
    if k >= program.rules() {
        return None;
    }
    for earlier in 0..k {
        if looks_before(program.rule(earlier), program.rule(k)) {
            return Some(earlier);
        }
    }
    None
}

/// Notes that the k-th rule never fires, or comes too late.
fn suspect_place<A: Allocator + Copy>(
    program: &Program<A>,
    k: usize,
    lines: &[u64],
    sites: Sites<'_>,
    found: &mut Vec<Suspicion, A>,
) -> Result<(), Memory> {
    let first = sites.tokens.first().copied();
    if k < program.rules() && is_barren(program.rule(k)) {
        sites.note(Doubt::PassiveRule, first, found)?;
    }
    if let Some(line) = taker(program, k).and_then(|rule| lines.get(rule)) {
        sites.note(Doubt::TakenBefore(*line), first, found)?;
    }
    if let Some(line) = looker(program, k).and_then(|rule| lines.get(rule)) {
        sites.note(Doubt::LateDuplicates(*line), first, found)?;
    }
    Ok(())
}

/// Notes all that is odd about the k-th rule, where the rules begin in these lines.
fn suspect_rule<A: Allocator + Copy>(
    alloc: A,
    program: &Program<A>,
    facts: &Facts<A>,
    syntax: &RuleSyntax<A>,
    lines: &[u64],
    sites: Sites<'_>,
    found: &mut Vec<Suspicion, A>,
) -> Result<(), Memory> {
    let k = lines.len().saturating_sub(1);
    if k >= program.rules() {
        return Ok(());
    }
    suspect_place(program, k, lines, sites, found)?;
    let rule = program.rule(k);
    suspect_heads(rule, facts, sites, found)?;
    suspect_guard(alloc, rule, sites, found)?;
    suspect_body(rule.body.as_slice(), sites, found)?;
    for name in lone_variables(alloc, syntax)? {
        sites.note(Doubt::LoneVariable, sites.variable(name), found)?;
    }
    Ok(())
}

/// Notes all that is odd about a part of a program, before which rules begin in some lines.
fn suspect_piece<A: Allocator + Copy>(
    alloc: A,
    program: &Program<A>,
    facts: &Facts<A>,
    piece: Piece<'_>,
    lines: &mut Vec<u64, A>,
    found: &mut Vec<Suspicion, A>,
) -> Result<(), Memory> {
    let syntax = match read_program(alloc, piece.bytes) {
        Ok(syntax) => syntax,
        Err(error) if error.kind == ReadErrorKind::Memory => return Err(AllocError),
        Err(_) => return Ok(()),
    };
    let tokens = spots(alloc, piece.characters)?;
    let items = items(alloc, tokens.as_slice())?;
    let sites = Sites {
        begin: piece.begin,
        tokens: tokens.as_slice(),
        items: items.as_slice(),
    };
    match syntax.parts.first() {
        Some(Part::Declares(_, _)) => suspect_declarations(alloc, program, facts, sites, found),
        Some(Part::Rule(line, rule)) => {
            lines.push(piece.line.saturating_add(*line).saturating_sub(1))?;
            suspect_rule(alloc, program, facts, rule, lines.as_slice(), sites, found)
        }
        Some(Part::Ignored(_)) | None => Ok(()),
    }
}

/// All that looks wrong in a program, in the order of the places.
fn suspect_program<A: Allocator + Copy>(
    alloc: A,
    program: &Program<A>,
    query: &Option<Query<A>>,
    text: &[u8],
) -> Result<Vec<Suspicion, A>, Memory> {
    let mut found = Vec::new(alloc);
    let characters = match characters(alloc, text) {
        Ok(characters) => characters,
        Err(Unread::Memory) => return Err(AllocError),
        Err(_) => return Ok(found),
    };
    let facts = facts_of(alloc, program, query)?;
    let mut lines = Vec::new(alloc);
    for piece in pieces(alloc, characters.as_slice(), text)? {
        suspect_piece(alloc, program, &facts, piece, &mut lines, &mut found)?;
    }
    found
        .as_mut_slice()
        .sort_by_key(alloc, |suspicion| suspicion.begin)?;
    Ok(found)
}

/// The goals of a query over a program, where it is accepted.
fn query_of<A: Allocator + Copy>(
    alloc: A,
    program: &mut Program<A>,
    text: Option<&[u8]>,
) -> Result<Option<Query<A>>, Memory> {
    let Some(text) = text else {
        return Ok(None);
    };
    let syntax = match read_query(alloc, text) {
        Ok(syntax) => syntax,
        Err(error) if error.kind == ReadErrorKind::Memory => return Err(AllocError),
        Err(_) => return Ok(None),
    };
    match program.goals_of_query(syntax) {
        Ok(query) => Ok(Some(query)),
        Err(error) if error.kind == RuleErrorKind::Memory => Err(AllocError),
        Err(_) => Ok(None),
    }
}

/// All that looks wrong in a program that is accepted, with a query over it where there is one, in the order of the places. A head that
/// nothing makes is told only with a query.
pub fn suspicions<A: Allocator + Copy>(
    alloc: A,
    text: &[u8],
    query: Option<&[u8]>,
) -> Result<Vec<Suspicion, A>, Memory> {
    match program_of(alloc, text)? {
        Err(_) => Ok(Vec::new(alloc)),
        Ok(mut program) => {
            let query = query_of(alloc, &mut program, query)?;
            suspect_program(alloc, &program, &query, text)
        }
    }
}
