//! Variables that stand once in a rule.
ghost use Rattle.std.specs.Prelude.{◌≡◌, ◌==◌, ◌++◌, ◌∷◌, [], ℕ, List, IfOk, OnOk, MatchBool, filter};
ghost use Rattle.chr_semantics.specs.Suspicion.{is_anonymous, lone_variables};
ghost use Rattle.chr_read.specs.SyntaxView.{rule_view};
ghost use Rattle.chr_suspicions.specs.Counts.{AreCounted, IsAgain, is_lone, times};
ghost use Rattle.chr_suspicions.specs.Words.{words_of};

use crate::Memory;
use crate::names::names_of_rule;
use chr_read::RuleSyntax;
use std::alloc::Allocator;

/// A word that was met, and whether it was met again.
#[derive(Clone, Copy, Drop)]
pub(crate) struct Met<'s> {
    word: &'s str,
    again: bool,
}

/// Notes that a word was met again, if it was met.
fn note_again(met: &mut [Met<'_>], word: &str) -> bool
    ensures { MatchBool result (IsAgain word.now met.old met.new)
        ((times met.old word.now ≡ 0) × (met.new ≡ met.old)) }
{
    for known in met.iter_mut() {
        if word == known.word {
            known.again = true;
            return true;
        }
    }
    false
}

/// Notes that a word was met.
fn note<'s, A: Allocator>(met: &mut Vec<Met<'s>, A>, word: &'s str) -> Result<(), Memory>
    ensures { (words : List (List ℕ)) → AreCounted met.old.items words →
        OnOk result (AreCounted met.new.items (words ++ word.now ∷ [])) }
{
    if note_again(met.as_mut_slice(), word) {
        return Ok(());
    }
    Ok(met.push(Met { word, again: false })?)
}

/// The words, each once, and whether it was met again.
fn count<'s, A: Allocator + Copy>(alloc: A, words: &[&'s str]) -> Result<Vec<Met<'s>, A>, Memory>
    ensures { IfOk result (λ met. AreCounted met.items (words_of words.now)) }
{
    let mut met = Vec::new(alloc);
    for word in words {
        note(&mut met, *word)?;
    }
    Ok(met)
}

/// Whether a word begins with `_`.
fn is_anonymous(word: &str) -> bool
    ensures { result ≡ is_anonymous word.now }
{
    match word.as_bytes() {
        [first, ..] => *first == b'_',
        [] => false,
    }
}

/// Whether a word was met once.
fn is_once(met: &[Met<'_>], word: &str) -> bool
    ensures { result ≡ (times met.now word.now == 1) }
{
    for known in met {
        if word == known.word {
            return !known.again;
        }
    }
    false
}

/// Whether a word that does not begin with `_` was met once.
fn is_lone(met: &[Met<'_>], word: &str) -> bool
    ensures { result ≡ is_lone met.now word.now }
{
    !is_anonymous(word) && is_once(met, word)
}

/// The words that don't begin with `_` and were met once, in their order.
fn lone_among<'s, A: Allocator + Copy>(
    alloc: A,
    met: &[Met<'s>],
    words: &[&'s str],
) -> Result<Vec<&'s str, A>, Memory>
    ensures { IfOk result (λ lone. words_of lone.items ≡ filter (is_lone met.now) (words_of words.now)) }
{
    let mut lone = Vec::new(alloc);
    for word in words {
        if is_lone(met, *word) {
            lone.push(*word)?;
        }
    }
    Ok(lone)
}

/// The variables of a rule that stand in it once and don't begin with `_`, from left to right. The only error is want of memory.
pub fn lone_variables<'s, A: Allocator + Copy>(
    alloc: A,
    rule: &'s RuleSyntax<A>,
) -> Result<Vec<&'s str, A>, Memory>
    ensures { IfOk result (λ lone. words_of lone.items ≡ lone_variables (rule_view rule.now)) }
{
    let words = names_of_rule(alloc, rule)?;
    let met = count(alloc, words.as_slice())?;
    lone_among(alloc, met.as_slice(), words.as_slice())
}
