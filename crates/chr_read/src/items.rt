//! The items of rules and queries, and the heads of rules.
ghost use Rattle.std.specs.Prelude.{◌≡◌, ◌<◌, IfOk, List, Option, length, ℕ};
ghost use Rattle.chr_semantics.specs.Syntax.{Head as SyntaxHead, Item as SyntaxItem};
ghost use Rattle.chr_semantics.specs.Tokens.{comma, hash};
ghost use Rattle.chr_tokens.specs.TokenView.{placed_views};
ghost use Rattle.chr_read.specs.Automaton.{RuleStart};
ghost use Rattle.chr_read.specs.Reads.{Lacks, in_behind, in_body, in_guarded, in_heads, in_query, ReadsHead, ReadsHeads, ReadsItem, ReadsItems, ReadsMark, Side, Slot};
ghost use Rattle.chr_read.specs.SyntaxView.{item_view};

use crate::exprs::sum;
use crate::halt::Halt;
use crate::syntax::{Head, Item};
use crate::words::{after_sign, both, is_word, name, relation};
use chr_semantics::limits::MAX_OPEN_BRACKETS;
use chr_tokens::{Placed, Sign};
use std::alloc::Allocator;

/// An expression, or two with a comparison, `=`, `\=` or `is` between them.
#[tactic(auto, using(crate::proofs::Steps::item_steps))]
fn item<'a, A: Allocator + Copy>(
    alloc: A,
    text: &'a [Placed<'a>],
) -> Result<(Item<A>, &'a [Placed<'a>]), Halt<'a>>
    ensures reads { ReadsItem (placed_views text.now) result }
    ensures shorter { IfOk result (λ x. length x.1.now < length text.now) }
{
    let (left, end) = sum(alloc, text, MAX_OPEN_BRACKETS)?;
    match relation(end) {
        None => Ok((Item::Plain(left), end)),
        Some((relation, after)) => {
            let ((left, right), end) = both(left, sum(alloc, after, MAX_OPEN_BRACKETS))?;
            Ok((Item::Related(relation, left, right), end))
        }
    }
}

/// Items with commas between them, of a body, a guard or a query.
pub(crate) fn items<'a, A: Allocator + Copy>(
    alloc: A,
    text: &'a [Placed<'a>],
) -> Result<(Vec<Item<A>, A>, &'a [Placed<'a>]), Halt<'a>>
    ensures in_body { (s : RuleStart)
        → ReadsItems (λ v. v.items) (in_body s) (placed_views text.now) result }
    ensures in_guarded { (s : RuleStart) (guard : List SyntaxItem)
        → ReadsItems (λ v. v.items) (in_guarded s guard) (placed_views text.now) result }
    ensures in_query { (line : ℕ)
        → ReadsItems (λ v. v.items) (in_query line) (placed_views text.now) result }
    ensures shorter { IfOk result (λ x. length x.1.now < length text.now) }
    ensures no_comma { IfOk result (λ x. Lacks comma (placed_views x.1.now)) }
{
    item_list(alloc, text)
}

/// Items with commas between them, in any place of them.
fn item_list<'a, A: Allocator + Copy>(
    alloc: A,
    text: &'a [Placed<'a>],
) -> Result<(Vec<Item<A>, A>, &'a [Placed<'a>]), Halt<'a>>
    ensures reads { (f : Slot) → ReadsItems (λ v. v.items) f (placed_views text.now) result }
    ensures shorter { IfOk result (λ x. length x.1.now < length text.now) }
    ensures no_comma { IfOk result (λ x. Lacks comma (placed_views x.1.now)) }
{
    let mut items = Vec::new(alloc);
    let (_, mut rest) = text.split_at(0);
    loop {
        let (found, end) = item(alloc, rest)?;
        items.push(found)?;
        match after_sign(end, Sign::Comma) {
            Some(after) => rest = after,
            None => return Ok((items, end)),
        }
    }
}

/// An item, and `# passive` where that is there.
#[tactic(auto, using(crate::proofs::Steps::list_steps))]
fn head<'a, A: Allocator + Copy>(
    alloc: A,
    text: &'a [Placed<'a>],
) -> Result<(Head<A>, &'a [Placed<'a>]), Halt<'a>>
    ensures reads { ReadsHead (placed_views text.now) result }
    ensures shorter { IfOk result (λ x. length x.1.now < length text.now) }
{
    let (item, end) = item(alloc, text)?;
    match after_sign(end, Sign::Hash) {
        None => {
            let passive = false;
            Ok((Head { item, passive }, end))
        }
        Some(mark) => {
            let (item, after) = before_passive(item, mark)?;
            let passive = true;
            Ok((Head { item, passive }, after))
        }
    }
}

/// What was read before `passive`, with what stands after it. The word has to come.
fn before_passive<'a, T: Drop>(
    found: T,
    text: &'a [Placed<'a>],
) -> Result<(T, &'a [Placed<'a>]), Halt<'a>>
    ensures reads { ReadsMark (placed_views text.now) result }
    ensures found { IfOk result (λ x. x.0 ≡ found) }
    ensures shorter { IfOk result (λ x. length x.1.now < length text.now) }
{
    match name(text) {
        Some((word, after)) => {
            if is_word(word, b"passive") {
                Ok((found, after))
            } else {
                Err(Halt::Expected(text))
            }
        }
        None => Err(Halt::Expected(text)),
    }
}

/// Heads with commas between them, before a `\` or after it.
pub(crate) fn heads<'a, A: Allocator + Copy>(
    alloc: A,
    text: &'a [Placed<'a>],
) -> Result<(Vec<Head<A>, A>, &'a [Placed<'a>]), Halt<'a>>
    ensures in_heads { (line : ℕ) (label : Option (List ℕ))
        → ReadsHeads (λ v. v.items) (in_heads line label) (placed_views text.now) result }
    ensures in_behind { (line : ℕ) (label : Option (List ℕ)) (first : List SyntaxHead)
        → ReadsHeads (λ v. v.items) (in_behind line label first)
        (placed_views text.now) result }
    ensures shorter { IfOk result (λ x. length x.1.now < length text.now) }
    ensures no_comma { IfOk result (λ x. Lacks comma (placed_views x.1.now)) }
{
    head_list(alloc, text)
}

/// Heads with commas between them, on either side.
fn head_list<'a, A: Allocator + Copy>(
    alloc: A,
    text: &'a [Placed<'a>],
) -> Result<(Vec<Head<A>, A>, &'a [Placed<'a>]), Halt<'a>>
    ensures reads { (f : Side) → ReadsHeads (λ v. v.items) f (placed_views text.now) result }
    ensures shorter { IfOk result (λ x. length x.1.now < length text.now) }
    ensures no_comma { IfOk result (λ x. Lacks comma (placed_views x.1.now)) }
{
    let mut heads = Vec::new(alloc);
    let (_, mut rest) = text.split_at(0);
    loop {
        let (found, end) = head(alloc, rest)?;
        heads.push(found)?;
        match after_sign(end, Sign::Comma) {
            Some(after) => rest = after,
            None => return Ok((heads, end)),
        }
    }
}
