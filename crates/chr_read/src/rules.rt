//! Rules.
ghost use Rattle.std.specs.Prelude.{◌≡◌, ◌<◌, ◌≤◌, IfOk, MatchResult, length, string_bytes};
ghost use Rattle.chr_semantics.specs.Grammar.{arrow_sign};
ghost use Rattle.chr_semantics.specs.Tokens.{sign as sign_token};
ghost use Rattle.chr_tokens.specs.TokenView.{placed_views};
ghost use Rattle.chr_read.specs.Parts.{BeginsRule, ReadsBody, ReadsFront, ReadsLabel, ReadsRule};
ghost use Rattle.chr_read.specs.Reads.{BeginsWith, NoArrow};
ghost use Rattle.chr_read.specs.SyntaxView.{arrow_view};
ghost use Rattle.chr_read.specs.declared.halt.Halt.TheVariants.{Expected};

use crate::halt::Halt;
use crate::items::{heads, items};
use crate::syntax::{Arrow, Head, Item, RuleSyntax};
use crate::words::{after_sign, arrow, before_sign, name, string_of};
use chr_tokens::{Placed, Sign};
use std::alloc::Allocator;

/// A rule's heads and its arrow.
#[derive(Drop)]
struct Front<A: Allocator> {
    heads: Vec<Head<A>, A>,
    behind: Vec<Head<A>, A>,
    arrow: Arrow,
}

/// What stands after a rule's arrow.
#[derive(Drop)]
struct Body<A: Allocator> {
    guard: Vec<Item<A>, A>,
    body: Vec<Item<A>, A>,
}

/// A rule, up to its END and with it.
pub(crate) fn rule<'a, A: Allocator + Copy>(
    alloc: A,
    text: &'a [Placed<'a>],
) -> Result<(RuleSyntax<A>, &'a [Placed<'a>]), Halt<'a>>
    requires { BeginsRule (placed_views text.now) }
    ensures reads { ReadsRule (placed_views text.now) result }
    ensures shorter { IfOk result (λ x. length x.1.now < length text.now) }
{
    let (label, start) = label(alloc, text)?;
    let (front, rest) = all_heads(alloc, start)?;
    let (body, rest) = guard_and_body(alloc, rest)?;
    let rule = RuleSyntax {
        label,
        heads: front.heads,
        behind: front.behind,
        arrow: front.arrow,
        guard: body.guard,
        body: body.body,
    };
    Ok((rule, rest))
}

/// The name of a rule, where it has one.
#[tactic(auto, using(crate::proofs::Sections::label_steps))]
fn label<'a, A: Allocator + Copy>(
    alloc: A,
    text: &'a [Placed<'a>],
) -> Result<(Option<String<A>>, &'a [Placed<'a>]), Halt<'a>>
    requires { BeginsRule (placed_views text.now) }
    ensures reads { ReadsLabel string_bytes (placed_views text.now) result }
    ensures shorter { IfOk result (λ x. length x.1.now ≤ length text.now) }
{
    let Some((word, mark)) = name(text) else {
        return Ok((None, text));
    };
    match after_sign(mark, Sign::Label) {
        Some(after) => Ok((Some(string_of(alloc, word)?), after)),
        None => Ok((None, text)),
    }
}

/// The heads of a rule, and its arrow.
fn all_heads<'a, A: Allocator + Copy>(
    alloc: A,
    text: &'a [Placed<'a>],
) -> Result<(Front<A>, &'a [Placed<'a>]), Halt<'a>>
    ensures reads { ReadsFront (placed_views text.now) result }
    ensures shorter { IfOk result (λ x. length x.1.now < length text.now) }
{
    let (first, end) = heads(alloc, text)?;
    match after_sign(end, Sign::Backslash) {
        None => before_arrow(first, Vec::new(alloc), end),
        Some(others) => {
            let (second, end) = heads(alloc, others)?;
            before_arrow(first, second, end)
        }
    }
}

/// The heads before an arrow, which has to come, and the arrow.
fn before_arrow<'a, A: Allocator>(
    heads: Vec<Head<A>, A>,
    behind: Vec<Head<A>, A>,
    text: &'a [Placed<'a>],
) -> Result<(Front<A>, &'a [Placed<'a>]), Halt<'a>>
    ensures heads { IfOk result (λ x. (x.0.heads ≡ heads) × (x.0.behind ≡ behind)) }
    ensures arrow { MatchResult result
        (λ x. BeginsWith (placed_views text.now)
        (sign_token (arrow_sign (arrow_view x.0.arrow))) (placed_views x.1.now))
        (λ e. (e ≡ Expected text.entry) × NoArrow (placed_views text.now)) }
    ensures shorter { IfOk result (λ x. length x.1.now < length text.now) }
{
    let (arrow, after) = arrow(text)?;
    let front = Front {
        heads,
        behind,
        arrow,
    };
    Ok((front, after))
}

/// The guard, where there is one, and the body of a rule, with the END.
fn guard_and_body<'a, A: Allocator + Copy>(
    alloc: A,
    text: &'a [Placed<'a>],
) -> Result<(Body<A>, &'a [Placed<'a>]), Halt<'a>>
    ensures reads { ReadsBody (placed_views text.now) result }
    ensures shorter { IfOk result (λ x. length x.1.now < length text.now) }
{
    let (first, end) = items(alloc, text)?;
    if let Some(after) = after_sign(end, Sign::Stop) {
        let guard = Vec::new(alloc);
        return Ok((Body { guard, body: first }, after));
    }
    let Some(after) = after_sign(end, Sign::Bar) else {
        return Err(Halt::Expected(end));
    };
    let (second, end) = items(alloc, after)?;
    let whole = Body {
        guard: first,
        body: second,
    };
    before_sign(whole, end, Sign::Stop)
}
