//! Texts, terms and goals as JSON, inside an HTML element: no `<` stands in it.
ghost use Rattle.std.specs.Prelude.{◌+◌, ◌<◌, IfSome};
ghost use Rattle.chr_term.specs.Size.{size};
ghost use Rattle.chr_term.specs.TermView.{view};

use crate::page::Page;
use chr_rules::Goal;
use chr_term::{Args, Names, Sym, Term, VarNames};
use std::alloc::Allocator;

/// How symbols and variables are called.
#[derive(Clone, Copy, Drop)]
pub(crate) struct Words<'a> {
    pub(crate) names: &'a Names,
    pub(crate) vars: &'a VarNames,
}

/// The digit of a number below 16.
fn digit(number: u8) -> u8 {
    if number < 10 {
        b'0' + number
    } else {
        b'a' + (number.min(15) - 10)
    }
}

/// Writes a byte of a text that stands between quotes.
fn write_quoted(byte: u8, page: &mut Page) {
    match byte {
        b'"' => page.text("\\\""),
        b'\\' => page.text("\\\\"),
        b'\n' => page.text("\\n"),
        b'<' => page.text("\\u003c"),
        0..0x20 => {
            page.text("\\u00");
            page.byte(digit(byte / 16));
            page.byte(digit(byte % 16));
        }
        byte => page.byte(byte),
    }
}

/// Writes a text in UTF-8.
pub(crate) fn write_string(text: &[u8], page: &mut Page) {
    page.byte(b'"');
    for byte in text {
        write_quoted(*byte, page);
    }
    page.byte(b'"');
}

/// Writes what characters are, as a text.
pub(crate) fn write_characters(text: &[char], page: &mut Page) {
    page.byte(b'"');
    for c in text {
        let mut units = [0; 4];
        for byte in c.encode_utf8(&mut units).as_bytes() {
            write_quoted(*byte, page);
        }
    }
    page.byte(b'"');
}

/// Writes the name of a member of an object, behind a comma where it is not the first one.
pub(crate) fn write_member(name: &str, page: &mut Page) {
    page.byte(b'"');
    page.text(name);
    page.text("\":");
}

/// The name of a symbol.
pub(crate) fn name_of(names: &Names, sym: Sym) -> &str {
    if (sym.0 as usize) < names.len() {
        names.name(sym)
    } else {
        ""
    }
}

/// How many arguments it has.
pub(crate) fn arity_of(names: &Names, sym: Sym) -> usize {
    if (sym.0 as usize) < names.len() {
        names.arity(sym)
    } else {
        0
    }
}

/// The first element and the rest of a list that has one.
fn pair<A: Allocator>(term: &Term<A>) -> Option<(&Term<A>, &Term<A>)>
    ensures { IfSome result (λ parts. size (view parts.0.now) + size (view parts.1.now) + 1 < size (view term.now)) }
{
    match term {
        Term::Node(sym, args) if *sym == Sym::CONS => match args.as_slice() {
            [first, rest] => Some((first, rest)),
            _ => None,
        },
        _ => None,
    }
}

/// Whether a term is the empty list.
fn is_nil<A: Allocator>(term: &Term<A>) -> bool {
    match term {
        Term::Node(sym, _) => *sym == Sym::NIL,
        _ => false,
    }
}

impl Words<'_> {
    /// Writes terms, each behind a comma.
    #[cycle(write)]
    fn write_arguments<A: Allocator>(self, terms: &[Term<A>], page: &mut Page) {
        let Some((first, rest)) = terms.split_first() else {
            return;
        };
        page.byte(b',');
        self.write_term(first, page);
        self.write_arguments(rest, page)
    }

    /// Writes the elements of a list, each behind a comma, and where it does not end with the empty list, `"|"` and what it ends with.
    #[cycle(write)]
    fn write_elements<A: Allocator>(self, first: &Term<A>, rest: &Term<A>, page: &mut Page) {
        page.byte(b',');
        self.write_term(first, page);
        match pair(rest) {
            Some((first, rest)) => self.write_elements(first, rest, page),
            None => {
                if !is_nil(rest) {
                    page.text(",\"|\",");
                    self.write_term(rest, page)
                }
            }
        }
    }

    /// Writes a term as it stands: a variable as its number, and a number as a text.
    #[cycle(write)]
    pub(crate) fn write_term<A: Allocator>(self, term: &Term<A>, page: &mut Page) {
        if let Some((first, rest)) = pair(term) {
            page.text("[\"[\"");
            self.write_elements(first, rest, page);
            return page.byte(b']');
        }
        match term {
            Term::Var(number) => page.number(*number),
            Term::Int(value) => {
                page.byte(b'"');
                page.term(self.names, self.vars, &Term::Int(*value));
                page.byte(b'"');
            }
            Term::Node(sym, args) => {
                self.begin(*sym, args.as_slice(), page);
                self.write_arguments(args.as_slice(), page);
                end(args.as_slice(), page)
            }
        }
    }

    /// Writes a name, which begins an array where arguments follow.
    fn begin<A: Allocator>(self, sym: Sym, args: &[Term<A>], page: &mut Page) {
        if !args.is_empty() {
            page.byte(b'[');
        }
        write_string(name_of(self.names, sym).as_bytes(), page);
    }

    /// Writes a constraint.
    pub(crate) fn write_constraint(self, sym: Sym, args: &Args, page: &mut Page) {
        self.begin(sym, args.as_slice(), page);
        self.write_arguments(args.as_slice(), page);
        end(args.as_slice(), page)
    }

    /// Writes a goal.
    pub(crate) fn write_goal(self, goal: &Goal, page: &mut Page) {
        match goal {
            Goal::Chr(sym, args) => self.write_constraint(*sym, args, page),
            Goal::Told(op, left, right) => {
                page.text("{\"told\":[");
                write_string(op.sign().trim_ascii().as_bytes(), page);
                page.byte(b',');
                self.write_term(left, page);
                page.byte(b',');
                self.write_term(right, page);
                page.text("]}");
            }
            Goal::Fail => page.text("{\"told\":[\"fail\"]}"),
        }
    }
}

/// Ends the array of a name with arguments.
fn end<A: Allocator>(args: &[Term<A>], page: &mut Page) {
    if !args.is_empty() {
        page.byte(b']');
    }
}
