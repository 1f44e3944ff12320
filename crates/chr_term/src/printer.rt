#![tactic(auto, using(crate::proofs::Extensions::extended_on))]
//! The printer of terms. Where memory is refused, the text begins with what it was before.
ghost use Rattle.std.specs.Prelude.{◌≡◌, ◌&&◌, ◌||◌, ◌++◌, ◌∷◌, [], OnOk};
ghost use Rattle.chr_semantics.specs.Names.{var_text};
ghost use Rattle.chr_semantics.specs.Print.{call_text, in_parentheses, list_printing, operator_text};
ghost use Rattle.chr_semantics.specs.Print.{pair_printing, printing_of, sign_of, texts_from};
ghost use Rattle.chr_term.specs.Arguments.{AreArguments};
ghost use Rattle.chr_term.specs.Extension.{IsExtension};
ghost use Rattle.chr_term.specs.Shapes.{is_product_shape, is_sum_shape, shaped_printing};
ghost use Rattle.chr_term.specs.TermView.{view};

use crate::writing::{write_byte, write_bytes, write_integer, write_number};
use crate::{Memory, Names, Sym, Term, VarNames};
use std::alloc::Allocator;

/// The arguments of a term, by their number.
enum Arguments<'a, A: Allocator> {
    Zero,
    One(&'a Term<A>),
    Two(&'a Term<A>, &'a Term<A>),
    Many(&'a Term<A>, &'a Term<A>, &'a Term<A>, &'a [Term<A>]),
}

fn by_number<A: Allocator>(args: &[Term<A>]) -> Arguments<'_, A>
    ensures { AreArguments result args.now }
{
    match args {
        [] => Arguments::Zero,
        [only] => Arguments::One(only),
        [left, right] => Arguments::Two(left, right),
        [first, second, third, others @ ..] => Arguments::Many(first, second, third, others),
    }
}

/// How a symbol stands with two arguments.
#[derive(Clone, Copy, Drop)]
enum Shape {
    /// `[left|right]`
    List,
    /// `+` or `-` between them
    Sum,
    /// `*`, `//` or `mod` between them
    Product,
    /// a name before them
    Call,
}

/// The shape that a symbol has with two arguments.
fn shape_with_two(sym: Sym) -> Shape
    ensures { (names : _) (left right : _) →
        pair_printing names sym.0 left right ≡ shaped_printing result names sym.0 left right }
{
    if sym == Sym::CONS {
        Shape::List
    } else if sym == Sym::PLUS || sym == Sym::MINUS {
        Shape::Sum
    } else if sym == Sym::TIMES || sym == Sym::DIVIDE || sym == Sym::MODULO {
        Shape::Product
    } else {
        Shape::Call
    }
}

/// The shape of a term with two arguments; any other has that of a call.
fn shape_of<A: Allocator>(term: &Term<A>) -> Shape
    ensures sum { (names : _) (vars : _) →
        is_sum_shape result ≡ (printing_of names vars (view term.now)).is_sum }
    ensures product { (names : _) (vars : _) →
        is_product_shape result ≡ (printing_of names vars (view term.now)).is_product }
{
    match term {
        Term::Var(_) => Shape::Call,
        Term::Int(_) => Shape::Call,
        Term::Node(sym, args) => match by_number(args.as_slice()) {
            Arguments::Zero => Shape::Call,
            Arguments::One(_) => Shape::Call,
            Arguments::Two(_, _) => shape_with_two(*sym),
            Arguments::Many(_, _, _, _) => Shape::Call,
        },
    }
}

fn is_sum(shape: Shape) -> bool
    ensures { result ≡ is_sum_shape shape }
{
    matches!(shape, Shape::Sum)
}

fn is_product(shape: Shape) -> bool
    ensures { result ≡ is_product_shape shape }
{
    matches!(shape, Shape::Product)
}

/// Whether the left operand of a product, or else of a sum, stands in parentheses.
fn wraps_left<A: Allocator>(product: bool, term: &Term<A>) -> bool
    ensures { (names : _) (vars : _) →
        result ≡ (product && (printing_of names vars (view term.now)).is_sum) }
{
    product && is_sum(shape_of(term))
}

/// Whether the right operand of a product, or else of a sum, stands in parentheses.
fn wraps_right<A: Allocator>(product: bool, term: &Term<A>) -> bool
    ensures { (names : _) (vars : _) →
        let printing = printing_of names vars (view term.now) in
        result ≡ (printing.is_sum || (product && printing.is_product)) }
{
    let shape = shape_of(term);
    is_sum(shape) || (product && is_product(shape))
}

/// What the printing reads.
#[derive(Drop)]
pub(crate) struct Printer<'a, A: Allocator> {
    pub names: &'a Names<A>,
    pub vars: &'a VarNames<A>,
}

impl<A: Allocator> Printer<'_, A> {
    ghost use Rattle.chr_term.specs.Printer.{name_by, node_text_by, printing_by, printings_by};

    #[cycle(write)]
    pub fn write(&self, term: &Term<A>, out: &mut Vec<u8, A>) -> Result<(), Memory>
        ensures ok { OnOk result
            (out.new.items ≡ out.old.items ++ (printing_by self.now term.now).text) }
        ensures kept { IsExtension out.old.items out.new.items }
    {
        match term {
            Term::Var(number) => self.write_var(*number, out),
            Term::Int(value) => write_integer(*value, out),
            Term::Node(sym, args) => self.write_node(*sym, args.as_slice(), out),
        }
    }

    fn write_var(&self, number: u64, out: &mut Vec<u8, A>) -> Result<(), Memory>
        ensures ok { OnOk result
            (out.new.items ≡ out.old.items ++ var_text self.now.vars.now number) }
        ensures kept { IsExtension out.old.items out.new.items }
    {
        match self.vars.name(number as usize) {
            Some(name) => write_bytes(name.as_bytes(), out),
            None => {
                write_byte(b'_', out)?;
                write_number(number, out)
            }
        }
    }

    fn write_name(&self, sym: Sym, out: &mut Vec<u8, A>) -> Result<(), Memory>
        ensures ok { OnOk result (out.new.items ≡ out.old.items ++ name_by self.now sym) }
        ensures kept { IsExtension out.old.items out.new.items }
    {
        if (sym.0 as usize) < self.names.len() {
            write_bytes(self.names.name(sym).as_bytes(), out)
        } else {
            write_byte(b'?', out)
        }
    }

    /// A name with the parenthesis that opens its arguments.
    fn write_opening(&self, sym: Sym, out: &mut Vec<u8, A>) -> Result<(), Memory>
        ensures ok { OnOk result
            (out.new.items ≡ out.old.items ++ (name_by self.now sym ++ 40 ∷ [])) }
        ensures kept { IsExtension out.old.items out.new.items }
    {
        self.write_name(sym, out)?;
        write_byte(b'(', out)
    }

    #[cycle(write)]
    pub fn write_node(&self, sym: Sym, args: &[Term<A>], out: &mut Vec<u8, A>) -> Result<(), Memory>
        ensures ok { OnOk result
            (out.new.items ≡ out.old.items ++ node_text_by self.now sym args.now) }
        ensures kept { IsExtension out.old.items out.new.items }
    {
        match by_number(args) {
            Arguments::Zero => {
                if sym == Sym::NIL {
                    write_bytes(b"[]", out)
                } else {
                    self.write_name(sym, out)
                }
            }
            Arguments::One(only) => {
                self.write_opening(sym, out)?;
                self.write(only, out)?;
                write_byte(b')', out)
            }
            Arguments::Two(left, right) => self.write_pair(sym, left, right, out),
            Arguments::Many(first, second, third, others) => {
                self.write_many(sym, first, second, third, others, out)
            }
        }
    }

    #[cycle(write)]
    fn write_pair(
        &self,
        sym: Sym,
        left: &Term<A>,
        right: &Term<A>,
        out: &mut Vec<u8, A>,
    ) -> Result<(), Memory>
        ensures ok { OnOk result (out.new.items ≡ out.old.items ++ (pair_printing
            self.now.names.now sym.0
            (printing_by self.now left.now) (printing_by self.now right.now)).text) }
        ensures kept { IsExtension out.old.items out.new.items }
    {
        match shape_with_two(sym) {
            Shape::List => self.write_list(left, right, out),
            Shape::Sum => self.write_operator(false, sym, left, right, out),
            Shape::Product => self.write_operator(true, sym, left, right, out),
            Shape::Call => self.write_two(sym, left, right, out),
        }
    }

    /// A list, by its first element and the rest.
    #[cycle(write)]
    fn write_list(
        &self,
        first: &Term<A>,
        rest: &Term<A>,
        out: &mut Vec<u8, A>,
    ) -> Result<(), Memory>
        ensures ok { OnOk result (out.new.items ≡ out.old.items ++ (list_printing
            (printing_by self.now first.now) (printing_by self.now rest.now)).text) }
        ensures kept { IsExtension out.old.items out.new.items }
    {
        write_byte(b'[', out)?;
        self.write(first, out)?;
        self.write_tail(rest, out)
    }

    /// A name with two arguments.
    #[cycle(write)]
    fn write_two(
        &self,
        sym: Sym,
        left: &Term<A>,
        right: &Term<A>,
        out: &mut Vec<u8, A>,
    ) -> Result<(), Memory>
        ensures ok { OnOk result (out.new.items ≡ out.old.items ++ call_text (name_by self.now sym)
            (printing_by self.now left.now ∷ printing_by self.now right.now ∷ [])) }
        ensures kept { IsExtension out.old.items out.new.items }
    {
        self.write_opening(sym, out)?;
        self.write(left, out)?;
        self.write_next(right, out)?;
        write_byte(b')', out)
    }

    #[cycle(write)]
    fn write_operator(
        &self,
        product: bool,
        sym: Sym,
        left: &Term<A>,
        right: &Term<A>,
        out: &mut Vec<u8, A>,
    ) -> Result<(), Memory>
        ensures ok { OnOk result (out.new.items ≡ out.old.items ++ operator_text product sym.0
            (printing_by self.now left.now) (printing_by self.now right.now)) }
        ensures kept { IsExtension out.old.items out.new.items }
    {
        self.write_wrapped(wraps_left(product, left), left, out)?;
        write_sign(sym, out)?;
        self.write_wrapped(wraps_right(product, right), right, out)
    }

    #[cycle(write)]
    fn write_many(
        &self,
        sym: Sym,
        first: &Term<A>,
        second: &Term<A>,
        third: &Term<A>,
        others: &[Term<A>],
        out: &mut Vec<u8, A>,
    ) -> Result<(), Memory>
        ensures ok { let one = printing_by self.now in OnOk result
            (out.new.items ≡ out.old.items ++ call_text (name_by self.now sym)
            (one first.now ∷ one second.now ∷ one third.now ∷ printings_by self.now others.now)) }
        ensures kept { IsExtension out.old.items out.new.items }
    {
        self.write_opening(sym, out)?;
        self.write(first, out)?;
        self.write_next(second, out)?;
        self.write_from(third, others, out)
    }

    /// An argument with its comma.
    #[cycle(write)]
    fn write_next(&self, term: &Term<A>, out: &mut Vec<u8, A>) -> Result<(), Memory>
        ensures ok { OnOk result
            (out.new.items ≡ out.old.items ++ 44 ∷ (printing_by self.now term.now).text) }
        ensures kept { IsExtension out.old.items out.new.items }
    {
        write_byte(b',', out)?;
        self.write(term, out)
    }

    /// An argument with its comma, the others, and the closing parenthesis.
    #[cycle(write)]
    fn write_from(
        &self,
        term: &Term<A>,
        others: &[Term<A>],
        out: &mut Vec<u8, A>,
    ) -> Result<(), Memory>
        ensures ok { OnOk result
            (out.new.items ≡ out.old.items ++ 44 ∷ ((printing_by self.now term.now).text
            ++ (texts_from (printings_by self.now others.now) ++ 41 ∷ []))) }
        ensures kept { IsExtension out.old.items out.new.items }
    {
        self.write_next(term, out)?;
        self.write_others(others, out)?;
        write_byte(b')', out)
    }

    #[cycle(write)]
    fn write_others(&self, others: &[Term<A>], out: &mut Vec<u8, A>) -> Result<(), Memory>
        ensures ok { OnOk result
            (out.new.items ≡ out.old.items ++ texts_from (printings_by self.now others.now)) }
        ensures kept { IsExtension out.old.items out.new.items }
    {
        for term in others {
            self.write_next(term, out)?;
        }
        Ok(())
    }

    #[cycle(write)]
    fn write_wrapped(&self, wrap: bool, term: &Term<A>, out: &mut Vec<u8, A>) -> Result<(), Memory>
        ensures ok { OnOk result (out.new.items ≡
            out.old.items ++ in_parentheses wrap (printing_by self.now term.now).text) }
        ensures kept { IsExtension out.old.items out.new.items }
    {
        if wrap {
            write_byte(b'(', out)?;
            self.write(term, out)?;
            write_byte(b')', out)
        } else {
            self.write(term, out)
        }
    }

    /// The rest of a list, from after an element to the closing bracket.
    #[cycle(write)]
    fn write_tail(&self, term: &Term<A>, out: &mut Vec<u8, A>) -> Result<(), Memory>
        ensures ok { OnOk result
            (out.new.items ≡ out.old.items ++ (printing_by self.now term.now).tail) }
        ensures kept { IsExtension out.old.items out.new.items }
    {
        match term {
            Term::Node(sym, args) => match by_number(args.as_slice()) {
                Arguments::Zero => {
                    if *sym == Sym::NIL {
                        write_byte(b']', out)
                    } else {
                        self.write_end(term, out)
                    }
                }
                Arguments::Two(first, rest) => {
                    if *sym == Sym::CONS {
                        write_byte(b',', out)?;
                        self.write(first, out)?;
                        self.write_tail(rest, out)
                    } else {
                        self.write_end(term, out)
                    }
                }
                Arguments::One(_) => self.write_end(term, out),
                Arguments::Many(_, _, _, _) => self.write_end(term, out),
            },
            Term::Var(_) => self.write_end(term, out),
            Term::Int(_) => self.write_end(term, out),
        }
    }

    /// The end of a list that is no list.
    #[cycle(write)]
    fn write_end(&self, term: &Term<A>, out: &mut Vec<u8, A>) -> Result<(), Memory>
        ensures ok { OnOk result (out.new.items ≡
            out.old.items ++ 124 ∷ ((printing_by self.now term.now).text ++ 93 ∷ [])) }
        ensures kept { IsExtension out.old.items out.new.items }
    {
        write_byte(b'|', out)?;
        self.write(term, out)?;
        write_byte(b']', out)
    }
}

/// An operator, with spaces where it is a word.
fn write_sign<A: Allocator>(sym: Sym, out: &mut Vec<u8, A>) -> Result<(), Memory>
    ensures ok { OnOk result (out.new.items ≡ out.old.items ++ sign_of sym.0) }
    ensures kept { IsExtension out.old.items out.new.items }
{
    let sign = if sym == Sym::PLUS {
        "+"
    } else if sym == Sym::MINUS {
        "-"
    } else if sym == Sym::TIMES {
        "*"
    } else if sym == Sym::DIVIDE {
        "//"
    } else {
        " mod "
    };
    write_bytes(sign.as_bytes(), out)
}
