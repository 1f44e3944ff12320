#![tactic(auto, using(crate::proofs::Extensions::extended_on, crate::proofs::Extensions::taken_back))]
//! The texts that runs and traces are made of. Each call appends a text, or leaves all as it was where memory is refused.
ghost use Rattle.std.specs.Prelude.{◌≡◌, ◌++◌, OnErr, OnOk, map, take, vec_len};
ghost use Rattle.std.specs.Fmt.{decimal};
ghost use Rattle.chr_semantics.specs.Print.{term_text};
ghost use Rattle.chr_semantics.specs.Text.{atom_text, ids_text};
ghost use Rattle.chr_term.specs.Extension.{IsExtension};
ghost use Rattle.chr_term.specs.TermView.{atom_view, view};

use crate::numbered::Numbered;
use crate::printer::Printer;
use crate::writing::{all_or_nothing, write_numbers};
use crate::{Memory, Names, Sym, Term, VarNames};
use itoa::Buffer;
use std::alloc::Allocator;

/// Appends the text of a term. Where memory is refused, the text is as before.
pub fn print<A: Allocator>(
    names: &Names<A>,
    vars: &VarNames<A>,
    term: &Term<A>,
    out: &mut Vec<u8, A>,
) -> Result<(), Memory>
    ensures ok { OnOk result
        (out.new.items ≡ out.old.items ++ term_text names.now vars.now (view term.now)) }
    ensures err { OnErr result (out.new.items ≡ out.old.items) }
{
    let len = out.len();
    let written = Printer { names, vars }.write(term, out);
    all_or_nothing(written, len, out)
}

/// Appends the text of a symbol over these terms. Where memory is refused, the text is as before.
pub fn print_atom<A: Allocator>(
    names: &Names<A>,
    vars: &VarNames<A>,
    sym: Sym,
    args: &[Term<A>],
    out: &mut Vec<u8, A>,
) -> Result<(), Memory>
    ensures ok { OnOk result
        (out.new.items ≡ out.old.items ++ atom_text names.now vars.now (atom_view sym args.now)) }
    ensures err { OnErr result (out.new.items ≡ out.old.items) }
{
    let len = out.len();
    let written = Printer { names, vars }.write_node(sym, args, out);
    all_or_nothing(written, len, out)
}

/// Appends a number in decimal. Where memory is refused, the text is as before.
pub fn print_number<O: Allocator>(number: u64, out: &mut Vec<u8, O>) -> Result<(), Memory>
    ensures ok { OnOk result (out.new.items ≡ out.old.items ++ decimal number) }
    ensures err { OnErr result (out.new.items ≡ out.old.items) }
{
    let mut buffer = Buffer::new();
    out.extend_from_slice(buffer.format(number).as_bytes())
}

/// Appends the numbers of these values, with commas between them. Where memory is refused, the text is as before.
pub fn print_numbers<I: Numbered, O: Allocator>(
    items: &[I],
    out: &mut Vec<u8, O>,
) -> Result<(), Memory>
    ensures ok { OnOk result (out.new.items ≡ out.old.items ++ ids_text (map I.number items.now)) }
    ensures err { OnErr result (out.new.items ≡ out.old.items) }
{
    let len = out.len();
    let written = write_numbers(items, out);
    all_or_nothing(written, len, out)
}
