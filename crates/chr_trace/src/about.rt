//! The lines about a constraint, without their line feeds. Where memory is refused, the text begins with what it was before.
ghost use Rattle.std.specs.Prelude.{◌≡◌, ℕ, ◌++◌, ◌∷◌, OnOk};
ghost use Rattle.std.specs.Fmt.{decimal};
ghost use Rattle.std.specs.Str.{byte};
ghost use Rattle.chr_semantics.specs.Names.{Names, VarNames};
ghost use Rattle.chr_semantics.specs.Program.{Atom};
ghost use Rattle.chr_semantics.specs.Text.{firing_text, known_text, line_text};
ghost use Rattle.chr_store.specs.Numbers.{numbers};
ghost use Rattle.chr_term.specs.Extension.{IsExtension};
ghost use Rattle.chr_trace.specs.About.{line_about};
ghost use Rattle.chr_trace.specs.ScribeView.{about_line, at_line, fired_line};

use chr_store::Id;
use chr_term::{Memory, print_numbers, write_byte, write_bytes, write_number, write_text};
use std::alloc::Allocator;

/// What a line says about a constraint. A Drop and a Default go with the number of the occurrence, and a firing with that, whether it keeps the
/// active constraint, the label of its rule, and the identities.
#[derive(Clone, Copy, Drop)]
pub enum About<'t> {
    Activates,
    Reactivates,
    Drops(u32),
    Defaults(u32),
    Fires(u32, bool, &'t str, &'t [Id]),
}

impl<'t> About<'t> {
    /// Writes the line of a transition about the constraint with this text, which has its identity.
    pub(crate) fn write<A: Allocator>(
        self,
        number: u64,
        known: &[u8],
        out: &mut Vec<u8, A>,
    ) -> Result<(), Memory>
        ensures ok { (names : Names) (vars : VarNames) (a : Atom) (i : ℕ) →
            known.now ≡ known_text names vars a i → OnOk result (out.new.items
            ≡ out.old.items ++ line_text names vars number (line_about self.entry a i)) }
        ensures kept { IsExtension out.old.items out.new.items }
    {
        match self {
            About::Activates => write_known(number, " activate ", known, out),
            About::Reactivates => write_known(number, " reactivate ", known, out),
            About::Drops(occurrence) => write_active(number, " drop ", known, occurrence, out),
            About::Defaults(occurrence) => {
                write_active(number, " default ", known, occurrence, out)
            }
            About::Fires(occurrence, true, label, ids) => {
                write_fired(number, " propagate ", known, occurrence, label, ids, out)
            }
            About::Fires(occurrence, false, label, ids) => {
                write_fired(number, " simplify ", known, occurrence, label, ids, out)
            }
        }
    }
}

/// Writes the number of a transition, and a word.
pub(crate) fn write_start<A: Allocator>(
    number: u64,
    word: &str,
    out: &mut Vec<u8, A>,
) -> Result<(), Memory>
    ensures ok { OnOk result (out.new.items ≡ out.old.items ++ (decimal number ++ word.now)) }
    ensures kept { IsExtension out.old.items out.new.items }
{
    write_number(number, out)?;
    write_text(word, out)
}

/// Writes the number of a transition, a word, and the text of a constraint.
fn write_known<A: Allocator>(
    number: u64,
    word: &str,
    known: &[u8],
    out: &mut Vec<u8, A>,
) -> Result<(), Memory>
    ensures ok { OnOk result (out.new.items ≡ out.old.items ++ about_line number word.now known.now) }
    ensures kept { IsExtension out.old.items out.new.items }
{
    write_start(number, word, out)?;
    write_bytes(known, out)
}

/// Writes the same, and the number of the occurrence.
fn write_active<A: Allocator>(
    number: u64,
    word: &str,
    known: &[u8],
    occurrence: u32,
    out: &mut Vec<u8, A>,
) -> Result<(), Memory>
    ensures ok { OnOk result
        (out.new.items ≡ out.old.items ++ at_line number word.now known.now occurrence) }
    ensures kept { IsExtension out.old.items out.new.items }
{
    write_known(number, word, known, out)?;
    write_byte(b':', out)?;
    write_number(u64::from(occurrence), out)
}

/// Writes the same, the label of a rule, and the identities with which it fires.
fn write_fired<A: Allocator>(
    number: u64,
    word: &str,
    known: &[u8],
    occurrence: u32,
    label: &str,
    ids: &[Id],
    out: &mut Vec<u8, A>,
) -> Result<(), Memory>
    ensures ok { OnOk result (out.new.items
        ≡ out.old.items ++ fired_line number word.now known.now occurrence label.now (numbers ids.now)) }
    ensures kept { IsExtension out.old.items out.new.items }
{
    write_active(number, word, known, occurrence, out)?;
    write_firing(label, ids, out)
}

/// Writes the label of a rule, and the identities with which it fires.
fn write_firing<A: Allocator>(label: &str, ids: &[Id], out: &mut Vec<u8, A>) -> Result<(), Memory>
    ensures ok { OnOk result
        (out.new.items ≡ out.old.items ++ (byte " " ∷ firing_text label.now (numbers ids.now))) }
    ensures kept { IsExtension out.old.items out.new.items }
{
    write_byte(b' ', out)?;
    write_text(label, out)?;
    write_byte(b' ', out)?;
    print_numbers(ids, out)
}
