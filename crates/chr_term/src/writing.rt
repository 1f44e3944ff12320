#![tactic(auto, using(crate::proofs::Extensions::extended_on))]
//! Writing at the end of a text. Where memory is refused, the text begins with what it was before.
ghost use Rattle.std.specs.Prelude.{◌≡◌, ◌++◌, ◌∷◌, [], OnErr, OnOk, map, take};
ghost use Rattle.std.specs.Fmt.{decimal, signed_decimal};
ghost use Rattle.chr_semantics.specs.Text.{ids_text, more_ids_text};
ghost use Rattle.chr_term.specs.Extension.{IsExtension};

use crate::Memory;
use crate::numbered::Numbered;
use itoa::Buffer;
use std::alloc::Allocator;

/// Appends a byte. Where memory is refused, the text begins with what it was before; so with the calls below.
pub fn write_byte<O: Allocator>(byte: u8, out: &mut Vec<u8, O>) -> Result<(), Memory>
    ensures ok { OnOk result (out.new.items ≡ out.old.items ++ byte ∷ []) }
    ensures kept { IsExtension out.old.items out.new.items }
{
    out.push(byte)?;
    Ok(())
}

/// Appends bytes.
pub fn write_bytes<O: Allocator>(bytes: &[u8], out: &mut Vec<u8, O>) -> Result<(), Memory>
    ensures ok { OnOk result (out.new.items ≡ out.old.items ++ bytes.now) }
    ensures kept { IsExtension out.old.items out.new.items }
{
    out.extend_from_slice(bytes)
}

/// Appends a text.
pub fn write_text<O: Allocator>(text: &str, out: &mut Vec<u8, O>) -> Result<(), Memory>
    ensures ok { OnOk result (out.new.items ≡ out.old.items ++ text.now) }
    ensures kept { IsExtension out.old.items out.new.items }
{
    write_bytes(text.as_bytes(), out)
}

/// Appends a number in decimal.
pub fn write_number<O: Allocator>(number: u64, out: &mut Vec<u8, O>) -> Result<(), Memory>
    ensures ok { OnOk result (out.new.items ≡ out.old.items ++ decimal number) }
    ensures kept { IsExtension out.old.items out.new.items }
{
    if number < 10 {
        return write_byte(b'0' + number as u8, out);
    }
    let mut buffer = Buffer::new();
    write_bytes(buffer.format(number).as_bytes(), out)
}

/// Appends a whole number in decimal.
pub(crate) fn write_integer<O: Allocator>(value: i128, out: &mut Vec<u8, O>) -> Result<(), Memory>
    ensures ok { OnOk result (out.new.items ≡ out.old.items ++ signed_decimal value) }
    ensures kept { IsExtension out.old.items out.new.items }
{
    let mut buffer = Buffer::new();
    // Most fit in 64 bits, whose digits take a fraction of the time.
    let text = match i64::try_from(value) {
        Ok(short) => buffer.format(short),
        Err(_) => buffer.format(value),
    };
    write_bytes(text.as_bytes(), out)
}

/// The numbers with commas between them.
pub(crate) fn write_numbers<I: Numbered, O: Allocator>(
    items: &[I],
    out: &mut Vec<u8, O>,
) -> Result<(), Memory>
    ensures ok { OnOk result (out.new.items ≡ out.old.items ++ ids_text (map I.number items.now)) }
    ensures kept { IsExtension out.old.items out.new.items }
{
    match items {
        [] => Ok(()),
        [first, others @ ..] => {
            write_number(first.number(), out)?;
            write_more_numbers(others, out)
        }
    }
}

/// The numbers, each with a comma before it.
fn write_more_numbers<I: Numbered, O: Allocator>(
    items: &[I],
    out: &mut Vec<u8, O>,
) -> Result<(), Memory>
    ensures ok { OnOk result
        (out.new.items ≡ out.old.items ++ more_ids_text (map I.number items.now)) }
    ensures kept { IsExtension out.old.items out.new.items }
{
    for item in items {
        write_next_number(item.number(), out)?;
    }
    Ok(())
}

/// A number with a comma before it.
fn write_next_number<O: Allocator>(number: u64, out: &mut Vec<u8, O>) -> Result<(), Memory>
    ensures ok { OnOk result (out.new.items ≡ out.old.items ++ 44 ∷ decimal number) }
    ensures kept { IsExtension out.old.items out.new.items }
{
    write_byte(b',', out)?;
    write_number(number, out)
}

/// Takes back what stands from `len` on where the writing of it was refused.
pub fn all_or_nothing<O: Allocator>(
    written: Result<(), Memory>,
    len: usize,
    out: &mut Vec<u8, O>,
) -> Result<(), Memory>
    ensures written { result ≡ written }
    ensures ok { OnOk result (out.new.items ≡ out.old.items) }
    ensures err { OnErr result (out.new.items ≡ take len out.old.items) }
{
    if written.is_err() {
        out.truncate(len);
    }
    written
}
