//! Writing bytes out.
ghost use Rattle.std.specs.Prelude.{OnErr, OnOk};
ghost use Rattle.std.specs.Io.KnownBytes.{Appends};
ghost use Rattle.chr_run.specs.Output.{AppendsLess};

use std::io::Write;

/// The writer failed, or took nothing of what was left.
#[derive(Clone, Copy, PartialEq, Eq, Debug, Drop)]
pub struct Unwritten;

/// Writes all the bytes, or a first part of them and then the error, where some are left.
pub fn write_bytes<W: Write>(writer: &mut W, bytes: &[u8]) -> Result<(), Unwritten>
    ensures ok { OnOk result (Appends (W.contents writer.old) (W.contents writer.new) bytes.now) }
    ensures err { OnErr result (AppendsLess (W.contents writer.old) (W.contents writer.new) bytes.now) }
{
    let mut rest = bytes;
    while !rest.is_empty() {
        match writer.write(rest) {
            Ok(0) => return Err(Unwritten),
            Ok(n) => rest = rest.split_at(n).1,
            Err(_) => return Err(Unwritten),
        }
    }
    Ok(())
}
