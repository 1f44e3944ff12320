//! Inputs that are read whole, and outputs that are written whole.
ghost use Rattle.std.specs.Prelude.{◌≡◌, ℕ, List, Option, Some, None, IfOk, IfSome};
ghost use Rattle.std.specs.Io.KnownBytes.{Appends, Consumes, IsAtEnd};

use std::alloc::Global;
use std::io;
use std::io::{Read, Write};
use std::rt::Files;

/// How often an input is read at most.
const READS: u32 = 1_000_000;

/// What opens the file of a path, to be read.
pub trait Opens {
    type File: Read + Drop;

    // The bytes of the file of a path, where they are known.
    ghost bytes_of: { Self → List ℕ → Option (List ℕ) };

    fn open(&self, path: &str) -> io::Result<Self::File>
        ensures { IfOk result
            (λ file. IfSome (bytes_of self.now path.now)
            (λ bytes. Self.File.remaining file ≡ Some bytes)) };
}

/// What creates the file of a path, to be written.
pub trait Creates {
    type Sink: Write + Drop;

    // The bytes that the file of a path has when it is created, where they are known.
    ghost fresh: { Self → List ℕ → Option (List ℕ) };

    fn create(&self, path: &str) -> io::Result<Self::Sink>
        ensures { IfOk result
            (λ sink. IfSome (fresh self.now path.now)
            (λ bytes. Self.Sink.contents sink ≡ Some bytes)) };
}

/// The files of the system, of whose bytes nothing is known.
#[derive(Clone, Copy)]
pub struct Disk<'r, R>(pub &'r R);

impl<R: Files> Opens for Disk<'_, R> {
    type File = R::File;

    ghost bytes_of = { λ _ _. None };

    fn open(&self, path: &str) -> io::Result<R::File> {
        std::fs::open(self.0, path)
    }
}

impl<R: Files> Creates for Disk<'_, R> {
    type Sink = R::File;

    ghost fresh = { λ _ _. None };

    fn create(&self, path: &str) -> io::Result<R::File> {
        std::fs::create(self.0, path)
    }
}

/// All that the input has left, or none where it cannot be read: a read fails, the greatest number of reads does not reach its end, or there is no memory for it.
pub fn read_all<R: Read>(alloc: Global, input: &mut R) -> Option<Vec<u8>>
    ensures bytes { IfSome result
        (λ bytes. Consumes (R.remaining input.old) (R.remaining input.new) bytes.items) }
    ensures end { IfSome result (λ bytes. IsAtEnd (R.remaining input.new)) }
{
    let mut bytes = Vec::new(alloc);
    let mut buffer = [0u8; 4096];
    for _ in 0..READS {
        match input.read(&mut buffer) {
            Ok(0) => return Some(bytes),
            Ok(count) => bytes.extend_from_slice(&buffer[..count]).ok()?,
            Err(_) => return None,
        }
    }
    None
}

/// The bytes of the file of a path, or none where it cannot be opened or read.
pub fn read_file<O: Opens>(alloc: Global, opens: &O, path: &str) -> Option<Vec<u8>>
    ensures { IfSome result
        (λ bytes. IfSome (O.bytes_of opens.now path.now) (λ whole. bytes.items ≡ whole)) }
{
    let mut file = opens.open(path).ok()?;
    read_all(alloc, &mut file)
}

/// Writes all the bytes, or gives none where a write fails or takes nothing of what is left. A write that was interrupted is made again.
pub fn write_all<W: Write>(output: &mut W, bytes: &[u8]) -> Option<()>
    ensures { IfSome result
        (λ _. Appends (W.contents output.old) (W.contents output.new) bytes.now) }
{
    output.write_all(bytes).ok()
}

/// Creates the file of a path and writes all the bytes to it, or gives none where it cannot.
pub fn write_file<C: Creates>(creates: &C, path: &str, bytes: &[u8]) -> Option<()>
    ensures { IfSome result
        (λ _. (sink : C.Sink) × Appends (C.fresh creates.now path.now) (C.Sink.contents sink) bytes.now) }
{
    let mut sink = creates.create(path).ok()?;
    write_all(&mut sink, bytes)
}
