//! Texts that go to C.
ghost use Rattle.std.specs.Prelude.{◌≡◌, length};
ghost use Rattle.cordspar.specs.Lines.{written_over};

/// Writes a text to the beginning of a buffer, or as much of it as the buffer holds, and answers its length.
pub(crate) fn put(text: &[u8], buffer: &mut [u8]) -> usize
    ensures length { result ≡ length text.now }
    ensures bytes { buffer.new ≡ written_over text.now buffer.old }
{
    let count = text.len().min(buffer.len());
    buffer[..count].copy_from_slice(&text[..count]);
    text.len()
}
