//! Strings between quotes.
ghost use Rattle.std.specs.Prelude.{◌≡◌, OnOk};
ghost use Rattle.values_semantics.specs.Printing.{escaped, quoted};
ghost use Rattle.values_builtins.specs.TextBuffers.{text_so_far, more};

use crate::text_buffer::TextBuffer;
use base_types::Memory;

/// Writes a string between quotes.
#[tactic(auto, using(crate::proofs::TextBufferLaws::too_long_stays))]
pub fn write_quoted(out: &mut TextBuffer, bytes: &[u8]) -> Result<(), Memory>
    ensures { OnOk result (text_so_far out.new ≡ more (text_so_far out.old) (quoted bytes.now)) }
{
    if out.long {
        return Ok(());
    }
    out.write(b"\"")?;
    for byte in bytes.iter() {
        write_escaped(out, *byte)?;
    }
    out.write(b"\"")?;
    Ok(())
}

// Writes one byte of a string between quotes.
fn write_escaped(out: &mut TextBuffer, byte: u8) -> Result<(), Memory>
    ensures { OnOk result (text_so_far out.new ≡ more (text_so_far out.old) (escaped byte)) }
{
    match byte {
        b'\\' => out.write(b"\\\\")?,
        b'"' => out.write(b"\\\"")?,
        b'\n' => out.write(b"\\n")?,
        b'\r' => out.write(b"\\r")?,
        b'\t' => out.write(b"\\t")?,
        _ => out.write([byte].as_slice())?,
    }
    Ok(())
}
