//! A text that is written from front to back.
ghost use Rattle.std.specs.Prelude.{◌≡◌, [], Some, OnOk};
ghost use Rattle.values_builtins.specs.TextBuffers.{text_so_far, more};

use base_types::Memory;
use std::alloc::Global;
use values_heap::MAX_LENGTH;

/// A text that is written from front to back. No more bytes of it are kept than a string may have.
#[derive(Drop)]
pub struct TextBuffer {
    pub bytes: Vec<u8>,
    pub long: bool,
}

impl TextBuffer {
    /// Makes an empty text.
    #[tactic(auto, unfolding(crate::specs::TextBuffers::text_so_far))]
    pub fn new(alloc: Global) -> TextBuffer
        ensures { text_so_far result ≡ Some [] }
    {
        TextBuffer {
            bytes: Vec::new(alloc),
            long: false,
        }
    }

    /// Adds a part at the end.
    #[tactic(auto, using(crate::proofs::TextBufferLaws::keep_more), unfolding(crate::specs::TextBuffers::text_so_far, crate::specs::TextBuffers::more))]
    pub fn write(&mut self, part: &[u8]) -> Result<(), Memory>
        ensures { OnOk result (text_so_far self.new ≡ more (text_so_far self.old) part.now) }
    {
        if self.long {
            return Ok(());
        }
        if part.len() > MAX_LENGTH || self.bytes.len() > MAX_LENGTH - part.len() {
            self.long = true;
            return Ok(());
        }
        self.bytes.extend_from_slice(part)?;
        Ok(())
    }
}
