//! A file cut into texts, byte by byte.

ghost use Rattle.std.specs.Prelude.{◌≡◌, ◌||◌, ◌==◌, map, OnOk, IfOk, IfErr};
ghost use Rattle.ld64_words.specs.declared.files.FileFault.TheVariants.{OutOfMemory};
ghost use Rattle.ld64_words.specs.Files.{Cut, nothing_cut, with_byte, ended, is_blank as is_blank_byte, with_plain, with_next, cut_from};
ghost use Rattle.ld64_words.specs.steps.Files.{cut_of};

use crate::files::{FileFault, FileKind};
use std::alloc::Global;
use std::mem;

/// What is cut so far.
#[derive(Drop)]
pub(crate) struct Cutting {
    /// The whole texts.
    pub(crate) texts: Vec<Vec<u8>>,
    /// The text that is begun.
    pub(crate) begun: Vec<u8>,
    /// The quote that is open.
    pub(crate) quote: Option<u8>,
    /// Whether a backslash stands before the next byte.
    pub(crate) escaped: bool,
}

impl Cutting {
    /// Before any byte.
    pub(crate) fn new(alloc: Global) -> Cutting
        ensures { cut_of result ≡ nothing_cut }
    {
        Cutting {
            texts: Vec::new(alloc),
            begun: Vec::new(alloc),
            quote: None,
            escaped: false,
        }
    }

    /// Takes the bytes one after the other.
    pub(crate) fn take(
        &mut self,
        alloc: Global,
        kind: FileKind,
        bytes: &[u8],
    ) -> Result<(), FileFault>
        ensures done { OnOk result (cut_of self.new ≡ cut_from kind (cut_of self.old) bytes.now) }
        ensures why { IfErr result (λ fault. fault ≡ OutOfMemory) }
    {
        for byte in bytes {
            self.take_next(alloc, kind, *byte)?;
        }
        Ok(())
    }

    // Takes one byte more.
    #[tactic(auto, unfolding(crate::specs::Files::with_next))]
    fn take_next(&mut self, alloc: Global, kind: FileKind, byte: u8) -> Result<(), FileFault>
        ensures done { OnOk result (cut_of self.new ≡ with_next kind byte (cut_of self.old)) }
        ensures why { IfErr result (λ fault. fault ≡ OutOfMemory) }
    {
        match kind {
            FileKind::Words => {
                if self.escaped {
                    self.add(byte)
                } else if byte == b'\\' {
                    self.escaped = true;
                    Ok(())
                } else {
                    self.take_plain(alloc, byte)
                }
            }
            FileKind::Inputs => {
                if byte == b'\n' {
                    self.end(alloc)
                } else {
                    self.add(byte)
                }
            }
        }
    }

    // Takes a byte of a file of words that no backslash stands before, and that is none.
    fn take_plain(&mut self, alloc: Global, byte: u8) -> Result<(), FileFault>
        ensures done { OnOk result (cut_of self.new ≡ with_plain self.old.quote byte (cut_of self.old)) }
        ensures why { IfErr result (λ fault. fault ≡ OutOfMemory) }
    {
        match self.quote {
            Some(quote) => {
                if byte == quote {
                    self.quote = None;
                    Ok(())
                } else {
                    self.add(byte)
                }
            }
            None => {
                if byte == b'"' || byte == b'\'' {
                    self.quote = Some(byte);
                    Ok(())
                } else if is_blank(byte) {
                    self.end(alloc)
                } else {
                    self.add(byte)
                }
            }
        }
    }

    // Adds a byte to the text that is begun.
    fn add(&mut self, byte: u8) -> Result<(), FileFault>
        ensures done { OnOk result (cut_of self.new ≡ with_byte byte (cut_of self.old)) }
        ensures why { IfErr result (λ fault. fault ≡ OutOfMemory) }
    {
        self.begun.push(byte)?;
        self.escaped = false;
        Ok(())
    }

    /// Ends the text that is begun, if it isn't empty.
    pub(crate) fn end(&mut self, alloc: Global) -> Result<(), FileFault>
        ensures done { OnOk result (cut_of self.new ≡ ended (cut_of self.old)) }
        ensures why { IfErr result (λ fault. fault ≡ OutOfMemory) }
    {
        if self.begun.is_empty() {
            return Ok(());
        }
        let text = mem::replace(&mut self.begun, Vec::new(alloc));
        self.texts.push(text)?;
        Ok(())
    }
}

// Whether the byte is a space, a tab, a line feed or a carriage return.
fn is_blank(byte: u8) -> bool
    ensures { result ≡ is_blank_byte byte }
{
    (byte == b' ' || byte == b'\t') || (byte == b'\n' || byte == b'\r')
}
