//! A buffer that printed lines share, so that one write takes many pieces.

ghost use Rattle.std.specs.Prelude.{◌≡◌, [], OnOk};
ghost use Rattle.macho_printing.specs.Printing.{IsPrinted, IsPushed, held_in};

use arrayvec::ArrayVec;
use macho_devices::{Sink, SinkFault};

/// Texts that were pushed and that the sink hasn't taken yet. They lie in the value itself.
#[derive(Drop)]
pub struct LineBuffer {
    held: ArrayVec<u8, 512>,
}

impl LineBuffer {
    /// Holds nothing.
    pub fn new() -> LineBuffer
        ensures { held_in result ≡ [] }
    {
        LineBuffer {
            held: ArrayVec::new(),
        }
    }

    /// Holds the text, too, behind what is held. Where there is no room for it, what is held is printed before. Where the sink fails,
    /// nothing more is printed.
    ///
    /// # Errors
    ///
    /// The sink failed; it took the first of what was held and of the text.
    pub fn push<S: Sink>(&mut self, sink: &mut S, text: &[u8]) -> Result<(), SinkFault>
        ensures { IsPushed (S.state sink.old) (S.state sink.new) (held_in self.old) (held_in self.new) text.now result }
    {
        match self.held.try_extend_from_slice(text) {
            Ok(()) => Ok(()),
            Err(_) => {
                self.flush(sink)?;
                self.push_first(sink, text)
            }
        }
    }

    // Holds the text where nothing is held. One that is longer than the buffer is printed.
    fn push_first<S: Sink>(&mut self, sink: &mut S, text: &[u8]) -> Result<(), SinkFault>
        requires { held_in self.old ≡ [] }
        ensures { IsPushed (S.state sink.old) (S.state sink.new) [] (held_in self.new) text.now result }
    {
        match self.held.try_extend_from_slice(text) {
            Ok(()) => Ok(()),
            Err(_) => sink.write(text),
        }
    }

    /// Prints what is held, and then holds nothing.
    ///
    /// # Errors
    ///
    /// The sink failed; it took the first of what was held.
    pub fn flush<S: Sink>(&mut self, sink: &mut S) -> Result<(), SinkFault>
        ensures printed { IsPrinted (S.state sink.old) (S.state sink.new) (held_in self.old) result }
        ensures empty { OnOk result (held_in self.new ≡ []) }
    {
        if self.held.is_empty() {
            return Ok(());
        }
        sink.write(self.held.as_slice())?;
        self.held.clear();
        Ok(())
    }
}
