//! A dynamic library's install name: the path in its command, up to a NUL.
//!
//! The command of a library named `/a` (`mach-o/loader.h`):
//!
//!     0d 00 00 00 20 00 00 00 18 00 00 00   DylibCommand: 32 bytes, the path at 24
//!     02 00 00 00 00 00 01 00 00 00 01 00   time stamp, current version, compatibility version
//!     2f 61 00 00 00 00 00 00               `/a` and zeros
ghost use Rattle.std.specs.Prelude.{◌≡◌, true, option_copied};
ghost use Rattle.macho_object.specs.steps.Outlines.{IsOutlined, path_field_of, ending_path};

use crate::outline::Outline;
use macho_records::{DylibCommand, name_bytes};

impl<'data> Outline<'data> {
    /// The path in a library's command, if a NUL ends it there.
    #[tactic(auto, using(crate::proofs::Libraries::install_name_is))]
    pub(crate) fn path(&self) -> Option<&'data [u8]>
        requires outlined { IsOutlined self.now }
        requires library { self.now.is_dynamic ≡ true }
        ensures { option_copied result ≡ ending_path self.now.input.now self.now.places.main }
    {
        let text = self.path_field();
        let name = name_bytes(text);
        if name.len() < text.len() {
            Some(name)
        } else {
            None
        }
    }

    /// The bytes of a library's command from its path's place on.
    #[tactic(auto, using(crate::proofs::Libraries::same_size))]
    fn path_field(&self) -> &'data [u8]
        requires outlined { IsOutlined self.now }
        requires library { self.now.is_dynamic ≡ true }
        ensures { result.now ≡ path_field_of self.now.input.now self.now.places.main }
    {
        let at = self.places.main;
        let Some(command) = DylibCommand::read(self.input, at) else {
            unreachable!()
        };
        let start = at + command.name_offset as usize;
        let end = at + command.cmdsize as usize;
        if start >= end {
            return &[];
        }
        &self.input[start..end]
    }
}
