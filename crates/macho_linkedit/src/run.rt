//! The run of fixups, in the order of addresses.
//!
//! Slots are asked for first, then the pointers of each section in the order of its relocations, which often fall:
//! 0x100004000, 0x100004008; 0x100008018, 0x100008010. The run is 0x100004000, 0x100004008, 0x100008010, 0x100008018.
ghost use Rattle.std.specs.Prelude.{◌≡◌};
ghost use Rattle.macho_linkedit.specs.Runs.{IsSortedRunOf};

use macho_fixups::Fixup;

/// Puts the fixups that a link asks for into the order of their addresses, in which chains go through them. It takes no
/// memory. Words of one address, of which a link has none, end in any order.
pub fn sort_run(fixups: &mut [Fixup])
    ensures { IsSortedRunOf fixups.old fixups.new }
{
    fixups.sort_unstable_by_key(
        |fixup: &Fixup| -> u64
            ensures { result ≡ fixup.now.address }
        { fixup.address },
    );
}
