//! Symbols: where their table stands, and its entries.
//!
//! A symbol `_main` of section 1 at address 0, whose name stands at 1 (`mach-o/nlist.h`):
//!
//!     01 00 00 00   n_strx
//!     0f            n_type: N_SECT and N_EXT
//!     01            n_sect
//!     00 00         n_desc
//!     00 .. 00      n_value, 8 bytes
ghost use Rattle.std.specs.Prelude.{◌≡◌, ◌+◌, ◌^◌, ◌<◌, ◌≤◌, ◌==◌, ◌-◌, bit_and, true, false, not, length, IsTrue, if◌then◌else◌, ◌&&◌, nat_eq, codes};
ghost use Rattle.std.specs.List.{starts_with};
ghost use Rattle.macho_bytes.specs.Numbers.{rounded_up};
ghost use Rattle.macho_bytes.specs.Texts.{put};
ghost use Rattle.macho_bytes.specs.Layouts.{read_of, size_of};
ghost use Rattle.macho_records.specs.Layouts.{symtab_command, symtab_entry};
ghost use Rattle.macho_records.specs.Flags.{has_any};
ghost use Rattle.macho_records.specs.Symbols.{has_type, is_hidden_of, is_weak_of, visibility_of, is_common_of, common_exponent_of, common_size_of, common_of, with_hidden_of};
ghost use Rattle.macho_records.specs.declared.constants.TheConstants.{N_UNDF};
ghost use Rattle.macho_bytes.specs.Spellings.{spelling, ReadsBack};
ghost use Rattle.macho_records.specs.Spellings.{symtab_command_rows, symtab_entry_rows};

use crate::constants::{N_ABS, N_EXT, N_PEXT, N_STAB, N_TYPE, N_UNDF, N_WEAK_DEF};
use macho_wire::{little_at, put_littles};

/// `struct symtab_command` of mach-o/loader.h: where symbols and their names stand.
#[derive(Clone, Copy)]
pub struct SymtabCommand {
    /// The number of the command.
    pub cmd: u32,
    /// The bytes of the command, this record and what follows it.
    pub cmdsize: u32,
    /// The file offset of the symbol table.
    pub symoff: u32,
    /// How many symbols it has.
    pub nsyms: u32,
    /// The file offset of the string table.
    pub stroff: u32,
    /// Its bytes.
    pub strsize: u32,
}

impl SymtabCommand {
    /// The bytes of the record.
    pub const SIZE: usize = 24;

    /// The record at a place of the bytes, None where it does not stand there whole.
    #[tactic(auto, unfolding(macho_bytes::specs::Layouts::reading))]
    pub fn read(bytes: &[u8], at: usize) -> Option<SymtabCommand>
        ensures { result ≡ read_of symtab_command bytes.now at }
    {
        if bytes.len() < Self::SIZE || bytes.len() - Self::SIZE < at {
            return None;
        }
        Some(SymtabCommand {
            cmd: little_at(bytes, at, 0),
            cmdsize: little_at(bytes, at, 4),
            symoff: little_at(bytes, at, 8),
            nsyms: little_at(bytes, at, 12),
            stroff: little_at(bytes, at, 16),
            strsize: little_at(bytes, at, 20),
        })
    }

    /// Writes the record at a place; the other bytes stay.
    #[tactic(auto, using(macho_bytes::proofs::Layouts::little_record))]
    pub fn write(&self, out: &mut [u8], at: usize)
        requires { at + size_of symtab_command ≤ length out.old }
        ensures written { out.new ≡ put at (spelling symtab_command_rows self.now) out.old }
        ensures back { ReadsBack symtab_command_rows self.now }
    {
        let r = *self;
        put_littles(
            out,
            at,
            &[r.cmd, r.cmdsize, r.symoff, r.nsyms, r.stroff, r.strsize],
        );
    }
}

/// `struct nlist_64` of mach-o/nlist.h: a symbol.
#[derive(Clone, Copy)]
pub struct SymtabEntry {
    /// The place of its name in the string table, 0 for none.
    pub n_strx: u32,
    /// `N_STAB`, `N_PEXT`, `N_TYPE` and `N_EXT` bits.
    pub n_type: u8,
    /// The number of its section, from 1; 0 for none.
    pub n_sect: u8,
    /// `N_WEAK_REF`, `N_WEAK_DEF`; of a common, its exponent in bits 8 to 11.
    pub n_desc: u16,
    /// Its address, its absolute value, or the size of a common.
    pub n_value: u64,
}

impl SymtabEntry {
    /// The bytes of the record.
    pub const SIZE: usize = 16;

    /// The record at a place of the bytes, None where it does not stand there whole.
    #[tactic(auto, unfolding(macho_bytes::specs::Layouts::reading))]
    pub fn read(bytes: &[u8], at: usize) -> Option<SymtabEntry>
        ensures { result ≡ read_of symtab_entry bytes.now at }
    {
        if bytes.len() < Self::SIZE || bytes.len() - Self::SIZE < at {
            return None;
        }
        Some(SymtabEntry {
            n_strx: little_at(bytes, at, 0),
            n_type: little_at(bytes, at, 4),
            n_sect: little_at(bytes, at, 5),
            n_desc: little_at(bytes, at, 6),
            n_value: little_at(bytes, at, 8),
        })
    }

    /// Writes the record at a place; the other bytes stay.
    #[tactic(auto, using(macho_bytes::proofs::Layouts::little_record))]
    pub fn write(&self, out: &mut [u8], at: usize)
        requires { at + size_of symtab_entry ≤ length out.old }
        ensures written { out.new ≡ put at (spelling symtab_entry_rows self.now) out.old }
        ensures back { ReadsBack symtab_entry_rows self.now }
    {
        let r = *self;
        put_littles(out, at, &[r.n_strx]);
        put_littles(out, at + 4, &[r.n_type, r.n_sect]);
        put_littles(out, at + 6, &[r.n_desc]);
        put_littles(out, at + 8, &[r.n_value]);
    }
}

impl SymtabEntry {
    /// Whether it is defined in no section and has no value: no debugging entry, and its type is `N_UNDF`.
    pub fn is_undefined(&self) -> bool
        ensures { result ≡ has_type N_UNDF self.now }
    {
        self.n_type & N_STAB == 0 && self.n_type & N_TYPE == N_UNDF
    }

    /// Whether other files do not see it: `N_EXT` is clear.
    pub fn is_local(&self) -> bool
        ensures { result ≡ not (has_any N_EXT self.now.n_type) }
    {
        self.n_type & N_EXT == 0
    }

    /// Whether its value is absolute: its type is `N_ABS`.
    pub fn is_absolute(&self) -> bool
        ensures { result ≡ (bit_and self.now.n_type N_TYPE == N_ABS) }
    {
        self.n_type & N_TYPE == N_ABS
    }

    /// Whether it gives way to other definitions: `N_WEAK_DEF` is set.
    pub fn is_weak(&self) -> bool
        ensures { result ≡ is_weak_of self.now }
    {
        self.n_desc & N_WEAK_DEF != 0
    }

    /// Whether it is seen by this link alone: `N_PEXT` is set.
    pub fn is_hidden(&self) -> bool
        ensures { result ≡ is_hidden_of self.now }
    {
        self.n_type & N_PEXT != 0
    }

    /// Whether another definition may take its place when the program runs: it isn't hidden.
    pub fn is_interposable(&self) -> bool
        ensures { result ≡ not (is_hidden_of self.now) }
    {
        !self.is_hidden()
    }

    /// Who sees it.
    pub fn visibility(&self) -> Visibility
        ensures { result ≡ visibility_of self.now }
    {
        if self.is_hidden() {
            Visibility::Hidden
        } else {
            Visibility::Default
        }
    }

    /// The common that it is, None where it is none. A common is undefined and external, with a size as its value.
    pub fn as_common(&self) -> Option<CommonSymbol>
        requires { IsTrue (is_common_of self.now) → common_size_of self.now < 2 ^ 64 }
        ensures { result ≡ common_of self.now }
    {
        if !self.is_undefined() || self.is_local() || self.n_value == 0 {
            return None;
        }
        let align = ((self.n_desc >> 8) & 15) as u8;
        Some(CommonSymbol {
            size: rounded_up(self.n_value, align),
            align,
        })
    }

    /// The value: an address, an absolute value, or the size of a common.
    pub fn value(&self) -> u64
        ensures { result ≡ self.now.n_value }
    {
        self.n_value
    }

    /// The size of a common, 0 of any other symbol.
    pub fn size(&self) -> u64
        requires { IsTrue (is_common_of self.now) → common_size_of self.now < 2 ^ 64 }
        ensures { result ≡ (if is_common_of self.now then common_size_of self.now else 0) }
    {
        match self.as_common() {
            Some(common) => common.size,
            None => 0,
        }
    }

    /// Whether it has a name: `n_strx` isn't 0.
    pub fn has_name(&self) -> bool
        ensures { result ≡ not (self.now.n_strx == 0) }
    {
        self.n_strx != 0
    }

    /// Whether the symbol of this name is a label that an assembler made for itself: local, and `ltmp..`.
    pub fn is_default_strippable(&self, name: &[u8]) -> bool
        ensures { result ≡ (not (has_any N_EXT self.now.n_type) && starts_with nat_eq name.now (codes "ltmp")) }
    {
        self.is_local() && name.starts_with(b"ltmp")
    }

    /// No symbol is marked as thread-local.
    pub fn is_tls(&self) -> bool
        ensures { result ≡ false }
    {
        false
    }

    /// No symbol is marked as a function.
    pub fn is_func(&self) -> bool
        ensures { result ≡ false }
    {
        false
    }

    /// No symbol is an indirect function.
    pub fn is_ifunc(&self) -> bool
        ensures { result ≡ false }
    {
        false
    }

    /// No symbol is unique over libraries.
    pub fn is_gnu_unique(&self) -> bool
        ensures { result ≡ false }
    {
        false
    }

    /// The symbol with `N_PEXT` set or cleared.
    #[tactic(auto, using(crate::proofs::Bits::pext))]
    pub fn with_hidden(self, hidden: bool) -> SymtabEntry
        ensures done { result ≡ with_hidden_of self hidden }
        ensures set { is_hidden_of result ≡ hidden }
        ensures kept { bit_and result.n_type (255 - N_PEXT) ≡ bit_and self.n_type (255 - N_PEXT) }
    {
        let n_type = if hidden {
            self.n_type | N_PEXT
        } else {
            self.n_type & !N_PEXT
        };
        SymtabEntry { n_type, ..self }
    }
}

/// A number rounded up to a multiple of a power of two, given as its exponent.
pub fn rounded_up(number: u64, exponent: u8) -> u64
    requires small { exponent < 16 }
    requires fits { rounded_up (2 ^ exponent) number < 2 ^ 64 }
    ensures { result ≡ rounded_up (2 ^ exponent) number }
{
    number.next_multiple_of(1 << exponent)
}

/// A common symbol: storage that the linker makes, of the greatest size of all files.
#[derive(Clone, Copy)]
pub struct CommonSymbol {
    /// Its bytes, rounded up to its alignment.
    pub size: u64,
    /// Its alignment, as an exponent of 2.
    pub align: u8,
}

/// Who sees a symbol.
#[derive(Clone, Copy)]
pub enum Visibility {
    /// This link alone.
    Hidden,
    /// Every file.
    Default,
}
