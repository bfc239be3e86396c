//! The load commands that the linker writes: one list, of which count, size and bytes are folds.
//!
//! The commands of a small executable, from the end of its header on (`mach-o/loader.h`):
//!
//!     32   LC_SEGMENT_64           72 bytes            `__PAGEZERO`
//!     104  LC_SEGMENT_64           72 + 80 a section   `__TEXT`, its section headers behind it
//!     256  LC_SEGMENT_64           72 bytes            `__LINKEDIT`
//!     328  LC_MAIN                 24 bytes            the file offset of the entry
//!     352  LC_UUID                 24 bytes            16 bytes at 8
//!     376  LC_LOAD_DYLINKER        32 bytes            "/usr/lib/dyld" at 12, zeros to the end
//!     408  LC_DYLD_CHAINED_FIXUPS  16 bytes            a range of the file
//!     424  LC_DYLD_EXPORTS_TRIE    16 bytes            a range
//!     440  LC_SYMTAB               24 bytes            symbols and strings
//!     464  LC_CODE_SIGNATURE       16 bytes            a range, up to the end of the file
#![tactic(auto)]

mod command;
mod head;
mod laws;
mod linkedit;
mod list;
mod paths;
mod records;
mod segment;

pub use command::{Command, DYLINKER_PATH, SymbolTable, Table};
pub use head::{ImageKind, write_head};
pub use laws::{
    head_found_is_said, head_is_found_again, head_is_read, head_is_spelled, head_keeps_rules,
};
pub use list::{commands_size, write_commands};
pub use paths::path_command_size;
