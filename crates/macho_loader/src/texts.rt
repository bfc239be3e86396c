//! The rules of images in words.

use macho_model::LoadRule;

/// A rule that a file breaks: its name, and what it asks.
pub fn rule_text(rule: LoadRule) -> &'static str {
    match rule {
        LoadRule::L1 => "L1: a file has to begin as a 64-bit arm64 executable or dynamic library",
        LoadRule::L2 => "L2: the load commands have to be whole, and inside the file",
        LoadRule::L3 => "L3: a segment has to have the protections of its name",
        LoadRule::L4 => {
            "L4: a segment's bytes have to be inside the file, and no more than it has in memory"
        }
        LoadRule::L5 => {
            "L5: a segment's address, size and file offset have to be multiples of 16 KiB"
        }
        LoadRule::L6 => "L6: segments have to rise, without overlap, and end at 2^64 at most",
        LoadRule::L7 => {
            "L7: there has to be one __TEXT, at the start of the file, that holds the load commands"
        }
        LoadRule::L8 => {
            "L8: there may be one fixup table, whole, with pointers of format 6, imports of format 1 or 2"
        }
        LoadRule::L9 => {
            "L9: an import has to be of a library of the image, with a name inside the table"
        }
        LoadRule::L10 => {
            "L10: a word to be fixed up has to lie in its page, in the file bytes of a writable segment, and its import has to be there"
        }
    }
}
