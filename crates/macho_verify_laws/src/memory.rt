//! What memory holds where the loader writes nothing.
ghost use Rattle.macho_verify_laws.specs.Laws.{MemoryIsOne, ChoicesExist, BytesDecide, SectionBytesDecide, CommonBytesDecide};

/// Memory has one byte at an address; any addresses may be chosen for the imports; and bytes that no chain word has are those of the
/// segments.
pub fn memory_is_decided()
    ensures one { MemoryIsOne }
    ensures choices { ChoicesExist }
    ensures bytes { BytesDecide }
{}

/// The bytes of sections outside their fields, and those of commons, are decided by the segments' bytes.
pub fn sections_are_decided()
    ensures sections { SectionBytesDecide }
    ensures commons { CommonBytesDecide }
{}
