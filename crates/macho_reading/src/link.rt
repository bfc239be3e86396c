//! What is read of a link.
use macho_consumed::{Initializer, UnwindEntry};
use macho_needs::Needs;
use macho_symbols::ExportName;

/// All that the objects of a link ask for.
#[derive(Drop)]
pub struct ReadLink<'data> {
    /// Its symbols, imports, slots, stubs and import entries of their own.
    pub needs: Needs<'data>,
    /// Its initializers, by file, section and slot.
    pub initializers: Vec<Initializer>,
    /// Its entries of unwind information, by file, section and number.
    pub entries: Vec<UnwindEntry>,
    /// The names that it exports, in rising order.
    pub exports: Vec<ExportName>,
}
