//! What a link is asked to take, as far as names go.

/// The names of an object, or of a member of an archive.
#[derive(Clone, Copy)]
pub struct ObjectNames<'a> {
    /// Those that it uses and leaves to others to define.
    pub used: &'a [&'a [u8]],
    /// Those that it defines for others.
    pub defined: &'a [&'a [u8]],
}

/// An input of a link, as far as names go.
#[derive(Clone, Copy)]
pub enum Asked<'a> {
    /// An object.
    Object(ObjectNames<'a>),
    /// A library, by the names that it offers.
    Library(&'a [&'a [u8]]),
    /// An archive, by its members. Of one that is `whole` each member is linked (`-all_load`, `-force_load`).
    Archive {
        /// Whether each member is linked.
        whole: bool,
        /// The members, in order.
        members: &'a [ObjectNames<'a>],
    },
}

/// Where a member stands.
#[derive(Clone, Copy, PartialEq, Eq, Hash)]
pub struct MemberPlace {
    /// The number of the archive among all inputs.
    pub archive: usize,
    /// The number of the member in it.
    pub member: usize,
}
