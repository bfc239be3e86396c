//! A law of archives: the contract of a function that does nothing.
ghost use Rattle.macho_archive.specs.Archives.{MembersAreOne};

/// Bytes are an archive of one list of members.
pub fn members_are_one()
    ensures { MembersAreOne }
{}
