//! A law on signatures: the contract of a function that does nothing.
ghost use Rattle.macho_head.specs.Signing.{SignatureIsSaid};

/// A signature that stands in its range at the end of a file is that of the link: of the bytes in front of it, under the name of the
/// output.
pub fn signature_is_the_links()
    ensures { SignatureIsSaid }
{}
