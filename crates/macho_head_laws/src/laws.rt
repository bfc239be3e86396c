//! Laws on the head of an image: each is the contract of a function that does nothing.
ghost use Rattle.macho_head_laws.specs.Laws.{LinkedHeadIsRead, LinkedUuidIsRead};

/// A reader of an image that is as promised finds the header and the load commands of its link, and with them one UUID.
pub fn linked_head_is_read()
    ensures head { LinkedHeadIsRead }
    ensures uuid { LinkedUuidIsRead }
{}
