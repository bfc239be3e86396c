//! Another UUID for a signed image: the pages that hold it are signed anew, and no other.
use macho_signature::write_uuid;

/// Bytes that repeat after 251, so that no two pages are alike.
fn pattern() -> [u8; 8192] {
    let mut bytes = [0; 8192];
    for index in 0..8192usize {
        bytes[index] = (index % 251 * 7 % 251) as u8;
    }
    bytes
}

/// The digests of two pages of the pattern with the stamped UUID at 4,090, by Python's hashlib.
const ACROSS: [u8; 64] =
    *b"\x100C5\x9c\xbf\xe0\xbf\xb0\xae\xd8>\xa6,9w\xa8!RS\x9d}\x08\x7fu\x0b{u\xb1\xe8\xb2\xce\x06\
    \xfb\xa7X\xa6\x22mf\xa4m\x17\xd3\xe0\xbfi\x0c\xb1,\xa3F\x03:S\xd5\x9b\xcb\x14\x1b\x10\xce\
    \x9a'";
/// That of the second page with the stamped UUID at 4,196, behind what stands there before.
const INSIDE: [u8; 64] =
    *b"\xee\xee\xee\xee\xee\xee\xee\xee\xee\xee\xee\xee\xee\xee\xee\xee\xee\xee\xee\xee\xee\xee\xee\xee\xee\xee\xee\xee\xee\xee\xee\xee\
    \x9f\xa8\x8ek/\xf4(\x0av\x9d$C\x09B\xd2<\xe7\xfb\xe9\x0aR=\x0a\xc2\xc4\xd8\xe9\xe7\xde\xac\x17\xdf";
/// Sixteen bytes that tell their places.
const UUID: [u8; 16] = *b"\0\x01\x02\x03\x04\x05\x06\x07\x08\x09\x0a\x0b\x0c\x0d\x0e\x0f";

fn is_signed_across() -> bool {
    let mut signed = pattern();
    let mut signature = [0xee; 64];
    write_uuid(&mut signed, &mut signature, 0, 4090, UUID);
    signature == ACROSS
}

fn is_signed_inside() -> bool {
    let mut signed = pattern();
    let mut signature = [0xee; 64];
    write_uuid(&mut signed, &mut signature, 0, 4196, UUID);
    signature == INSIDE
}

#[test]
fn pages_that_hold_a_uuid_are_signed_anew(rt: HostRuntime) {
    assert!(rt; is_signed_across());
    assert!(rt; is_signed_inside());
}
