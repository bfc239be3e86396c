//! The words of a run of fixups, written in one pass over it.
//!
//! Three pointers at 0, 8 and 0x4000 of a segment lead 2, 0 and 0 steps on: the first to the second, and the others are
//! the last ones of their pages.
ghost use Rattle.std.specs.Prelude.{◌≡◌, ◌+◌, ◌<◌, ◌≤◌, length, nat_le, true, false, Contains, All, OnOk, IfErr, IfSome, IfNone};
ghost use Rattle.macho_bytes.specs.Numbers.{le_bytes};
ghost use Rattle.macho_bytes.specs.Texts.{put};
ghost use Rattle.macho_model.specs.Needs.{POINTER_SIZE};
ghost use Rattle.macho_fixups.specs.declared.run.FixupSegment.{FixupSegment};
ghost use Rattle.macho_fixups.specs.Words.{has_word, FitsOrdinal, IsWordOf, word_of, STEPS};
ghost use Rattle.macho_fixups.specs.Runs.{AreFixups, AreSegments, Holds};
ghost use Rattle.macho_fixups.specs.Chains.{place_of, step_of, step_between, AreWritten, HaveWords, IsFirstRefused, HaveRoom, ChainIsRun};
ghost use Rattle.macho_fixups.specs.steps.Chains.{IsSegmentOf, ArePassed};

use crate::run::{Fixup, FixupSegment};
use crate::words::{FixupKind, NotEncodable, bind_word, rebase_word};
use macho_model::SEGMENT_PAGE;
use macho_wire::put_little;

/// The bytes of a step from word to word.
const STRIDE: u64 = 4;

/// Writes the word of each fixup into the file's bytes, in one pass over the run and the segments.
///
/// Each word leads to the next one of its page. At a fixup that has no word the pass ends: the words before it are
/// written, and the refusal tells its number.
pub fn write_chains(
    fixups: &[Fixup],
    segments: &[FixupSegment],
    out: &mut [u8],
) -> Result<(), NotEncodable>
    requires fixups { AreFixups segments.now fixups.now }
    requires segments { AreSegments segments.now }
    requires room { HaveRoom segments.now fixups.now (length out.old) }
    ensures found { OnOk result (HaveWords fixups.now (length fixups.now)) }
    ensures done { OnOk result (AreWritten segments.now fixups.now (length fixups.now) out.old out.new) }
    ensures chain { OnOk result (ChainIsRun segments.now fixups.now) }
    ensures why { IfErr result (λ e. IsFirstRefused fixups.now e.index) }
    ensures kept { IfErr result (λ e. AreWritten segments.now fixups.now e.index out.old out.new) }
{
    let mut number = 0;
    for (index, fixup) in fixups.iter().enumerate() {
        number = segment_from(segments, number, fixup.address);
        let place = place_in(segments, number, fixup.address);
        match word_for(fixup.kind, step_from(fixups, index)) {
            Some(word) => put_little(out, place, word),
            None => return Err(NotEncodable { index }),
        }
    }
    Ok(())
}

/// The number of the segment that has an address, from one on.
fn segment_from(segments: &[FixupSegment], from: usize, address: u64) -> usize
    requires segments { AreSegments segments.now }
    requires one { (s : FixupSegment) × Contains segments.now s × Holds s address }
    requires passed { ArePassed segments.now from address }
    ensures { IsSegmentOf segments.now address result }
{
    let mut number = from;
    while is_behind(&segments[number], address) {
        number += 1;
    }
    number
}

/// An address is behind a segment's file part.
fn is_behind(segment: &FixupSegment, address: u64) -> bool
    ensures { result ≡ nat_le (segment.now.address + segment.now.file_size) address }
{
    let segment = *segment;
    address >= segment.address && address - segment.address >= segment.file_size
}

/// The place in the file of an address, with the number of its segment.
fn place_in(segments: &[FixupSegment], number: usize, address: u64) -> usize
    requires segments { AreSegments segments.now }
    requires one { IsSegmentOf segments.now address number }
    ensures { result ≡ place_of segments.now address }
{
    let segment = segments[number];
    (segment.file_offset + (address - segment.address)) as usize
}

/// The steps from a fixup to the next one of its page, 0 at the last.
#[tactic(auto, unfolding(crate::specs::Chains::step_of))]
fn step_from(fixups: &[Fixup], index: usize) -> u64
    requires { index < length fixups.now }
    ensures is { result ≡ step_of fixups.now index }
    ensures small { result < STEPS }
{
    if index + 1 == fixups.len() {
        return 0;
    }
    step_between(fixups[index].address, fixups[index + 1].address)
}

fn step_between(a: u64, b: u64) -> u64
    ensures is { result ≡ step_between a b }
    ensures small { result < STEPS }
{
    if a / SEGMENT_PAGE != b / SEGMENT_PAGE || b < a {
        return 0;
    }
    (b - a) / STRIDE
}

/// The word of a fixup, None where it has none.
fn word_for(kind: FixupKind, next: u64) -> Option<u64>
    requires ordinal { FitsOrdinal kind }
    requires next { next < STEPS }
    ensures done { IfSome result (λ word. word ≡ word_of kind next) }
    ensures says { IfSome result (λ word. IsWordOf kind next word) }
    ensures found { IfSome result (λ word. has_word kind ≡ true) }
    ensures why { IfNone result (has_word kind ≡ false) }
{
    match kind {
        FixupKind::Rebase { target } => rebase_word(target, next),
        FixupKind::Bind { ordinal, addend } => bind_word(u64::from(ordinal), addend, next),
    }
}
