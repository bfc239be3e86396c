//! Callers of the model's laws: each says of its own values what the law says of all.
ghost use Rattle.std.specs.Prelude.{◌≡◌, ℕ, ◌+◌, ◌*◌, ◌%◌, ◌^◌, ◌<◌, ◌≤◌, ◌||◌, true, List, ◌∷◌, length, Contains, is_some};
ghost use Rattle.std.specs.List.{position_or_len};
ghost use Rattle.macho_bytes.specs.Texts.{Stands};
ghost use Rattle.macho_model.specs.Images.{mapped_segments, base_of};
ghost use Rattle.macho_model.specs.Links.{Input, Link};
ghost use Rattle.macho_model.specs.Resolution.{SymbolId, same_symbol, symbols_of, symbols_of_file, definition_of, chosen_commons};
ghost use Rattle.macho_model.specs.LinkLaws.{is_chosen, with_input};
ghost use Rattle.macho_model.specs.Targets.{is_defined, slots_of};
ghost use Rattle.macho_model.specs.Fields.{Field};
ghost use Rattle.macho_model.specs.Meaning.{Same};
ghost use Rattle.macho_model.specs.Segments.{SEGMENT_PAGE};
ghost use Rattle.macho_model.specs.Placement.{Placed, id_of};
ghost use Rattle.macho_model.specs.Loader.{IsAccepted};
ghost use Rattle.macho_model.specs.Memory.{Choice, Covers, Holds, HoldsText, rebase_target, rebase_high};
ghost use Rattle.macho_model.specs.Stands.{Pointer, kind_of, is_template_offset, IsAt, Denotes, SlotStands};
ghost use Rattle.macho_model.specs.Values.{is_absolute_target};
ghost use Rattle.macho_model.specs.SlideLaws.{targets_move, MovesAt};
ghost use Rattle.macho_model.specs.HeldLaws.{IsFree};
ghost use Rattle.macho_model.specs.ObjectRules.{tables_inside};
ghost use Rattle.macho_model.specs.Grammar.{IsObject};

use macho_model::{
    PlacedSection, Slot, chosen_commons_are_counted, equal_inputs_have_equal_definitions,
    equal_lists_have_equal_needs, fields_denote_at_every_slide, memory_moves_by_the_slide,
    objects_pass_each_test, one_input_more_adds_its_own, plain_pointers_stay, segments_are_apart,
    slots_stand_at_every_slide, what_no_word_covers_is_held,
};
use macho_records::SegmentCommand;

/// A byte that no chain word covers moves by the slide.
fn byte_at_a_slide(file: &[u8], slide: u64, address: u64, value: u8)
    requires { (word_at : ℕ) → Covers file.now word_at address → ⊥ }
    ensures { (c d : Choice) → Holds file.now 0 c address value → Holds file.now slide d (address + slide) value }
{
    memory_moves_by_the_slide();
}

/// An address of an accepted image is in one segment at most.
fn segment_of_an_address(file: &[u8], segment: SegmentCommand, other: SegmentCommand, address: u64)
    requires accepted { IsAccepted file.now }
    requires one { Contains (mapped_segments file.now) segment }
    requires holds { (segment.vmaddr ≤ address) × (address < segment.vmaddr + segment.vmsize) }
    requires another { Contains (mapped_segments file.now) other }
    requires holds_too { (other.vmaddr ≤ address) × (address < other.vmaddr + other.vmsize) }
    ensures { segment ≡ other }
{
    segments_are_apart();
}

/// A text of a segment's file part that no chain word covers is in memory, as many bytes higher as the slide says.
fn text_in_memory(file: &[u8], slide: u64, segment: SegmentCommand, place: u64, text: &[u8])
    requires free { IsFree file.now (segment.vmaddr + place) (length text.now) }
    requires one { Contains (mapped_segments file.now) segment }
    requires inside { place + length text.now ≤ segment.filesize }
    requires fits { segment.filesize ≤ segment.vmsize }
    requires stands { Stands file.now (record { at = segment.fileoff + place; text = text.now }) }
    ensures { (choice : Choice) → HoldsText file.now slide choice (segment.vmaddr + place + slide) text.now }
{
    what_no_word_covers_is_held();
}

/// A field of a section whose targets move denotes them at a slide too.
fn field_at_a_slide(file: &[u8], section: PlacedSection, slide: u64)
    requires { slide % SEGMENT_PAGE ≡ 0 }
    ensures { (l : Link) (p : Placed) (c d : Choice) (f : Field) → targets_move f (kind_of f.type (is_some f.subtrahend)) ≡ true
        → IsFree file.now (section.address + f.offset) f.width → Denotes l file.now p 0 c section f
        → Denotes l file.now p slide d section f }
{
    fields_denote_at_every_slide();
}

/// A slot whose chain word moves with the image stands at a slide too.
fn slot_at_a_slide(file: &[u8], slot: Slot, slide: u64)
    requires { is_defined slot.target ≡ true }
    ensures { (l : Link) (p : Placed) (c choice : Choice) (word x : ℕ) → MovesAt file.now slot.address word → IsAt l p 0 c slot.target x
        → Same (rebase_target word + rebase_high word * 2 ^ 56 + base_of file.now) x → SlotStands l file.now p slide choice slot }
{
    slots_stand_at_every_slide();
}

/// A pointer of a section that is an offset from the template, or absolute, is the same at a slide.
fn plain_pointer_at_a_slide(file: &[u8], section: PlacedSection, slide: u64)
    ensures { (l : Link) (p : Placed) (c d : Choice) (f : Field) → kind_of f.type (is_some f.subtrahend) ≡ Pointer
        → (is_template_offset l (id_of section) f || is_absolute_target f.target) ≡ true
        → IsFree file.now (section.address + f.offset) f.width → Denotes l file.now p 0 c section f
        → Denotes l file.now p slide d section f }
{
    plain_pointers_stay();
}

/// A name has one definition in two links with the same inputs.
fn definition_of_a_name(name: &[u8])
    ensures { (l m : Link) → l.inputs ≡ m.inputs → definition_of l name.now ≡ definition_of m name.now }
{
    equal_inputs_have_equal_definitions();
}

/// Two links with the same inputs and export lists have as many slots.
fn as_many_slots()
    ensures { (l m : Link) → l.inputs ≡ m.inputs → l.export_lists ≡ m.export_lists → length (slots_of l) ≡ length (slots_of m) }
{
    equal_lists_have_equal_needs();
}

/// A link with one input more has that input's symbols more.
fn symbols_of_one_more()
    ensures { (l : Link) (x : Input)
        → length (symbols_of (with_input l x)) ≡ length (symbols_of l) + length (symbols_of_file (length l.inputs) x) }
{
    one_input_more_adds_its_own();
}

/// The first symbol of a link, where it is a chosen common, is common 0.
fn first_common()
    ensures { (l : Link) (after : List SymbolId) (s : SymbolId) → symbols_of l ≡ s ∷ after → is_chosen l s ≡ true
        → position_or_len (same_symbol s) (chosen_commons l) ≡ 0 }
{
    chosen_commons_are_counted();
}

/// The tables of an object's symbols stand inside the file.
fn tables_of_an_object(file: &[u8])
    requires { IsObject file.now }
    ensures { tables_inside file.now ≡ true }
{
    objects_pass_each_test();
}
