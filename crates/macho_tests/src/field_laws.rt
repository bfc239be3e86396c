//! Callers of the laws of relocated fields: each says of its own values what the law says of all.
ghost use Rattle.std.specs.Prelude.{◌≡◌, ◌+◌, true, Some};
ghost use Rattle.macho_model.specs.Meaning.{Same, BranchesTo};
ghost use Rattle.macho_model.specs.Values.{less, branch_reaches};
ghost use Rattle.macho_arm64.specs.declared.kinds.FieldSize.TheVariants.{JumpCall};
ghost use Rattle.macho_arm64.specs.Kinds.{info_of};
ghost use Rattle.macho_arm64.specs.Fields.{Holds, can_hold};

use macho_arm64::{RelocationKindInfo, fields_denote, kinds_agree, reaches_agree};
use macho_records::RelocationInfo;

/// A branch that holds the distance to a function leads to it at every slide.
fn branch_at_a_slide(input: u32, word: u32, value: u64, place: u64, target: u64, slide: u64)
    requires holds { Holds JumpCall input word value }
    requires leads { Same (value + place) target }
    ensures { BranchesTo (place + slide) word input (target + slide) }
{
    fields_denote();
}

/// A branch can hold the distance to a function where it reaches it.
fn branch_in_reach(word: u32, place: u64, target: u64)
    ensures { can_hold JumpCall word (less target place) ≡ branch_reaches place target }
{
    reaches_agree();
}

/// What is known of a branch is that it is written to a branch's immediate.
fn field_of_a_branch(relocation: RelocationInfo, info: RelocationKindInfo)
    requires known { info_of relocation ≡ Some info }
    requires branch { relocation.r_type ≡ 2 }
    ensures { info.size ≡ JumpCall }
{
    kinds_agree();
}
