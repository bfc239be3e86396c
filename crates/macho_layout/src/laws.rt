//! Laws of placements: each is the contract of a function that does nothing.
ghost use Rattle.macho_layout.specs.Laws.{BaseIsLinks, ListsAreWhole, SectionsAreListed, CommonsAreListed, SegmentsAreCounted, OutputsAreCounted, SumIsLinks, EndsWithinSum, TextIsFirst};

/// What is laid out of a link's plan stands behind the link's base, and has a place for each thing of the link and for
/// nothing else, in the order of the link.
pub fn what_is_laid_out_is_whole()
    ensures base { BaseIsLinks }
    ensures whole { ListsAreWhole }
    ensures sections { SectionsAreListed }
    ensures commons { CommonsAreListed }
{}

/// A link's plan has as many segments and output sections as the link, and the link's written sum.
pub fn what_a_plan_counts_is_the_links()
    ensures segments { SegmentsAreCounted }
    ensures outputs { OutputsAreCounted }
    ensures sum { SumIsLinks }
{}

/// `__TEXT` begins at the base, and each segment ends within the written sum.
pub fn what_is_laid_out_ends_within_the_sum()
    ensures text { TextIsFirst }
    ensures within { EndsWithinSum }
{}
