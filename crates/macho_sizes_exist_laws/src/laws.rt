//! Laws on sizes: each is the contract of a function that does nothing.
ghost use Rattle.macho_sizes_exist_laws.specs.Laws.{SizesAre, SizesNeedSpelling, LinksHaveSizes};

/// A link has sizes exactly where its exported names are spelled with bytes from 1 to 255.
pub fn sizes_are()
    ensures are { SizesAre }
    ensures needed { SizesNeedSpelling }
{}

/// A link of objects, libraries and stubs has one list of sizes.
pub fn links_have_sizes()
    ensures { LinksHaveSizes }
{}
