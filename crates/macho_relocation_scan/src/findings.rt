//! What the walk over relocations finds against a link: the first fault of each kind, and the one that is told.
ghost use Rattle.std.specs.Prelude.{◌≡◌, true, None, IfSome, IfNone};
ghost use Rattle.macho_model.specs.declared.placed.Counts.{Counts};
ghost use Rattle.macho_model.specs.Links.{Link};
ghost use Rattle.macho_answer.specs.Standing.{Stands};
ghost use Rattle.macho_relocation_scan.specs.steps.Found.{first_if, first_of, AreStanding, IsClean};

use macho_answer::LinkError;

/// A relocation: its file, its section and its number in the table.
#[derive(Clone, Copy)]
pub(crate) struct Place {
    pub(crate) file: u32,
    pub(crate) section: u32,
    pub(crate) relocation: u32,
}

/// Two relocations of a section.
#[derive(Clone, Copy)]
pub(crate) struct Pair {
    pub(crate) file: u32,
    pub(crate) section: u32,
    pub(crate) first: u32,
    pub(crate) second: u32,
}

/// A pointer with its addend.
#[derive(Clone, Copy)]
pub(crate) struct Addend {
    pub(crate) place: Place,
    pub(crate) addend: u64,
}

/// The first of each kind that was found.
#[derive(Clone, Copy)]
pub(crate) struct Findings {
    /// A relocation that isn't supported.
    pub(crate) unsupported: Option<Place>,
    /// Two relocations that overlap.
    pub(crate) overlap: Option<Pair>,
    /// A pointer to an import whose addend doesn't fit.
    pub(crate) addend: Option<Addend>,
    /// A pointer that the loader writes in a segment that may hold none.
    pub(crate) place: Option<Place>,
}

/// The first place of a kind, with one more behind it.
fn first_of_kind(first: Option<Place>, place: Place) -> Option<Place>
    ensures { result ≡ first_if true first place }
{
    match first {
        Some(first) => Some(first),
        None => Some(place),
    }
}

impl Findings {
    /// No findings.
    pub(crate) fn new() -> Findings
        ensures { result ≡ record { unsupported = None; overlap = None; addend = None; place = None } }
    {
        Findings {
            unsupported: None,
            overlap: None,
            addend: None,
            place: None,
        }
    }

    /// Notes a relocation that was looked at: `is` says whether it is unsupported.
    pub(crate) fn note_unsupported(&mut self, place: Place, is: bool)
        ensures { self.new ≡ record self.old { unsupported = first_if is self.old.unsupported place } }
    {
        if is {
            self.unsupported = first_of_kind(self.unsupported, place);
        }
    }

    /// Notes two relocations that overlap, if a section has such.
    pub(crate) fn note_overlap(&mut self, pair: Option<Pair>)
        ensures { self.new ≡ record self.old { overlap = first_of self.old.overlap pair } }
    {
        self.overlap = self.overlap.or(pair);
    }

    /// Notes a pointer whose addend doesn't fit, if there is one.
    #[tactic(auto, using(crate::proofs::Judging::first_of_none))]
    pub(crate) fn note_addend(&mut self, addend: Option<Addend>)
        ensures { self.new ≡ record self.old { addend = first_of self.old.addend addend } }
    {
        if addend.is_some() {
            self.addend = self.addend.or(addend);
        }
    }

    /// Notes a relocation that was looked at: `is` says whether it is a pointer in a segment that may hold none.
    pub(crate) fn note_place(&mut self, place: Place, is: bool)
        ensures { self.new ≡ record self.old { place = first_if is self.old.place place } }
    {
        if is {
            self.place = first_of_kind(self.place, place);
        }
    }

    /// The refusal that is told: of the kinds that were found the one that stands first in `LinkError`, None without findings.
    pub(crate) fn least(self) -> Option<LinkError>
        ensures told { (l : Link) (counts : Counts) → AreStanding l self → IfSome result (Stands l counts) }
        ensures none { IfNone result (IsClean self) }
    {
        if let Some(at) = self.unsupported {
            return Some(LinkError::UnsupportedRelocation {
                file: at.file,
                section: at.section,
                relocation: at.relocation,
            });
        }
        if let Some(pair) = self.overlap {
            return Some(LinkError::OverlappingFields {
                file: pair.file,
                section: pair.section,
                first: pair.first,
                second: pair.second,
            });
        }
        if let Some(Addend { place, addend }) = self.addend {
            return Some(LinkError::BindAddend {
                file: place.file,
                section: place.section,
                relocation: place.relocation,
                addend,
            });
        }
        let at = self.place?;
        Some(LinkError::FixupPlace {
            file: at.file,
            section: at.section,
            relocation: at.relocation,
            placement: None,
        })
    }
}
