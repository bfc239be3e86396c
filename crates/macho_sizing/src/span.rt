//! The span of functions: the bytes of all that stands in `__TEXT` with bytes in the file, so that functions start no further
//! apart.
ghost use Rattle.std.specs.Prelude.{◌≡◌, ◌+◌, ◌≤◌, false, All};
ghost use Rattle.macho_model.specs.Grammar.{IsObject};
ghost use Rattle.macho_model.specs.Objects.{num_sections};
ghost use Rattle.macho_promise.specs.Views.{ViewsObject};
ghost use Rattle.macho_layout.specs.Sums.{fitting, section_cost};
ghost use Rattle.macho_sizing.specs.steps.Spans.{holds_text, span_of, span_below, span_of_view, span_of_views};

use macho_object::{File, is_carried};
use macho_records::{SectionHeader, name_bytes};

/// Whether a section is carried, and stands in `__TEXT` with bytes in the file.
fn holds_text(header: &SectionHeader) -> bool
    ensures { result ≡ holds_text header.now }
{
    is_carried(*header)
        && name_bytes(&header.segname) == b"__TEXT".as_slice()
        && !header.is_no_bits()
}

/// A span with a size and twice what its alignment may cost. None from 2^64 on.
fn plus(span: u64, size: u64, align: u32) -> Option<u64>
    requires { align ≤ 14 }
    ensures { result ≡ fitting (span + section_cost size align) }
{
    let padding = 2 * ((1u64 << align) - 1);
    span.checked_add(size)?.checked_add(padding)
}

/// A span with a section, where that holds text. None from 2^64 on.
fn with_section(span: u64, header: &SectionHeader) -> Option<u64>
    requires { header.now.align ≤ 14 }
    ensures { result ≡ fitting (span + span_of header.now) }
{
    if holds_text(header) {
        plus(span, header.size, header.align)
    } else {
        Some(span)
    }
}

/// A span with the sections of an object.
fn with_object(before: u64, object: &File<'_>) -> Option<u64>
    requires object { object.now.is_dynamic ≡ false }
    requires rules { IsObject object.now.bytes }
    ensures { result ≡ fitting (before + span_below object.now.bytes (num_sections object.now.bytes)) }
{
    let mut span = before;
    for section in 0..object.num_sections() {
        let Some(header) = object.section(section) else {
            unreachable!()
        };
        span = with_section(span, &header)?;
    }
    Some(span)
}

/// A span with the sections of an object; that of another file stays.
fn with_view(span: u64, view: &Option<File<'_>>) -> Option<u64>
    requires { ViewsObject view.now }
    ensures { result ≡ fitting (span + span_of_view view.now) }
{
    match view {
        Some(object) => with_object(span, object),
        None => Some(span),
    }
}

/// The span of all objects. None from 2^64 on.
pub(crate) fn text_span(views: &[Option<File<'_>>]) -> Option<u64>
    requires { All ViewsObject views.now }
    ensures { result ≡ fitting (span_of_views views.now) }
{
    let mut span = 0;
    for view in views {
        span = with_view(span, view)?;
    }
    Some(span)
}
