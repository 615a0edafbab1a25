// Sections: a count within its limits, and that many entries.
ghost use Rattle.std.specs.Prelude.{◌≡◌, ◌+◌, ◌≤◌, length, IfOk};
ghost use Rattle.format.specs.Parse.{map_ok, here};
ghost use Rattle.format.specs.Names.{within};
ghost use Rattle.format.specs.Codes.{items_laid_out};
ghost use Rattle.format.specs.Items.{items_from, section_from, after};
ghost use Rattle.trace.specs.Section.{items_in, laid_in, fewest, most};

use crate::bytes::Reader;
use crate::entry::next_entry;
use crate::section::Section;
use format::fault::SectionFault;
use format::kinds::SectionKind;

// Whether a section of this kind can have so many entries.
fn can_have(kind: SectionKind, count: u16) -> bool
    ensures { result ≡ within (fewest kind) (most kind) count }
{
    match kind {
        SectionKind::Threads => (1..=16).contains(&count),
        SectionKind::Objects => count <= 512,
        SectionKind::Variables => count <= 256,
    }
}

fn skip(r: &mut Reader<'_>, kind: SectionKind, count: u16) -> Result<(), SectionFault>
    ensures value { map_ok (λ _. r.new.rest.now) result ≡ after (items_from kind r.old.total count r.old.rest.now) }
    ensures total { r.new.total ≡ r.old.total }
{
    for _ in 0..count {
        next_entry(r, kind)?;
    }
    Ok(())
}

pub(crate) fn section<'a>(
    r: &mut Reader<'a>,
    kind: SectionKind,
) -> Result<Section<'a>, SectionFault>
    ensures value { map_ok (λ s. (items_in s, r.new.rest.now)) result ≡ section_from kind (fewest kind) (most kind) r.old.total r.old.rest.now }
    ensures laid { IfOk result (λ s. laid_in s ≡ items_laid_out (here r.old.total r.old.rest.now + 2) (items_in s)) }
    ensures count { IfOk result (λ s. length (items_in s) ≡ s.count) }
    ensures few { IfOk result (λ s. (fewest kind ≤ s.count) × (s.count ≤ most kind)) }
    ensures kind { IfOk result (λ s. s.kind ≡ kind) }
    ensures total { r.new.total ≡ r.old.total }
{
    let start = r.offset();
    let count = r.two(start)?;
    if !can_have(kind, count) {
        return Err(SectionFault::Count { offset: start });
    }
    let bytes = r.rest();
    let total = r.total();
    skip(r, kind, count)?;
    Ok(Section {
        kind,
        count,
        bytes,
        total,
    })
}
