// The sections of a file: its first three bytes, the declared threads, objects and variables, and the bytes of its events.
ghost use Rattle.std.specs.Prelude.{◌≡◌, ◌*◌, ◌/◌, ◌≤◌, length, IfOk};
ghost use Rattle.format.specs.Parse.{map_ok};
ghost use Rattle.format.specs.Layout.{magic_from, block_from, layout};
ghost use Rattle.trace.specs.Whole.{layout_of, count_in, Laid};

use crate::bytes::Reader;
use crate::sections::section;
use crate::trace::Trace;
use format::fault::{ByteFault, SectionFault};
use format::kinds::SectionKind;
use std::cmp::Ordering;

// The bytes `T` and `C`, and the version 1.
fn magic(r: &mut Reader<'_>) -> Result<(), ByteFault>
    ensures value { map_ok (λ _. r.new.rest.now) result ≡ magic_from r.old.rest.now }
    ensures total { r.new.total ≡ r.old.total }
{
    match r.front::<3>(0)? {
        [b'T', b'C', 1] => Ok(()),
        _ => Err(ByteFault::Magic),
    }
}

// The count of the events, and their bytes: all are there, and nothing follows.
fn block<'a>(r: &mut Reader<'a>) -> Result<&'a [u8], SectionFault>
    ensures value { map_ok (λ b. (length b.now / 6, b.now)) result ≡ block_from r.old.total r.old.rest.now }
    ensures size { IfOk result (λ b. (length b.now ≡ 6 * (length b.now / 6)) × (length b.now ≤ 6000000)) }
{
    let start = r.offset();
    let count = r.four(start)?;
    if count > 1_000_000 {
        return Err(SectionFault::Count { offset: start });
    }
    let bytes = r.rest();
    let first = r.offset();
    let size = 6 * count as usize;
    match bytes.len().cmp(&size) {
        Ordering::Less => Err(SectionFault::Bytes(ByteFault::Ends {
            offset: first + 6 * (bytes.len() / 6),
        })),
        Ordering::Equal => Ok(bytes),
        Ordering::Greater => Err(SectionFault::Left {
            offset: first + size,
        }),
    }
}

// The sections of the file and the bytes of its events, each where the layout says.
pub(crate) fn sections(bytes: &[u8]) -> Result<Trace<'_>, SectionFault>
    ensures value { map_ok layout_of result ≡ layout bytes.now }
    ensures laid { IfOk result Laid }
    ensures few { IfOk result (λ t. t.objects.count ≤ 512) }
    ensures size { IfOk result (λ t. (length t.events.now ≡ 6 * count_in t) × (length t.events.now ≤ 6000000)) }
{
    let mut r = Reader::new(bytes);
    magic(&mut r)?;
    let threads = section(&mut r, SectionKind::Threads)?;
    let objects = section(&mut r, SectionKind::Objects)?;
    let variables = section(&mut r, SectionKind::Variables)?;
    let events = block(&mut r)?;
    Ok(Trace {
        threads,
        objects,
        variables,
        events,
    })
}
