// An entry of a section. It borrows its name from the file's bytes, and has the offset at which it begins.
ghost use Rattle.std.specs.Prelude.{◌≡◌, IfOk};
ghost use Rattle.format.specs.Parse.{map_ok, here};
ghost use Rattle.format.specs.Items.{item_from};
ghost use Rattle.trace.specs.Spots.{item_of, place_of};

use crate::bytes::Reader;
use crate::names::name as read_name;
use format::fault::SectionFault;
use format::kinds::{ObjectKind, SectionKind};

#[derive(Clone, Copy)]
pub enum Entry<'a> {
    Thread {
        name: &'a [u8],
        offset: usize,
    },
    Object {
        kind: ObjectKind,
        name: &'a [u8],
        offset: usize,
    },
    Variable {
        name: &'a [u8],
        offset: usize,
    },
}

// The entry at the front of the bytes that remain.
pub(crate) fn next_entry<'a>(
    r: &mut Reader<'a>,
    kind: SectionKind,
) -> Result<Entry<'a>, SectionFault>
    ensures value { map_ok (λ e. (item_of e, r.new.rest.now)) result ≡ item_from kind (here r.old.total r.old.rest.now) r.old.rest.now }
    ensures place { IfOk result (λ e. place_of e ≡ here r.old.total r.old.rest.now) }
    ensures total { r.new.total ≡ r.old.total }
{
    let offset = r.offset();
    match kind {
        SectionKind::Threads => {
            let name = read_name(r, offset)?;
            Ok(Entry::Thread { name, offset })
        }
        SectionKind::Objects => {
            let kind = ObjectKind::try_from(r.byte(offset)?).map_err(|_| SectionFault::Entry {
                offset,
            })?;
            let name = read_name(r, offset)?;
            Ok(Entry::Object { kind, name, offset })
        }
        SectionKind::Variables => {
            let name = read_name(r, offset)?;
            Ok(Entry::Variable { name, offset })
        }
    }
}
