// The entries of a section, by index and one by one.
ghost use Rattle.std.specs.Prelude.{◌≡◌};
ghost use Rattle.std.specs.List.{slice_get};
ghost use Rattle.std.specs.Option.{option_map};
ghost use Rattle.trace.specs.Spots.{spot_of};
ghost use Rattle.trace.specs.Section.{laid_in};
ghost use Rattle.trace.specs.Entries.{shown, Stepped};
ghost use Rattle.std.specs.Iterator.{at_most};

use crate::bytes::Reader;
use crate::entry::{Entry, next_entry};
use crate::section::Section;
use format::kinds::SectionKind;

// A reader at the next entry, and how many are left: entries have no fixed length, so the bytes do not say.
#[derive(Clone, Copy)]
pub struct Entries<'a> {
    reader: Reader<'a>,
    kind: SectionKind,
    left: u16,
}

impl<'a> Iterator for Entries<'a> {
    type Item = Entry<'a>;

    ghost next_gives = { λ s r t. Stepped s r t };

    ghost remaining = { λ s. at_most s.left };

    fn next(&mut self) -> Option<Entry<'a>> {
        let left = self.left.checked_sub(1)?;
        // After a fault none is left.
        self.left = 0;
        let e = next_entry(&mut self.reader, self.kind).ok()?;
        self.left = left;
        Some(e)
    }
}

impl<'a> Section<'a> {
    // How many entries the section has.
    pub fn len(&self) -> usize
        ensures { result ≡ self.now.count }
    {
        usize::from(self.count)
    }

    // The entries in the order of the file.
    pub fn entries(&self) -> Entries<'a>
        ensures { shown result ≡ laid_in self.now }
    {
        Entries {
            reader: Reader::resume(self.bytes, self.total),
            kind: self.kind,
            left: self.count,
        }
    }

    // The entry with this index, if there is one.
    pub fn get(&self, index: usize) -> Option<Entry<'a>>
        ensures { option_map spot_of result ≡ slice_get (laid_in self.now) index }
    {
        self.entries().nth(index)
    }
}
