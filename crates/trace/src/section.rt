// A section of a file that was read: how many entries it has, and the file's bytes from the first entry on.
use format::kinds::SectionKind;

// The count stands in the file, and is not how long anything is: entries have no fixed length. No `Reader` stands here, which has a fact about itself: a
// caller's own struct that holds a section or a trace beside a `&mut` would not be covered in a `Result`.
#[derive(Clone, Copy)]
pub struct Section<'a> {
    pub(crate) kind: SectionKind,
    pub(crate) count: u16,
    pub(crate) bytes: &'a [u8],
    // the length of the whole file
    pub(crate) total: usize,
}
