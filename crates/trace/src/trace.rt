// A trace that was read. It borrows from the file's bytes.

use crate::section::Section;

pub mod contents;

// That the sections stand where the layout says, and that there are no more events than a file has, are clauses of reading, and no ghost fields: as one the
// first could be used only where a proposition is to be shown, and with any a caller's own struct that holds a trace beside a `&mut` would not be covered in a `Result`.
#[derive(Clone, Copy)]
pub struct Trace<'a> {
    pub(crate) threads: Section<'a>,
    pub(crate) objects: Section<'a>,
    pub(crate) variables: Section<'a>,
    // the bytes of the events, six each: as `[u8; 6]` the type would say so, and each definition of the file's bytes would have to flatten them
    pub(crate) events: &'a [u8],
}
