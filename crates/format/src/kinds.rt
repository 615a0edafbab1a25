// The kinds of sections and objects, and the stages of a thread's life.
ghost use Rattle.std.specs.Prelude.{Some, codes, decimal, ◌++◌};
ghost use Rattle.format.specs.declared.kinds.UnknownKind.{UnknownKind};
ghost use Rattle.format.specs.Kinds.{SpellsKind};

use std::error::Error;
use std::fmt;

#[derive(Clone, Copy, PartialEq, Eq, Debug)]
pub enum SectionKind {
    Threads,
    Objects,
    Variables,
}

#[derive(Clone, Copy, PartialEq, Eq, Debug)]
pub enum ObjectKind {
    Mutex,
    Semaphore,
}

// A byte that stands for no kind of object.
#[derive(Clone, Copy, PartialEq, Eq, Debug)]
pub struct UnknownKind {
    pub byte: u8,
}

// The kind of object that a byte stands for in a trace file.
impl TryFrom<u8> for ObjectKind {
    type Error = UnknownKind;

    ghost try_from_gives = { SpellsKind };

    fn try_from(byte: u8) -> Result<ObjectKind, UnknownKind> {
        match byte {
            b'm' => Ok(ObjectKind::Mutex),
            b's' => Ok(ObjectKind::Semaphore),
            _ => Err(UnknownKind { byte }),
        }
    }
}

// As `no kind of object has the byte 120`.
impl fmt::Display for UnknownKind {
    ghost output = { λ u. Some (codes "no kind of object has the byte " ++ decimal u.byte) };

    fn fmt<W: fmt::Write>(&self, f: &mut fmt::Formatter<W>) -> fmt::Result {
        write!(f, "no kind of object has the byte {}", self.byte)
    }
}

impl Error for UnknownKind {}

// How far a thread's life has come.
#[derive(Clone, Copy, PartialEq, Eq, Debug)]
pub enum Stage {
    Unborn,
    Forked,
    Running,
    Ended,
}
