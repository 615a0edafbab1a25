// What an event does.
ghost use Rattle.std.specs.Prelude.{◌≡◌, Some, codes, ◌++◌, decimal};
ghost use Rattle.event.specs.declared.letter.UnknownLetter.{UnknownLetter};
ghost use Rattle.event.specs.Letters.{code, SpellsLetter};

use std::error::Error;
use std::fmt;

#[derive(Clone, Copy, PartialEq, Eq, Debug)]
pub enum Letter {
    Read,
    Write,
    Acquire,
    Release,
    Fork,
    Join,
    Begin,
    End,
    // Monitors: strong, weak, downgraded from strong to weak, stopped.
    Strong,
    Weak,
    Downgrade,
    Stop,
}

// A byte that is no letter's.
#[derive(Clone, Copy, PartialEq, Eq, Debug)]
pub struct UnknownLetter {
    pub byte: u8,
}

impl From<Letter> for u8 {
    ghost from_gives = { λ letter byte. byte ≡ code letter };

    fn from(letter: Letter) -> u8 {
        letter.code()
    }
}

// The letter with this byte in a trace file.
impl TryFrom<u8> for Letter {
    type Error = UnknownLetter;

    ghost try_from_gives = { SpellsLetter };

    fn try_from(byte: u8) -> Result<Letter, UnknownLetter> {
        match byte {
            b'r' => Ok(Letter::Read),
            b'w' => Ok(Letter::Write),
            b'a' => Ok(Letter::Acquire),
            b'l' => Ok(Letter::Release),
            b'f' => Ok(Letter::Fork),
            b'j' => Ok(Letter::Join),
            b'b' => Ok(Letter::Begin),
            b'e' => Ok(Letter::End),
            b'M' => Ok(Letter::Strong),
            b'N' => Ok(Letter::Weak),
            b'D' => Ok(Letter::Downgrade),
            b'Q' => Ok(Letter::Stop),
            _ => Err(UnknownLetter { byte }),
        }
    }
}

// As `no letter has the byte 120`.
impl fmt::Display for UnknownLetter {
    ghost output = { λ u. Some (codes "no letter has the byte " ++ decimal u.byte) };

    fn fmt<W: fmt::Write>(&self, f: &mut fmt::Formatter<W>) -> fmt::Result {
        write!(f, "no letter has the byte {}", self.byte)
    }
}

impl Error for UnknownLetter {}
