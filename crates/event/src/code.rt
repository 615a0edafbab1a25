// The bytes of the letters.
ghost use Rattle.std.specs.Prelude.{◌≡◌};
ghost use Rattle.event.specs.Letters.{code};

use crate::letter::Letter;

impl Letter {
    // The letter's byte in a trace file: a number, since the format has one. `u8::from` calls this.
    pub fn code(self) -> u8
        ensures { result ≡ code self }
    {
        match self {
            Letter::Read => b'r',
            Letter::Write => b'w',
            Letter::Acquire => b'a',
            Letter::Release => b'l',
            Letter::Fork => b'f',
            Letter::Join => b'j',
            Letter::Begin => b'b',
            Letter::End => b'e',
            Letter::Strong => b'M',
            Letter::Weak => b'N',
            Letter::Downgrade => b'D',
            Letter::Stop => b'Q',
        }
    }
}
