// Lines of text, over bytes that the caller lends.
ghost use Rattle.std.specs.Prelude.{◌≡◌, ℕ, ◌/◌, ◌<◌, ◌≤◌, ◌++◌, length};
ghost use Rattle.sink.specs.Line.{overwritten};

use crate::line;
use crate::pair::Pair;
use crate::sink::Sink;
use event::CallerFault;

// The lines stand at the front of the bytes. What stands behind them is as it was lent.
#[derive(Drop)]
pub struct Lines<'a> {
    bytes: &'a mut [u8],
    // how many lines there are; the bytes are lent, so their length says only how many there can be
    taken: usize,
    ghost fits: { taken ≤ length bytes.now / 21 },
}

impl<'a> Lines<'a> {
    ghost use Rattle.sink.specs.Written.{lent, room, written};

    // No line yet.
    pub fn new(bytes: &'a mut [u8]) -> Lines<'a>
        ensures written { written result ≡ lent bytes.entry.ghost_name bytes.old }
        ensures taken { result.taken ≡ 0 }
        ensures capacity { room result ≡ length bytes.old / 21 }
    {
        Lines { bytes, taken: 0 }
    }

    // The bytes that were lent: the lines, and then the space that is left.
    pub fn back(self) -> &'a mut [u8]
        ensures bytes { result.now ≡ (written self.entry).lines ++ (written self.entry).space }
        ensures lender { result.ghost_name ≡ (written self.entry).lender }
    {
        let Lines { bytes, taken: _ } = self;
        bytes
    }

    // How many lines the bytes have room for.
    fn room(&self) -> usize
        ensures { result ≡ room self.now }
    {
        self.bytes.len() / line::WIDTH
    }
}

impl<'a> Sink for Lines<'a> {
    ghost use Rattle.sink.specs.Written.{Written, room, written, with_line};

    ghost capacity = { room };

    ghost taken = { λ s. s.taken };

    ghost fits = { λ s. s.fits };

    ghost Record = { Written };

    ghost log = { written };

    ghost step = { with_line };

    fn capacity(&self) -> usize {
        self.room()
    }

    fn taken(&self) -> usize {
        self.taken
    }

    fn take(&mut self, pair: Pair) -> Result<(), CallerFault> {
        let capacity = self.room();
        if self.taken >= capacity {
            return Err(CallerFault::Sink { capacity });
        }
        write(self.bytes, self.taken, pair);
        self.taken += 1;
        Ok(())
    }
}

// Writes the pair's line behind n others.
fn write(bytes: &mut [u8], n: usize, pair: Pair)
    requires { n < length bytes.old / 21 }
    ensures { bytes.new ≡ overwritten n pair bytes.old }
{
    let at = n * line::WIDTH;
    bytes[at..at + line::WIDTH].copy_from_slice(&line::line(pair));
}
