// The bytes of a file, read from the front. The high byte of a number stands first.
ghost use Rattle.std.specs.Prelude.{◌≡◌, ◌+◌, ◌^◌, ◌<◌, ◌≤◌, max, length};
ghost use Rattle.format.specs.Parse.{map_ok, here, byte_from, take_from, two_from, four_from};

use format::fault::ByteFault;

// `total` is the length of the whole file. Each call that reads on says that it stays: an invariant speaks of one moment, and cannot.
#[derive(Clone, Copy)]
pub struct Reader<'a> {
    rest: &'a [u8],
    total: usize,
    ghost within: { length rest.now ≤ total },
}

impl<'a> Reader<'a> {
    pub fn new(src: &'a [u8]) -> Reader<'a>
        ensures rest { result.rest.now ≡ src.now }
        ensures total { result.total ≡ length src.now }
    {
        Reader::resume(src, src.len())
    }

    // At the bytes that remain of a file of `total` bytes.
    pub fn resume(rest: &'a [u8], total: usize) -> Reader<'a>
        ensures rest { result.rest.now ≡ rest.now }
        ensures total { result.total ≡ max total (length rest.now) }
    {
        Reader {
            rest,
            total: total.max(rest.len()),
        }
    }

    pub fn offset(&self) -> usize
        ensures value { result ≡ here self.now.total self.now.rest.now }
        ensures bound { result + length self.now.rest.now < 2 ^ 64 }
    {
        self.total - self.rest.len()
    }

    pub fn rest(&self) -> &'a [u8]
        ensures { result.now ≡ self.now.rest.now }
    {
        self.rest
    }

    pub fn total(&self) -> usize
        ensures { result ≡ self.now.total }
    {
        self.total
    }

    // The next N bytes, of the item that begins at `start`.
    pub(crate) fn front<const N: usize>(&mut self, start: usize) -> Result<[u8; N], ByteFault>
        ensures value { map_ok (λ x. (x, self.new.rest.now)) result ≡ take_from start N self.old.rest.now }
        ensures total { self.new.total ≡ self.old.total }
    {
        let (front, after) = self
            .rest
            .split_first_chunk::<N>()
            .ok_or(ByteFault::Ends { offset: start })?;
        self.rest = after;
        Ok(*front)
    }

    pub fn byte(&mut self, start: usize) -> Result<u8, ByteFault>
        ensures value { map_ok (λ x. (x, self.new.rest.now)) result ≡ byte_from start self.old.rest.now }
        ensures total { self.new.total ≡ self.old.total }
    {
        let [b] = self.front::<1>(start)?;
        Ok(b)
    }

    pub fn two(&mut self, start: usize) -> Result<u16, ByteFault>
        ensures value { map_ok (λ x. (x, self.new.rest.now)) result ≡ two_from start self.old.rest.now }
        ensures total { self.new.total ≡ self.old.total }
    {
        Ok(u16::from_be_bytes(self.front(start)?))
    }

    pub fn four(&mut self, start: usize) -> Result<u32, ByteFault>
        ensures value { map_ok (λ x. (x, self.new.rest.now)) result ≡ four_from start self.old.rest.now }
        ensures total { self.new.total ≡ self.old.total }
    {
        Ok(u32::from_be_bytes(self.front(start)?))
    }

    pub fn take(&mut self, start: usize, n: usize) -> Result<&'a [u8], ByteFault>
        ensures value { map_ok (λ x. (x.now, self.new.rest.now)) result ≡ take_from start n self.old.rest.now }
        ensures total { self.new.total ≡ self.old.total }
    {
        let (front, after) = self
            .rest
            .split_at_checked(n)
            .ok_or(ByteFault::Ends { offset: start })?;
        self.rest = after;
        Ok(front)
    }
}
