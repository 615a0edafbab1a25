// Names: a length byte and that many bytes that can be seen.
ghost use Rattle.std.specs.Prelude.{◌≡◌, take};
ghost use Rattle.format.specs.Parse.{map_ok};
ghost use Rattle.format.specs.Names.{all_good_bytes, name_from};

use crate::bytes::Reader;
use format::fault::SectionFault;

// Whether none of the first `n` bytes, as far as they are there, is one that no name has.
pub fn good_front(s: &[u8], n: usize) -> bool
    ensures { result ≡ all_good_bytes (take n s.now) }
{
    // The part is cut off once, so that no count is kept beside the bytes, and each is compared as it is.
    let most = n.min(s.len());
    s[..most].iter().all(|b| *b >= 33 && *b <= 126)
}

// The name of the entry that begins at `start`.
pub fn name<'a>(r: &mut Reader<'a>, start: usize) -> Result<&'a [u8], SectionFault>
    ensures value { map_ok (λ n. (n.now, r.new.rest.now)) result ≡ name_from start r.old.rest.now }
    ensures total { r.new.total ≡ r.old.total }
{
    let len = usize::from(r.byte(start)?);
    if !(1..=31).contains(&len) || !good_front(r.rest(), len) {
        return Err(SectionFault::Entry { offset: start });
    }
    Ok(r.take(start, len)?)
}
