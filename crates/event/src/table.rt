// Tables that a caller lends.
ghost use Rattle.std.specs.Prelude.{◌≡◌, slice_set};
ghost use Rattle.event.specs.Tables.{cleared};

// Makes the first n entries of a table the value; the others stay.
pub fn clear<T: Copy>(table: &mut [T], n: usize, value: T)
    ensures { table.new ≡ cleared n value table.old }
{
    let used = n.min(table.len());
    // `fill` asks that cloning the value cannot fail, which `Copy` does not promise.
    for entry in &mut table[..used] {
        *entry = value;
    }
}

// Writes a value to a place of a table, where it has that place.
pub fn set<T: Copy>(table: &mut [T], place: usize, value: T)
    ensures { table.new ≡ slice_set table.old place value }
{
    // By index: what the library says of a slice after a write through its `get_mut` is its length alone.
    if place < table.len() {
        table[place] = value;
    }
}
