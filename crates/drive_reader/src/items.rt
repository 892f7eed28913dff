// The numbers of a gather's items.
ghost use Rattle.std.specs.Prelude.{◌≡◌, ◌<◌, ◌+◌, ◌*◌, ◌^◌};
ghost use Rattle.endian.specs.Endian.{le2};
ghost use Rattle.drive_reader.specs.Items.{items_copied};

use crate::reader::Reader;

// The number i of those that begin at `first`; bytes past the end are 0.
fn item_at(src: &[u8], first: usize, i: usize) -> u16
    requires { i * 2 < 2 ^ 63 }
    ensures { result ≡ le2 src.now (first + i * 2) }
{
    let items = Reader::new(src, first);
    let low = items.byte(i * 2);
    let high = items.byte(i * 2 + 1);
    u16::from_le_bytes([low, high])
}

// Copies `count` numbers of two bytes that begin at `first` to the front of `items`, or as many as there is room for. Bytes past the end
// are 0.
pub fn gather_items(src: &[u8], first: usize, count: usize, items: &mut [u16])
    ensures { items.new ≡ items_copied src.now first count items.old }
{
    for i in 0..count.min(items.len()) {
        items[i] = item_at(src, first, i);
    }
}
