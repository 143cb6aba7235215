ghost use Rattle.std.specs.Prelude.{◌≡◌, ◌+◌, ◌*◌, ◌≤◌, length};
ghost use Rattle.imageformat.specs.Format.{number_at};
ghost use Rattle.imagewriter.specs.Places.{room, row_place, put_at};

use super::MOST_ENTRY_BYTES;
use imageformat::{HEAD_BYTES, ROW_BYTES, u16_at};

// The length's place within its row.
const LENGTH_IN_ROW: usize = 12;

// The calls below ask for few entries, so that no sum is too great; the writer's own law says it of its count, but a
// number of entries is asked of them before there is a writer.

// The bytes that a file of `count` entries may take.
pub(super) fn room_for(count: usize) -> usize
    requires { count ≤ 128 }
    ensures { result ≡ room count }
{
    HEAD_BYTES + MOST_ENTRY_BYTES * count
}

// The place of a row.
pub(super) fn place_of_row(k: usize) -> usize
    requires { k ≤ 128 }
    ensures { result ≡ row_place k }
{
    HEAD_BYTES + ROW_BYTES * k
}

// Puts bytes over a buffer, from a place on.
pub(super) fn put_bytes(buf: &mut [u8], at: usize, bytes: &[u8])
    requires { at + length bytes.now ≤ length buf.old }
    ensures { buf.new ≡ put_at at bytes.now buf.old }
{
    let end = at + bytes.len();
    buf[at..end].copy_from_slice(bytes);
}

// The body's length that a row in the buffer names.
pub(super) fn length_in_row(buf: &[u8], k: usize) -> usize
    requires { (k ≤ 128) × (row_place (k + 1) ≤ length buf.now) }
    ensures { result ≡ number_at 2 (row_place k + 12) buf.now }
{
    usize::from(u16_at(buf, place_of_row(k) + LENGTH_IN_ROW).unwrap())
}
