ghost use Rattle.std.specs.Prelude.{◌≡◌, ◌+◌, ◌<◌, ◌≤◌, length, take, drop, Some, None, MatchOption};
ghost use Rattle.imageformat.specs.Format.{bytes as coded, head, row as coded_row, number_at};
ghost use Rattle.imageformat.specs.Rows.{row_at};

use tables::{LONGEST_TEXT, MOST_ENTRIES};

// The file's version.
pub const VERSION: u16 = 1;

// The bytes of a file's head, and of a row.
pub const HEAD_BYTES: usize = 4;

pub const ROW_BYTES: usize = 14;

// The bytes of a writer's buffer that suffice for every file.
pub const LONGEST_FILE: usize = HEAD_BYTES + (ROW_BYTES + LONGEST_TEXT) * MOST_ENTRIES;

// One row of the file's contents: the stamp of an entry, where its body begins, and how long it is.
#[derive(Clone, Copy, PartialEq, Eq, Debug)]
pub struct Row {
    pub edition: u32,
    pub hand: u32,
    pub place: u32,
    pub length: u16,
}

// The first four bytes of a file of `count` entries.
pub fn head_bytes(count: u16) -> [u8; HEAD_BYTES]
    ensures { result ≡ head count }
{
    let v = VERSION.to_be_bytes();
    let n = count.to_be_bytes();
    [v[0], v[1], n[0], n[1]]
}

// The part of `N` bytes at `at`, if so many stand there.
fn part_at<const N: usize>(bytes: &[u8], at: usize) -> Option<&[u8; N]>
    ensures { MatchOption result (length bytes.now < at + N) (λ part. (at + N ≤ length bytes.now) × (part.now ≡ take N (drop at bytes.now))) }
{
    bytes.get(at..)?.first_chunk()
}

// The `N` bytes at `at`, if so many stand there.
fn bytes_at<const N: usize>(bytes: &[u8], at: usize) -> Option<[u8; N]>
    ensures { MatchOption result (length bytes.now < at + N) (λ part. (at + N ≤ length bytes.now) × (part ≡ take N (drop at bytes.now))) }
{
    part_at(bytes, at).copied()
}

// The number in the two bytes at `at`.
pub fn u16_at(bytes: &[u8], at: usize) -> Option<u16>
    ensures { elim result [ Some n ↦ (at + 2 ≤ length bytes.now) × (n ≡ number_at 2 at bytes.now) × (coded 2 n ≡ take 2 (drop at bytes.now)) | None ↦ length bytes.now < at + 2 ] }
{
    Some(u16::from_be_bytes(bytes_at(bytes, at)?))
}

impl Row {
    // The row's fourteen bytes.
    pub fn to_bytes(&self) -> [u8; ROW_BYTES]
        ensures { result ≡ coded_row self.now.edition self.now.hand self.now.place self.now.length }
    {
        let mut out = [0; ROW_BYTES];
        out[0..4].copy_from_slice(&self.edition.to_be_bytes());
        out[4..8].copy_from_slice(&self.hand.to_be_bytes());
        out[8..12].copy_from_slice(&self.place.to_be_bytes());
        out[12..14].copy_from_slice(&self.length.to_be_bytes());
        out
    }

    // The row in the fourteen bytes at `at`.
    pub fn read(bytes: &[u8], at: usize) -> Option<Row>
        ensures { elim result [ Some w ↦ (at + 14 ≤ length bytes.now) × (w ≡ row_at bytes.now at) × (coded_row w.edition w.hand w.place w.length ≡ take 14 (drop at bytes.now)) | None ↦ length bytes.now < at + 14 ] }
    {
        // of fourteen bytes it is known that each field stands in them
        let row: &[u8; ROW_BYTES] = part_at(bytes, at)?;
        Some(Row {
            edition: u32::from_be_bytes(bytes_at(row, 0)?),
            hand: u32::from_be_bytes(bytes_at(row, 4)?),
            place: u32::from_be_bytes(bytes_at(row, 8)?),
            length: u16_at(row, 12)?,
        })
    }
}
