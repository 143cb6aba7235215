ghost use Rattle.std.specs.Prelude.{◌≤◌, length};

use tables::Stamp;

// The entry that a good line says.
#[derive(Clone, Copy)]
pub struct Item<'a> {
    pub stamp: Stamp,
    pub text: &'a [u8],
    ghost short: { length text.now ≤ 96 },
}
