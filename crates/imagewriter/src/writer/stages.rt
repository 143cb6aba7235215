ghost use Rattle.std.specs.Prelude.{◌≡◌, ◌+◌, ◌<◌, ◌≤◌, ◌⊎◌, length, Ok, Err, OnOk, OnErr};
ghost use Rattle.tables.specs.declared.refusal.Refusal.TheVariants.{WriterShort, AllStand, Missing};
ghost use Rattle.imagewriter.specs.Places.{room, row_place};
ghost use Rattle.imagewriter.specs.Answers.{At};

use super::Writer;
use super::buffer::{place_of_row, room_for};
use std::marker::PhantomData;
use tables::Refusal;

impl<Stage> Writer<Stage> {
    // A writer that has nothing of its stage yet; the first body begins behind the rows.
    pub(super) fn at_start(count: usize) -> Writer<Stage>
        requires { count ≤ 128 }
        ensures { At count 0 (row_place count) result }
    {
        Writer {
            count,
            standing: 0,
            place: place_of_row(count),
            stage: PhantomData,
        }
    }

    // Whether the next row or body can be written. Refusal 28 where the buffer is short, 29 where all stand.
    pub(super) fn ready(&self, buf: &[u8]) -> Result<(), Refusal>
        ensures short { length buf.now < room self.now.count → result ≡ Err WriterShort }
        ensures all_stand { room self.now.count ≤ length buf.now → self.now.standing ≡ self.now.count → result ≡ Err AllStand }
        ensures ready { OnOk result ((room self.now.count ≤ length buf.now) × (self.now.standing < self.now.count)) }
        ensures refused { OnErr result ((length buf.now < room self.now.count) ⊎ (self.now.standing ≡ self.now.count)) }
    {
        if buf.len() < room_for(self.count) {
            return Err(Refusal::WriterShort);
        }
        if self.standing == self.count {
            return Err(Refusal::AllStand);
        }
        Ok(())
    }

    // Counts one more row or body as written, whose body takes `length` bytes.
    pub(super) fn count_one(&mut self, length: usize)
        requires more { self.old.standing < self.old.count }
        requires short { length ≤ 96 }
        ensures { At self.old.count (self.old.standing + 1) (self.old.place + length) self.new }
    {
        self.standing += 1;
        self.place += length;
    }

    // The writer itself, once all rows or bodies stand. Refusal 30, with the writer handed back, while one is
    // missing.
    pub(super) fn complete(self) -> Result<Writer<Stage>, (Writer<Stage>, Refusal)>
        ensures missing { self.standing < self.count → result ≡ Err (self, Missing) }
        ensures complete { self.standing ≡ self.count → result ≡ Ok self }
    {
        if self.standing < self.count {
            return Err((self, Refusal::Missing));
        }
        Ok(self)
    }
}
