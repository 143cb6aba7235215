ghost use Rattle.imagewriter.specs.Answers.{BeginAnswer, RowAnswer, TurnAnswer};
ghost use Rattle.imagewriter.specs.Standing.{BeginMeans, RowMeans, TurnMeans};

use super::buffer::{place_of_row, put_bytes, room_for};
use super::{Bodies, Rows};
use imageformat::{Row, head_bytes};
use tables::{LONGEST_TEXT, MOST_ENTRIES, Refusal, Stamp};

impl Rows {
    // Begins a file of `n` entries: writes its head. Refusals 22 and 28.
    pub fn begin(buf: &mut [u8], n: usize) -> Result<Rows, Refusal>
        ensures answer { BeginAnswer n buf.old result buf.new }
        ensures meaning { BeginMeans result buf.new }
    {
        if n > MOST_ENTRIES {
            return Err(Refusal::CountHigh);
        }
        if buf.len() < room_for(n) {
            return Err(Refusal::WriterShort);
        }
        // `as`, which is proved to lose nothing here and below: `try_from` would add a case that never comes
        put_bytes(buf, 0, &head_bytes(n as u16));
        Ok(Rows::at_start(n))
    }

    // Writes the next row: a stamp, and the length of the body to come. Refusals 24, 25, 28 and 29.
    // Two numbers and no `Stamp`, since a wrong stamp is refused here.
    pub fn row(
        &mut self,
        buf: &mut [u8],
        edition: u32,
        hand: u32,
        length: usize,
    ) -> Result<(), Refusal>
        ensures answer { RowAnswer self.old buf.old edition hand length result self.new buf.new }
        ensures meaning { RowMeans self.old buf.old edition hand length result self.new buf.new }
    {
        let stamp = Stamp::new(edition, hand)?;
        if length > LONGEST_TEXT {
            return Err(Refusal::RowLong);
        }
        self.ready(buf)?;
        let row = Row {
            edition: stamp.edition,
            hand: stamp.hand,
            place: self.place as u32,
            length: length as u16,
        };
        put_bytes(buf, place_of_row(self.standing), &row.to_bytes());
        self.count_one(length);
        Ok(())
    }

    // Goes on to the bodies. Refusal 30, with the writer handed back, while a row is missing.
    pub fn turn(self) -> Result<Bodies, (Rows, Refusal)>
        ensures answer { TurnAnswer self result }
        ensures meaning { TurnMeans self result }
    {
        let rows = self.complete()?;
        Ok(Bodies::at_start(rows.count))
    }
}
