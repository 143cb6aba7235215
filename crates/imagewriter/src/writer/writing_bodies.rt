ghost use Rattle.imagewriter.specs.Answers.{BodyAnswer, FinishAnswer};
ghost use Rattle.imagewriter.specs.Standing.{BodyMeans, FinishMeans};

use super::Bodies;
use super::buffer::{length_in_row, put_bytes};
use tables::{LONGEST_TEXT, Refusal};

impl Bodies {
    // Writes the next body behind the one before. Refusals 28, 29 and 31.
    pub fn body(&mut self, buf: &mut [u8], text: &[u8]) -> Result<(), Refusal>
        ensures answer { BodyAnswer self.old buf.old text.now result self.new buf.new }
        ensures meaning { BodyMeans self.old buf.old text.now result self.new buf.new }
    {
        self.ready(buf)?;
        if text.len() > LONGEST_TEXT || text.len() != length_in_row(buf, self.standing) {
            return Err(Refusal::BodyLength);
        }
        put_bytes(buf, self.place, text);
        self.count_one(text.len());
        Ok(())
    }

    // Ends the writing and answers the file's length. Refusal 30, with the writer handed back, while a body
    // is missing.
    pub fn finish(self) -> Result<usize, (Bodies, Refusal)>
        ensures answer { FinishAnswer self result }
        ensures meaning { FinishMeans self result }
    {
        let bodies = self.complete()?;
        Ok(bodies.place)
    }
}
