ghost use Rattle.std.specs.Prelude.{◌≡◌, ◌<◌, length, Ok, Err};
ghost use Rattle.tables.specs.Tables.{Table, entry};
ghost use Rattle.rules.specs.Office.{read as to_read, write as to_write};
ghost use Rattle.rules.specs.Rules.{Step};
ghost use Rattle.sessions.specs.View.{view, WithTables, ByRule};
ghost use Rattle.sessions.specs.Answers.{did, own_answer, BufferKept};

use super::session::keep_at;
use super::table::SessionTable;
use keyed::found;
use modes::Modes;
use tables::{Refusal, Text, fill_front};

impl SessionTable {
    // For a read of an entry that the session holds in a mode that reads: puts the text that the session wrote to the
    // entry at the front of the buffer, and answers its length; None where it wrote none, and the live table is to be
    // asked; refusals 1, 2, 8 and 9.
    pub fn own_text<K: Modes>(
        &self,
        kinds: &K,
        s: usize,
        e: usize,
        buf: &mut [u8],
    ) -> Result<Option<usize>, Refusal>
        ensures rule { WithTables self.now (λ live image. Step K.Modes.kind (view self.now live image) (to_read s e (length buf.old)) (own_answer result buf.new (entry live e).text) (view self.now live image)) }
        ensures rest { BufferKept result buf.old buf.new }
        ensures within { elim result [ Ok o ↦ e < self.now.entries | Err f ↦ Unit {0} ] }
    {
        let (_, session) = self.session(s)?;
        if e >= self.entries {
            return Err(Refusal::NoEntry);
        }
        let (_, hold) = found(&session.holds, e).ok_or(Refusal::NotReading)?;
        if !kinds.reads(hold.mode) {
            return Err(Refusal::NotReading);
        }
        // a match, each arm of which says its answer; `map` and `transpose` would hide the buffer in a closure
        match &hold.written {
            Some(text) => fill_front(buf, text.as_bytes()).map(Some),
            None => Ok(None),
        }
    }

    // Keeps a text for an entry that the session holds in a mode that writes; refusals 1, 2, 10 and 11.
    pub fn write<K: Modes>(
        &mut self,
        kinds: &K,
        s: usize,
        e: usize,
        text: &[u8],
    ) -> Result<(), Refusal>
        ensures { ByRule K.Modes.kind self.old (to_write s e text.now) (did result) self.new }
    {
        let (i, session) = self.session(s)?;
        if e >= self.entries {
            return Err(Refusal::NoEntry);
        }
        let (k, hold) = found(&session.holds, e).ok_or(Refusal::NotWriting)?;
        if !kinds.writes(hold.mode) {
            return Err(Refusal::NotWriting);
        }
        let text = Text::try_from(text)?;
        keep_at(&mut self.sessions, i, k, text);
        Ok(())
    }
}
