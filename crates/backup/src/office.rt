ghost use Rattle.std.specs.Prelude.{◌≡◌};
ghost use Rattle.rules.specs.Office.{new_office};
ghost use Rattle.sessions.specs.View.{view};
ghost use Rattle.backup.specs.Serving.{Kept};

use super::commits::put_session;
use super::hands::highest_hand;
use super::serves::Serves;
use super::works::copy_next;
use modes::Modes;
use restore::copy_entry;
use sessions::SessionTable;
use tables::{Readable, Refusal, Store};

// An office over a live store, an image store and a kind of modes.
pub struct Office<L: Store, I: Store, K: Modes> {
    live: L,
    image: I,
    kinds: K,
    sessions: SessionTable,
    // the live store has as many entries as the sessions know of, and in a round the image store too
    ghost kept: { Kept sessions.entries (view sessions (L.Readable.table live) (I.Readable.table image)) },
}

impl<L: Store, I: Store, K: Modes> Office<L, I, K> {
    // A new office, with no session and no round.
    pub fn new(live: L, image: I, kinds: K) -> Office<L, I, K>
        ensures { view result.sessions (L.Readable.table result.live) (I.Readable.table result.image) ≡ new_office (L.Readable.table live) (I.Readable.table image) }
    {
        let first = highest_hand(&live) + 1;
        let sessions = SessionTable::new(live.count(), first).unwrap();
        Office {
            live,
            image,
            kinds,
            sessions,
        }
    }
}

impl<L: Store, I: Store, K: Modes> Serves for Office<L, I, K> {
    ghost kind = { K.Modes.kind };

    ghost state = { λ o. view o.sessions (L.Readable.table o.live) (I.Readable.table o.image) };

    fn begin(&mut self) -> Result<usize, Refusal> {
        self.sessions.begin()
    }

    fn claim(&mut self, session: usize, entry: usize, mode: u8) -> Result<(), Refusal> {
        self.sessions.claim(&self.kinds, session, entry, mode)
    }

    fn read(&self, session: usize, entry: usize, buf: &mut [u8]) -> Result<usize, Refusal> {
        match self.sessions.own_text(&self.kinds, session, entry, buf)? {
            Some(n) => Ok(n),
            None => self.live.text(entry, buf),
        }
    }

    fn write(&mut self, session: usize, entry: usize, text: &[u8]) -> Result<(), Refusal> {
        self.sessions.write(&self.kinds, session, entry, text)
    }

    fn leave(&mut self, session: usize) -> Result<(), Refusal> {
        self.sessions.leave(session)
    }

    fn commit(&mut self, session: usize) -> Result<(), Refusal> {
        put_session(&mut self.live, &self.sessions, session);
        self.sessions.end_commit(session)
    }

    fn open(&mut self) -> Result<(), Refusal> {
        self.sessions.open_round(self.image.count())
    }

    fn copy(&mut self, entry: usize) -> Result<(), Refusal> {
        self.sessions.mark_copied(entry)?;
        copy_entry(&self.live, &mut self.image, entry)
    }

    fn next(&self) -> Result<Option<usize>, Refusal> {
        self.sessions.next()
    }

    fn work(&mut self, limit: usize) -> Result<(usize, usize), Refusal> {
        if !self.sessions.round_is_open() {
            return Err(Refusal::NoRound);
        }
        let made = copy_next(&mut self.sessions, &self.live, &mut self.image, limit);
        Ok((made, self.sessions.left()))
    }

    fn drop(&mut self) -> Result<(), Refusal> {
        self.sessions.drop_round()
    }
}
