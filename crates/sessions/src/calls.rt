ghost use Rattle.std.specs.Prelude.{◌≡◌, Ok, Err, None, Some};
ghost use Rattle.tables.specs.Tables.{Table};
ghost use Rattle.rules.specs.Office.{begin as to_begin, leave as to_leave};
ghost use Rattle.sessions.specs.View.{view, ByRules, empty_office};
ghost use Rattle.sessions.specs.Answers.{SessionIs, new_refusal, did, numbered};

use super::free::free_places;
use super::session::Session;
use super::table::SessionTable;
use keyed::{found, vacancy};
use tables::{MOST_ENTRIES, Refusal};

// The greatest number that a session has.
const LAST_NUMBER: usize = 4_000_000_000;

impl SessionTable {
    // The table of an office of `entries` entries, with no session and no round, whose first session number
    // and first hand are `first`; refusals 13 and 22.
    pub fn new(entries: usize, first: u32) -> Result<SessionTable, Refusal>
        ensures { elim result [ Ok t ↦ (new_refusal entries first ≡ None) × (t.entries ≡ entries) × ((live image : Table) → view t live image ≡ empty_office first live image) | Err f ↦ new_refusal entries first ≡ Some f ] }
    {
        // `as`, since usize has no From<u32>
        if first as usize > LAST_NUMBER + 1 {
            return Err(Refusal::NumbersSpent);
        }
        if entries > MOST_ENTRIES {
            return Err(Refusal::CountHigh);
        }
        Ok(SessionTable {
            sessions: free_places(),
            entries,
            next_session: first as usize,
            next_hand: first,
            round: false,
            copied: [false; MOST_ENTRIES],
        })
    }

    // The session of this number, and its place; refusal 1.
    pub(crate) fn session(&self, s: usize) -> Result<(usize, &Session), Refusal>
        ensures { SessionIs self.now s result }
    {
        found(&self.sessions, s).ok_or(Refusal::NoSession)
    }

    // Begins a session, and answers its number; refusals 12 and 13.
    pub fn begin(&mut self) -> Result<usize, Refusal>
        ensures { ByRules self.old to_begin (numbered result) self.new }
    {
        let i = vacancy(&self.sessions).ok_or(Refusal::SessionsFull)?;
        let number = self.next_session;
        if number > LAST_NUMBER {
            return Err(Refusal::NumbersSpent);
        }
        self.sessions[i] = Some(Session::begun(number));
        self.next_session += 1;
        Ok(number)
    }

    // Ends a session without a commit; refusal 1.
    pub fn leave(&mut self, s: usize) -> Result<(), Refusal>
        ensures { ByRules self.old (to_leave s) (did result) self.new }
    {
        let (i, _) = self.session(s)?;
        self.sessions[i] = None;
        Ok(())
    }
}
