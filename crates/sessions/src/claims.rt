ghost use Rattle.std.specs.Prelude.{◌≡◌};
ghost use Rattle.rules.specs.Office.{claim as to_claim};
ghost use Rattle.keyed.specs.Keyed.{any_held};
ghost use Rattle.sessions.specs.View.{ByRule, conflicting};
ghost use Rattle.sessions.specs.Answers.{did};

use super::session::{Session, grant_at};
use super::table::SessionTable;
use modes::Modes;
use tables::Refusal;

// Whether a session other than s holds the entry in a mode that conflicts with the wanted one.
fn conflicts<K: Modes>(
    kinds: &K,
    sessions: &[Option<Session>],
    s: usize,
    e: usize,
    wanted: u8,
) -> bool
    ensures { result ≡ any_held (conflicting (K.Modes.kind.conflict wanted) s e) sessions.now }
{
    sessions.iter().any(|place| {
        place.as_ref().is_some_and(|session| session.number != s
            && session.conflicts(kinds, e, wanted))
    })
}

impl SessionTable {
    // Claims an entry in a mode; refusals 1 to 7, and at 7 the session is ended.
    pub fn claim<K: Modes>(&mut self, kinds: &K, s: usize, e: usize, m: u8) -> Result<(), Refusal>
        ensures { ByRule K.Modes.kind self.old (to_claim s e m) (did result) self.new }
    {
        let (i, session) = self.session(s)?;
        if e >= self.entries {
            return Err(Refusal::NoEntry);
        }
        if m >= kinds.modes() {
            return Err(Refusal::NoMode);
        }
        let k = session.hold_place(e).ok_or(Refusal::HoldsFull)?;
        let wanted = session.wanted(kinds, e, m);
        if conflicts(kinds, &self.sessions, s, e, wanted) {
            return Err(Refusal::Conflict);
        }
        match session.side_then(self.round, self.copied[e]) {
            Ok(side) => {
                grant_at(&mut self.sessions, i, k, e, wanted, side);
                Ok(())
            }
            Err(refusal) => {
                if refusal == Refusal::Ended {
                    self.sessions[i] = None;
                }
                Err(refusal)
            }
        }
    }
}
