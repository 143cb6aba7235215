ghost use Rattle.std.specs.Prelude.{◌≡◌, ◌≤◌, true, Some, None};
ghost use Rattle.modes.specs.Kind.{Kind};
ghost use Rattle.rules.specs.Office.{commit as to_commit};
ghost use Rattle.rules.specs.Rules.{Step};
ghost use Rattle.keyed.specs.Keyed.{all_under};
ghost use Rattle.sessions.specs.Sessions.{hold_key};
ghost use Rattle.sessions.specs.View.{view, Follows};
ghost use Rattle.sessions.specs.Commits.{holds_of, put_written};
ghost use Rattle.sessions.specs.Answers.{did};

use super::hold::Hold;
use super::table::SessionTable;
use keyed::found;
use tables::Refusal;

impl SessionTable {
    // The holds of a session, whose texts a commit puts: each is of an entry of the office, and the next hand is one
    // that a stamp may have; None where no live session has this number.
    pub fn holds_of(&self, s: usize) -> Option<&[Option<Hold>]>
        ensures { elim result [ Some l ↦ (holds_of self.now s ≡ Some l.now) × (all_under hold_key self.now.entries l.now ≡ true) × (self.now.next_hand ≤ 4000000000) | None ↦ holds_of self.now s ≡ None ] }
    {
        let (_, session) = found(&self.sessions, s)?;
        Some(&session.holds)
    }

    // Ends a session whose texts are put, and spends the hand if it wrote; refusal 1.
    pub fn end_commit(&mut self, s: usize) -> Result<(), Refusal>
        ensures { Follows self.old self.new (λ live image. (K : Kind) → Step K (view self.old live image) (to_commit s) (did result) (view self.new (put_written self.old s live) image)) }
    {
        let (i, session) = self.session(s)?;
        let wrote = session.has_written();
        self.sessions[i] = None;
        if wrote {
            self.next_hand += 1;
        }
        Ok(())
    }
}
