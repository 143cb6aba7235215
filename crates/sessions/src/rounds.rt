ghost use Rattle.std.specs.Prelude.{◌≡◌, ◌<◌, map, length, option_map, IfSome, Ok, Err, slice_set};
ghost use Rattle.tables.specs.Tables.{Table, entry};
ghost use Rattle.modes.specs.Kind.{Kind};
ghost use Rattle.rules.specs.Numbers.{maybe, lowest};
ghost use Rattle.rules.specs.Office.{open_round as to_open, drop_round as to_drop, copy as to_copy, uncopied};
ghost use Rattle.rules.specs.Rules.{Step, next_answer, next_of, after_copy};
ghost use Rattle.keyed.specs.Keyed.{any_held};
ghost use Rattle.sessions.specs.Sessions.{holds_entry, with_new_side};
ghost use Rattle.sessions.specs.View.{view, WithTables, Follows, ByRules, copyable};
ghost use Rattle.sessions.specs.Answers.{did, copied_image};

use super::session::Session;
use super::table::SessionTable;
use tables::{MOST_ENTRIES, Refusal};

// Gives each session the side that it has as a round opens, or as one ends.
fn renew_sides(sessions: &mut [Option<Session>], round: bool)
    ensures { sessions.new ≡ map (option_map (with_new_side round)) sessions.old }
{
    // not `flatten`: of what is written through it a proof knows nothing
    for place in sessions.iter_mut() {
        if let Some(session) = place {
            session.renew_side(round);
        }
    }
}

// Whether one of the sessions holds the entry.
fn is_held(sessions: &[Option<Session>], e: usize) -> bool
    ensures { result ≡ any_held (holds_entry e) sessions.now }
{
    sessions.iter().any(|place| place.as_ref().is_some_and(|session| session.holds_entry(e)))
}

impl SessionTable {
    // Opens a round into an image of this many entries; refusals 14 and 15.
    pub fn open_round(&mut self, image_entries: usize) -> Result<(), Refusal>
        ensures { Follows self.old self.new (λ live image. length image ≡ image_entries → (K : Kind) → Step K (view self.old live image) to_open (did result) (view self.new live image)) }
    {
        if self.round {
            return Err(Refusal::RoundOpen);
        }
        if image_entries != self.entries {
            return Err(Refusal::CountsDiffer);
        }
        renew_sides(&mut self.sessions, true);
        self.round = true;
        self.copied = [false; MOST_ENTRIES];
        Ok(())
    }

    // Ends the round, with the image left as it is; refusal 16.
    pub fn drop_round(&mut self) -> Result<(), Refusal>
        ensures { ByRules self.old to_drop (did result) self.new }
    {
        if !self.round {
            return Err(Refusal::NoRound);
        }
        renew_sides(&mut self.sessions, false);
        self.round = false;
        Ok(())
    }

    // Marks an entry as copied; refusals 2, 16, 17 and 18.
    pub fn mark_copied(&mut self, e: usize) -> Result<(), Refusal>
        ensures rule { Follows self.old self.new (λ live image. (K : Kind) → Step K (view self.old live image) (to_copy e) (did result) (view self.new live (copied_image result e live image))) }
        ensures within { elim result [ Ok u ↦ e < self.old.entries | Err f ↦ Unit {0} ] }
    {
        if e >= self.entries {
            return Err(Refusal::NoEntry);
        }
        if !self.round {
            return Err(Refusal::NoRound);
        }
        if self.copied[e] {
            return Err(Refusal::Copied);
        }
        if is_held(&self.sessions, e) {
            return Err(Refusal::Held);
        }
        self.copied[e] = true;
        Ok(())
    }

    // Whether the entry is uncopied, and no session holds it.
    fn is_copyable(&self, e: usize) -> bool
        requires { e < 128 }
        ensures { result ≡ copyable self.now e }
    {
        !self.copied[e] && !is_held(&self.sessions, e)
    }

    // The lowest entry that is uncopied and that no session holds.
    fn next_entry(&self) -> Option<usize>
        ensures is { result ≡ lowest self.now.entries (copyable self.now) }
        ensures within { IfSome result (λ e. e < self.now.entries) }
    {
        (0..self.entries).find(|e| self.is_copyable(*e))
    }

    // The entry that is to be copied next, if any; refusal 16.
    pub fn next(&self) -> Result<Option<usize>, Refusal>
        ensures { WithTables self.now (λ live image. result ≡ next_answer (view self.now live image)) }
    {
        if !self.round {
            return Err(Refusal::NoRound);
        }
        Ok(self.next_entry())
    }

    // Marks the entry that is to be copied next, and answers it; for the copies of a work.
    pub fn mark_next(&mut self) -> Option<usize>
        ensures next { WithTables self.old (λ live image. result ≡ next_of (view self.old live image)) }
        ensures mark { Follows self.old self.new (λ live image. view self.new live (maybe result image (λ e. slice_set image e (entry live e))) ≡ maybe result (view self.old live image) (after_copy (view self.old live image))) }
        ensures within { IfSome result (λ e. e < self.old.entries) }
    {
        let next = self.next_entry()?;
        self.copied[next] = true;
        Some(next)
    }

    // How many entries are uncopied.
    pub fn left(&self) -> usize
        ensures { WithTables self.now (λ live image. result ≡ uncopied (view self.now live image)) }
    {
        self.copied[..self.entries]
            .iter()
            .filter(|copied| !**copied)
            .count()
    }
}
