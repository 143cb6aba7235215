ghost use Rattle.std.specs.Prelude.{◌≡◌, length};
ghost use Rattle.modes.specs.Kind.{Kind};
ghost use Rattle.rules.specs.Office.{Office as State, begin as to_begin, claim as to_claim, read as to_read, write as to_write, commit as to_commit, leave as to_leave, open_round as to_open, copy as to_copy, work as to_work, drop_round as to_drop};
ghost use Rattle.rules.specs.Rules.{Step, next_answer};
ghost use Rattle.sessions.specs.Answers.{did, numbered};
ghost use Rattle.backup.specs.Answers.{counted, read_out, RestKept};

use tables::Refusal;

// An office: what it means, and what its calls answer and leave. Each call keeps to its rule.
pub trait Serves {
    // the kind of its modes
    ghost kind: { Kind };

    // its tables, sessions and round
    ghost state: { Self → State };

    // Begins a session, and answers its number; refusals 12 and 13.
    fn begin(&mut self) -> Result<usize, Refusal>
        ensures { Step kind (state self.old) to_begin (numbered result) (state self.new) };

    // Claims an entry in a mode; refusals 1 to 7, and at 7 the session is ended.
    fn claim(&mut self, session: usize, entry: usize, mode: u8) -> Result<(), Refusal>
        ensures { Step kind (state self.old) (to_claim session entry mode) (did result) (state self.new) };

    // Puts the text that the session wrote to an entry, or else the live store's, at the front of the buffer, keeps the
    // rest, and answers the text's length; refusals 1, 2, 8 and 9.
    fn read(&self, session: usize, entry: usize, buf: &mut [u8]) -> Result<usize, Refusal>
        ensures rule { Step kind (state self.now) (to_read session entry (length buf.old)) (read_out result buf.new) (state self.now) }
        ensures rest { RestKept result buf.old buf.new };

    // Keeps a text for an entry that the session holds in a mode that writes; refusals 1, 2, 10 and 11.
    fn write(&mut self, session: usize, entry: usize, text: &[u8]) -> Result<(), Refusal>
        ensures { Step kind (state self.old) (to_write session entry text.now) (did result) (state self.new) };

    // Ends a session without a commit; refusal 1.
    fn leave(&mut self, session: usize) -> Result<(), Refusal>
        ensures { Step kind (state self.old) (to_leave session) (did result) (state self.new) };

    // Puts each text that the session wrote into the live store, and ends the session; refusal 1.
    fn commit(&mut self, session: usize) -> Result<(), Refusal>
        ensures { Step kind (state self.old) (to_commit session) (did result) (state self.new) };

    // Opens a round; refusals 14 and 15.
    fn open(&mut self) -> Result<(), Refusal>
        ensures { Step kind (state self.old) to_open (did result) (state self.new) };

    // Copies an entry into the image store; refusals 2, 16, 17 and 18.
    fn copy(&mut self, entry: usize) -> Result<(), Refusal>
        ensures { Step kind (state self.old) (to_copy entry) (did result) (state self.new) };

    // The entry that is to be copied next, if any; refusal 16.
    fn next(&self) -> Result<Option<usize>, Refusal>
        ensures { result ≡ next_answer (state self.now) };

    // Copies what next answers until so many copies are made or next says none, and answers the copies made and the
    // entries left uncopied; refusal 16.
    fn work(&mut self, limit: usize) -> Result<(usize, usize), Refusal>
        ensures { Step kind (state self.old) (to_work limit) (counted result) (state self.new) };

    // Gives the round up, with the image left as it is; refusal 16.
    fn drop(&mut self) -> Result<(), Refusal>
        ensures { Step kind (state self.old) to_drop (did result) (state self.new) };
}
