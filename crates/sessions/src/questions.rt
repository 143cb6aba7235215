ghost use Rattle.std.specs.Prelude.{◌≡◌};
ghost use Rattle.tables.specs.Tables.{Table};
ghost use Rattle.sessions.specs.View.{view};

use super::table::SessionTable;

impl SessionTable {
    // Whether a round is open.
    pub fn round_is_open(&self) -> bool
        ensures { (live image : Table) → result ≡ (view self.now live image).round }
    {
        self.round
    }

    // The hand of the next commit that writes.
    pub fn next_hand(&self) -> u32
        ensures { (live image : Table) → result ≡ (view self.now live image).next_hand }
    {
        self.next_hand
    }
}
