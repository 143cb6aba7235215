ghost use Rattle.std.specs.Prelude.{◌≡◌, length};
ghost use Rattle.rules.specs.Rules.{after_work};
ghost use Rattle.sessions.specs.View.{view};

use restore::copy_entry;
use sessions::SessionTable;
use tables::{Readable, Store};

// Copies what is next from the live store into the image store, until `limit` copies are made or nothing is next; answers
// the copies made.
pub(crate) fn copy_next<L: Readable, I: Store>(
    sessions: &mut SessionTable,
    live: &L,
    image: &mut I,
    limit: usize,
) -> usize
    requires { length (L.Readable.table live.now) ≡ sessions.old.entries }
    ensures work { after_work limit (view sessions.old (L.Readable.table live.now) (I.Readable.table image.old)) ≡ (result, view sessions.new (L.Readable.table live.now) (I.Readable.table image.new)) }
    ensures same { sessions.new.entries ≡ sessions.old.entries }
{
    for made in 0..limit {
        let Some(e) = sessions.mark_next() else {
            return made;
        };
        let _ = copy_entry(live, image, e);
    }
    limit
}
