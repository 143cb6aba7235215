ghost use Rattle.std.specs.Prelude.{◌≡◌, ◌≤◌};
ghost use Rattle.sessions.specs.Commits.{put_hold, put_holds, put_written};

use sessions::{Hold, SessionTable};
use tables::{Readable, Stamp, Store};

// Puts the text of a hold into a store, if it keeps one.
fn put_hold<S: Store>(to: &mut S, hold: &Hold, hand: u32)
    requires { hand ≤ 4000000000 }
    ensures { S.Readable.table to.new ≡ put_hold hand hold.now (S.Readable.table to.old) }
{
    let Some(text) = &hold.written else {
        return;
    };
    let Ok((edition, _)) = to.stamp(hold.entry) else {
        return;
    };
    let stamp = Stamp {
        edition: (edition + 1).min(hand),
        hand,
    };
    let _ = to.put(hold.entry, text.as_bytes(), stamp);
}

// Puts the texts of holds into a store. That the hand is one that a stamp may have is asked here and above: the number
// alone has no type of its own, its law is the stamp's.
fn put_holds<S: Store>(to: &mut S, holds: &[Option<Hold>], hand: u32)
    requires { hand ≤ 4000000000 }
    ensures { S.Readable.table to.new ≡ put_holds hand holds.now (S.Readable.table to.old) }
{
    // not `flatten`: the loop's invariant would be about its inner and its outer iterator
    for place in holds {
        if let Some(hold) = place {
            put_hold(to, hold, hand);
        }
    }
}

// Puts the texts that a session wrote into a store, with the next hand.
pub(crate) fn put_session<S: Store>(to: &mut S, sessions: &SessionTable, session: usize)
    ensures { S.Readable.table to.new ≡ put_written sessions.now session (S.Readable.table to.old) }
{
    if let Some(holds) = sessions.holds_of(session) {
        put_holds(to, holds, sessions.next_hand());
    }
}
