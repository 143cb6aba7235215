ghost use Rattle.std.specs.Prelude.{◌≡◌, ◌+◌, ◌≤◌, true, length};
ghost use Rattle.std.specs.List.{list_all};
ghost use Rattle.keyed.specs.Keyed.{distinct, all_under, count_taken};
ghost use Rattle.sessions.specs.Sessions.{session_key, sound_place};

use super::session::Session;
use tables::MOST_ENTRIES;

// The most sessions that are live at a time.
const MOST_SESSIONS: usize = 16;

// The sessions of an office of `entries` entries, with the next session number and the next hand; whether a
// round is open, and which entries it has copied. Arrays, each place of which stays where it is: a call changes one
// session and no other, and no allocator is needed.
#[derive(Drop)]
pub struct SessionTable {
    pub(crate) sessions: [Option<Session>; MOST_SESSIONS],
    pub(crate) entries: usize,
    pub(crate) next_session: usize,
    pub(crate) next_hand: u32,
    // a flag beside the marks: the rules' office keeps the marks of the last round when it ends
    pub(crate) round: bool,
    pub(crate) copied: [bool; MOST_ENTRIES],
    // sixteen places, and a mark for each entry
    ghost places: { length sessions ≡ 16 },
    ghost marks: { length copied ≡ 128 },
    ghost few: { entries ≤ 128 },
    // no two live sessions have one number, and each number was given out
    ghost numbers: { distinct session_key sessions ≡ true },
    ghost given: { all_under session_key next_session sessions ≡ true },
    // each session holds distinct entries that the office has
    ghost sound: { list_all (sound_place entries) sessions ≡ true },
    // there is a hand left for the commit of each live session
    ghost last: { next_session ≤ 4000000001 },
    ghost hands: { next_hand + count_taken session_key (λ _. true) sessions ≤ next_session },
}
