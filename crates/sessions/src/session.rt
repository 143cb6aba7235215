ghost use Rattle.std.specs.Prelude.{◌≡◌, ◌<◌, length, is_some, IfSome, slice_index_or, slice_set, option_map, None, Some};
ghost use Rattle.std.specs.List.{list_any};
ghost use Rattle.keyed.specs.Keyed.{held, any_held};
ghost use Rattle.rules.specs.Rules.{wanted as wants};
ghost use Rattle.sessions.specs.Sessions.{session_number, hold_entry, is_written, begun_session, hold_place, granted_hold, written_hold, with_hold, holds_entry, with_new_side, side_then};
ghost use Rattle.sessions.specs.View.{mode_of, holds_in};

use super::free::free_places;
use super::hold::Hold;
use keyed::{Numbered, found, occupied, place, vacancy};
use modes::Modes;
use tables::{Refusal, Text};

// The most entries that a session holds.
const MOST_HOLDS: usize = 8;

// The side of a session in a round.
#[derive(Clone, Copy)]
pub(crate) enum Side {
    Before,
    After,
}

// A session: its number, its side in the round, if it has one, and its holds.
#[derive(Clone, Copy)]
pub(crate) struct Session {
    pub(crate) number: usize,
    pub(crate) side: Option<Side>,
    pub(crate) holds: [Option<Hold>; MOST_HOLDS],
}

impl Numbered for Session {
    ghost number = { session_number };

    fn number(&self) -> usize {
        self.number
    }
}

impl Session {
    // A session that has just begun.
    pub(crate) fn begun(number: usize) -> Session
        ensures { result ≡ begun_session number }
    {
        Session {
            number,
            side: None,
            holds: free_places(),
        }
    }

    // The mode that it holds the entry in.
    pub(crate) fn mode_of(&self, e: usize) -> Option<u8>
        ensures { result ≡ mode_of (held hold_entry self.now.holds e) }
    {
        found(&self.holds, e).map(|(_, hold)| hold.mode)
    }

    // Whether it holds the entry in a mode that conflicts with the wanted one.
    pub(crate) fn conflicts<K: Modes>(&self, kinds: &K, e: usize, wanted: u8) -> bool
        ensures { result ≡ holds_in (K.Modes.kind.conflict wanted) e self.now }
    {
        self.mode_of(e)
            .is_some_and(|held| kinds.conflict(wanted, held))
    }

    // Whether it holds the entry.
    pub(crate) fn holds_entry(&self, e: usize) -> bool
        ensures { result ≡ holds_entry e self.now }
    {
        found(&self.holds, e).is_some()
    }

    // Where its hold of the entry stands, or else can stand.
    #[tactic(auto, using(keyed::proofs::Held::free_places))]
    pub(crate) fn hold_place(&self, e: usize) -> Option<usize>
        ensures is { result ≡ hold_place self.now.holds e }
        ensures within { IfSome result (λ k. k < length self.now.holds) }
    {
        place(&self.holds, e).or_else(|| vacancy(&self.holds))
    }

    // The mode that its claim of the entry wants: the mode claimed, joined with the mode held.
    pub(crate) fn wanted<K: Modes>(&self, kinds: &K, e: usize, m: u8) -> u8
        ensures { result ≡ wants K.Modes.kind m (mode_of (held hold_entry self.now.holds e)) }
    {
        self.mode_of(e).map_or(m, |held| kinds.join(m, held))
    }

    // The side that its claim of an entry, copied or not, gives it; without a round it keeps its side. Refusals 6 and 7.
    pub(crate) fn side_then(&self, round: bool, copied: bool) -> Result<Option<Side>, Refusal>
        ensures { result ≡ side_then round self.now.side copied }
    {
        if !round {
            return Ok(self.side);
        }
        match (self.side, copied) {
            (None, true) => Ok(Some(Side::After)),
            (None, false) => Ok(Some(Side::Before)),
            (Some(Side::Before), true) => Err(Refusal::Ended),
            (Some(Side::Before), false) => Ok(Some(Side::Before)),
            (Some(Side::After), true) => Ok(Some(Side::After)),
            (Some(Side::After), false) => Err(Refusal::Paused),
        }
    }

    // Holds the entry in the mode, in hold k, which is its own or a free one, and takes the side. A text that
    // it wrote to the entry stays. `k < 8` is asked here and below, as the place of a hold alone has no type.
    pub(crate) fn grant(&mut self, k: usize, e: usize, mode: u8, side: Option<Side>)
        requires { k < 8 }
        ensures { self.new ≡ with_hold self.old k (granted_hold (slice_index_or self.old.holds k None) e mode) side }
    {
        let own = self.holds[k].filter(|hold| hold.entry == e);
        self.holds[k] = Some(Hold {
            entry: e,
            mode,
            written: own.and_then(|hold| hold.written),
        });
        self.side = side;
    }

    // Keeps a text with hold k.
    pub(crate) fn keep(&mut self, k: usize, text: Text)
        requires { k < 8 }
        ensures { self.new ≡ with_hold self.old k (written_hold (slice_index_or self.old.holds k None) text) self.old.side }
    {
        if let Some(hold) = &mut self.holds[k] {
            hold.written = Some(text);
        }
    }

    // Whether it wrote to one of its entries.
    pub(crate) fn has_written(&self) -> bool
        ensures { result ≡ any_held is_written self.now.holds }
    {
        self.holds.iter().any(|place| place.as_ref().is_some_and(|hold| hold.written.is_some()))
    }

    // Takes the side that it has as a round opens, which is Before if it holds an entry, or as one ends, which is none. One
    // formula over the round's state: two calls would be twins.
    #[tactic(auto, using(keyed::proofs::Held::taken_places))]
    pub(crate) fn renew_side(&mut self, round: bool)
        ensures { self.new ≡ with_new_side round self.old }
    {
        self.side = (round && occupied(&self.holds)).then_some(Side::Before);
    }
}

// Lends the session in place i, which then holds the entry in the mode, in hold k, and takes the side. Here and below the array
// is asked for and not its place, since the borrow checker makes no plan for a place that the table itself lends.
pub(crate) fn grant_at(
    sessions: &mut [Option<Session>],
    i: usize,
    k: usize,
    e: usize,
    mode: u8,
    side: Option<Side>,
)
    requires place { i < length sessions.old }
    requires hold { k < 8 }
    ensures { sessions.new ≡ slice_set sessions.old i (option_map (λ x. with_hold x k (granted_hold (slice_index_or x.holds k None) e mode) side) (slice_index_or sessions.old i None)) }
{
    if let Some(session) = &mut sessions[i] {
        session.grant(k, e, mode, side);
    }
}

// Lends the session in place i, which then keeps a text with hold k.
pub(crate) fn keep_at(sessions: &mut [Option<Session>], i: usize, k: usize, text: Text)
    requires place { i < length sessions.old }
    requires hold { k < 8 }
    ensures { sessions.new ≡ slice_set sessions.old i (option_map (λ x. with_hold x k (written_hold (slice_index_or x.holds k None) text) x.side) (slice_index_or sessions.old i None)) }
{
    if let Some(session) = &mut sessions[i] {
        session.keep(k, text);
    }
}
