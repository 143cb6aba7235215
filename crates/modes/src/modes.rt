ghost use Rattle.std.specs.Prelude.{◌≡◌};
ghost use Rattle.modes.specs.Kind.{Kind, Laws};

// A kind of modes. Its modes have the codes from 0 up to, and without, `modes()`; by the rules a mode is its code,
// so that it is a number here and no enum. It answers for every code; what it answers for one that is no mode's
// has no meaning.
pub trait Modes {
    // what it answers, once and for all
    ghost kind: { Kind };

    // The number of modes, from 1 to 8.
    fn modes(&self) -> u8
        ensures { result ≡ kind.modes };

    // Whether a mode reads.
    fn reads(&self, mode: u8) -> bool
        ensures { result ≡ kind.reads mode };

    // Whether a mode writes.
    fn writes(&self, mode: u8) -> bool
        ensures { result ≡ kind.writes mode };

    // Whether two modes conflict.
    fn conflict(&self, a: u8, b: u8) -> bool
        ensures { result ≡ kind.conflict a b };

    // The mode that is the join of two.
    fn join(&self, a: u8, b: u8) -> u8
        ensures { result ≡ kind.join a b };

    // it keeps the laws that every kind owes
    ghost lawful: { Laws kind };
}
