ghost use Rattle.std.specs.Prelude.{◌≡◌, Some, decimal};
ghost use Rattle.tables.specs.Refusals.{number_of};

use std::fmt;

// Why a call is refused. Each case has its number; where two fit a call, the lower one is given.
#[derive(Clone, Copy, PartialEq, Eq, Debug)]
pub enum Refusal {
    // no live session has this number
    NoSession = 1,
    // the entry number is not below the table's count
    NoEntry = 2,
    // the kind has no such mode
    NoMode = 3,
    // the session holds eight other entries
    HoldsFull = 4,
    // another session holds the entry in a mode that conflicts with the wanted one
    Conflict = 5,
    // an After session claims an uncopied entry
    Paused = 6,
    // a Before session claims a copied entry, and is ended
    Ended = 7,
    // the session does not hold the entry in a mode that reads
    NotReading = 8,
    // the buffer is shorter than the text
    ShortBuffer = 9,
    // the session does not hold the entry in a mode that writes
    NotWriting = 10,
    // the text is longer than 96 bytes
    LongText = 11,
    // sixteen sessions are live
    SessionsFull = 12,
    // the next session number is above 4,000,000,000
    NumbersSpent = 13,
    // a round is open
    RoundOpen = 14,
    // the two counts differ
    CountsDiffer = 15,
    // no round is open
    NoRound = 16,
    // the entry is copied already
    Copied = 17,
    // a session holds the entry
    Held = 18,
    // an entry is uncopied
    Uncopied = 19,
    // the file is shorter than 4 bytes
    FileShort = 20,
    // the version is not 1
    Version = 21,
    // the count is above 128
    CountHigh = 22,
    // the file ends before its rows do
    RowsShort = 23,
    // an edition is above its hand, or a hand above 4,000,000,000
    BadStamp = 24,
    // a row's length is above 96
    RowLong = 25,
    // a row's place is not the end of the body before it (of the rows, for row 0)
    BadPlace = 26,
    // the file ends before or after the end of its last body (of its head, if it has no row)
    BadEnd = 27,
    // the writer's buffer is shorter than 4 + 110 × n
    WriterShort = 28,
    // a row or body is offered when all n stand
    AllStand = 29,
    // the page is turned or the file finished while one is missing
    Missing = 30,
    // a body's length is not its row's
    BodyLength = 31,
}

impl Refusal {
    // The number by which the refusal is known. A method and no `From<Refusal> for u8`: a call then says what it asks.
    pub fn number(&self) -> u8
        ensures { result ≡ number_of self.now }
    {
        // `as`, which is how the number of an enum is read
        *self as u8
    }
}

// A refusal is shown as its number.
impl fmt::Display for Refusal {
    // the digits of its number
    ghost output = { λ f. Some (decimal (number_of f)) };

    fn fmt<W: fmt::Write>(&self, f: &mut fmt::Formatter<W>) -> fmt::Result {
        write!(f, "{}", self.number())
    }
}
