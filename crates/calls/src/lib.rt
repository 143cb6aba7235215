// The office's calls and answers as values.
//
// Job: the call that a line or a program makes, and the answer that it gets, each as one value.
// May use: tables, rules.
// Main promise: specs/ says of every call which call of the rules it asks for, and of every answer, also of a
// refusal, which answer of the rules it gives.

#![tactic(auto)]

// A call, with its numbers in the order session, entry, mode.
#[derive(Clone, Copy)]
pub enum Call<'a> {
    // begins a session
    Begin,
    // the session claims the entry in the mode
    Claim {
        session: usize,
        entry: usize,
        mode: usize,
    },
    // the session reads the entry into the caller's buffer
    Read {
        session: usize,
        entry: usize,
    },
    // the session writes the text to the entry
    Write {
        session: usize,
        entry: usize,
        text: &'a [u8],
    },
    // the session ends, and what it wrote stands
    Commit {
        session: usize,
    },
    // the session ends, and what it wrote is given up
    Leave {
        session: usize,
    },
    // opens a round
    Open,
    // copies the entry
    Copy {
        entry: usize,
    },
    // copies at most so many entries
    Work {
        limit: usize,
    },
    // drops the round
    Drop,
}

// What comes of a call that is not refused: the answer to a call is a `Result` of it and a refusal.
#[derive(Clone, Copy)]
pub enum Answer {
    // the call is done
    Done,
    // the number of the session that is begun
    Number(usize),
    // the length of the text that is read, which stands at the front of the caller's buffer
    Found(usize),
    // the copies that were made, and the entries that are left uncopied
    Counts(usize, usize),
}
