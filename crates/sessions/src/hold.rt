ghost use Rattle.sessions.specs.Sessions.{hold_entry};

use keyed::Numbered;
use tables::Text;

// An entry that a session holds, the mode that it holds it in, and the text that it wrote to it, if it did.
#[derive(Clone, Copy)]
pub struct Hold {
    pub entry: usize,
    pub mode: u8,
    pub written: Option<Text>,
}

// The number of a hold is that of its entry.
impl Numbered for Hold {
    ghost number = { hold_entry };

    fn number(&self) -> usize {
        self.entry
    }
}
