ghost use Rattle.std.specs.Prelude.{◌≡◌, ◌*◌, ◌<◌, take};
ghost use Rattle.std.specs.List.{flat_map};
ghost use Rattle.pages.specs.Chains.{size};
ghost use Rattle.pages.specs.Blocks.{blocks};

use super::page::PAGE;
use super::stock::Stock;
use tables::LONGEST_TEXT;

impl Stock {
    // The blocks of entry `e`, one after another, at the front of an array: in an `ArrayVec` they took 1.7 times the
    // instructions.
    pub(crate) fn read(&self, e: usize) -> [u8; LONGEST_TEXT]
        requires { e < self.now.count }
        ensures { take (16 * size self.now.chains e) result ≡ flat_map (λ x. x) (blocks self.now e) }
    {
        let chain = &self.chains[e];
        let mut text = [0; LONGEST_TEXT];
        let mut p = chain.first;
        for i in 0..chain.pages {
            let page = &self.pages[p];
            text[PAGE * i..PAGE * i + PAGE].copy_from_slice(&page.bytes);
            p = page.next;
        }
        text
    }
}
