ghost use Rattle.std.specs.Prelude.{◌≡◌, ℕ, ◌<◌, ◌≤◌, [], length};
ghost use Rattle.pages.specs.Chains.{page, fresh};
ghost use Rattle.pages.specs.Blocks.{blocks};

use super::page::{Chain, MOST_CHAINS, MOST_PAGES, PAGE, PAGES_EACH, Page};
use super::stock::Stock;
use std::array;

impl Stock {
    // The stock for `n` entries, with all its pages free and of zeros, each linked to the one after it.
    pub(crate) fn new(n: usize) -> Stock
        requires { n ≤ 128 }
        ensures counted { result.count ≡ n }
        ensures empty { (e : ℕ) → e < n → blocks result e ≡ [] }
        ensures zeros { (length result.pages ≡ 768) × ((p : ℕ) → p < 768 → page result.pages p ≡ fresh p) }
    {
        let mut chains = [Chain { first: 0, pages: 0 }; MOST_CHAINS];
        chains[n] = Chain {
            first: 0,
            pages: PAGES_EACH * n,
        };
        Stock {
            pages: array::from_fn(|p| Page {
                bytes: [0; PAGE],
                next: p + 1,
            }),
            chains,
            count: n,
        }
    }
}
