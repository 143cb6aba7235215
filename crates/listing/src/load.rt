ghost use Rattle.std.specs.Prelude.{◌≡◌, length, Some, Ok};
ghost use Rattle.words.specs.Lines.{lines};
ghost use Rattle.listing.specs.Listing.{listed};
ghost use Rattle.listing.specs.Loaded.{Loaded};
ghost use Rattle.listing.specs.Shown.{load_fault_shown};
ghost use Rattle.listing.specs.declared.load.LoadFault.TheVariants.{Memory, Refused};

use super::entries::Items;
use super::survey::{BadLine, Survey, survey_listing};
use pages::PageStore;
use std::alloc::{AllocError, Global};
use std::fmt;
use tables::{Refusal, Store};

// Puts the entries of a listing into a store that has as many.
fn fill<S: Store>(listing: &[u8], to: &mut S) -> Result<(), Refusal>
    requires { length (S.Readable.table to.old) ≡ length (listed (lines listing.now)) }
    ensures done { result ≡ Ok tt }
    ensures after { S.Readable.table to.new ≡ listed (lines listing.now) }
{
    for (e, item) in Items::new(listing).enumerate() {
        to.put(e, item.text, item.stamp)?;
    }
    Ok(())
}

// A listing that was loaded: the store of its entries, and the lines that were passed over.
#[derive(Drop)]
pub struct Catalogue {
    pub store: PageStore,
    pub bad: Vec<BadLine>,
}

// Why a listing is not loaded.
#[derive(Clone, Copy)]
pub enum LoadFault {
    // there is no memory for its bad lines
    Memory,
    // it has more entries than a store (22)
    Refused(Refusal),
}

// Want of memory ends a load.
impl From<AllocError> for LoadFault {
    ghost from_gives = { λ _ y. y ≡ Memory };

    fn from(_: AllocError) -> LoadFault {
        LoadFault::Memory
    }
}

// A store's refusal ends a load.
impl From<Refusal> for LoadFault {
    ghost from_gives = { λ x y. y ≡ Refused x };

    fn from(refusal: Refusal) -> LoadFault {
        LoadFault::Refused(refusal)
    }
}

// A fault is shown as what stands in the way.
impl fmt::Display for LoadFault {
    ghost output = { λ f. Some (load_fault_shown f) };

    fn fmt<W: fmt::Write>(&self, f: &mut fmt::Formatter<W>) -> fmt::Result {
        match self {
            LoadFault::Memory => write!(f, "no memory"),
            LoadFault::Refused(refusal) => write!(f, "refusal {refusal}"),
        }
    }
}

// Keeps the entries of a listing in a new page store.
pub fn load_listing(heap: Global, listing: &[u8]) -> Result<Catalogue, LoadFault>
    ensures { Loaded (lines listing.now) result }
{
    let Survey { entries, bad } = survey_listing(heap, listing)?;
    let mut store = PageStore::new(entries)?;
    fill(listing, &mut store)?;
    Ok(Catalogue { store, bad })
}
