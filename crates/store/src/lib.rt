// Page stores: memory in pages of 64 bytes, with one meaning for every make of store.
#![tactic(auto)]

ghost use Rattle.std.specs.Prelude.{◌≡◌, length};
ghost use Rattle.store.specs.Meaning.{Meaning};
ghost use Rattle.store.specs.Refusals.{refusal_number};
ghost use Rattle.store.specs.Sized.{Sized};
ghost use Rattle.store.specs.Uses.{may_use, Fetched, Saved};

pub mod copying;
pub mod plain;
pub mod spliced;
pub mod tallies;

pub use copying::copy_store;
pub use plain::{PlainStore, may_hold};
pub use spliced::SplicedStore;
pub use tallies::Tallies;

// The bytes of a page.
pub const PAGE_BYTES: usize = 64;

// The most pages that a store may have.
pub const MOST_PAGES: usize = 512;

// Why a store refuses, with the number by which each refusal is known. A refused call has altered nothing.
#[derive(Clone, Copy, PartialEq, Eq, Debug)]
pub enum StoreRefusal {
    // The length is not that of 1 to 512 whole pages.
    StoreLength = 1,
    // The page is not below the number of pages.
    NoSuchPage = 2,
    // The buffer is not 64 bytes.
    BufferLength = 3,
    // The page counts of a splice sum above 512.
    TooManyPages = 7,
}

impl From<StoreRefusal> for u32 {
    ghost from_gives = { λ e n. n ≡ refusal_number e };

    fn from(refusal: StoreRefusal) -> u32 {
        refusal as u32
    }
}

// Whether a store of `pages` pages accepts a fetch or a save of `page` with a buffer of `length` bytes.
pub fn may_use(pages: usize, page: usize, length: usize) -> Result<(), StoreRefusal>
    ensures { result ≡ may_use pages page length }
{
    if length != PAGE_BYTES {
        return Err(StoreRefusal::BufferLength);
    }
    if page >= pages {
        return Err(StoreRefusal::NoSuchPage);
    }
    Ok(())
}

// A store of pages.
//
// An implementation says by `meaning` which pages and tallies its value stands for, and by `opened` what is true of
// it from its opening on. Each call is then held to that meaning alone.
pub trait PageStore {
    ghost meaning: { Self → Meaning };

    ghost opened: { Self → Type 0 };

    // How many pages there are: from 1 to 512, of 64 bytes each.
    fn pages(&self) -> usize
        requires { opened self.now }
        ensures count { result ≡ length (meaning self.now).bytes }
        ensures sized { Sized (meaning self.now).bytes };

    // How many fetches and how many saves were accepted.
    fn tallies(&self) -> Tallies
        ensures { result ≡ (meaning self.now).tallies };

    // How many fetches were accepted, modulo 4,294,967,296.
    fn fetches(&self) -> u32
        ensures { result ≡ (meaning self.now).tallies.fetches }
    {
        self.tallies().fetches
    }

    // How many saves were accepted, modulo 4,294,967,296.
    fn saves(&self) -> u32
        ensures { result ≡ (meaning self.now).tallies.saves }
    {
        self.tallies().saves
    }

    // Copies the bytes of a page into the buffer. A page and a buffer are what the product asks a call to have.
    fn fetch(&mut self, page: usize, buffer: &mut [u8]) -> Result<(), StoreRefusal>
        requires { opened self.old }
        ensures opened { opened self.new }
        ensures effect { Fetched (meaning self.old) page buffer.old result (meaning self.new) buffer.new };

    // Replaces the bytes of a page by the buffer's.
    fn save(&mut self, page: usize, buffer: &[u8]) -> Result<(), StoreRefusal>
        requires { opened self.old }
        ensures opened { opened self.new }
        ensures effect { Saved (meaning self.old) page buffer.now result (meaning self.new) };
}
