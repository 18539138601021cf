// The plain store: pages in the caller's memory, one after another.
ghost use Rattle.std.specs.Prelude.{◌≡◌, ◌/◌, ◌<◌, ⊤, true, length, MatchResult};
ghost use Rattle.store.specs.declared.StoreRefusal.TheVariants.{StoreLength};
ghost use Rattle.store.specs.Memory.{Whole, whole, may_hold, page_of, plain};

use crate::{MOST_PAGES, PAGE_BYTES, PageStore, StoreRefusal, Tallies, may_use};

// Whether a plain store opens over a memory of `length` bytes.
pub fn may_hold(length: usize) -> Result<(), StoreRefusal>
    ensures { result ≡ may_hold length }
{
    let pages = length / PAGE_BYTES;
    if PAGE_BYTES * pages != length {
        return Err(StoreRefusal::StoreLength);
    }
    if pages == 0 || pages > MOST_PAGES {
        return Err(StoreRefusal::StoreLength);
    }
    Ok(())
}

// A store over the caller's memory: page p is the 64 bytes from place 64 × p.
#[derive(Drop)]
pub struct PlainStore<'a> {
    memory: &'a mut [u8],
    tallies: Tallies,
    pub ghost whole: { whole (length memory.now) ≡ true },
}

impl<'a> PlainStore<'a> {
    // Opens a store over `memory`, which it leaves as it is; refused where `may_hold` refuses the length.
    pub fn open(memory: &'a mut [u8]) -> Result<PlainStore<'a>, StoreRefusal>
        ensures { MatchResult result (λ s. (s.memory.now ≡ memory.old) × (s.tallies ≡ record { fetches = 0; saves = 0 })) (λ e. (e ≡ StoreLength) × (Whole (length memory.old) → ⊥)) }
    {
        may_hold(memory.len())?;
        Ok(PlainStore {
            memory,
            tallies: Tallies::default(),
        })
    }

    // Gives the memory back, as the saves have left it.
    pub fn into_memory(self) -> &'a mut [u8]
        ensures { result.now ≡ self.entry.memory.now }
    {
        let PlainStore { memory, tallies: _ } = self;
        memory
    }

    // The transfer of a fetch.
    fn copy_page(&self, page: usize, buffer: &mut [u8])
        requires { (page < length self.now.memory.now / 64) × (length buffer.old ≡ 64) }
        ensures { buffer.new ≡ page_of self.now.memory.now page }
    {
        buffer.copy_from_slice(&self.memory[PAGE_BYTES * page..PAGE_BYTES * page + PAGE_BYTES]);
    }
}

impl PageStore for PlainStore<'_> {
    ghost meaning = { λ s. plain s.memory.now s.tallies };

    // What its opening checked stands in its type, so every value of it is opened.
    ghost opened = { λ _. ⊤ };

    fn pages(&self) -> usize {
        self.memory.len() / PAGE_BYTES
    }

    fn tallies(&self) -> Tallies {
        self.tallies
    }

    fn fetch(&mut self, page: usize, buffer: &mut [u8]) -> Result<(), StoreRefusal> {
        may_use(self.pages(), page, buffer.len())?;
        self.copy_page(page, buffer);
        self.tallies.note_fetch();
        Ok(())
    }

    fn save(&mut self, page: usize, buffer: &[u8]) -> Result<(), StoreRefusal> {
        may_use(self.pages(), page, buffer.len())?;
        let from = PAGE_BYTES * page;
        self.memory[from..from + PAGE_BYTES].copy_from_slice(buffer);
        self.tallies.note_save();
        Ok(())
    }
}
