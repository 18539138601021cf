// A copy of one store into another, written against the trait alone.
ghost use Rattle.std.specs.Prelude.{◌≡◌, ◌<◌, [], length, Ok, slice_index_or};
ghost use Rattle.store.specs.Copies.{Copied};
ghost use Rattle.store.specs.Meaning.{fetched, saved};

use crate::{PAGE_BYTES, PageStore, StoreRefusal};

// Copies one page, which both stores have.
fn carry<F: PageStore, T: PageStore>(
    from: &mut F,
    to: &mut T,
    page: usize,
) -> Result<(), StoreRefusal>
    requires from { F.PageStore.opened from.old }
    requires to { T.PageStore.opened to.old }
    requires there { page < length (F.PageStore.meaning from.old).bytes }
    requires here { page < length (T.PageStore.meaning to.old).bytes }
    ensures from { F.PageStore.opened from.new }
    ensures to { T.PageStore.opened to.new }
    ensures answer { result ≡ Ok tt }
    ensures read { F.PageStore.meaning from.new ≡ fetched (F.PageStore.meaning from.old) }
    ensures written { T.PageStore.meaning to.new ≡ saved (T.PageStore.meaning to.old) page (slice_index_or (F.PageStore.meaning from.old).bytes page []) }
{
    let mut buffer = [0; PAGE_BYTES];
    from.fetch(page, &mut buffer)?;
    to.save(page, &buffer)
}

// Copies every page of one store into another with as many pages; where the counts differ, one has a page
// that the other lacks, and nothing is fetched or saved.
pub fn copy_store<F: PageStore, T: PageStore>(from: &mut F, to: &mut T) -> Result<(), StoreRefusal>
    requires from { F.PageStore.opened from.old }
    requires to { T.PageStore.opened to.old }
    ensures from { F.PageStore.opened from.new }
    ensures to { T.PageStore.opened to.new }
    ensures effect { Copied (F.PageStore.meaning from.old) (T.PageStore.meaning to.old) result (F.PageStore.meaning from.new) (T.PageStore.meaning to.new) }
{
    let pages = from.pages();
    if pages != to.pages() {
        return Err(StoreRefusal::NoSuchPage);
    }
    for page in 0..pages {
        carry(from, to, page)?;
    }
    Ok(())
}
