// Opens page stores over memory that it holds, splices and copies them, and tells what every call did.
#![tactic(auto)]

ghost use Rattle.std.specs.Prelude.{IfOk};
ghost use Rattle.store.specs.Splices.{Joined};

mod telling;

use std::io;
use store::{PAGE_BYTES, PageStore, PlainStore, SplicedStore, StoreRefusal, copy_store};
use telling::{Answer, Trouble, tell_answer, tell_memory, tell_store, try_fetch, try_save};

// A page whose bytes are all `fill`, but for the last.
fn page_of(fill: u8, last: u8) -> [u8; PAGE_BYTES] {
    let mut bytes = [fill; PAGE_BYTES];
    bytes[PAGE_BYTES - 1] = last;
    bytes
}

// Splices two stores, if that is not refused.
fn join<F: PageStore + Drop, S: PageStore + Drop>(
    first: F,
    second: S,
) -> Result<SplicedStore<F, S>, StoreRefusal>
    requires first { F.PageStore.opened first }
    requires second { S.PageStore.opened second }
    ensures { IfOk result (λ s. Joined (F.PageStore.opened s.first) (S.PageStore.opened s.second) (F.PageStore.meaning s.first) (S.PageStore.meaning s.second)) }
{
    SplicedStore::check(&first, &second)?;
    Ok(SplicedStore::make(first, second))
}

// Opens a plain store and tells its pages, or the refusal.
fn opening(rt: &HostRuntime, memory: &mut [u8]) -> io::Result<()> {
    let length = memory.len();
    match PlainStore::open(memory) {
        Ok(store) => {
            let pages = store.pages();
            println!(rt; "  over {length} bytes: {pages} pages")
        }
        Err(refusal) => {
            let answer = Answer(Err(refusal));
            println!(rt; "  over {length} bytes: {answer}")
        }
    }
}

// Plain stores open over 1 to 512 whole pages.
fn openings(rt: &HostRuntime) -> Result<(), Trouble> {
    println!(rt; "opening plain stores")?;
    opening(rt, &mut [])?;
    opening(rt, &mut [0; 63])?;
    opening(rt, &mut [0; 64])?;
    opening(rt, &mut [0; 32768])?;
    opening(rt, &mut [0; 32832])?;
    Ok(())
}

// The calls on either side of a splice's seam.
fn across<S: PageStore>(rt: &HostRuntime, splice: &mut S) -> Result<(), Trouble>
    requires { S.PageStore.opened splice.old }
    ensures { S.PageStore.opened splice.new }
{
    tell_store(rt, "the splice", splice)?;
    try_save(rt, splice, 1, &page_of(11, 12))?;
    try_save(rt, splice, 2, &page_of(21, 22))?;
    let mut buffer = page_of(1, 1);
    try_fetch(rt, splice, 1, &mut buffer)?;
    try_fetch(rt, splice, 2, &mut buffer)?;
    try_fetch(rt, splice, 4, &mut buffer)?;
    tell_store(rt, "the splice", splice)?;
    Ok(())
}

// A splice of two plain stores, and what it left in their memory.
fn splicing(rt: &HostRuntime) -> Result<(), Trouble> {
    println!(rt; "splicing 2 pages and 3 pages")?;
    let mut left = [0u8; 128];
    let mut right = [0u8; 192];
    let mut splice = join(PlainStore::open(&mut left)?, PlainStore::open(&mut right)?)?;
    across(rt, &mut splice)?;
    let (first, second) = splice.split();
    tell_store(rt, "the first", &first)?;
    tell_store(rt, "the second", &second)?;
    tell_memory(rt, "the first memory", first.into_memory(), &[63, 64, 127])?;
    tell_memory(rt, "the second memory", second.into_memory(), &[0, 63, 64])?;
    Ok(())
}

// Each refusal of a fetch and a save: the buffer's length is looked at before the page.
fn refused<S: PageStore>(rt: &HostRuntime, store: &mut S) -> Result<(), Trouble>
    requires { S.PageStore.opened store.old }
    ensures { S.PageStore.opened store.new }
{
    try_fetch(rt, store, 0, &mut [9; 63])?;
    try_fetch(rt, store, 1, &mut [9; 65])?;
    try_fetch(rt, store, 1, &mut page_of(31, 32))?;
    try_save(rt, store, 0, &[9; 65])?;
    try_save(rt, store, 1, &[9; 63])?;
    try_save(rt, store, 1, &page_of(31, 32))?;
    Ok(())
}

// Refused calls leave the bytes and the tallies as they are.
fn refusals(rt: &HostRuntime) -> Result<(), Trouble> {
    println!(rt; "refused calls on 1 page")?;
    let mut memory = [7u8; 64];
    let mut store = PlainStore::open(&mut memory)?;
    tell_store(rt, "the store", &store)?;
    refused(rt, &mut store)?;
    tell_store(rt, "the store", &store)?;
    try_fetch(rt, &mut store, 0, &mut [0; 64])?;
    tell_store(rt, "the store", &store)?;
    Ok(())
}

// Saves to four pages, and fetches the last and the first.
fn four_pages<S: PageStore>(rt: &HostRuntime, store: &mut S) -> Result<(), Trouble>
    requires { S.PageStore.opened store.old }
    ensures { S.PageStore.opened store.new }
{
    try_save(rt, store, 0, &page_of(41, 40))?;
    try_save(rt, store, 1, &page_of(41, 41))?;
    try_save(rt, store, 2, &page_of(41, 42))?;
    try_save(rt, store, 3, &page_of(41, 43))?;
    try_fetch(rt, store, 3, &mut [0; 64])?;
    try_fetch(rt, store, 0, &mut [0; 64])?;
    Ok(())
}

// A splice whose first part is a splice.
fn nesting(rt: &HostRuntime) -> Result<(), Trouble> {
    println!(rt; "splicing a splice of 1 and 1 pages with 2 pages")?;
    let (mut a, mut b, mut c) = ([0u8; 64], [0u8; 64], [0u8; 128]);
    let inner = join(PlainStore::open(&mut a)?, PlainStore::open(&mut b)?)?;
    let mut whole = join(inner, PlainStore::open(&mut c)?)?;
    four_pages(rt, &mut whole)?;
    tell_store(rt, "the whole", &whole)?;
    let (inner, _) = whole.split();
    tell_store(rt, "the inner splice", &inner)?;
    Ok(())
}

// A splice has at most 512 pages.
fn crowding(rt: &HostRuntime) -> Result<(), Trouble> {
    println!(rt; "splicing too many pages")?;
    let mut page = [0u8; 64];
    let one = PlainStore::open(&mut page)?;
    let mut most = [0u8; 32768];
    let full = PlainStore::open(&mut most)?;
    tell_answer(rt, "512 and 1 pages", SplicedStore::check(&full, &one))?;
    let mut fewer = [0u8; 32704];
    let almost = PlainStore::open(&mut fewer)?;
    tell_answer(rt, "511 and 1 pages", SplicedStore::check(&almost, &one))?;
    Ok(())
}

// A copy, and the tallies of both stores.
fn copy<F: PageStore, T: PageStore>(
    rt: &HostRuntime,
    call: &str,
    from: &mut F,
    to: &mut T,
) -> Result<(), Trouble>
    requires from { F.PageStore.opened from.old }
    requires to { T.PageStore.opened to.old }
    ensures from { F.PageStore.opened from.new }
    ensures to { T.PageStore.opened to.new }
{
    tell_answer(rt, call, copy_store(from, to))?;
    tell_store(rt, "from", from)?;
    tell_store(rt, "into", to)?;
    Ok(())
}

// A copy is refused where the page counts differ.
fn copying(rt: &HostRuntime) -> Result<(), Trouble> {
    println!(rt; "copying stores")?;
    let (mut a, mut b, mut c) = ([0u8; 64], [51u8; 128], [0u8; 128]);
    b[127] = 52;
    let mut one = PlainStore::open(&mut a)?;
    let mut two = PlainStore::open(&mut b)?;
    let mut target = PlainStore::open(&mut c)?;
    copy(rt, "1 pages into 2 pages", &mut one, &mut target)?;
    copy(rt, "2 pages into 2 pages", &mut two, &mut target)?;
    tell_memory(rt, "the copy", target.into_memory(), &[0, 63, 64, 127])?;
    Ok(())
}

fn main(rt: HostRuntime) -> Result<(), Trouble> {
    openings(&rt)?;
    splicing(&rt)?;
    refusals(&rt)?;
    nesting(&rt)?;
    crowding(&rt)?;
    copying(&rt)
}
