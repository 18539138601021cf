// What the program tells of a call, a store and a memory. The handle that prints goes with each call, as in every program here.
ghost use Rattle.std.specs.Prelude.{◌<◌, length};

use std::{fmt, io};
use store::{PageStore, StoreRefusal, Tallies};

// Why the program stopped: a store refused what it should have accepted, or nothing more could be written.
// It is no `anyhow::Error`, with which the program would print other words when it fails.
#[derive(Debug, Drop)]
pub(crate) enum Trouble {
    Refused(StoreRefusal),
    Output(io::Error),
}

impl From<StoreRefusal> for Trouble {
    fn from(refusal: StoreRefusal) -> Trouble {
        Trouble::Refused(refusal)
    }
}

impl From<io::Error> for Trouble {
    fn from(error: io::Error) -> Trouble {
        Trouble::Output(error)
    }
}

// An answer, as it is told: accepted, or refused with its number.
#[derive(Clone, Copy)]
pub(crate) struct Answer(pub(crate) Result<(), StoreRefusal>);

impl fmt::Display for Answer {
    fn fmt<W: fmt::Write>(&self, f: &mut fmt::Formatter<W>) -> fmt::Result {
        match self.0 {
            Ok(()) => f.write_str("accepted"),
            Err(refusal) => write!(f, "refused, {}", u32::from(refusal)),
        }
    }
}

// A call and its answer.
pub(crate) fn tell_answer(
    rt: &HostRuntime,
    call: &str,
    answer: Result<(), StoreRefusal>,
) -> io::Result<()> {
    let answer = Answer(answer);
    println!(rt; "  {call}: {answer}")
}

// A fetch or a save with its answer, and the buffer after it. Each buffer has a byte: first and last are told, and an
// `Option` would be one thing more to tell.
fn tell_transfer(
    rt: &HostRuntime,
    call: &str,
    page: usize,
    buffer: &[u8],
    answer: Result<(), StoreRefusal>,
) -> io::Result<()>
    requires { 0 < length buffer.now }
{
    let answer = Answer(answer);
    let length = buffer.len();
    let first = buffer[0];
    let last = buffer[length - 1];
    println!(rt; "  {call} page {page}: {answer}; the buffer is {length} bytes, {first} .. {last}")
}

// Fetches a page, and tells the answer and the buffer. It is no twin of the next: its buffer is lent to be written.
pub(crate) fn try_fetch<S: PageStore>(
    rt: &HostRuntime,
    store: &mut S,
    page: usize,
    buffer: &mut [u8],
) -> io::Result<()>
    requires opened { S.PageStore.opened store.old }
    requires some { 0 < length buffer.old }
    ensures { S.PageStore.opened store.new }
{
    let answer = store.fetch(page, buffer);
    tell_transfer(rt, "fetch", page, buffer, answer)
}

// Saves a page, and tells the answer and the buffer.
pub(crate) fn try_save<S: PageStore>(
    rt: &HostRuntime,
    store: &mut S,
    page: usize,
    buffer: &[u8],
) -> io::Result<()>
    requires opened { S.PageStore.opened store.old }
    requires some { 0 < length buffer.now }
    ensures { S.PageStore.opened store.new }
{
    let answer = store.save(page, buffer);
    tell_transfer(rt, "save", page, buffer, answer)
}

// The questions that a store answers.
pub(crate) fn tell_store<S: PageStore>(rt: &HostRuntime, name: &str, store: &S) -> io::Result<()>
    requires { S.PageStore.opened store.now }
{
    let pages = store.pages();
    let Tallies { fetches, saves } = store.tallies();
    println!(rt; "  {name}: {pages} pages, {fetches} fetches, {saves} saves")
}

// The bytes of a memory at some places.
pub(crate) fn tell_memory(
    rt: &HostRuntime,
    name: &str,
    memory: &[u8],
    places: &[usize],
) -> io::Result<()> {
    print!(rt; "  {name}")?;
    let mut mark = ':';
    for place in places {
        if let Some(byte) = memory.get(*place) {
            print!(rt; "{mark} {byte} at {place}")?;
            mark = ',';
        }
    }
    println!(rt; "")
}
