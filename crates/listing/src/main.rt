// Reads a recording from standard input and prints its listing, or the fault that makes it unfit.
#![tactic(auto)]

use recordings::ENOUGH;
use std::io::{Read, Write};

fn main(rt: HostRuntime) -> anyhow::Result<()> {
    let heap = rt.alloc();
    let mut recording = Vec::new(heap);
    rt.stdin().take(ENOUGH).read_to_end(&mut recording)?;
    let text = listings::listing(heap, &recording)?;
    rt.stdout().write_all(text.as_bytes())?;
    Ok(())
}
