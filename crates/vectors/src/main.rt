// Runs recordings whose listings an independent simulator gave: counts how many listings and faults agree,
// and how many of the accepted recordings are the same bytes when they are read and written again.
//
// Each folder of data/ holds NAME.rec, a recording, and NAME.txt, what the listing program must print for it.
#![tactic(auto)]

use std::alloc::{AllocError, Global};
use std::{fmt, fs, io};

// How many answers agree, and how many differ.
#[derive(Clone, Copy, Default)]
struct Tally {
    agree: u64,
    differ: u64,
}

impl Tally {
    // One answer more.
    fn note(&mut self, agrees: bool) {
        if agrees {
            self.agree = self.agree.saturating_add(1);
        } else {
            self.differ = self.differ.saturating_add(1);
        }
    }
}

impl fmt::Display for Tally {
    fn fmt<W: fmt::Write>(&self, f: &mut fmt::Formatter<W>) -> fmt::Result {
        write!(f, "{} agree, {} differ", self.agree, self.differ)
    }
}

// What was found in one folder.
#[derive(Clone, Copy, Default)]
struct Findings {
    listings: Tally,
    rewritten: Tally,
}

// The file that holds the answer to a recording; none for a file that is no recording.
fn answer_path(heap: Global, path: &str) -> Result<Option<String>, AllocError> {
    let Some(name) = path.strip_suffix(".rec") else {
        return Ok(None);
    };
    let answer = format!(in heap; "{name}.txt")?;
    Ok(Some(answer))
}

// One recording, against its answer.
fn run_one(
    rt: &HostRuntime,
    recording: &str,
    answer: &str,
    found: &mut Findings,
) -> io::Result<()> {
    let bytes = fs::read(rt, recording)?;
    let expected = fs::read(rt, answer)?;
    if let Ok(written) = writing::written_again(rt.alloc(), &bytes)? {
        found.rewritten.note(written.as_slice() == bytes.as_slice());
    }
    let listing = listings::listing(rt.alloc(), &bytes)?;
    found
        .listings
        .note(listing.as_bytes() == expected.as_slice());
    Ok(())
}

// Every recording of one folder.
fn run_folder(rt: &HostRuntime, folder: &str) -> io::Result<Findings> {
    let mut found = Findings::default();
    for entry in fs::read_dir(rt, folder)? {
        let entry = entry?;
        let path = entry.path();
        let Some(answer) = answer_path(rt.alloc(), path.as_str())? else {
            continue;
        };
        run_one(rt, path.as_str(), answer.as_str(), &mut found)?;
    }
    Ok(found)
}

fn main(rt: HostRuntime) -> anyhow::Result<()> {
    for folder in ["valid", "large", "damaged"] {
        let found = run_folder(&rt, folder)?;
        println!(rt; "{folder}: {}", found.listings)?;
        println!(rt; "{folder}, written again: {}", found.rewritten)?;
    }
    Ok(())
}
