// Reads a recording from standard input and writes its header and its calls as a recording to
// standard output, or prints the fault that makes it unfit. Standard error says how they compare.
#![tactic(auto)]

use recordings::{ENOUGH, Told};
use std::io::{Read, Write};

// Writes a recording with so many calls anew, and says how the bytes compare.
fn rewrite(rt: &HostRuntime, recording: &[u8], count: usize) -> anyhow::Result<()> {
    match writing::written_again(rt.alloc(), recording)? {
        Ok(written) => {
            rt.stdout().write_all(&written)?;
            let same = if written.as_slice() == recording {
                "the same"
            } else {
                "other"
            };
            let read = recording.len();
            let length = written.len();
            eprintln!(rt; "{read} bytes read, {length} written, {count} calls: {same} bytes")?;
        }
        Err(fault) => println!(rt; "{}", Told::from(fault))?,
    }
    Ok(())
}

fn main(rt: HostRuntime) -> anyhow::Result<()> {
    let mut recording = Vec::new(rt.alloc());
    rt.stdin().take(ENOUGH).read_to_end(&mut recording)?;
    match recordings::check(&recording) {
        Ok(summary) => rewrite(&rt, &recording, summary.calls)?,
        Err(fault) => println!(rt; "{}", Told::from(fault))?,
    }
    Ok(())
}

#[cfg(test)]
mod tests {
    use std::test::Fail;

    #[test]
    fn a_recording_is_written_again(rt: HostRuntime) -> Result<(), Fail> {
        let recording = b"H    8  2O         0\nW    3\nR    3\nS\n";
        let answer = writing::written_again(rt.alloc(), recording)?;
        match answer {
            Ok(text) => assert_eq!(rt; text.as_slice(), recording.as_slice()),
            Err(_) => panic!(rt; "the recording was refused"),
        }
        Ok(())
    }
}
