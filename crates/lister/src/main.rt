// Lists the pass file on standard input.
#![tactic(auto)]

use anyhow::anyhow;
use listing::list::{INPUT_MAX, listing};
use std::env;
use std::io::Read;
use std::process::ExitCode;

const HELP: &str = "lister: lists the frames of a pass file, from the file's end

usage: lister < FILE

It prints a line for each frame: its number, kind, place and length in bytes.
Kinds: 0 idle, 1 AES-128, 2 PRESENT-80, 3 bench.
The last line is 'end' and the count of frames, or 'fault', its number and the
bytes that are left. At most 65536 bytes are listed.";

// One byte past the longest input tells that it is too long, however long it is.
const READ_MAX: u64 = INPUT_MAX as u64 + 1;

fn list(rt: &HostRuntime) -> anyhow::Result<()> {
    let mut input = Vec::new(rt.alloc());
    rt.stdin().take(READ_MAX).read_to_end(&mut input)?;
    let text = listing(rt.alloc(), input.as_slice())?;
    print!(rt; "{text}")?;
    Ok(())
}

fn run(rt: &HostRuntime) -> anyhow::Result<()> {
    let mut args = env::args(rt)?.skip(1);
    let Some(arg) = args.next() else {
        return list(rt);
    };
    if arg.as_str() == "--help" || arg.as_str() == "-h" {
        rt.println(HELP)?;
        return Ok(());
    }
    Err(anyhow!("unexpected argument; usage: lister < FILE (lister --help says more)"))
}

fn main(rt: HostRuntime) -> ExitCode {
    match run(&rt) {
        Ok(()) => ExitCode::SUCCESS,
        Err(error) => {
            // Where standard error cannot be written, the status alone tells.
            let _ = eprintln!(rt; "lister: {error}");
            ExitCode::FAILURE
        }
    }
}
