// How long a listing takes: tested, since no contract speaks of time.
use listing::list::listing;
use std::alloc::Global;
use std::process::Abort;
use std::test::*;
use std::time::{Clock, Instant};

const TRAILER: [u8; 8] = [0, 0, 0, 0, 0, 0, 0, 0xA7];

// Microseconds for `times` listings, with this last line, of a file of `frames` idle frames with no fill: the shortest
// that there are.
fn spent(
    rt: &(impl Abort + Clock),
    heap: Global,
    frames: usize,
    times: usize,
    last: &str,
) -> Result<u128, Fail> {
    let file = TRAILER.repeat(heap, frames)?;
    let start = Instant::now(rt)?;
    for _ in 0..times {
        let text = listing(heap, file.as_slice())?;
        assert!(rt; text.as_str().ends_with(last), "{}", last);
    }
    Ok(start.elapsed(rt)?.as_micros())
}

#[test]
fn longest_file(rt: HostRuntime) -> Result<(), Fail> {
    assert!(rt; spent(&rt, rt.alloc(), 8192, 1, "\nend 8192\n")? < 500_000);
    Ok(())
}

// Sixteen files of 4096 bytes against one of 65536: with a cost that grew with the square, one would take sixteen
// times as long.
#[test]
fn grows_in_step(rt: HostRuntime) -> Result<(), Fail> {
    let short = spent(&rt, rt.alloc(), 512, 160, "\nend 512\n")?;
    let long = spent(&rt, rt.alloc(), 8192, 10, "\nend 8192\n")?;
    assert!(rt;
        long < short.saturating_mul(8),
        "a long file costs more than its share"
    );
    Ok(())
}
