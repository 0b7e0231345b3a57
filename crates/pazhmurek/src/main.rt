// Reads a run file from standard input and prints its listing, so far the first line of it.
#![tactic(auto)]

use run::print_listing;
use std::io;
use std::io::{Read, Write};

fn main(rt: HostRuntime) -> io::Result<()> {
    // One byte more than a run file may have, so that a longer file shows.
    let mut file = Vec::new(rt.alloc());
    rt.stdin().take(65537).read_to_end(&mut file)?;
    let mut out = rt.stdout();
    print_listing(&file, &mut out)?;
    out.flush()
}
