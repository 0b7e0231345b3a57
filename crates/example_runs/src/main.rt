// Prints the listings of packed run files, one after the other: each file's length in four bytes,
// highest first, and then the file.
#![tactic(auto)]

use run::print_listing;
use std::io;
use std::io::{Read, Write};

fn main(rt: HostRuntime) -> io::Result<()> {
    let mut packed = Vec::new(rt.alloc());
    rt.stdin().take(1048576).read_to_end(&mut packed)?;
    let mut out = rt.stdout();
    let mut rest: &[u8] = &packed;
    while let Some((length, after)) = rest.split_first_chunk::<4>() {
        let n = (u32::from_be_bytes(*length) as usize).min(after.len());
        let (file, next) = after.split_at(n);
        print_listing(file, &mut out)?;
        rest = next;
    }
    out.flush()
}
