// Reads lines, each a date or a day number, and prints for each its date and day number, or the number of its refusal.
#![tactic(auto)]

mod lookup;

use std::io;
use std::io::{BufRead, BufReader, Write};

fn main(rt: HostRuntime) -> io::Result<()> {
    let heap = rt.alloc();
    let mut out = Vec::new(heap);
    for line in BufReader::new(heap, rt.stdin())?.split(heap, b'\n') {
        let line = line?;
        lookup::report(heap, line.as_slice(), &mut out)?;
    }
    rt.stdout().write_all(out.as_slice())
}
