// Reads a load's seed and number of draws on standard input and prints what the load comes to. No legal input has more than 22
// bytes: of a longer one enough is read to see that it is longer.
#![tactic(auto)]

use std::io;

fn main(rt: HostRuntime) -> io::Result<()> {
    let mut bytes = [0u8; 64];
    let n = input::read_full(&mut rt.stdin(), &mut bytes)?;
    let text = workload::load(&bytes[..n]);
    rt.write_all(text.text())
}
