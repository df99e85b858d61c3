// Reads an SSD image on standard input and prints its listing. A byte more than 64 KiB is read, so that a longer input
// is seen to be longer.
#![tactic(auto)]

use list_image::image;
use std::io;

fn main(rt: HostRuntime) -> io::Result<()> {
    let mut bytes = [0u8; 65537];
    let n = input::read_full(&mut rt.stdin(), &mut bytes)?;
    let text = image::list(&bytes[..n]);
    rt.write_all(text.text())
}
