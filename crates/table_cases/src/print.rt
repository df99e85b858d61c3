// Words and numbers on standard output.
use std::io;

pub fn text(rt: &impl Print, words: &[u8]) -> io::Result<()> {
    rt.write_all(words)
}

// Words and a number.
pub fn named(rt: &impl Print, words: &[u8], n: u32) -> io::Result<()> {
    text(rt, words)?;
    print!(rt; "{n}")
}
