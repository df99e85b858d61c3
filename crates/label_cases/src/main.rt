// Builds label pages, legal and not, and prints what each decodes to.
#![tactic(auto)]

ghost use Rattle.std.specs.Prelude.{◌≤◌, length};

use layout::{Label, places};
use std::io;

// What was read, after the case's name.
fn print(rt: &impl Print, name: &[u8], read: Option<Label>) -> io::Result<()> {
    rt.write_all(name)?;
    match read {
        None => println!(rt; ": refused"),
        Some(l) => println!(rt; ": slots {} blocks {}", l.slots, l.blocks),
    }
}

// A text in a zero page, with its last byte set.
fn case_with(rt: &impl Print, name: &[u8], text: &[u8], last: u8) -> io::Result<()>
    requires { length text.now ≤ 4095 }
{
    let mut page = [0u8; 4096];
    page[4095] = last;
    let end = text.len();
    page[..end].copy_from_slice(text);
    print(rt, name, label_page::decode_label(&page))
}

fn case(rt: &impl Print, name: &[u8], text: &[u8]) -> io::Result<()>
    requires { length text.now ≤ 4095 }
{
    case_with(rt, name, text, 0)
}

// The page of a label.
fn written(rt: &impl Print) -> io::Result<()> {
    let page = label_page::encode_label(places::label(57600, 16777216));
    print(rt, b"written", label_page::decode_label(&page))
}

// The fixed line, and the least number of slots.
fn fixed_cases(rt: &impl Print) -> io::Result<()> {
    case(
        rt,
        b"slots=4 blocks=8",
        b"cache=lufuw\nlayout=1\nslots=4\nblocks=8\n",
    )?;
    case(
        rt,
        b"layout=01",
        b"cache=lufuw\nlayout=01\nslots=4\nblocks=8\n",
    )?;
    case(
        rt,
        b"layout=2",
        b"cache=lufuw\nlayout=2\nslots=4\nblocks=8\n",
    )?;
    case(
        rt,
        b"slots=0",
        b"cache=lufuw\nlayout=1\nslots=0\nblocks=8\n",
    )
}

// The numbers, at and past their limits.
fn slots_cases(rt: &impl Print) -> io::Result<()> {
    case(
        rt,
        b"slots=04",
        b"cache=lufuw\nlayout=1\nslots=04\nblocks=8\n",
    )?;
    case(
        rt,
        b"slots=57600",
        b"cache=lufuw\nlayout=1\nslots=57600\nblocks=8\n",
    )?;
    case(
        rt,
        b"slots=57601",
        b"cache=lufuw\nlayout=1\nslots=57601\nblocks=8\n",
    )
}

fn blocks_cases(rt: &impl Print) -> io::Result<()> {
    case(
        rt,
        b"blocks=0",
        b"cache=lufuw\nlayout=1\nslots=4\nblocks=0\n",
    )?;
    case(
        rt,
        b"blocks=16777216",
        b"cache=lufuw\nlayout=1\nslots=4\nblocks=16777216\n",
    )?;
    case(
        rt,
        b"blocks=16777217",
        b"cache=lufuw\nlayout=1\nslots=4\nblocks=16777217\n",
    )
}

// No number of a label.
fn number_cases(rt: &impl Print) -> io::Result<()> {
    case(
        rt,
        b"30 digits",
        b"cache=lufuw\nlayout=1\nslots=100000000000000000000000000004\nblocks=8\n",
    )?;
    case(
        rt,
        b"slots=+4",
        b"cache=lufuw\nlayout=1\nslots=+4\nblocks=8\n",
    )
}

// The lines' ends.
fn line_cases(rt: &impl Print) -> io::Result<()> {
    case(
        rt,
        b"no byte 10 after slots",
        b"cache=lufuw\nlayout=1\nslots=4blocks=8\n",
    )?;
    case(
        rt,
        b"no byte 10 at the end",
        b"cache=lufuw\nlayout=1\nslots=4\nblocks=8",
    )?;
    case(
        rt,
        b"byte 10 twice",
        b"cache=lufuw\nlayout=1\n\nslots=4\nblocks=8\n",
    )?;
    case(
        rt,
        b"byte 10 twice at the end",
        b"cache=lufuw\nlayout=1\nslots=4\nblocks=8\n\n",
    )
}

// Other bytes, and what stands after the lines.
fn page_cases(rt: &impl Print) -> io::Result<()> {
    case(
        rt,
        b"byte 13 before byte 10",
        b"cache=lufuw\nlayout=1\nslots=4\r\nblocks=8\n",
    )?;
    case(
        rt,
        b"blocks before slots",
        b"cache=lufuw\nlayout=1\nblocks=8\nslots=4\n",
    )?;
    case_with(
        rt,
        b"byte 4095 set",
        b"cache=lufuw\nlayout=1\nslots=4\nblocks=8\n",
        1,
    )?;
    case(rt, b"zero page", b"")
}

fn main(rt: HostRuntime) -> io::Result<()> {
    fixed_cases(&rt)?;
    slots_cases(&rt)?;
    blocks_cases(&rt)?;
    number_cases(&rt)?;
    line_cases(&rt)?;
    page_cases(&rt)?;
    written(&rt)
}
