// The input of a load (document 02, N10): its seed and its number of draws, each on a line.
#![tactic(auto)]

ghost use Rattle.std.specs.Prelude.{◌≡◌};
ghost use Rattle.text.specs.Numbers.{number_read};
ghost use Rattle.load_input.specs.LoadInput.{line, input_of};

// Seed and number of draws.
#[derive(Clone, Copy)]
pub struct Input {
    pub seed: u32,
    pub draws: u32,
}

// The number of the line that the bytes begin with, and the bytes after that line.
fn read_line(bytes: &[u8]) -> Option<(u32, &[u8])>
    ensures { number_read result ≡ line bytes.now }
{
    let (first, rest) = bytes.split_first()?;
    match *first {
        b'0' => text::read_digits(rest, 0, 0),
        b'1'..=b'9' => text::read_digits(rest, u32::from(*first - b'0'), 9),
        _ => None,
    }
}

// The input that bytes are, if they are one.
pub fn read_input(bytes: &[u8]) -> Option<Input>
    ensures { result ≡ input_of bytes.now }
{
    let (seed, rest) = read_line(bytes)?;
    let (draws, rest) = read_line(rest)?;
    (seed != 0 && rest.is_empty()).then_some(Input { seed, draws })
}
