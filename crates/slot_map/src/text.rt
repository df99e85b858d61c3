// The map's text: a slot's letter, a number in columns, a line, all lines. Each byte is written where it stays, in the lent buffer.
ghost use Rattle.std.specs.Prelude.{◌≡◌, cond, ◌++◌, ◌+◌, ◌*◌, ◌%◌, ◌≤◌, ◌<◌, length, drop, eqb};
ghost use Rattle.layout.specs.Places.{table_length};
ghost use Rattle.layout.specs.LabelPage.{decimal};
ghost use Rattle.layout.specs.MetaPage.{firsts};
ghost use Rattle.protocol.specs.SlotMap.{held_letter, letter_of, letter_at, aligned, map_line, map_lines, map_bytes, map_text};

use layout::Label;

// The letter of a slot that is not free.
fn held_letter(writing: bool, dirty: bool) -> u8
    ensures { result ≡ held_letter writing dirty }
{
    match (writing, dirty) {
        (true, true) => b'w',
        (true, false) => b'f',
        (false, true) => b'd',
        (false, false) => b'c',
    }
}

// A slot's letter, by its row's flags.
#[tactic(auto, unfolding(protocol::specs::SlotMap::letter_of))]
fn letter(flags: u32) -> u8
    ensures { result ≡ letter_of flags }
{
    if flags % 2 == 1 {
        held_letter(flags / 4 % 2 == 1, flags / 2 % 2 == 1)
    } else {
        b'.'
    }
}

// The letters of 60 slots from `first` on, and spaces past the last slot.
fn put_letters(part: &mut [u8], table: &[u32], l: Label, first: u32)
    requires part_len { length part.old ≡ 60 }
    requires table_len { length table.now ≡ table_length l }
    requires first_lt_slots { first < l.slots }
    ensures { part.new ≡ firsts 60 (λ i. letter_at l table.now (first + i)) }
{
    let from = first as usize;
    let n = (l.slots as usize - from).min(60);
    for i in 0..n {
        part[i] = letter(table[2 * (from + i) + 1]);
    }
    for i in n..60 {
        part[i] = b' ';
    }
}

// A column of a number whose digits from here on are `m`: the last of them, or a space where there is none.
fn column(m: u32) -> u8
    ensures { result ≡ cond (eqb m 0) 32 (48 + m % 10) }
{
    if m == 0 { b' ' } else { b'0' + (m % 10) as u8 }
}

// A number, right-aligned in 5 columns.
fn put_number(part: &mut [u8], n: u32)
    requires part_len { length part.old ≡ 5 }
    requires n_bound { n < 100000 }
    ensures { part.new ≡ aligned 5 (decimal n) }
{
    // Kept: five lines name the five columns; a loop from the last one would treat that apart and carry the rest of the digits.
    part[0] = column(n / 10 / 10 / 10 / 10);
    part[1] = column(n / 10 / 10 / 10);
    part[2] = column(n / 10 / 10);
    part[3] = column(n / 10);
    part[4] = b'0' + (n % 10) as u8;
}

// Line k.
fn put_line(line: &mut [u8], table: &[u32], l: Label, k: u32)
    requires line_len { length line.old ≡ 67 }
    requires table_len { length table.now ≡ table_length l }
    requires slots_bound { l.slots ≤ 57600 }
    requires k_bound { 60 * k < l.slots }
    ensures { line.new ≡ map_line l table.now k }
{
    let first = 60 * k;
    put_number(&mut line[0..5], first);
    line[5] = b' ';
    put_letters(&mut line[6..66], table, l, first);
    line[66] = b'\n';
}

// The number of lines.
fn map_lines(l: Label) -> usize
    ensures { result ≡ map_lines l }
{
    (l.slots as usize + 59) / 60
}

// The length of the text.
pub fn map_bytes(l: Label) -> usize
    ensures { result ≡ map_bytes l }
{
    67 * map_lines(l)
}

// All lines, over the first bytes of the buffer.
pub fn put_map(sheet: &mut [u8], table: &[u32], l: Label)
    requires table_len { length table.now ≡ table_length l }
    requires slots_bound { l.slots ≤ 57600 }
    requires l_in_bounds { map_bytes l ≤ length sheet.old }
    ensures { sheet.new ≡ map_text l table.now ++ drop (map_bytes l) sheet.old }
{
    for k in 0..map_lines(l) {
        let at = 67 * k;
        put_line(&mut sheet[at..at + 67], table, l, k as u32);
    }
}
