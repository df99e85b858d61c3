// One pass over the table for a whole list of blocks.
ghost use Rattle.std.specs.Prelude.{◌≡◌, true, false, ℕ, ◌+◌, ◌*◌, ◌%◌, ◌≤◌, ◌<◌, length, get_or};
ghost use Rattle.layout.specs.Places.{table_length};
ghost use Rattle.locating.specs.Places.{places_of, noted_as, met_as};

use layout::Label;

// The residues by which listed blocks are marked: a row whose block has an unmarked one is in no list.
const MARKS: usize = 4096;

// A listed block's word after a valid row of `block`, whose word is `here`: the first row that fits counts.
fn noted(word: u32, b: u32, block: u32, here: u32) -> u32
    ensures { result ≡ noted_as word b block here }
{
    if word == 0 && b == block { here } else { word }
}

// Notes a valid row of `block` in the words of every place that lists it.
fn note(blocks: &[u32], words: &mut [u32], block: u32, here: u32)
    requires { length words.old ≡ length blocks.now }
    ensures { (j : ℕ) → j < length blocks.now → get_or words.new j 0 ≡ noted_as (get_or words.old j 0) (get_or blocks.now j 0) block here }
{
    for (j, word) in words.iter_mut().enumerate() {
        *word = noted(*word, blocks[j], block, here);
    }
}

// Meets a row whose block's residue is marked, or is not: then it is in no place of the list.
fn meet(blocks: &[u32], words: &mut [u32], block: u32, flags: u32, marked: bool, here: u32)
    requires words_len { length words.old ≡ length blocks.now }
    requires by_index { (j : ℕ) → j < length blocks.now → get_or blocks.now j 0 ≡ block → marked ≡ true }
    ensures { (j : ℕ) → j < length blocks.now → get_or words.new j 0 ≡ met_as (get_or words.old j 0) (get_or blocks.now j 0) block flags here }
{
    if marked && flags % 2 == 1 {
        note(blocks, words, block, here);
    }
}

// Marks the listed blocks.
fn mark(blocks: &[u32], marks: &mut [bool])
    requires { length marks.old ≡ 4096 }
    ensures { (j : ℕ) → j < length blocks.now → get_or marks.new (get_or blocks.now j 0 % 4096) false ≡ true }
{
    for b in blocks {
        marks[(*b % 4096) as usize] = true;
    }
}

// The one pass: every row is met once, from the lowest slot on.
fn pass(l: Label, table: &[u32], blocks: &[u32], words: &mut [u32], marks: &[bool])
    requires table_len { length table.now ≡ table_length l }
    requires words_len { length words.old ≡ length blocks.now }
    requires marks_len { length marks.now ≡ 4096 }
    requires by_index { (j : ℕ) → j < length blocks.now → get_or marks.now (get_or blocks.now j 0 % 4096) false ≡ true }
    requires by_index_2 { (j : ℕ) → j < length words.old → get_or words.old j 0 ≡ 0 }
    requires slots_bound { l.slots ≤ 57600 }
    ensures { words.new ≡ places_of table.now blocks.now }
{
    for i in 0..l.slots {
        let k = 2 * (i as usize);
        let block = table[k];
        let marked = marks[(block % 4096) as usize];
        meet(blocks, words, block, table[k + 1], marked, i + 1);
    }
}

// The lowest slot of each listed block plus 1, or 0 where no row holds it.
pub fn locate(l: Label, table: &[u32], blocks: &[u32], words: &mut [u32])
    requires table_len { length table.now ≡ table_length l }
    requires words_len { length words.old ≡ length blocks.now }
    requires slots_bound { l.slots ≤ 57600 }
    ensures { words.new ≡ places_of table.now blocks.now }
{
    words.fill(0);
    let mut marks = [false; MARKS];
    mark(blocks, &mut marks);
    pass(l, table, blocks, words, &marks);
}
