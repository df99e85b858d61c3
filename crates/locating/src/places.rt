// The places found, one after the other: of a closed slot the used flag is set, of an open one the word is cleared.
ghost use Rattle.std.specs.Prelude.{◌≡◌, ℕ, ◌+◌, ◌*◌, ◌≤◌, ◌<◌, length, get_or};
ghost use Rattle.protocol.specs.Condition.{word_of, closed_slot};
ghost use Rattle.protocol.specs.Perform.{used_all};
ghost use Rattle.locating.specs.Places.{condition_there, closed_words, slots_there};

use layout::Slot;

// The place that a word names.
fn use_place(table: &mut [u32], word: u32) -> u32
    requires word_in_bounds { 2 * word ≤ length table.old }
    requires by_index { (s : ℕ) → get_or table.old (2 * s + 1) 0 < 16 }
    ensures { (result ≡ word_of (condition_there table.old word)) × (table.new ≡ used_all (closed_slot (condition_there table.old word)) table.old) }
{
    if word == 0 {
        return 0;
    }
    let s = word - 1;
    let k = 2 * (s as usize) + 1;
    if table[k] / 4 % 2 == 1 {
        return 0;
    }
    moves::use_slot(table, Slot(s));
    word
}

// All of them. Used flags leave open slots open, so each is judged as in the table handed in.
pub fn use_places(table: &mut [u32], words: &mut [u32])
    requires by_index { (j : ℕ) → j < length words.old → 2 * get_or words.old j 0 ≤ length table.old }
    requires by_index_2 { (s : ℕ) → get_or table.old (2 * s + 1) 0 < 16 }
    ensures { (words.new ≡ closed_words table.old words.old) × (table.new ≡ used_all (slots_there table.old words.old) table.old) }
{
    for word in words.iter_mut() {
        *word = use_place(table, *word);
    }
}
