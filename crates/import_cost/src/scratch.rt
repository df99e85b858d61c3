// The scratch table.
ghost use Rattle.std.specs.Prelude.{◌≡◌, eqb};

// The length of a page that 4 judges as it does a scratch table of so many words, beside a table of so many: 4,096 if it is as long.
pub fn lent(scratch: usize, table: usize) -> usize
    ensures { eqb result 4096 ≡ eqb scratch table }
{
    if scratch == table { 4096 } else { 0 }
}
