// One of two numbers.
ghost use Rattle.std.specs.Prelude.{◌≡◌};
ghost use Rattle.layout.specs.Numbers.{choose, least};

// One number where it is wanted, or else another.
// Kept: its clause is what the callers' proofs name (table).
pub fn choose(wanted: bool, a: u32, b: u32) -> u32
    ensures { result ≡ choose wanted a b }
{
    if wanted { a } else { b }
}

// The lower of two numbers.
// Kept: its clause is what the callers' proofs name (table, slot_map, steps).
pub fn least(a: u32, b: u32) -> u32
    ensures { result ≡ least a b }
{
    a.min(b)
}
