// A load as text: what the program `load` prints for an input (document 02, N10).
#![tactic(auto)]

ghost use Rattle.std.specs.Prelude.{◌≡◌, length};
ghost use Rattle.fields.specs.Written.{Written, text_of};
ghost use Rattle.workload.specs.Workload.{counts_of, workload_of};

use fields::Text;
use load_input::Input;
use load_run::{count_equal, prepare, run};
use load_text::Counts;

// Runs a load on P1's box, its HDD zero, with the plain disk beside it.
fn run_load(seed: u32, draws: u32) -> Counts
    ensures { result ≡ counts_of seed draws }
{
    let mut ssd = [0u8; 24576];
    let mut hdd = [0u8; 32768];
    let mut table = [0u32; 8];
    let mut plain = [0u8; 32768];
    let mut state = prepare(&mut ssd, &hdd, &mut table);
    let refusals = run(
        &mut ssd, &mut hdd, &mut table, &mut plain, &mut state, seed, draws,
    );
    Counts {
        refusals,
        equal: count_equal(&ssd, &hdd, &table, &plain, state),
    }
}

// The load of an input, or its refusal.
fn put_workload(page: &mut [u8; 4096], input: &[u8]) -> usize
    ensures { Written page.old page.new 0 result 4096 (workload_of input.now) }
{
    let Some(Input { seed, draws }) = load_input::read_input(input) else {
        return fields::put_refusal(page, 19);
    };
    let counts = run_load(seed, draws);
    load_text::put_load(page, seed, draws, counts)
}

// The text of an input of any length.
pub fn load(input: &[u8]) -> Text
    ensures { result ≡ text_of (workload_of input.now) }
{
    let mut bytes = [0u8; 4096];
    let len = put_workload(&mut bytes, input);
    Text { bytes, len }
}
