// The label of an SSD image whose size is not known yet.
ghost use Rattle.std.specs.Prelude.{◌≡◌};
ghost use Rattle.ferjulm.specs.Label.{c_label};

// Reads the label page: `slots` and `blocks` become its numbers, unless the image has none (2).
#[unsafe(no_mangle)]
pub extern "C" fn ferjulm_label(ssd: &[u8], slots: &mut u32, blocks: &mut u32) -> u32
    ensures { record { code = result; slots = slots.new; blocks = blocks.new } ≡ c_label ssd.now slots.old blocks.old }
{
    match stored::image::label_of(ssd) {
        Some(l) => {
            *slots = l.slots;
            *blocks = l.blocks;
            0
        }
        None => 2,
    }
}
