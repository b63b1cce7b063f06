// Humidity files, for C.
#![tactic(auto)]

ghost use Rattle.uth_c.specs.Humidity.{UthTold};

use told::put::{count, told};

// The blocks of a humidity file, a place of each room to a block: 0, 0, how many there are, 0.
#[unsafe(no_mangle)]
pub extern "C" fn wl_uth(
    bytes: &[u8],
    blocks: &mut [[u32; 4]],
    values: &mut [[f32; 2]],
    answer: &mut [u64; 4],
)
    ensures { UthTold bytes.now blocks.old values.old
        blocks.new values.new answer.new }
{
    *answer = told(uth::blocks::read_uth(bytes, blocks, values), count);
}
