// Records and lines of main headers compared.
ghost use Rattle.std.specs.Prelude.{◌≡◌, ◌+◌, ◌≤◌, ◌<◌, length, take, drop};
ghost use Rattle.parts.specs.Parts.{record_at};
ghost use Rattle.parts.specs.Pass.{FourAgree};
ghost use Rattle.parts.specs.Rewritten.{value_of};
ghost use Rattle.bytewise.specs.Comparing.{Decides, SameIs};
ghost use Rattle.compare.specs.Comparing.{Standing};

use bytewise::is_same;
use mphr::layout::field_place;
use record::header::size_at;

// The record of the original at `from` is that of the cut at `at`, of `size` bytes.
pub(crate) fn is_record(original: &[u8], from: usize, cut: &[u8], at: usize, size: usize) -> bool
    requires { Standing original.now from × (at + size ≤ length cut.now) }
    ensures { SameIs (take size (drop at cut.now)) (record_at original.now from) result }
{
    size_at(original, from) == size && is_same(cut, at, original, from, size)
}

fn is_agreed(m: &[u8], n: &[u8], k: usize) -> bool
    requires { (k < 72) × (length m.now ≡ 3307) × (length n.now ≡ 3307) }
    ensures { SameIs (value_of m.now k) (value_of n.now k) result }
{
    let Ok(place) = field_place(k) else {
        return false;
    };
    is_same(m, place.start + 32, n, place.start + 32, place.width)
}

// "the four fields named in request Seven agree": INSTRUMENT_ID, PRODUCT_TYPE, PROCESSING_LEVEL and SPACECRAFT_ID.
pub(crate) fn four_agree(m: &[u8], n: &[u8]) -> bool
    requires { (length m.now ≡ 3307) × (length n.now ≡ 3307) }
    ensures { Decides (FourAgree m.now n.now) result }
{
    is_agreed(m, n, 5) && is_agreed(m, n, 7) && is_agreed(m, n, 8) && is_agreed(m, n, 9)
}
