// What an accepted product adds to a report: one pass over its headers.
ghost use Rattle.std.specs.Prelude.{◌≡◌, ◌+◌, ◌<◌, get_or, set};
ghost use Rattle.demands.specs.Product.{Meets};
ghost use Rattle.month.specs.Report.{totals};
ghost use Rattle.month.specs.Counting.{Paired, PairedOn, CountsAll};

use crate::bits::{bits_at, size_in};
use moment::time_between;

// What the pairs came to, and where the last MDR stands.
#[derive(Clone, Copy)]
pub(crate) struct Pairs {
    pub last: Option<usize>,
    pub gap: u64,
    pub overlap: u64,
    pub undefined: u64,
}

// Place `class` gets `more`.
fn raise(sums: &mut [u64; 9], class: usize, more: u64)
    requires { (class < 9) × (get_or sums.old class 0 + more < 18446744073709551616) }
    ensures { sums.new ≡ set sums.old class (get_or sums.old class 0 + more) }
{
    sums[class] += more;
}

// With the record at `at`, a pair more where it is an MDR and not the first.
fn paired(s: &[u8], pairs: Pairs, at: usize, class: usize) -> Pairs
    requires { Paired s.now pairs at class }
    ensures { PairedOn s.now pairs at class result }
{
    if class != 8 {
        return pairs;
    }
    let Some(last) = pairs.last else {
        return Pairs {
            last: Some(at),
            ..pairs
        };
    };
    let more = time_between(bits_at(s, last + 14), bits_at(s, at + 8));
    Pairs {
        last: Some(at),
        gap: pairs.gap + more.gap,
        overlap: pairs.overlap + more.overlap,
        undefined: pairs.undefined + more.undefined,
    }
}

// The 38 numbers of one accepted product.
fn totals_of(records: &[u64; 9], bytes: &[u64; 9], pairs: Pairs) -> [u64; 38]
    ensures { result ≡ totals (λ c. get_or records.now c 0) (λ c. get_or bytes.now c 0)
        pairs.gap pairs.overlap pairs.undefined }
{
    let mut t = [0u64; 38];
    t[0] = 1;
    t[1] = records[1];
    t[2] = records[2];
    t[3] = records[3];
    t[4] = records[4];
    t[5] = records[5];
    t[6] = records[6];
    t[7] = records[7];
    t[8] = records[8];
    t[9] = bytes[1];
    t[10] = bytes[2];
    t[11] = bytes[3];
    t[12] = bytes[4];
    t[13] = bytes[5];
    t[14] = bytes[6];
    t[15] = bytes[7];
    t[16] = bytes[8];
    t[17] = pairs.gap;
    t[18] = pairs.overlap;
    t[19] = pairs.undefined;
    t[20] = 1;
    t
}

// One pass over the headers. What is added fits: of the 64 bits a gap takes 43 at most, and a product has no more than 999,999 MDRs.
pub(crate) fn count_records(s: &[u8]) -> [u64; 38]
    requires { Meets s.now }
    ensures { CountsAll s.now result }
{
    let mut records = [0u64; 9];
    let mut bytes = [0u64; 9];
    let mut pairs = Pairs {
        last: None,
        gap: 0,
        overlap: 0,
        undefined: 0,
    };
    let mut at: usize = 0;
    while at < s.len() {
        let size = size_in(s, at);
        let class = usize::from(s[at]);
        raise(&mut records, class, 1);
        raise(&mut bytes, class, size as u64);
        pairs = paired(s, pairs, at, class);
        at += size;
    }
    totals_of(&records, &bytes, pairs)
}
