// The numbers of a header and of a field's number; the others are those of `told`.
ghost use Rattle.std.specs.Prelude.{◌≡◌};
ghost use Rattle.warpladle.specs.Values.{number4, header16};

use meter::integer::bits_of;
use record::header::Header;
use told::put::time_words;

pub(crate) fn value_numbers(x: Option<i64>) -> [u64; 4]
    ensures { result ≡ number4 x }
{
    match x {
        None => [0; 4],
        Some(z) => [0, 0, 1, bits_of(z)],
    }
}

pub(crate) fn header_numbers(start: usize, header: Header) -> [u64; 16]
    ensures { result ≡ header16 start header }
{
    let t = time_words(header.start);
    let u = time_words(header.stop);
    [
        0,
        0,
        start as u64,
        header.class as u64,
        header.group as u64,
        header.subclass as u64,
        header.version as u64,
        header.size as u64,
        t.defined,
        t.day,
        t.milli,
        u.defined,
        u.day,
        u.milli,
        0,
        0,
    ]
}
