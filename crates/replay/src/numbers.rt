// A record is numbers of 4 bytes, big-endian: number j has the bytes from 4 j on.
ghost use Rattle.std.specs.Prelude.{◌≡◌, ◌+◌, ◌*◌, ◌≤◌, ◌<◌, length};
ghost use Rattle.meter.specs.Integer.{stored};
ghost use Rattle.replay.specs.Layout.{number_at};

pub(crate) fn number_at(recorded: &[u8], j: usize) -> usize
    requires { 4 * j + 4 ≤ length recorded.now }
    ensures { (result ≡ number_at recorded.now j) × (result < 4294967296) }
{
    let at = 4 * j;
    ((usize::from(recorded[at]) * 256 + usize::from(recorded[at + 1])) * 256
        + usize::from(recorded[at + 2]))
        * 256
        + usize::from(recorded[at + 3])
}

pub(crate) fn put_number(room: &mut [u8], j: usize, n: usize)
    requires { (4 * j + 4 ≤ length room.old) × (n < 4294967296) }
    ensures { room.new ≡ stored room.old (4 * j) 4 n }
{
    // It has 4 bytes, so that nothing is refused.
    let _ = meter::integer::write_unsigned(&mut room[4 * j..], 4, n as u64);
}
