// Whether the times of a record's header stand: each of them right, and the start not after the stop where both are defined.
ghost use Rattle.std.specs.Prelude.{◌≡◌};
ghost use Rattle.record.specs.Times.{times_stand};

// Not where the 20 bytes of the header are not all there.
pub fn times_stand(bytes: &[u8], at: usize) -> bool
    ensures { result ≡ times_stand bytes.now at }
{
    if !meter::integer::holds(bytes.len(), at, 20) {
        return false;
    }
    let (Ok(start), Ok(stop)) = (
        meter::time::read_time(bytes, at + 8),
        meter::time::read_time(bytes, at + 14),
    ) else {
        return false;
    };
    match meter::time::time_order(start, stop) {
        Ok(order) => order.is_le(),
        Err(_) => true,
    }
}
