// Which class of record may follow which.
ghost use Rattle.std.specs.Prelude.{◌≡◌};
ghost use Rattle.record.specs.Follow.{may_follow};

const NO: bool = false;

const YES: bool = true;

// A row for the class last seen, 1 to 8, and a column for the next.
pub const FOLLOW: [[bool; 8]; 8] = [
    [NO, YES, YES, YES, YES, YES, YES, YES], // after 1 MPHR
    [NO, NO, YES, YES, YES, YES, YES, YES], // after 2 SPHR
    [NO, NO, YES, YES, YES, YES, YES, YES], // after 3 IPR
    [NO, NO, NO, YES, YES, YES, YES, YES], // after 4 GEADR
    [NO, NO, NO, YES, YES, YES, YES, YES], // after 5 GIADR
    [NO, NO, NO, NO, NO, YES, YES, YES], // after 6 VEADR
    [NO, NO, NO, NO, NO, YES, YES, YES], // after 7 VIADR
    [NO, NO, NO, NO, NO, NO, NO, YES], // after 8 MDR
];

// No class may follow what is no class, and what is no class may not follow.
pub fn may_follow(last: u8, next: u8) -> bool
    ensures { result ≡ may_follow last next }
{
    if last < 1 {
        return false;
    }
    if last > 8 {
        return false;
    }
    if next < 1 {
        return false;
    }
    if next > 8 {
        return false;
    }
    FOLLOW[(last - 1) as usize][(next - 1) as usize]
}
