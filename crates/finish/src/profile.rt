// The first record that a profile does not let through. The judge's walk has asked it of the records as it passed them, so that hardly one
// is left to ask.
ghost use Rattle.std.specs.Prelude.{◌≡◌};
ghost use Rattle.judge.specs.Profile.{Meeting};
ghost use Rattle.finish.specs.Profile.{Going, LeapIs, AgainstIs};

use judge::profile::allows;
use record::header::size_at;

// The place after a record; from the first after the main header it goes on at `met`.
fn leap(next: usize, met: usize) -> usize
    ensures { LeapIs next met result }
{
    if next == 3307 { met } else { next }
}

// The first record of a product that is against the profile, which those from the main header up to `met` meet.
pub(crate) fn first_against(s: &[u8], profile: &[[u8; 6]], met: usize) -> Option<usize>
    requires { Going s.now 0 × Meeting profile.now s.now 3307 met }
    ensures { AgainstIs profile.now s.now result }
{
    if profile.len() == 0 {
        return None;
    }
    let mut at: usize = 0;
    while at < s.len() {
        if !allows(profile, s[at], s[at + 1], s[at + 2], s[at + 3]) {
            return Some(at);
        }
        at = leap(at + size_at(s, at), met);
    }
    None
}
