// Records of one size that stand one after the other, noted by the walk as it goes, so that nobody has to read their sizes again.
ghost use Rattle.std.specs.Prelude.{◌≡◌, ◌+◌, ◌≤◌, ◌⊎◌};
ghost use Rattle.judge.specs.Stretch.{no_stretch, GrownIs, no_notes, NotedIs};

// From byte `from` up to byte `end` are `count` records of the size.
#[derive(Clone, Copy)]
pub struct Stretch {
    pub from: usize,
    pub size: usize,
    pub end: usize,
    pub count: usize,
}

pub(crate) fn no_stretch(at: usize) -> Stretch
    ensures { result ≡ no_stretch at }
{
    Stretch {
        from: at,
        size: 0,
        end: at,
        count: 0,
    }
}

// The stretch with the records of the size from `at` up to `end`: it goes on where it ends there, or another begins.
fn grown(last: Stretch, at: usize, size: usize, end: usize, count: usize) -> Stretch
    requires { last.count + count ≤ 4294967295 }
    ensures { GrownIs last at size end count result }
{
    if last.end != at || last.size != size {
        return Stretch {
            from: at,
            size,
            end,
            count,
        };
    }
    Stretch {
        from: last.from,
        size,
        end,
        count: last.count + count,
    }
}

// The one with more records.
fn longer(one: Stretch, other: Stretch) -> Stretch
    ensures { (result ≡ one) ⊎ (result ≡ other) }
{
    if one.count < other.count {
        return other;
    }
    one
}

// The stretch under way, and the one with the most records so far.
#[derive(Clone, Copy)]
pub struct Notes {
    pub last: Stretch,
    pub longest: Stretch,
}

pub(crate) fn no_notes(at: usize) -> Notes
    ensures { result ≡ no_notes at }
{
    let none = no_stretch(at);
    Notes {
        last: none,
        longest: none,
    }
}

// The notes with the records of the size from `at` up to `end`. One alone is not noted: there is nothing to gain by it, and a walk in
// which no record is like the last one has nothing to do here.
pub(crate) fn noted(notes: Notes, at: usize, size: usize, end: usize, count: usize) -> Notes
    requires { notes.last.count + count ≤ 4294967295 }
    ensures { NotedIs notes at size end count result }
{
    if count < 2 {
        return notes;
    }
    let before = notes.last;
    let most = notes.longest;
    let last = grown(before, at, size, end, count);
    let longest = longer(most, last);
    Notes { last, longest }
}
