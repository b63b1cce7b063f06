// A watch over a product that arrives in parts and is not kept: the main header, one record header under way, at most 64 pointers, and
// numbers. It answers after each part what the arrival judge answers for all that was fed, up to a 65th pointer record.
#![tactic(auto)]

mod pending;
mod under_way;

ghost use Rattle.std.specs.Prelude.{◌≡◌, true, ◌+◌, ◌-◌, ◌≤◌, ◌<◌, length, get_or, IfSome};
ghost use Rattle.record.specs.Header.{is_class};
ghost use Rattle.record.specs.Follow.{Ruled};
ghost use Rattle.judge.specs.Turning.{refused_at, FewerIs};
ghost use Rattle.judge.specs.declared.arrival.Arrival.TheVariants.{Waiting};
ghost use Rattle.watch.specs.Stands.{laid, NewIs, FedIs};
ghost use Rattle.watch.specs.Turning.{TurnIs, RunInIs, OneMoreIs, SaneIs, SaneMark, refusing, waited};
ghost use Rattle.watch.specs.Turning.{EndIs, WalkIs, AdvanceIs, IdleIs};

use crate::pending::{Settled, settle};
use crate::under_way::{fill, head_lines, is_aim, keep};
use calendar::{Refusal, fault};
use judge::arrival::Arrival;
use judge::parts::{Run, header_rank, is_fewer, is_part, kind_in, run_of, word_in};

// Where the watch is: all of it but its arrays. It goes by value. `number` is 0 for no refusal, and `prev` a class, as numbers: the C interface
// (`wl_watch`), in which any byte may stand.
#[repr(C)]
#[derive(Clone, Copy)]
pub struct Mark {
    pub got: usize,
    pub have: usize,
    pub at: usize,
    pub count: usize,
    pub d: usize,
    pub due: usize,
    pub place: usize,
    pub next: usize,
    pub line: usize,
    pub prev: u8,
    pub number: u8,
}

// The mark, the records of each class that are to come and that have, the pointers met so far, the main header, and the header of the
// record under way.
#[repr(C)]
#[derive(Clone, Copy)]
pub struct Watch {
    pub mark: Mark,
    pub totals: [usize; 9],
    pub tally: [usize; 9],
    pub starts: [u32; 64],
    pub targets: [u32; 64],
    pub kinds: [u32; 64],
    pub head: [u8; 3307],
    pub under: [u8; 27],
}

#[derive(Clone, Copy)]
pub struct Fed {
    pub watch: Watch,
    pub answer: Arrival,
}

// The mark after a part; the arrays are changed in place.
#[derive(Clone, Copy)]
pub struct Gone {
    pub mark: Mark,
    pub answer: Arrival,
}

// What the record under way comes to.
#[derive(Clone, Copy)]
pub enum Turned {
    Wait,
    Refuse(Refusal),
    Pass {
        to: usize,
        class: u8,
        due: usize,
    },
    Point {
        to: usize,
        target: usize,
        kind: usize,
        due: usize,
    },
    // What is to come of it up to `to` is not looked at.
    Rest {
        to: usize,
    },
}

// A 65th pointer record.
fn is_one_more(class: u8, pointers: usize) -> bool
    ensures { OneMoreIs class pointers result }
{
    class == 3 && 64 <= pointers
}

// The record that starts at `at`, of whose header `have` bytes are held, in an arrival of `len` bytes.
fn turn<'a>(
    under: &'a [u8; 27],
    follow: &'a [[bool; 8]; 8],
    totals: &'a [usize; 9],
    tally: &'a [usize; 9],
    starts: &[u32; 64],
    targets: &[u32; 64],
    kinds: &[u32; 64],
    have: usize,
    len: usize,
    d: usize,
    at: usize,
    due: usize,
    prev: u8,
) -> Turned
    requires { (at ≤ d) × (d ≤ 2147483647) × (get_or tally.now 3 0 ≤ 64) × (is_class prev ≡ true) × Ruled follow.now }
    ensures { TurnIs under.now totals.now tally.now
        starts.now targets.now kinds.now have len d at due prev result }
{
    if have < 20 {
        return Turned::Wait;
    }
    let h = header_rank(under, follow, totals, tally, d - at, prev);
    if h == fault::BYTES_LEFT {
        return Turned::Refuse(Refusal {
            number: fault::BYTES_LEFT,
            place: at + 20,
        });
    }
    if h < 12 {
        return Turned::Refuse(Refusal {
            number: h,
            place: at,
        });
    }
    let class = under[0];
    let pointers = tally[3];
    if is_one_more(class, pointers) {
        return Turned::Refuse(Refusal {
            number: fault::TOO_MANY_POINTERS,
            place: at,
        });
    }
    let to = at + word_in(under, 4);
    match settle(
        starts,
        targets,
        kinds,
        pointers,
        due,
        at,
        to,
        d,
        kind_in(under, 0),
    ) {
        Settled::Inside(q) => Turned::Refuse(Refusal {
            number: fault::POINTS_INSIDE,
            place: q,
        }),
        Settled::Other(q) => Turned::Refuse(Refusal {
            number: fault::POINTS_AT_OTHER,
            place: q,
        }),
        Settled::Clear(due) => {
            if len < to {
                return Turned::Rest { to };
            }
            if is_part(to, d) {
                return Turned::Refuse(Refusal {
                    number: fault::BYTES_LEFT,
                    place: to,
                });
            }
            if class != 3 {
                return Turned::Pass { to, class, due };
            }
            if !is_aim(under, to, d) {
                return Turned::Refuse(Refusal {
                    number: fault::TARGET,
                    place: at,
                });
            }
            let target = word_in(under, 23);
            Turned::Point {
                to,
                target,
                kind: kind_in(under, 20),
                due: due.min(target),
            }
        }
    }
}

// Where byte `at` of what was fed stands in a part of `len` bytes that starts at byte `base`; its end, where that byte came before.
fn ahead(at: usize, base: usize, len: usize) -> usize
    ensures { (base ≤ at → base + result ≡ at) × (at < base → result ≡ len) }
{
    if at < base {
        return len;
    }
    at - base
}

// The run of records like the last one, which ends at `to`, as far as it is in the part that starts at byte `base`.
fn run_in(
    part: &[u8],
    follow: &[[bool; 8]; 8],
    base: usize,
    class: u8,
    size: usize,
    to: usize,
    due: usize,
    d: usize,
    most: usize,
) -> Run
    requires { (to ≤ d) × (d ≤ 2147483647) × Ruled follow.now }
    ensures { RunInIs part.now base class size to due d most result }
{
    if to.min(due) < base {
        return Run { count: 0, end: to };
    }
    let run = run_of(
        part,
        follow,
        class,
        size,
        to - base,
        due - base,
        d - base,
        most,
    );
    Run {
        count: run.count,
        end: base + run.end,
    }
}

// The watch refuses, from here on.
fn refuse(mark: Mark, r: Refusal) -> Gone
    ensures { (result.mark ≡ refusing mark r.number r.place) × (result.answer ≡ refused_at r.number r.place) }
{
    Gone {
        mark: Mark {
            number: r.number,
            place: r.place,
            ..mark
        },
        answer: Arrival::Refused(r),
    }
}

// The record under way is not whole, of whose header `held` bytes are held; what comes before byte `next` is not looked at.
fn wait(mark: Mark, held: usize, got: usize, next: usize) -> Gone
    ensures { (result.mark ≡ waited mark held got next) × (result.answer ≡ Waiting mark.count mark.at) }
{
    Gone {
        mark: Mark {
            have: held,
            got,
            next,
            ..mark
        },
        answer: Arrival::Waiting {
            count: mark.count,
            end: mark.at,
        },
    }
}

// The walk is at the product's end, and `len` bytes were fed.
fn end<'a>(mark: Mark, totals: &'a [usize; 9], tally: &'a [usize; 9], len: usize) -> Gone
    ensures { EndIs mark totals.now tally.now len result }
{
    let place = mark.d;
    if is_fewer(totals, tally) {
        return refuse(
            mark,
            Refusal {
                number: fault::TOO_FEW,
                place,
            },
        );
    }
    if place < len {
        return refuse(
            mark,
            Refusal {
                number: fault::BEYOND,
                place,
            },
        );
    }
    Gone {
        mark: Mark {
            got: len,
            next: 0,
            ..mark
        },
        answer: Arrival::Waiting {
            count: mark.count,
            end: place,
        },
    }
}

// Up to where the bytes of a record that ends at `to` are not looked at, once its header of 20 bytes is held: a pointer's last 7 are. 0, and
// no `None`, stands for none, as in the mark's `next` (the C interface: `wl_watch`).
fn until(class: u8, to: usize) -> usize
    ensures { (class ≡ 3 → result ≡ 0) × ((class ≡ 3 → ⊥) → result ≡ to) }
{
    if class == 3 {
        return 0;
    }
    to
}

// The records of a part, the first byte of which is byte `base` of what was fed.
fn walk(
    mark: Mark,
    totals: &[usize; 9],
    tally: &mut [usize; 9],
    starts: &mut [u32; 64],
    targets: &mut [u32; 64],
    kinds: &mut [u32; 64],
    under: &mut [u8; 27],
    part: &[u8],
    base: usize,
) -> Gone
    requires { SaneMark mark tally.old × (base ≤ 2147483647) }
    ensures { WalkIs mark totals.now tally.old starts.old targets.old kinds.old
        under.old part.now base
        tally.new starts.new targets.new kinds.new under.new result }
{
    let mut v = mark;
    let len = base + part.len();
    // Once: a const array is copied where it is named.
    let follow = record::follow::FOLLOW;
    while v.at < v.d {
        let d = v.d;
        let at = v.at;
        let held = v.have;
        let have = fill(under, held, part, ahead(at + held, base, part.len()));
        let due = v.due;
        let prev = v.prev;
        match turn(
            under, &follow, totals, tally, starts, targets, kinds, have, len, d, at, due, prev,
        ) {
            Turned::Wait => {
                return wait(v, have, len, 0);
            }
            Turned::Refuse(r) => {
                return refuse(v, r);
            }
            Turned::Pass { to, class, due } => {
                let k = class as usize;
                let most = totals[k] - tally[k] - 1;
                let run = run_in(part, &follow, base, class, to - at, to, due, d, most);
                let passed = 1 + run.count;
                tally[k] += passed;
                v.count += passed;
                v.at = run.end;
                v.prev = class;
                v.due = due;
                v.have = 0;
                continue;
            }
            Turned::Point {
                to,
                target,
                kind,
                due,
            } => {
                let n = tally[3];
                starts[n] = at as u32;
                targets[n] = target as u32;
                kinds[n] = kind as u32;
                tally[3] += 1;
                v.count += 1;
                v.at = to;
                v.prev = 3;
                v.due = due;
                v.have = 0;
                continue;
            }
            Turned::Rest { to } => {
                return wait(v, have, len, until(under[0], to));
            }
        }
    }
    end(v, totals, tally, len)
}

// The main header has not come whole.
fn early(mark: Mark) -> Gone
    ensures { (result.mark ≡ mark) × (result.answer ≡ Waiting 0 0) }
{
    Gone {
        mark,
        answer: Arrival::Waiting { count: 0, end: 0 },
    }
}

// While the main header is under way.
fn start(
    mark: Mark,
    totals: &mut [usize; 9],
    tally: &mut [usize; 9],
    starts: &mut [u32; 64],
    targets: &mut [u32; 64],
    kinds: &mut [u32; 64],
    head: &mut [u8; 3307],
    under: &mut [u8; 27],
    part: &[u8],
) -> Gone
    requires { mark.got < 3307 }
    ensures { AdvanceIs (laid mark totals.old tally.old starts.old targets.old kinds.old
        head.old under.old) part.now
        (laid result.mark totals.new tally.new starts.new targets.new kinds.new
        head.new under.new) result.answer }
{
    let mut v = mark;
    let base = v.got;
    let got = keep(head, base, part);
    // A fault of the main header is shown where a line ends: until then there is nothing to judge, and then from that line on.
    if got < v.next {
        v.got = got;
        return early(v);
    }
    match head_lines(head, got, v.line) {
        Err(r) => {
            return refuse(v, r);
        }
        Ok(reached) => {
            v.line = reached.line;
            v.next = reached.end;
        }
    }
    v.got = got;
    if got < 3307 {
        return early(v);
    }
    let d = judge::parts::declared_size(head);
    if !is_sane(got, 0, 3307, 1, d, 0, 1) {
        return early(v);
    }
    if is_part(3307, d) {
        return refuse(
            v,
            Refusal {
                number: fault::BYTES_LEFT,
                place: 3307,
            },
        );
    }
    *totals = judge::parts::totals_of(head);
    *tally = [0, 1, 0, 0, 0, 0, 0, 0, 0];
    v.have = 0;
    v.at = 3307;
    v.count = 1;
    v.d = d;
    v.due = d;
    v.prev = 1;
    walk(v, totals, tally, starts, targets, kinds, under, part, base)
}

// A state that could have come of feeding, as far as the walk's safety asks.
fn is_sane(
    got: usize,
    have: usize,
    at: usize,
    count: usize,
    d: usize,
    pointers: usize,
    prev: u8,
) -> bool
    ensures { SaneIs got have at count d pointers prev result }
{
    d <= 2147483647
        && got <= d
        && at <= d
        && count <= at
        && have <= 27
        && pointers <= 64
        && record::header::is_class(prev)
}

// How many bytes were fed after n more, if none of them is looked at before byte `next`.
fn rested(got: usize, n: usize, next: usize) -> Option<usize>
    ensures { IfSome result (λ fed. (fed ≡ got + n) × (got + n < next)) }
{
    if next <= got {
        return None;
    }
    if next - got <= n {
        return None;
    }
    Some(got + n)
}

fn advance(
    mark: Mark,
    totals: &mut [usize; 9],
    tally: &mut [usize; 9],
    starts: &mut [u32; 64],
    targets: &mut [u32; 64],
    kinds: &mut [u32; 64],
    head: &mut [u8; 3307],
    under: &mut [u8; 27],
    part: &[u8],
) -> Gone
    ensures { AdvanceIs (laid mark totals.old tally.old starts.old targets.old kinds.old
        head.old under.old) part.now
        (laid result.mark totals.new tally.new starts.new targets.new kinds.new
        head.new under.new) result.answer }
{
    let got = mark.got;
    if got < 3307 {
        return start(
            mark, totals, tally, starts, targets, kinds, head, under, part,
        );
    }
    if let Some(fed) = rested(got, part.len(), mark.next) {
        return Gone {
            mark: Mark { got: fed, ..mark },
            answer: Arrival::Waiting {
                count: mark.count,
                end: mark.at,
            },
        };
    }
    let pointers = tally[3];
    if !is_sane(
        got, mark.have, mark.at, mark.count, mark.d, pointers, mark.prev,
    ) {
        return early(mark);
    }
    walk(
        mark, totals, tally, starts, targets, kinds, under, part, got,
    )
}

// What is right to say after a part of no bytes, which changes nothing.
fn idle(
    mark: Mark,
    totals: &[usize; 9],
    tally: &[usize; 9],
    starts: &[u32; 64],
    targets: &[u32; 64],
    kinds: &[u32; 64],
    head: &[u8; 3307],
    under: &[u8; 27],
    part: &[u8],
) -> Arrival
    ensures { IdleIs (laid mark totals.now tally.now starts.now targets.now kinds.now
        head.now under.now) part.now result }
{
    let mut all = *totals;
    let mut met = *tally;
    let mut s = *starts;
    let mut t = *targets;
    let mut k = *kinds;
    let mut h = *head;
    let mut u = *under;
    let r = advance(
        mark, &mut all, &mut met, &mut s, &mut t, &mut k, &mut h, &mut u, part,
    );
    r.answer
}

// One part: the mark by value, the arrays in place.
pub fn step_in(
    mark: Mark,
    totals: &mut [usize; 9],
    tally: &mut [usize; 9],
    starts: &mut [u32; 64],
    targets: &mut [u32; 64],
    kinds: &mut [u32; 64],
    head: &mut [u8; 3307],
    under: &mut [u8; 27],
    part: &[u8],
) -> Gone
    ensures { FedIs (laid mark totals.old tally.old starts.old targets.old kinds.old
        head.old under.old) part.now
        (laid result.mark totals.new tally.new starts.new targets.new kinds.new
        head.new under.new) result.answer }
{
    if mark.number != 0 {
        return Gone {
            mark,
            answer: Arrival::Refused(Refusal {
                number: mark.number,
                place: mark.place,
            }),
        };
    }
    if part.len() == 0 {
        let answer = idle(
            mark, totals, tally, starts, targets, kinds, head, under, part,
        );
        return Gone { mark, answer };
    }
    advance(
        mark, totals, tally, starts, targets, kinds, head, under, part,
    )
}

// One part, by value.
pub fn step(w: Watch, part: &[u8]) -> Fed
    ensures { FedIs w part.now result.watch result.answer }
{
    let mut watch = w;
    let gone = step_in(
        watch.mark,
        &mut watch.totals,
        &mut watch.tally,
        &mut watch.starts,
        &mut watch.targets,
        &mut watch.kinds,
        &mut watch.head,
        &mut watch.under,
        part,
    );
    watch.mark = gone.mark;
    Fed {
        watch,
        answer: gone.answer,
    }
}

pub fn new() -> Watch
    ensures { NewIs result }
{
    let mark = Mark {
        got: 0,
        have: 0,
        at: 0,
        count: 0,
        d: 0,
        due: 0,
        place: 0,
        next: 0,
        line: 0,
        prev: 0,
        number: 0,
    };
    Watch {
        mark,
        totals: [0; 9],
        tally: [0; 9],
        starts: [0; 64],
        targets: [0; 64],
        kinds: [0; 64],
        head: [0; 3307],
        under: [0; 27],
    }
}

// One part, the watch changed in place: no array of it is copied.
pub fn feed(w: &mut Watch, part: &[u8]) -> Arrival
    ensures { FedIs w.old part.now w.new result }
{
    let r = step_in(
        w.mark,
        &mut w.totals,
        &mut w.tally,
        &mut w.starts,
        &mut w.targets,
        &mut w.kinds,
        &mut w.head,
        &mut w.under,
        part,
    );
    w.mark = r.mark;
    r.answer
}
