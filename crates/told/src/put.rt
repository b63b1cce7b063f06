// The numbers of an answer: 0, or the refusal's number and place; then the values, what is undefined as a 0 before zeros.
ghost use Rattle.std.specs.Prelude.{◌≡◌, IfOk, MatchResult};
ghost use Rattle.calendar.specs.declared.Refusal.{Refusal};
ghost use Rattle.told.specs.Told.{four, six, one4, time6, moment12, general12, time_words, written_said};
ghost use Rattle.told.specs.Told as N;

use calendar::Refusal;
use meter::general::Moment;
use meter::time::Time;

// An array of numbers that an answer fills. A trait, since a bound that names a const parameter is not covered.
pub trait Answer {
    ghost refused: { Refusal → Self };

    fn refusal(r: Refusal) -> Self
        ensures { result ≡ refused r };
}

impl Answer for [u64; 4] {
    ghost refused = { λ r. N.refused 4 r };

    fn refusal(r: Refusal) -> [u64; 4] {
        [r.number as u64, r.place as u64, 0, 0]
    }
}

impl Answer for [u64; 6] {
    ghost refused = { λ r. N.refused 6 r };

    fn refusal(r: Refusal) -> [u64; 6] {
        [r.number as u64, r.place as u64, 0, 0, 0, 0]
    }
}

impl Answer for [u64; 12] {
    ghost refused = { λ r. N.refused 12 r };

    fn refusal(r: Refusal) -> [u64; 12] {
        let mut numbers = [0; 12];
        numbers[0] = r.number as u64;
        numbers[1] = r.place as u64;
        numbers
    }
}

impl Answer for [u64; 16] {
    ghost refused = { λ r. N.refused 16 r };

    fn refusal(r: Refusal) -> [u64; 16] {
        let mut numbers = [0; 16];
        numbers[0] = r.number as u64;
        numbers[1] = r.place as u64;
        numbers
    }
}

// What a host is told of an answer: the numbers of its value, or of its refusal.
pub fn told<T, A: Answer, F: FnOnce(T) -> A>(said: Result<T, Refusal>, numbers: F) -> A
    requires { IfOk said (λ x. F.pre numbers x) }
    ensures { MatchResult said (λ x. F.post numbers x result) (λ r. result ≡ A.refused r) }
{
    match said {
        Ok(x) => numbers(x),
        Err(r) => A::refusal(r),
    }
}

pub fn one(n: u64) -> [u64; 4]
    ensures { result ≡ one4 n }
{
    [0, 0, n, 0]
}

pub fn count(n: usize) -> [u64; 4]
    ensures { result ≡ one4 n }
{
    one(n as u64)
}

// The bytes written.
pub fn written(said: Result<usize, Refusal>) -> [u64; 4]
    ensures { result ≡ written_said said }
{
    told(said, count)
}

pub fn time_numbers(time: Option<Time>) -> [u64; 6]
    ensures { result ≡ time6 time }
{
    match time {
        None => [0; 6],
        Some(t) => [0, 0, 1, t.day as u64, t.milli as u64, 0],
    }
}

pub fn moment_numbers(time: Option<Moment>) -> [u64; 12]
    ensures { result ≡ general12 time }
{
    match time {
        None => [0; 12],
        Some(t) => [
            0,
            0,
            1,
            t.date.year as u64,
            t.date.month as u64,
            t.date.day as u64,
            t.hour as u64,
            t.minute as u64,
            t.second as u64,
            t.milli as u64,
            0,
            0,
        ],
    }
}

// A time of a header.
#[derive(Clone, Copy)]
pub struct TimeWords {
    pub defined: u64,
    pub day: u64,
    pub milli: u64,
}

pub fn time_words(time: Option<Time>) -> TimeWords
    ensures { result ≡ time_words time }
{
    match time {
        None => TimeWords {
            defined: 0,
            day: 0,
            milli: 0,
        },
        Some(t) => TimeWords {
            defined: 1,
            day: t.day as u64,
            milli: t.milli as u64,
        },
    }
}

// The same, left in an array that a caller lends. Each is thin, over the functions above.
pub fn refuse4(answer: &mut [u64; 4], r: Refusal)
    ensures { answer.new ≡ N.refused 4 r }
{
    *answer = Answer::refusal(r);
}

pub fn refuse6(answer: &mut [u64; 6], r: Refusal)
    ensures { answer.new ≡ N.refused 6 r }
{
    *answer = Answer::refusal(r);
}

pub fn refuse12(answer: &mut [u64; 12], r: Refusal)
    ensures { answer.new ≡ N.refused 12 r }
{
    *answer = Answer::refusal(r);
}

pub fn refuse16(answer: &mut [u64; 16], r: Refusal)
    ensures { answer.new ≡ N.refused 16 r }
{
    *answer = Answer::refusal(r);
}

pub fn put4(answer: &mut [u64; 4], a: u64, b: u64, c: u64, d: u64)
    ensures { answer.new ≡ four a b c d }
{
    *answer = [a, b, c, d];
}

pub fn put6(answer: &mut [u64; 6], a: u64, b: u64, c: u64)
    ensures { answer.new ≡ six a b c }
{
    *answer = [0, 0, a, b, c, 0];
}

pub fn put_one(answer: &mut [u64; 4], n: u64)
    ensures { answer.new ≡ one4 n }
{
    *answer = one(n);
}

pub fn put_time(answer: &mut [u64; 6], time: Option<Time>)
    ensures { answer.new ≡ time6 time }
{
    *answer = time_numbers(time);
}

pub fn put_moment(answer: &mut [u64; 12], t: Moment)
    ensures { answer.new ≡ moment12 t }
{
    *answer = moment_numbers(Some(t));
}

pub fn put_general(answer: &mut [u64; 12], time: Option<Moment>)
    ensures { answer.new ≡ general12 time }
{
    *answer = moment_numbers(time);
}

pub fn put_written(answer: &mut [u64; 4], said: Result<usize, Refusal>)
    ensures { answer.new ≡ written_said said }
{
    *answer = written(said);
}
