// What the test programs are fed on standard input: words of eight bytes, the highest byte first, and names behind their lengths.
// Where the input ends each word is zero.
#![tactic(auto)]

mod buffers;

ghost use Rattle.std.specs.Prelude.{◌≡◌, length, min, take};

pub use buffers::{LENT, first_other, lent, put_work};
use model::{Account, Family, Link, Start};

// The next word.
pub fn word() -> u64 {
    let mut bytes = [0u8; 8];
    io::read_full(0, &mut bytes);
    bits::word_at(&bytes, 0)
}

// The next word as a count.
pub fn count() -> usize {
    word() as usize
}

// The next word as a double.
pub fn number() -> f64 {
    base::double(word())
}

// As many counts as the slice has room for.
pub fn counts(out: &mut [usize]) {
    for x in out {
        *x = count();
    }
}

// As many doubles as the slice has room for.
pub fn numbers(out: &mut [f64]) {
    for x in out {
        *x = number();
    }
}

// The next N counts.
pub fn next_counts<const N: usize>() -> [usize; N] {
    let mut out = [0usize; N];
    counts(&mut out);
    out
}

// The next N doubles.
pub fn next_numbers<const N: usize>() -> [f64; N] {
    let mut out = [0.0; N];
    numbers(&mut out);
    out
}

// The first n, or all where there are fewer.
pub fn front<T>(xs: &[T], n: usize) -> &[T]
    ensures { result.now ≡ take n xs.now }
{
    &xs[..n.min(xs.len())]
}

// The next n bytes, in the front of the space; at most as many as it has.
pub fn bytes<'a>(space: &'a mut [u8], n: usize) -> &'a [u8]
    ensures { length result.now ≡ min n (length space.old) }
{
    let m = n.min(space.len());
    let here = &mut space[..m];
    io::read_full(0, here);
    here
}

// The next name, straight to standard output; whether there was one.
pub fn put_name() -> bool {
    let n = count();
    let mut space = [0u8; 32];
    io::write_all(1, bytes(&mut space, n));
    0 < n
}

// As many from `at` on as the next count says, or fewer where there are fewer.
pub fn part<T>(xs: &[T], at: usize) -> &[T] {
    let rest = &xs[at.min(xs.len())..];
    front(rest, count())
}

// `f` behind each name, until a name is empty; 1000 times at most.
pub fn each_call<F: Fn()>(f: F)
    requires { F.IsAlwaysCallable f }
{
    for _ in 0..1000 {
        if !put_name() {
            return;
        }
        f();
    }
}

// `f` at each of the next doubles, until a word is zero; `most` times at most.
pub fn each_number<F: Fn(f64)>(most: usize, f: F)
    requires { F.IsAlwaysCallable f }
{
    for _ in 0..most {
        let w = word();
        if w == 0 {
            return;
        }
        f(base::double(w));
    }
}

// The family of the next code; Gamma stands for every code of none.
pub fn family() -> Family {
    model::family_coded(count()).unwrap_or(Family::Gamma)
}

// The link of the next code; probit stands for every code of none.
pub fn link() -> Link {
    model::link_coded(count()).unwrap_or(Link::Probit)
}

// The start of the next code; the usual one stands for every code of none.
pub fn start() -> Start {
    model::start_coded(count()).unwrap_or(Start::Usual)
}

// The next limit; the largest count stands for one that is not given.
pub fn limit() -> Option<usize> {
    let limit = count();
    (limit != usize::MAX).then_some(limit)
}

// A word, a blank and n.
pub fn put_named(word: &[u8], n: u64) {
    text::put_word(word);
    text::put_count(n);
}

// The eight counts of an account.
pub fn put_account(account: Account) {
    text::put_count(account.fits);
    text::put_count(account.solves);
    text::put_count(account.tries);
    text::put_count(account.points);
    text::put_count(account.eta);
    text::put_count(account.mean);
    text::put_count(account.pwrss);
    text::put_count(account.ok);
}
