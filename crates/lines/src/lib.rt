// The lines of the output, each written into the front of a lent buffer; answered is how long the line is.
#![tactic(auto)]

ghost use Rattle.std.specs.Prelude.{◌≡◌, [], ◌+◌, ◌≤◌, ◌<◌, length, drop};
ghost use Rattle.lines.specs.Decimals.{decimals, trimmed, decimal_of};
ghost use Rattle.lines.specs.Lines.{pairs_text, flag_of, account_pairs, tail_pairs, tail_most, end_line, refused_line, response_line, value_line, Appended, Paired, Written};

use job::Fault;
use model::Answer;

// The twenty digits of n, the highest first.
fn twenty(n: u64) -> [u8; 20]
    ensures { result ≡ decimals 20 n }
{
    let mut out = [0u8; 20];
    let mut rest = n;
    for i in (0..20).rev() {
        out[i] = 48 + (rest % 10) as u8;
        rest /= 10;
    }
    out
}

// Where the first digit other than 0 stands, or else the last digit.
fn first_digit(digits: &[u8]) -> usize
    requires { length digits.now ≡ 20 }
    ensures { (result < 20) × (drop result digits.now ≡ trimmed digits.now) }
{
    for i in 0..19 {
        if digits[i] != 48 {
            return i;
        }
    }
    19
}

// A lent buffer, and how many bytes of its front are written.
#[derive(Drop)]
struct Writer<'a> {
    out: &'a mut [u8],
    at: usize,
}

impl<'a> Writer<'a> {
    // A copy of the bytes.
    fn put(&mut self, bytes: &[u8])
        requires { self.old.at + length bytes.now ≤ length self.old.out.now }
        ensures same_reference { self.new.out.ghost_name ≡ self.old.out.ghost_name }
        ensures kept { length self.new.out.now ≡ length self.old.out.now }
        ensures appended { Appended bytes.now self.old.at self.old.out.now self.new.at self.new.out.now }
    {
        let end = self.at + bytes.len();
        self.out[self.at..end].copy_from_slice(bytes);
        self.at = end;
    }

    // A count without zeros in front; room is asked for the longest.
    fn decimal(&mut self, n: u64)
        requires { self.old.at + 20 ≤ length self.old.out.now }
        ensures same_reference { self.new.out.ghost_name ≡ self.old.out.ghost_name }
        ensures kept { length self.new.out.now ≡ length self.old.out.now }
        ensures appended { Appended (decimal_of n) self.old.at self.old.out.now self.new.at self.new.out.now }
    {
        let digits = twenty(n);
        self.put(&digits[first_digit(&digits)..]);
    }

    // A name, a blank and a number.
    fn pair(&mut self, name: &[u8], n: u64)
        requires { self.old.at + length name.now + 21 ≤ length self.old.out.now }
        ensures same_reference { self.new.out.ghost_name ≡ self.old.out.ghost_name }
        ensures kept { length self.new.out.now ≡ length self.old.out.now }
        ensures paired { Paired name.now n self.old.at self.old.out.now self.new.at self.new.out.now }
    {
        self.put(name);
        self.put(b" ");
        self.decimal(n);
    }

    // What document 02 appends, each pair behind a blank, and the end of the line.
    fn tail(&mut self, answer: Answer)
        requires { self.old.at + tail_most ≤ length self.old.out.now }
        ensures same_reference { self.new.out.ghost_name ≡ self.old.out.ghost_name }
        ensures kept { length self.new.out.now ≡ length self.old.out.now }
        ensures appended { Appended (pairs_text (tail_pairs answer)) self.old.at self.old.out.now self.new.at self.new.out.now }
    {
        let account = answer.account;
        self.pair(b" why", answer.why as u64);
        self.pair(b" eta", account.eta);
        self.pair(b" mean", account.mean);
        self.pair(b" pwrss", account.pwrss);
        self.pair(b" ok", account.ok);
        self.put(b"\n");
    }

    // The first four counts of the account, each behind a blank, and what follows them.
    fn account(&mut self, answer: Answer)
        requires { self.old.at + 109 + tail_most ≤ length self.old.out.now }
        ensures same_reference { self.new.out.ghost_name ≡ self.old.out.ghost_name }
        ensures kept { length self.new.out.now ≡ length self.old.out.now }
        ensures appended { Appended (pairs_text (account_pairs answer.account (tail_pairs answer))) self.old.at self.old.out.now self.new.at self.new.out.now }
    {
        let account = answer.account;
        self.pair(b" fits", account.fits);
        self.pair(b" solves", account.solves);
        self.pair(b" tries", account.tries);
        self.pair(b" points", account.points);
        self.tail(answer);
    }
}

// The end line. A number of 64 bits has at most 20 digits, so 512 bytes hold it.
pub fn end_line(out: &mut [u8], answer: Answer) -> usize
    requires { 512 ≤ length out.old }
    ensures { Written (end_line answer) out.old result out.new }
{
    let mut line = Writer { out, at: 0 };
    line.pair(b"end", answer.number as u64);
    line.pair(b" order", answer.order as u64);
    line.pair(b" disp", u64::from(answer.converged));
    line.pair(b" iters", answer.iterations as u64);
    line.account(answer);
    line.at
}

// The line of a refusal.
pub fn refused_line(out: &mut [u8], fault: Fault) -> usize
    requires { 256 ≤ length out.old }
    ensures { Written (refused_line fault.number fault.byte) out.old result out.new }
{
    let mut line = Writer { out, at: 0 };
    line.pair(b"refused", fault.number);
    line.pair(b" at", fault.byte as u64);
    line.put(b"\n");
    line.at
}

// The line over what is printed of response i.
pub fn response_line(out: &mut [u8], i: usize) -> usize
    requires { 256 ≤ length out.old }
    ensures { Written (response_line i) out.old result out.new }
{
    let mut line = Writer { out, at: 0 };
    line.pair(b"response", i as u64);
    line.put(b"\n");
    line.at
}

// The line of a value: its name, its index and the sixteen digits of its pattern.
pub fn value_line(out: &mut [u8], name: &[u8], index: usize, x: f64) -> usize
    requires { (256 ≤ length out.old) × (length name.now ≤ 128) }
    ensures { Written (value_line name.now index x) out.old result out.new }
{
    let mut line = Writer { out, at: 0 };
    line.pair(name, index as u64);
    line.put(b" ");
    line.put(&text::hex16(base::pattern(x)));
    line.put(b"\n");
    line.at
}
