// Rows of Z' that share no observation, found without a look at every two: an observation's mark is the least number that was given to a row which stores it.
ghost use Rattle.std.specs.Prelude.{◌≡◌, ◌-◌, ◌≤◌, length};
ghost use Rattle.stored.specs.Marks.{lesser, least_mark, lowered};

// A number as a mark, which is a byte: 255 where it is above that.
pub fn mark_of(x: usize) -> u8
    ensures { result ≡ lesser 255 x }
{
    u8::try_from(x).unwrap_or(u8::MAX)
}

// The least mark of the observations of the entries from begin to end.
pub fn least_mark(columns: &[usize], begin: usize, end: usize, marks: &[u8]) -> u8
    requires { (begin ≤ end) × (end ≤ length columns.now) × (length marks.now ≡ 512) }
    ensures { result ≡ least_mark columns.now begin (end - begin) marks.now }
{
    let mut least = u8::MAX;
    for k in begin..end {
        let place = columns[k] % 512;
        least = least.min(marks[place]);
    }
    least
}

// The marks of the observations of the entries from begin to end, lowered to x where they are above it.
pub fn lower_marks(columns: &[usize], begin: usize, end: usize, x: u8, marks: &mut [u8])
    requires { (begin ≤ end) × (end ≤ length columns.now) × (length marks.old ≡ 512) }
    ensures { marks.new ≡ lowered columns.now begin x (end - begin) marks.old }
{
    for k in begin..end {
        let place = columns[k] % 512;
        marks[place] = marks[place].min(x);
    }
}
