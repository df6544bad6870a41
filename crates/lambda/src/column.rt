// Where the columns of Λ stand in theta.
ghost use Rattle.std.specs.Prelude.{◌≡◌, true, ◌≤◌, ◌<◌};
ghost use Rattle.model.specs.Shape.{effects_of, good_shape};
ghost use Rattle.lambda.specs.Column.{column_start, column_of};

use model::Shape;

// Column j of Λ holds the numbers of theta from `first` on, `count` of them, in its rows from j on.
#[derive(Clone, Copy)]
pub struct Column {
    pub first: usize,
    pub count: usize,
}

// Where column c of a packed lower triangle of size k begins.
fn column_start(k: usize, c: usize) -> usize
    requires { (c ≤ k) × (k ≤ 8) }
    ensures { result ≡ column_start k c }
{
    let mut start = 0;
    for i in 0..c {
        start += k - i;
    }
    start
}

// The blocks before that of effect j are passed, with their effects and their numbers of theta.
pub fn column_of(shape: Shape, j: usize) -> Column
    requires { (good_shape shape ≡ true) × (j < effects_of shape) }
    ensures { result ≡ column_of shape j }
{
    let mut k = shape.k[0];
    let mut effects = shape.m[0] * k;
    let mut left = j;
    let mut first = 0;
    let mut i = 0;
    // `while`: the block of effect j is found before the blocks end; a `for` over them would need an answer behind its last turn.
    while effects <= left {
        left -= effects;
        first += k * (k + 1) / 2;
        i += 1;
        k = shape.k[i];
        effects = shape.m[i] * k;
    }
    let effect = left % k;
    let start = column_start(k, effect);
    Column {
        first: first + start,
        count: k - effect,
    }
}
