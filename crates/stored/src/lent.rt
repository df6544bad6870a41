// Z' as it is lent.

// A matrix by its rows: row a has the entries from starts[a] to starts[a + 1], each with its column, an observation, and its value.
#[derive(Clone, Copy)]
pub struct Sparse<'a> {
    pub starts: &'a [usize],
    pub columns: &'a [usize],
    pub values: &'a [f64],
}
