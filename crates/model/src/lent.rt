// The lists of numbers that a call takes, as they are lent.

// theta, the responses, the weights and the offset, each empty where it is absent, X row by row, and Z' by its row starts, columns and values.
#[derive(Clone, Copy)]
pub struct Inputs<'a> {
    pub theta: &'a [f64],
    pub y: &'a [f64],
    pub weights: &'a [f64],
    pub offset: &'a [f64],
    pub x: &'a [f64],
    pub starts: &'a [usize],
    pub columns: &'a [usize],
    pub values: &'a [f64],
}
