// What a fit is given, as it is lent: one record for what every step hands on.
use family::{CarriedFamily, CarriedLink};
use model::Shape;
use stored::Sparse;

// What the predictor is made of: n observations, p columns of X, row by row, q effects by their shape and theta, Z', and the offset, empty where it is absent.
#[derive(Clone, Copy)]
pub struct Design<'a> {
    pub n: usize,
    pub p: usize,
    pub q: usize,
    pub shape: Shape,
    pub theta: &'a [f64],
    pub offset: &'a [f64],
    pub x: &'a [f64],
    pub zt: Sparse<'a>,
}

// The design, the responses with their family and link, and the prior weights, empty where they are absent.
#[derive(Clone, Copy)]
pub struct Given<'a> {
    pub family: CarriedFamily,
    pub link: CarriedLink,
    pub y: &'a [f64],
    pub weights: &'a [f64],
    pub design: Design<'a>,
}
