// How a call can end, the number of each end, and the record that a call answers.
ghost use Rattle.std.specs.Prelude.{◌≡◌};
ghost use Rattle.model.specs.Answer.{end_number, refusal_number, is_end, blank_answer, refused_answer, unfitted_answer, fitted_answer};

use crate::counts::Account;

// Why an accepted call has no result.
#[derive(Clone, Copy, Debug, PartialEq, Eq)]
pub enum End {
    // A has no LDL' factors: a pivot cannot be divided by.
    SystemPivot,
    // The normal matrix has no Cholesky factor: the square root of a pivot cannot be divided by.
    NormalPivot,
    // Every try of an iteration was turned down.
    NoStep,
    // The iterations ran out before PWRSS came to rest.
    NoStop,
}

// Why a call is not accepted, in the order of the tests.
#[derive(Clone, Copy, Debug, PartialEq, Eq)]
pub enum Refusal {
    // The sizes are not all in range, or Z' has not one row for each effect.
    OutOfRange,
    // The number of responses is not one of 1 to 64.
    Responses,
    // Some lent slice is not as long as the sizes ask.
    Lengths,
    // Some work slice has too little room.
    Work,
    // The row starts or the columns of Z' are out of order or out of range.
    SparseRows,
    // Some input number is not finite.
    NotFinite,
    // The family does not go with the link.
    LinkForFamily,
    // Some response lies outside its family's range.
    ResponseRange,
    // The start asked for goes with the binomial family and no weight below 0, and this is not so.
    StartFit,
}

// What a call answers beside the lent results. `why` is 0 where a rule of that order was used, else the
// reason for staying with Laplace; `converged` is the flag of the dispersion loop.
#[derive(Clone, Copy)]
pub struct Answer {
    pub number: usize,
    pub deviance: f64,
    pub phi: f64,
    pub order: usize,
    pub why: usize,
    pub converged: bool,
    pub iterations: usize,
    pub account: Account,
}

// The number under which the end is told.
pub fn end_number(end: End) -> usize
    ensures { result ≡ end_number end }
{
    match end {
        End::SystemPivot => 10,
        End::NormalPivot => 11,
        End::NoStep => 12,
        End::NoStop => 13,
    }
}

// The number under which the refusal is told; 5 is free.
pub fn refusal_number(refusal: Refusal) -> usize
    ensures { result ≡ refusal_number refusal }
{
    match refusal {
        Refusal::OutOfRange => 1,
        Refusal::Responses => 8,
        Refusal::Lengths => 2,
        Refusal::Work => 7,
        Refusal::SparseRows => 6,
        Refusal::NotFinite => 3,
        Refusal::LinkForFamily => 4,
        Refusal::ResponseRange => 9,
        Refusal::StartFit => 27,
    }
}

// The number is that of a call which was accepted and has no result.
pub fn is_end(number: usize) -> bool
    ensures { result ≡ is_end number }
{
    (10..=13).contains(&number)
}

impl Answer {
    // What every answer without a result looks like.
    fn blank(number: usize, account: Account) -> Self
        ensures { result ≡ blank_answer number account }
    {
        Self {
            number,
            deviance: 0.0,
            phi: 0.0,
            order: 0,
            why: 0,
            converged: false,
            iterations: 0,
            account,
        }
    }

    // Nothing was done, so nothing is counted.
    pub fn refused(refusal: Refusal) -> Self
        ensures { result ≡ refused_answer refusal }
    {
        let number = refusal_number(refusal);
        let account = Account::none();
        Answer::blank(number, account)
    }

    // The work done is told, though it led to no result.
    pub fn unfitted(end: End, account: Account) -> Self
        ensures { result ≡ unfitted_answer end account }
    {
        let number = end_number(end);
        Answer::blank(number, account)
    }

    // Everything is told.
    pub fn fitted(
        deviance: f64,
        phi: f64,
        order: usize,
        why: usize,
        converged: bool,
        iterations: usize,
        account: Account,
    ) -> Self
        ensures { result ≡ fitted_answer deviance phi order why converged iterations account }
    {
        Self {
            number: 0,
            deviance,
            phi,
            order,
            why,
            converged,
            iterations,
            account,
        }
    }
}
