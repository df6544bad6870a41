// The account of work: what a call has done, counted.
ghost use Rattle.std.specs.Prelude.{◌≡◌};
ghost use Rattle.model.specs.Account.{no_counts, ◌⊞◌, one_fit, one_solve, points_of, SumFits};

// Inner fits, solves, tried steps and grid points, and of the tries those refused for eta, for a mean and for PWRSS, and those accepted.
#[derive(Clone, Copy, Debug, PartialEq, Eq, Default)]
pub struct Account {
    pub fits: u64,
    pub solves: u64,
    pub tries: u64,
    pub points: u64,
    pub eta: u64,
    pub mean: u64,
    pub pwrss: u64,
    pub ok: u64,
}

impl Account {
    // What every sum of accounts starts from.
    pub fn none() -> Self
        ensures { result ≡ no_counts }
    {
        Self::default()
    }

    // An inner fit begins.
    pub fn one_fit() -> Self
        ensures { result ≡ one_fit }
    {
        Self {
            fits: 1,
            ..Self::none()
        }
    }

    // An iteration gets as far as u.
    pub fn one_solve() -> Self
        ensures { result ≡ one_solve }
    {
        Self {
            solves: 1,
            ..Self::none()
        }
    }

    // n terms of log sums are computed.
    pub fn of_points(n: u64) -> Self
        ensures { result ≡ points_of n }
    {
        Self {
            points: n,
            ..Self::none()
        }
    }

    // The caps of a call keep every sum far below 2^64.
    pub fn plus(self, other: Account) -> Self
        requires { SumFits self other }
        ensures { result ≡ self ⊞ other }
    {
        let fits = self.fits + other.fits;
        let solves = self.solves + other.solves;
        let tries = self.tries + other.tries;
        let points = self.points + other.points;
        let eta = self.eta + other.eta;
        let mean = self.mean + other.mean;
        let pwrss = self.pwrss + other.pwrss;
        let ok = self.ok + other.ok;
        Self {
            fits,
            solves,
            tries,
            points,
            eta,
            mean,
            pwrss,
            ok,
        }
    }
}
