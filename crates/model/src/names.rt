// The families, links and starts by name, their codes in a job, and the limit of iterations.
ghost use Rattle.std.specs.Prelude.{◌≡◌};
ghost use Rattle.model.specs.Names.{Coded, family_code, family_coded, link_code, link_coded, start_code, start_coded, is_inverse, limit_of};

// A family's code is its place here.
#[derive(Clone, Copy, Debug, PartialEq, Eq)]
pub enum Family {
    Binomial,
    Poisson,
    Gaussian,
    Gamma,
}

// A link's code is its place here.
#[derive(Clone, Copy, Debug, PartialEq, Eq)]
pub enum Link {
    Logit,
    Probit,
    Cloglog,
    Log,
    Identity,
    Inverse,
    Sqrt,
}

// How the starting means are made: by the family's rule, or with the weights as trial counts. A start's code is its place here.
#[derive(Clone, Copy, Debug, PartialEq, Eq)]
pub enum Start {
    Usual,
    Trials,
}

// A number that is no code of what was asked for.
#[derive(Clone, Copy, Debug, PartialEq, Eq)]
pub struct UnknownCode(pub usize);

impl From<Family> for usize {
    ghost from_gives = { λ family code. code ≡ family_code family };

    fn from(family: Family) -> usize {
        match family {
            Family::Binomial => 0,
            Family::Poisson => 1,
            Family::Gaussian => 2,
            Family::Gamma => 3,
        }
    }
}

impl TryFrom<usize> for Family {
    type Error = UnknownCode;

    ghost try_from_gives = { λ code found. Coded (family_coded code) code found };

    #[tactic(auto, using(crate::proofs::Codes::no_family), unfolding(crate::specs::Names::family_coded))]
    fn try_from(code: usize) -> Result<Self, UnknownCode> {
        match code {
            0 => Ok(Family::Binomial),
            1 => Ok(Family::Poisson),
            2 => Ok(Family::Gaussian),
            3 => Ok(Family::Gamma),
            _ => Err(UnknownCode(code)),
        }
    }
}

impl From<Link> for usize {
    ghost from_gives = { λ link code. code ≡ link_code link };

    fn from(link: Link) -> usize {
        match link {
            Link::Logit => 0,
            Link::Probit => 1,
            Link::Cloglog => 2,
            Link::Log => 3,
            Link::Identity => 4,
            Link::Inverse => 5,
            Link::Sqrt => 6,
        }
    }
}

// A job's three bits can be 7.
impl TryFrom<usize> for Link {
    type Error = UnknownCode;

    ghost try_from_gives = { λ code found. Coded (link_coded code) code found };

    #[tactic(auto, using(crate::proofs::Codes::no_link), unfolding(crate::specs::Names::link_coded))]
    fn try_from(code: usize) -> Result<Self, UnknownCode> {
        match code {
            0 => Ok(Link::Logit),
            1 => Ok(Link::Probit),
            2 => Ok(Link::Cloglog),
            3 => Ok(Link::Log),
            4 => Ok(Link::Identity),
            5 => Ok(Link::Inverse),
            6 => Ok(Link::Sqrt),
            _ => Err(UnknownCode(code)),
        }
    }
}

impl From<Start> for usize {
    ghost from_gives = { λ start code. code ≡ start_code start };

    fn from(start: Start) -> usize {
        match start {
            Start::Usual => 0,
            Start::Trials => 1,
        }
    }
}

// A caller's settings can have any number.
impl TryFrom<usize> for Start {
    type Error = UnknownCode;

    ghost try_from_gives = { λ code found. Coded (start_coded code) code found };

    #[tactic(auto, using(crate::proofs::Codes::no_start), unfolding(crate::specs::Names::start_coded))]
    fn try_from(code: usize) -> Result<Self, UnknownCode> {
        match code {
            0 => Ok(Start::Usual),
            1 => Ok(Start::Trials),
            _ => Err(UnknownCode(code)),
        }
    }
}

// For a job's header.
pub fn family_code(family: Family) -> usize
    ensures { result ≡ family_code family }
{
    usize::from(family)
}

// From a job's header.
pub fn family_coded(code: usize) -> Option<Family>
    ensures { result ≡ family_coded code }
{
    Family::try_from(code).ok()
}

// For a job's header.
pub fn link_code(link: Link) -> usize
    ensures { result ≡ link_code link }
{
    usize::from(link)
}

// From a job's header.
pub fn link_coded(code: usize) -> Option<Link>
    ensures { result ≡ link_coded code }
{
    Link::try_from(code).ok()
}

// For a job's header.
pub fn start_code(start: Start) -> usize
    ensures { result ≡ start_code start }
{
    usize::from(start)
}

// From a caller's settings.
pub fn start_coded(code: usize) -> Option<Start>
    ensures { result ≡ start_coded code }
{
    Start::try_from(code).ok()
}

// The inverse link has a limit, a number of tries and a test of its own.
pub fn is_inverse(link: Link) -> bool
    ensures { result ≡ is_inverse link }
{
    matches!(link, Link::Inverse)
}

// How many iterations an inner fit may take.
#[tactic(auto, unfolding(crate::specs::Names::limit_of))]
pub fn limit_of(limit: Option<usize>, link: Link) -> usize
    ensures { result ≡ limit_of limit link }
{
    match limit {
        Some(l) => l,
        None if is_inverse(link) => 1000,
        None => 100,
    }
}
