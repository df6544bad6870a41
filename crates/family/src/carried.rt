// Which links and families the port carries, and which pairs of them are valid.
ghost use Rattle.std.specs.Prelude.{◌≡◌};
ghost use Rattle.family.specs.Carried.{carried_link, link_of, carried_family, default_for, valid_for};

use model::{Family, Link};

// A carried link and a link are two types, as are the families: what is not carried cannot be passed to a formula.
// The definitions `carried_link` and `link_of` map them, and the theorem `carried_link_of` says that every link is carried, once.

// The links that have their formulas here.
#[derive(Clone, Copy, Debug, PartialEq, Eq)]
pub enum CarriedLink {
    Logit,
    Probit,
    Cloglog,
    Log,
    Identity,
    Inverse,
    Sqrt,
}

// The families that have their formulas here.
#[derive(Clone, Copy, Debug, PartialEq, Eq)]
pub enum CarriedFamily {
    Binomial,
    Poisson,
    Gaussian,
    Gamma,
}

impl From<Link> for CarriedLink {
    ghost from_gives = { λ link carried. carried ≡ carried_link link };

    fn from(link: Link) -> CarriedLink {
        match link {
            Link::Logit => CarriedLink::Logit,
            Link::Probit => CarriedLink::Probit,
            Link::Cloglog => CarriedLink::Cloglog,
            Link::Log => CarriedLink::Log,
            Link::Identity => CarriedLink::Identity,
            Link::Inverse => CarriedLink::Inverse,
            Link::Sqrt => CarriedLink::Sqrt,
        }
    }
}

impl From<CarriedLink> for Link {
    ghost from_gives = { λ carried link. link ≡ link_of carried };

    fn from(link: CarriedLink) -> Link {
        match link {
            CarriedLink::Logit => Link::Logit,
            CarriedLink::Probit => Link::Probit,
            CarriedLink::Cloglog => Link::Cloglog,
            CarriedLink::Log => Link::Log,
            CarriedLink::Identity => Link::Identity,
            CarriedLink::Inverse => Link::Inverse,
            CarriedLink::Sqrt => Link::Sqrt,
        }
    }
}

impl From<Family> for CarriedFamily {
    ghost from_gives = { λ family carried. carried ≡ carried_family family };

    fn from(family: Family) -> CarriedFamily {
        match family {
            Family::Binomial => CarriedFamily::Binomial,
            Family::Poisson => CarriedFamily::Poisson,
            Family::Gaussian => CarriedFamily::Gaussian,
            Family::Gamma => CarriedFamily::Gamma,
        }
    }
}

// The one way to a carried link.
pub fn carried_link(link: Link) -> CarriedLink
    ensures { result ≡ carried_link link }
{
    CarriedLink::from(link)
}

// The link that a carried one is.
pub fn link_of(link: CarriedLink) -> Link
    ensures { result ≡ link_of link }
{
    Link::from(link)
}

// The one way to a carried family.
pub fn carried_family(family: Family) -> CarriedFamily
    ensures { result ≡ carried_family family }
{
    CarriedFamily::from(family)
}

// The family's canonical link.
pub fn default_for(family: Family) -> Link
    ensures { result ≡ default_for family }
{
    match family {
        Family::Binomial => Link::Logit,
        Family::Poisson => Link::Log,
        Family::Gaussian => Link::Identity,
        Family::Gamma => Link::Inverse,
    }
}

// Whether R takes the link for the family.
#[tactic(auto, unfolding(crate::specs::Carried::valid_for, crate::specs::Carried::among, crate::specs::Carried::links_for))]
pub fn valid_for(link: Link, family: Family) -> bool
    ensures { result ≡ valid_for link family }
{
    matches!(
        (family, link),
        (Family::Binomial, Link::Logit | Link::Probit | Link::Cloglog)
            | (Family::Poisson, Link::Log | Link::Identity | Link::Sqrt)
            | (
                Family::Gaussian | Family::Gamma,
                Link::Identity | Link::Log | Link::Inverse
            )
    )
}
