// The names of the links.
#![tactic(auto)]

ghost use Rattle.std.specs.Prelude.{◌≡◌, map};
ghost use Rattle.names.specs.Names.{is_blank, lower_of, name_of, all_links, named_among, parse_of, name_bytes};
ghost use Rattle.names.specs.Trimmed.{FrontAt, EndAt};

use model::Link;

// A name: the first `count` of the bytes, with zeros behind them. The theorem `parse_of_bytes` speaks of these two.
#[derive(Clone, Copy, Debug, PartialEq, Eq)]
pub struct LinkName {
    pub bytes: [u8; 8],
    pub count: usize,
}

// Every link, in the order of the codes.
const LINKS: [Link; 7] = [
    Link::Logit,
    Link::Probit,
    Link::Cloglog,
    Link::Log,
    Link::Identity,
    Link::Inverse,
    Link::Sqrt,
];

// Tab to carriage return, and the space. `is_ascii_whitespace` leaves out 11.
#[tactic(auto, unfolding(crate::specs::Names::is_blank))]
fn is_blank(b: u8) -> bool
    ensures { result ≡ is_blank b }
{
    matches!(b, 9..=13 | 32)
}

// How many blanks stand at the front.
fn blanks_before(s: &[u8]) -> usize
    ensures { FrontAt s.now result }
{
    for i in 0..s.len() {
        if !is_blank(s[i]) {
            return i;
        }
    }
    s.len()
}

// How many bytes are left without the blanks at the end.
fn kept(s: &[u8]) -> usize
    ensures { EndAt s.now result }
{
    for i in (0..s.len()).rev() {
        if !is_blank(s[i]) {
            return i + 1;
        }
    }
    0
}

// The name of a link, in small letters.
fn text(link: Link) -> &'static [u8]
    ensures { result.now ≡ name_of link }
{
    match link {
        Link::Logit => b"logit",
        Link::Probit => b"probit",
        Link::Cloglog => b"cloglog",
        Link::Log => b"log",
        Link::Identity => b"identity",
        Link::Inverse => b"inverse",
        Link::Sqrt => b"sqrt",
    }
}

// The link of a word without blanks around it.
fn named(word: &[u8]) -> Option<Link>
    ensures { result ≡ named_among all_links (map lower_of word.now) }
{
    for link in LINKS {
        if word.eq_ignore_ascii_case(text(link)) {
            return Some(link);
        }
    }
    None
}

// The link of a name, in letters of either case and with blanks around it or not.
#[tactic(auto, unfolding(crate::specs::Names::parse_of))]
pub fn parse(s: &[u8]) -> Option<Link>
    ensures { result ≡ parse_of s.now }
{
    let rest = &s[blanks_before(s)..];
    named(&rest[..kept(rest)])
}

// The name of a link, in small letters.
#[tactic(auto, unfolding(crate::specs::Names::name_bytes))]
pub fn name(link: Link) -> LinkName
    ensures { result ≡ name_bytes link }
{
    let text = text(link);
    let count = text.len();
    let mut bytes = [0; 8];
    bytes[..count].copy_from_slice(text);
    LinkName { bytes, count }
}
