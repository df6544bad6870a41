// Reads and writes the names of the links and prints what came of it, one line a group.
#![tactic(auto)]

use model::Link;

// The code of the link that the bytes name, 7 where they name none.
fn put_parsed(s: &[u8]) {
    match names::parse(s) {
        Some(link) => text::put_count(model::link_code(link) as u64),
        None => text::put_count(7),
    }
}

// The names as they are.
fn plain_names() {
    text::put_word(b"parse");
    put_parsed(b"logit");
    put_parsed(b"probit");
    put_parsed(b"cloglog");
    put_parsed(b"log");
    put_parsed(b"identity");
    put_parsed(b"inverse");
    put_parsed(b"sqrt");
    text::end_line();
}

// Capital letters and blanks; a zero byte is no blank.
fn trimmed_names() {
    text::put_word(b"parse");
    put_parsed(b" \t\n\x0b\x0c\rLoGiT \r\n");
    put_parsed(b"CLOGLOG");
    put_parsed(b"SQRT");
    put_parsed(b"Identity\0");
    put_parsed(b"\x08log");
    put_parsed(b"log\x0e");
    text::end_line();
}

// Names of no link: too short, too long, with a blank inside, none at all.
fn no_names() {
    text::put_word(b"parse");
    put_parsed(b"");
    put_parsed(b"   ");
    put_parsed(b"logi");
    put_parsed(b"logits");
    put_parsed(b"log it");
    text::end_line();
}

// Bytes outside ASCII.
fn other_bytes() {
    text::put_word(b"parse");
    put_parsed(b"l\xf6g");
    put_parsed(b"\xa0log");
    put_parsed(b"log\x85");
    put_parsed(b"\xc3\x89log");
    text::end_line();
}

fn name_line(link: Link) {
    let name = names::name(link);
    text::put_word(b"name");
    text::put_count(name.count as u64);
    for byte in name.bytes {
        text::put_count(u64::from(byte));
    }
    text::end_line();
}

fn link_names() {
    name_line(Link::Logit);
    name_line(Link::Probit);
    name_line(Link::Cloglog);
    name_line(Link::Log);
    name_line(Link::Identity);
    name_line(Link::Inverse);
    name_line(Link::Sqrt);
}

fn main() {
    plain_names();
    trimmed_names();
    no_names();
    other_bytes();
    link_names();
}
