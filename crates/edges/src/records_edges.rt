// The byte-level edges: each field at its limit and one past it, each spare byte set, each length from 0 to twice the record.
// A 1 is a record that is read, a 0 one that is not.
ghost use Rattle.std.specs.Prelude.{◌≤◌};

use cases::lines;
use numbers::bytes;
use std::io;

// The kinds of records. A record stands at the front of 128 bytes.
#[derive(Clone, Copy)]
enum Kind {
    Settings,
    Frame,
    Interval,
}

// A case names a kind by its first letter.
impl From<u8> for Kind {
    fn from(letter: u8) -> Kind {
        match letter {
            b's' => Kind::Settings,
            b'f' => Kind::Frame,
            _ => Kind::Interval,
        }
    }
}

impl Kind {
    // How many bytes a record is.
    fn size(self) -> usize
        ensures { result ≤ 64 }
    {
        match self {
            Kind::Settings => 64,
            Kind::Frame => 16,
            Kind::Interval => 48,
        }
    }

    // Whether the bytes are a record of this kind.
    fn is_read(self, s: &[u8]) -> bool {
        match self {
            Kind::Settings => settings::read(s).is_some(),
            Kind::Frame => frames::read(s).is_some(),
            Kind::Interval => intervals::read(s).is_some(),
        }
    }

    // Whether the first `len` bytes are read.
    fn show_front(self, rt: &impl Print, held: &[u8; 128], len: usize) -> io::Result<()> {
        let is_read = self.is_read(held.get(..len).unwrap_or(&[]));
        print!(rt; "{}", u8::from(is_read))
    }

    // Whether a whole record is read.
    fn show(self, rt: &impl Print, held: &[u8; 128]) -> io::Result<()> {
        self.show_front(rt, held, self.size())
    }
}

// Puts the number that is the `k`-th word. How many bytes it takes, 1, 4 or 8, is the first word, and its place the second.
pub fn put(held: &mut [u8; 128], case: &[u8], k: usize) {
    let at = lines::get_usize(case, 2);
    match lines::get_u8(case, 1) {
        1 => bytes::put_u8(held, at, lines::get_u8(case, k)),
        4 => bytes::put_u32(held, at, lines::get_u32(case, k)),
        _ => bytes::put_u64(held, at, lines::get_u64(case, k)),
    }
}

// Width, place, kind, how many numbers, the numbers, and the field's name: the record with each of the numbers.
pub fn field(rt: &impl Print, held: &[u8; 128], case: &[u8]) -> io::Result<()> {
    let kind = Kind::from(lines::letter(case, 3));
    let count = lines::get_usize(case, 4);
    if count <= 9 {
        rt.write_all(lines::rest(case, 5 + count))?;
        print!(rt; " ")?;
        for k in 5..5 + count {
            let mut other = *held;
            put(&mut other, case, k);
            kind.show(rt, &other)?;
        }
        println!(rt)?;
    }
    Ok(())
}

// Kind, the first spare byte and the one behind the last: the record with each of these bytes set to 1.
pub fn spare(rt: &impl Print, held: &[u8; 128], case: &[u8]) -> io::Result<()> {
    let kind = Kind::from(lines::letter(case, 1));
    print!(rt; "spare ")?;
    for at in lines::get_usize(case, 2)..lines::get_usize(case, 3) {
        let mut other = *held;
        bytes::put_u8(&mut other, at, 1);
        kind.show(rt, &other)?;
    }
    println!(rt)
}

// Kind: each length from 0 to twice the record.
pub fn lengths(rt: &impl Print, held: &[u8; 128], case: &[u8]) -> io::Result<()> {
    let kind = Kind::from(lines::letter(case, 1));
    print!(rt; "lengths ")?;
    for len in 0..=2 * kind.size() {
        kind.show_front(rt, held, len)?;
    }
    println!(rt)
}
