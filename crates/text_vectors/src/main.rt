// Runs the functions on texts and byte strings over cases from standard input, and prints a line for each case.
//
// A case is a line: `u` for a text or `b` for a byte string, the place in decimal, and the message in segments, one
// space between. A segment is bytes, two hexadecimal digits each; `*` and a number after them say how often they stand
// there.
//
// Where a string stands at the place, the line has its units, its content's bytes, the bytes that it takes, and those
// of its shortest form, as reading says them; its shortest form's length, as writing says it, and that form in
// segments; and what holds:
//   rest ok   the bytes around the stored form stay
//   back ok   it is read back, with the same units and bytes, as a shortest form
//   short ok  with one byte less of room the length is answered, and nothing stored
// Else it has `refused`, number and place; and `none ok` where there is no length, and nothing is stored. In a form,
// bytes that stand four times or more in a row, up to four at once, are a segment of their own, as few at once as do.
// What is no case is `bad`. vectors.py writes the cases, stdin, and what is to be printed, stdout.
#![tactic(auto)]

ghost use Rattle.std.specs.Prelude.{◌*◌, ◌≤◌, ◌<◌, length, IfSome};

use scalar::{Encoding, Refused, Unwritten};
use std::io::{BufWriter, Read, Write};
use std::{fmt, io};
use texts::StringRead;
use vectors::{Hex, Lines};

// The most bytes of cases.
const MOST_INPUT: u64 = 65_536;

// Where the form is stored.
const PLACE: usize = 5;

// How many bytes are lent after it.
const BEHIND: usize = 6;

// The longest message and the longest form that are looked at.
const LARGEST: usize = 270_000;

// A form that is longer is stored less often, to save time.
const LONG: usize = 5_000;

// Bytes that stand this often are a segment of their own.
const OFTEN: usize = 4;

// The most bytes at once that may be one.
const WIDEST: usize = 4;

// ---- cases

// The text or byte string at a place of a message.
#[derive(Clone, Copy)]
struct Item<'a> {
    kind: Encoding,
    message: &'a [u8],
    at: usize,
}

impl Item<'_> {
    // It as it is read, by the function for texts where it is one.
    fn read(self) -> Result<StringRead, Refused> {
        match self.kind {
            Encoding::Utf8 => texts::read_text(self.message, self.at),
            Encoding::Binary => texts::read_string(Encoding::Binary, self.message, self.at),
        }
    }

    // How long its shortest form is.
    fn length(self) -> usize {
        text_writer::string_length(self.kind, self.message, self.at)
    }

    // Its shortest form, stored at PLACE.
    fn store(self, out: &mut [u8]) -> Result<usize, Unwritten> {
        text_writer::write_string(self.kind, self.message, self.at, out, PLACE)
    }
}

fn kind_of(letter: u8) -> Option<Encoding> {
    match letter {
        b'u' => Some(Encoding::Utf8),
        b'b' => Some(Encoding::Binary),
        _ => None,
    }
}

// The case that the line is, its message stored.
fn parse<'a>(line: &[u8], message: &'a mut [u8]) -> Option<Item<'a>> {
    let [letter, b' ', ..] = line else {
        return None;
    };
    let kind = kind_of(*letter)?;
    let place = vectors::decimal(line, 2)?;
    let end = vectors::groups(line, place.next, message)?;
    if end.next != line.len() {
        return None;
    }
    Some(Item {
        kind,
        message: message.get(..end.size)?,
        at: place.value as usize,
    })
}

// ---- printing

// Bytes that repeat at the start of some: the bytes once, how often, and what comes after them.
#[derive(Clone, Copy)]
struct Group<'a> {
    once: &'a [u8],
    times: usize,
    rest: &'a [u8],
}

// How often the first `width` bytes stand in a row at the start.
fn times_of(bytes: &[u8], width: usize) -> usize
    requires { (0 < width) × (width ≤ length bytes.now) }
    ensures { (0 < width * result) × (width * result ≤ length bytes.now) }
{
    let later = &bytes[width..];
    let same = bytes
        .iter()
        .zip(later)
        .take_while(|(b, c)| *b == *c)
        .count();
    1 + same / width
}

// The fewest bytes at the start, up to WIDEST, that stand there OFTEN.
fn first_group(bytes: &[u8]) -> Option<Group<'_>>
    ensures { IfSome result (λ g. length g.rest.now < length bytes.now) }
{
    for width in 1..WIDEST.min(bytes.len()) + 1 {
        let times = times_of(bytes, width);
        if OFTEN <= times {
            let (once, rest) = (&bytes[..width], &bytes[width * times..]);
            return Some(Group { once, times, rest });
        }
    }
    None
}

// Bytes in segments, a space before each.
#[derive(Clone, Copy)]
struct Segments<'a>(&'a [u8]);

impl fmt::Display for Segments<'_> {
    fn fmt<W: fmt::Write>(&self, f: &mut fmt::Formatter<W>) -> fmt::Result {
        let mut left = self.0;
        let mut plain = false;
        while let [first, others @ ..] = left {
            match first_group(left) {
                Some(Group { once, times, rest }) => {
                    write!(f, " {}*{times}", Hex(once))?;
                    plain = false;
                    left = rest;
                }
                None => {
                    if !plain {
                        write!(f, " ")?;
                    }
                    write!(f, "{first:02x}")?;
                    plain = true;
                    left = others;
                }
            }
        }
        Ok(())
    }
}

// ---- reading and writing

// Storing the item, whose form has this length, where only `lent` bytes are lent is refused as it should be, and changes
// nothing.
fn refused(item: Item<'_>, length: usize, out: &mut [u8], lent: usize) -> bool {
    let Some(out) = out.get_mut(..lent) else {
        return false;
    };
    let due = if length == 0 {
        Unwritten::NoSuchForm
    } else {
        Unwritten::NoRoom { needed: length }
    };
    item.store(out) == Err(due) && vectors::unchanged(out, 0)
}

// The item is stored where `lent` bytes are lent.
fn fits(item: Item<'_>, length: usize, out: &mut [u8], lent: usize) -> bool {
    match out.get_mut(..lent) {
        Some(out) => item.store(out) == Ok(length),
        None => false,
    }
}

// The item, whose form ends at `end`, is refused where one byte less is lent. One that is not long is also refused where
// PLACE lies past what is lent, and stored where no byte more is lent.
fn room_told(item: Item<'_>, length: usize, out: &mut [u8], end: usize) -> bool
    requires { 0 < end }
{
    refused(item, length, out, end - 1)
        && (LONG < length || refused(item, length, out, PLACE - 1) && fits(item, length, out, end))
}

// The string at PLACE is read as one of these units and bytes, whose shortest form it is.
fn read_again(kind: Encoding, out: &[u8], read: StringRead, size: usize) -> bool {
    texts::read_string(kind, out, PLACE).is_ok_and(|r| {
        r.units == read.units && r.bytes == read.bytes && r.size == size && r.shortest == size
    })
}

// The form of `size` bytes that is stored in `out`, and what was kept.
fn say_stored(
    to: &mut impl Write,
    kind: Encoding,
    read: StringRead,
    out: &[u8],
    size: usize,
) -> io::Result<()> {
    let Some((before, rest)) = out.split_at_checked(PLACE) else {
        return Ok(());
    };
    let Some(form) = rest.get(..size) else {
        return Ok(());
    };
    write!(to, "{}", Segments(form))?;
    if vectors::unchanged(before, 0) && vectors::unchanged(out, PLACE + size) {
        write!(to, " rest ok")?;
    }
    if read_again(kind, out, read, size) {
        write!(to, " back ok")?;
    }
    Ok(())
}

// The shortest form of the item, which is read so, stored in `out`.
fn say_form(
    to: &mut impl Write,
    item: Item<'_>,
    read: StringRead,
    out: &mut [u8],
) -> io::Result<()> {
    let length = item.length();
    write!(to, "{length}")?;
    if LARGEST < length {
        return Ok(());
    }
    let end = PLACE + length;
    let Some(out) = out.get_mut(..end + BEHIND) else {
        return Ok(());
    };
    match item.store(out) {
        Ok(size) => say_stored(to, item.kind, read, out, size)?,
        Err(Unwritten::NoRoom { needed: _ }) => write!(to, " no room")?,
        Err(Unwritten::NoSuchForm) => write!(to, " none")?,
    }
    vectors::fill(out);
    if room_told(item, length, out, end) {
        write!(to, " short ok")?;
    }
    vectors::fill(out);
    Ok(())
}

// No such item has a length or is stored.
fn none_told(item: Item<'_>, out: &mut [u8]) -> bool {
    item.length() == 0 && refused(item, 0, out, PLACE + BEHIND)
}

fn answer(to: &mut impl Write, item: Item<'_>, out: &mut [u8]) -> io::Result<()> {
    match item.read() {
        Ok(read) => {
            let StringRead {
                units,
                bytes,
                size,
                shortest,
            } = read;
            write!(to, "{units} {bytes} {size} {shortest} ")?;
            say_form(to, item, read, out)
        }
        Err(Refused { refusal, place }) => {
            write!(to, "refused {} {place}", refusal.number())?;
            if none_told(item, out) {
                write!(to, " none ok")?;
            }
            Ok(())
        }
    }
}

// ---- lines

fn run_all(
    to: &mut impl Write,
    input: &[u8],
    message: &mut [u8],
    out: &mut [u8],
) -> io::Result<()> {
    for line in Lines::new(input) {
        match parse(line, message) {
            Some(item) => answer(to, item, out)?,
            None => write!(to, "bad")?,
        }
        writeln!(to)?;
    }
    Ok(())
}

fn main(rt: HostRuntime) -> io::Result<()> {
    let mut input = Vec::new(rt.alloc());
    rt.stdin().take(MOST_INPUT).read_to_end(&mut input)?;
    let mut message = [0u8; LARGEST];
    let mut out = [0u8; 270_100];
    vectors::fill(&mut out);
    let mut to = BufWriter::new(rt.alloc(), rt.stdout())?;
    run_all(&mut to, &input, &mut message, &mut out)?;
    to.flush()
}
