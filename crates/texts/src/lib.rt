// Texts and byte strings: reading one at a place. The definitions are in scalar's specs/Scalars.antt.
#![tactic(auto)]

ghost use Rattle.std.specs.Prelude.{◌≡◌, ℕ, ◌+◌, ◌*◌, ◌/◌, ◌%◌, ◌<◌, ◌≤◌, Ok, length, IfSome};
ghost use Rattle.wire.specs.BigEndian.{joined};
ghost use Rattle.scalar.specs.declared.Encoding.TheVariants as Encoding;
ghost use Rattle.scalar.specs.Scalars.{char_lead, continued as continuedBy, characters as charactersOf, body as body_of};
ghost use Rattle.scalar.specs.Scalars.{last_heads, shortest_head};
ghost use Rattle.scalar.specs.TextShort.{short_to};
ghost use Rattle.texts.specs.Answers.{told_string, extent_at, told_extent, told_bytes, CharMet, head_form, HeadMet};
ghost use Rattle.texts.specs.Answers.{ChunkMet, WithinMet, PartsMet, HeadsMet, PassedMet, StringIs, PassedLength};
ghost use Rattle.scalar.specs.Answers.{measured_at};
ghost use Rattle.texts.specs.Ascii.{all_ascii, ascii_run, ascii_at, ShortText};
ghost use Rattle.texts.specs.At.{Opens, Halves, HighHalf};

use scalar::{CharLead, Encoding, Refusal, Refused};

// The message and a place stay two parameters, and where the place lies a clause, since each call has another place and
// the definitions speak of a place of the whole message: a struct of both would be made for one call and taken apart in
// it. Loops over characters and chunks are no iterators: each step takes as many bytes as it finds, or is refused.

// The units of the longest chunk.
const LONGEST_CHUNK: usize = 65_535;

// The bytes of a character of two units in UTF-8.
const SUPPLEMENTARY: usize = 4;

// How many bytes something takes, and how many its content has.
#[derive(Clone, Copy)]
pub(crate) struct Extent {
    size: usize,
    bytes: usize,
}

// A character, or some in a row: the bytes that are taken, those in UTF-8, and the units.
#[derive(Clone, Copy)]
pub(crate) struct CharRead {
    size: usize,
    bytes: usize,
    units: usize,
}

// What a byte begins as a chunk's head: how many bytes follow, what it holds itself, whether the chunk is the last.
#[derive(Clone, Copy)]
pub(crate) struct HeadForm {
    more: usize,
    held: u8,
    last: bool,
}

// A chunk's head: how many bytes it takes, the units that it counts, and whether the chunk is the last.
#[derive(Clone, Copy)]
pub(crate) struct HeadRead {
    size: usize,
    units: usize,
    last: bool,
}

// The parts of a shortest form: how many are cut off, and the units in the open one.
#[derive(Clone, Copy)]
pub(crate) struct Parts {
    cuts: usize,
    filled: usize,
}

// A chunk: the bytes of its head and those after it, the bytes of its content, its units, and whether it is the last.
#[derive(Clone, Copy)]
pub struct ChunkRead {
    pub head: usize,
    pub size: usize,
    pub bytes: usize,
    pub units: usize,
    pub last: bool,
}

// What passing a text or byte string finds: its units, its content's bytes, and the bytes that it takes in all.
#[derive(Clone, Copy)]
pub struct StringPassed {
    pub units: usize,
    pub bytes: usize,
    pub size: usize,
}

// What reading a text or byte string finds: its units, its content's bytes, the bytes that it takes in all, and those
// of its shortest form.
#[derive(Clone, Copy)]
pub struct StringRead {
    pub units: usize,
    pub bytes: usize,
    pub size: usize,
    pub shortest: usize,
}

// What the byte says as the first of three.
fn three_lead(b: u8) -> CharLead
    requires { (0xe0 ≤ b) × (b < 0xf0) }
    ensures { result ≡ char_lead b }
{
    match b {
        0xe0 => CharLead::Basic {
            more: 2,
            from: 0xa0,
            below: 0xc0,
        },
        0xed => CharLead::Halved,
        _ => CharLead::Basic {
            more: 2,
            from: 0x80,
            below: 0xc0,
        },
    }
}

// What the byte says as the first of four.
fn four_lead(b: u8) -> CharLead
    requires { (0xf0 ≤ b) × (b < 0xf5) }
    ensures { result ≡ char_lead b }
{
    match b {
        0xf0 => CharLead::Supplementary {
            from: 0x90,
            below: 0xc0,
        },
        0xf4 => CharLead::Supplementary {
            from: 0x80,
            below: 0x90,
        },
        _ => CharLead::Supplementary {
            from: 0x80,
            below: 0xc0,
        },
    }
}

// What the byte says as a character's first.
fn char_lead(b: u8) -> CharLead
    ensures { result ≡ char_lead b }
{
    match b {
        0x00..=0x7f => CharLead::Basic {
            more: 0,
            from: 0,
            below: 0,
        },
        0xc2..=0xdf => CharLead::Basic {
            more: 1,
            from: 0x80,
            below: 0xc0,
        },
        0xe0..=0xef => three_lead(b),
        0xf0..=0xf4 => four_lead(b),
        _ => CharLead::NoChar,
    }
}

// Whether `more` bytes from `at` on go on with the character at `place`, the first of them from `from` to below `below`.
fn continued(
    message: &[u8],
    place: usize,
    at: usize,
    more: usize,
    from: u8,
    below: u8,
) -> Result<(), Refused>
    requires { at ≤ length message.now }
    ensures { told_bytes more result ≡ extent_at (continuedBy place more from below) message.now at }
{
    let len = message.len();
    let mut lo = from;
    let mut hi = below;
    for k in 0..more {
        if len <= at + k {
            return Err(Refused {
                refusal: Refusal::Cut,
                place: len,
            });
        }
        let b = message[at + k];
        if b < lo || hi <= b {
            return Err(Refused {
                refusal: Refusal::Utf8,
                place,
            });
        }
        lo = 0x80;
        hi = 0xc0;
    }
    Ok(())
}

// The character at `at`, of so many units, with `more` bytes after its first.
fn opened(
    message: &[u8],
    at: usize,
    more: usize,
    from: u8,
    below: u8,
    units: usize,
) -> Result<CharRead, Refused>
    requires { (at < length message.now) × Opens message.now at more from below units }
    ensures { (left : ℕ) → units ≤ left → CharMet left message.now at result }
{
    continued(message, at, at + 1, more, from, below)?;
    Ok(CharRead {
        size: more + 1,
        bytes: more + 1,
        units,
    })
}

// The pair of halves at `at`, after its first two bytes: one character, of four bytes in UTF-8 and two units.
#[inline(always)]
fn pair(message: &[u8], at: usize) -> Result<CharRead, Refused>
    requires { (at + 1 < length message.now) × HighHalf message.now at }
    ensures { (left : ℕ) → 2 ≤ left → CharMet left message.now at result }
{
    continued(message, at, at + 2, 1, 0x80, 0xc0)?;
    continued(message, at, at + 3, 1, 0xed, 0xee)?;
    continued(message, at, at + 4, 1, 0xb0, 0xc0)?;
    continued(message, at, at + 5, 1, 0x80, 0xc0)?;
    Ok(CharRead {
        size: 6,
        bytes: SUPPLEMENTARY,
        units: 2,
    })
}

// The character at `at`, whose first byte is ed, where so many units are left: of three bytes, or a pair of halves.
#[inline(always)]
#[tactic(auto, using(crate::proofs::Strings::lone_low, crate::proofs::Strings::lone_high))]
fn halved(message: &[u8], at: usize, left: usize) -> Result<CharRead, Refused>
    requires { (at < length message.now) × (0 < left) × Halves message.now at }
    ensures { CharMet left message.now at result }
{
    let next = at + 1;
    if message.len() <= next {
        return opened(message, at, 2, 0x80, 0xa0, 1);
    }
    let d = message[next];
    if d < 0xa0 {
        return opened(message, at, 2, 0x80, 0xa0, 1);
    }
    if 0xb0 <= d || left < 2 {
        return Err(Refused {
            refusal: Refusal::Utf8,
            place: at,
        });
    }
    pair(message, at)
}

// The character at `at`, where so many units are left. Both walks over characters have it inlined, with the two
// functions above: by a call, its answer goes through memory for each character. A character of three bytes has an arm
// of its own: with their number known, the compiler unrolls the loop of `continued`.
#[inline(always)]
fn character(message: &[u8], at: usize, left: usize) -> Result<CharRead, Refused>
    requires { (at ≤ length message.now) × (0 < left) }
    ensures { CharMet left message.now at result }
{
    let len = message.len();
    if len <= at {
        return Err(Refused {
            refusal: Refusal::Cut,
            place: len,
        });
    }
    match char_lead(message[at]) {
        CharLead::Basic {
            more: 2,
            from,
            below,
        } => opened(message, at, 2, from, below, 1),
        CharLead::Basic { more, from, below } => opened(message, at, more, from, below, 1),
        CharLead::Supplementary { from, below } if 2 <= left => opened(
            message, at, 3, from, below, 2,
        ),
        CharLead::Halved => halved(message, at, left),
        _ => Err(Refused {
            refusal: Refusal::Utf8,
            place: at,
        }),
    }
}

// Whether the four bytes are ASCII: the highest bit of each is clear. This and the test of eight stay two: a trait over
// the two widths would have from_le_bytes and the mask of each as members, and be longer than both.
#[inline(always)]
fn four_ascii(bytes: [u8; 4]) -> bool
    ensures { result ≡ all_ascii bytes }
{
    let word = u32::from_le_bytes(bytes);
    word & 0x8080_8080 == 0
}

// Whether the eight bytes are ASCII.
#[inline(always)]
fn eight_ascii(bytes: [u8; 8]) -> bool
    ensures { result ≡ all_ascii bytes }
{
    let word = u64::from_le_bytes(bytes);
    word & 0x8080_8080_8080_8080 == 0
}

// Whether the block of four words is ASCII. One test tells all four: a branch after each word takes longer.
#[inline(always)]
fn block_ascii(block: &[u8; 32]) -> bool
    ensures { result ≡ all_ascii block.now }
{
    let (words, _) = block.as_chunks();
    words
        .iter()
        .fold(true, |ascii, word| ascii & eight_ascii(*word))
}

// How many blocks of four words are ASCII at the start.
#[inline(always)]
fn ascii_blocks(bytes: &[u8]) -> usize
    ensures { result ≡ ascii_run bytes.now / 32 }
{
    let (blocks, _) = bytes.as_chunks();
    blocks
        .iter()
        .take_while(|block| block_ascii(*block))
        .count()
}

// How many words are ASCII at the start.
#[inline(always)]
fn ascii_words(bytes: &[u8]) -> usize
    ensures { result ≡ ascii_run bytes.now / 8 }
{
    let (words, _) = bytes.as_chunks();
    words.iter().take_while(|word| eight_ascii(**word)).count()
}

// How many bytes are ASCII at the start, one by one.
#[inline(always)]
fn ascii_singles(bytes: &[u8]) -> usize
    ensures { result ≡ ascii_run bytes.now }
{
    bytes.iter().take_while(|b| b.is_ascii()).count()
}

// How many bytes are ASCII at the start: word by word, and then the bytes of the next word.
fn ascii_bytes(bytes: &[u8]) -> usize
    ensures { result ≡ ascii_run bytes.now }
{
    let n = 8 * ascii_words(bytes);
    n + ascii_singles(&bytes[n..])
}

// How many characters from `at` on are ASCII, up to so many units: of one byte and one unit each.
pub fn ascii(message: &[u8], at: usize, units: usize) -> usize
    ensures { result ≡ ascii_at message.now at units }
{
    let len = message.len();
    if len <= at || 0x80 <= message[at] {
        return 0;
    }
    ascii_bytes(&message[at..at + units.min(len - at)])
}

// How many characters from `at` on are ASCII, four words by four words, up to so many units: long plain texts begin so.
fn ascii_start(message: &[u8], at: usize, units: usize) -> usize
    requires { at ≤ length message.now }
    ensures { result ≡ 32 * (ascii_at message.now at units / 32) }
{
    let most = units.min(message.len() - at);
    32 * ascii_blocks(&message[at..at + most])
}

// Characters of so many units from `at` on.
fn characters(message: &[u8], at: usize, units: usize) -> Result<Extent, Refused>
    requires { at ≤ length message.now }
    ensures { told_extent result ≡ extent_at (charactersOf units) message.now at }
{
    let start = ascii_start(message, at, units);
    let mut here = at + start;
    let mut left = units - start;
    let mut bytes = start;
    while 0 < left {
        let n = ascii(message, here, left);
        if 0 < n {
            here += n;
            bytes += n;
            left -= n;
        } else {
            let c = character(message, here, left)?;
            here += c.size;
            bytes += c.bytes;
            left -= c.units;
        }
    }
    Ok(Extent {
        size: here - at,
        bytes,
    })
}

// The content of a chunk of so many units from `at` on. The bytes of a byte string are not looked at.
fn body(kind: Encoding, message: &[u8], at: usize, units: usize) -> Result<Extent, Refused>
    requires { at ≤ length message.now }
    ensures { told_extent result ≡ extent_at (body_of kind units) message.now at }
{
    match kind {
        Encoding::Utf8 => characters(message, at, units),
        Encoding::Binary => {
            let len = message.len();
            if len - at < units {
                return Err(Refused {
                    refusal: Refusal::Cut,
                    place: len,
                });
            }
            Ok(Extent {
                size: units,
                bytes: units,
            })
        }
    }
}

// What the byte begins as the head of a chunk of this kind.
fn head_form(kind: Encoding, b: u8) -> Option<HeadForm>
    ensures { result ≡ head_form kind b }
{
    let (more, held, last) = match (kind, b) {
        (Encoding::Utf8, 0x00..=0x1f) => (0, b, true),
        (Encoding::Utf8, 0x30..=0x33) => (1, b - 0x30, true),
        (Encoding::Utf8, 0x53) => (2, 0, true),
        (Encoding::Utf8, 0x52) => (2, 0, false),
        (Encoding::Binary, 0x20..=0x2f) => (0, b - 0x20, true),
        (Encoding::Binary, 0x34..=0x37) => (1, b - 0x34, true),
        (Encoding::Binary, 0x42) => (2, 0, true),
        (Encoding::Binary, 0x41) => (2, 0, false),
        _ => return None,
    };
    Some(HeadForm { more, held, last })
}

// The length that a head says: what its first byte holds, and up to two bytes more, in this order: with a loop, or all
// cases in one match, strings in short chunks take longer.
fn head_units(held: u8, more: &[u8]) -> usize
    requires { length more.now ≤ 2 }
    ensures { result ≡ joined held more.now }
{
    let held = usize::from(held);
    let [a, rest @ ..] = more else {
        return held;
    };
    let units = held * 256 + usize::from(*a);
    match rest {
        [b] => units * 256 + usize::from(*b),
        _ => units,
    }
}

// The head of the chunk at `at`.
fn head(kind: Encoding, message: &[u8], at: usize) -> Result<HeadRead, Refused>
    ensures { HeadMet kind message.now at result }
{
    let len = message.len();
    let cut = Refused {
        refusal: Refusal::Cut,
        place: len,
    };
    if len <= at {
        return Err(cut);
    }
    let Some(form) = head_form(kind, message[at]) else {
        return Err(Refused {
            refusal: Refusal::Byte,
            place: at,
        });
    };
    if len - at <= form.more {
        return Err(cut);
    }
    Ok(HeadRead {
        size: form.more + 1,
        units: head_units(form.held, &message[at + 1..at + 1 + form.more]),
        last: form.last,
    })
}

// Whether the bytes, fewer than four, are ASCII.
#[inline(always)]
fn few_ascii(bytes: &[u8]) -> bool
    requires { length bytes.now < 4 }
    ensures { result ≡ all_ascii bytes.now }
{
    match bytes {
        [a, b, c] => a.is_ascii() & b.is_ascii() & c.is_ascii(),
        [a, b] => a.is_ascii() & b.is_ascii(),
        [a] => a.is_ascii(),
        _ => true,
    }
}

// Whether the bytes are ASCII. Up to three are told without a loop, and up to sixteen by the first and the last eight
// or four of them.
#[inline(always)]
fn short_ascii(bytes: &[u8]) -> bool
    ensures { result ≡ all_ascii bytes.now }
{
    let n = bytes.len();
    if n <= 8 {
        if let (Some(first), Some(last)) = (bytes.first_chunk(), bytes.last_chunk()) {
            return four_ascii(*first) && four_ascii(*last);
        }
        return few_ascii(bytes);
    }
    if n <= 16 {
        if let (Some(first), Some(last)) = (bytes.first_chunk(), bytes.last_chunk()) {
            return eight_ascii(*first) && eight_ascii(*last);
        }
    }
    ascii_bytes(bytes) == n
}

// How many characters the short text at `at` has, where all of them are ASCII: the byte there counts them.
#[inline(always)]
fn short_text(message: &[u8], at: usize) -> Option<usize>
    ensures { IfSome result (ShortText message.now at) }
{
    let n = usize::from(*message.get(at)?);
    if 0x20 <= n || message.len() - at <= n || !short_ascii(&message[at + 1..at + 1 + n]) {
        return None;
    }
    Some(n)
}

// The chunk at `at`, by its head and then its content.
pub fn chunk(kind: Encoding, message: &[u8], at: usize) -> Result<ChunkRead, Refused>
    ensures { ChunkMet kind message.now at result }
{
    let h = head(kind, message, at)?;
    let content = body(kind, message, at + h.size, h.units)?;
    Ok(ChunkRead {
        head: h.size,
        size: content.size,
        bytes: content.bytes,
        units: h.units,
        last: h.last,
    })
}

// The chunk at `at`. A short text of ASCII is tried first.
pub fn first_chunk(kind: Encoding, message: &[u8], at: usize) -> Result<ChunkRead, Refused>
    ensures { ChunkMet kind message.now at result }
{
    if let Encoding::Utf8 = kind {
        if let Some(n) = short_text(message, at) {
            return Ok(ChunkRead {
                head: 1,
                size: n,
                bytes: n,
                units: n,
                last: true,
            });
        }
    }
    chunk(kind, message, at)
}

// ---- where the shortest form of a text is cut

// Characters of so many units from `at` on, as many as fit `room` of them: one of two units that does not fit is left.
fn characters_within(
    message: &[u8],
    at: usize,
    units: usize,
    room: usize,
) -> Result<CharRead, Refused>
    requires { (at ≤ length message.now) × (room < units) }
    ensures { WithinMet units room message.now at result }
{
    let mut here = at;
    let mut used: usize = 0;
    let mut bytes: usize = 0;
    while used < room {
        let n = ascii(message, here, room - used);
        if 0 < n {
            here += n;
            used += n;
            bytes += n;
        } else {
            let c = character(message, here, units - used)?;
            if room - used < c.units {
                break;
            }
            here += c.size;
            used += c.units;
            bytes += c.bytes;
        }
    }
    Ok(CharRead {
        size: here - at,
        bytes,
        units: used,
    })
}

// The parts of the shortest form after a chunk's content of so many units at `at`, by those before it. A chunk in which
// a cut falls is passed over once more, up to the cut.
fn parts_after(
    kind: Encoding,
    message: &[u8],
    at: usize,
    units: usize,
    before: Parts,
) -> Result<Parts, Refused>
    requires inside { (at ≤ length message.now) × (units ≤ 65535) }
    requires open { (before.filled ≤ 65535) × (before.cuts < length message.now) }
    ensures { PartsMet kind units message.now at before result }
{
    let room = LONGEST_CHUNK - before.filled;
    if units <= room {
        return Ok(Parts {
            cuts: before.cuts,
            filled: before.filled + units,
        });
    }
    let front = match kind {
        Encoding::Binary => room,
        Encoding::Utf8 => characters_within(message, at, units, room)?.units,
    };
    Ok(Parts {
        cuts: before.cuts + 1,
        filled: units - front,
    })
}

// The units from which on the head of a last chunk takes two bytes.
fn two_from(kind: Encoding) -> usize
    ensures { result ≡ short_to kind + 1 }
{
    match kind {
        Encoding::Utf8 => 32,
        Encoding::Binary => 16,
    }
}

// How many bytes the head of a last chunk of so many units takes; 0, and not None, where they are more than a chunk has:
// so its promise says (the length of no bytes).
pub fn last_head_size(kind: Encoding, units: usize) -> usize
    ensures { result ≡ length (shortest_head (last_heads kind) units) }
{
    if units < two_from(kind) {
        return 1;
    }
    if units < 1024 {
        return 2;
    }
    if units <= LONGEST_CHUNK {
        return 3;
    }
    0
}

// The bytes of the heads in the shortest form of the text or byte string at `at`: three for each part that is cut off,
// and the head of the last one.
fn heads_length(kind: Encoding, message: &[u8], at: usize) -> Result<usize, Refused>
    ensures { HeadsMet kind message.now at result }
{
    let len = message.len();
    if len <= at {
        return Err(Refused {
            refusal: Refusal::Cut,
            place: len,
        });
    }
    let mut here = at;
    let mut parts = Parts { cuts: 0, filled: 0 };
    loop {
        let c = chunk(kind, message, here)?;
        parts = parts_after(kind, message, here + c.head, c.units, parts)?;
        here += c.head + c.size;
        if c.last {
            return Ok(3 * parts.cuts + last_head_size(kind, parts.filled));
        }
    }
}

// The bytes of the shortest form of the text or byte string at `at`, where it has so many units and content's bytes.
// Only one that is too long for a chunk is gone through once more.
pub fn passed_length(kind: Encoding, message: &[u8], at: usize, units: usize, bytes: usize) -> usize
    ensures { PassedLength kind message.now at units bytes result }
{
    let heads = if units <= LONGEST_CHUNK {
        last_head_size(kind, units)
    } else {
        heads_length(kind, message, at).unwrap_or(0)
    };
    bytes.wrapping_add(heads)
}

// ---- texts and byte strings

// The text or byte string at the place `at` of the message, which is not measured.
pub fn pass_string(kind: Encoding, message: &[u8], at: usize) -> Result<StringPassed, Refused>
    ensures { PassedMet kind message.now at result }
{
    let len = message.len();
    if len <= at {
        return Err(Refused {
            refusal: Refusal::Cut,
            place: len,
        });
    }
    let mut here = at;
    let mut units: usize = 0;
    let mut bytes: usize = 0;
    loop {
        let c = chunk(kind, message, here)?;
        here += c.head + c.size;
        units += c.units;
        bytes += c.bytes;
        if c.last {
            return Ok(StringPassed {
                units,
                bytes,
                size: here - at,
            });
        }
    }
}

// The text at the place `at` of the message, which is not measured. A short one of ASCII is tried first.
#[inline(always)]
pub fn pass_text(message: &[u8], at: usize) -> Result<StringPassed, Refused>
    ensures { PassedMet Encoding.Utf8 message.now at result }
{
    if let Some(n) = short_text(message, at) {
        return Ok(StringPassed {
            units: n,
            bytes: n,
            size: n + 1,
        });
    }
    pass_string(Encoding::Utf8, message, at)
}

// The text or byte string at `at` as it was passed, with its length.
fn measured(kind: Encoding, message: &[u8], at: usize, passed: StringPassed) -> StringRead
    requires { StringIs kind message.now at passed.units passed.bytes passed.size }
    ensures { told_string (Ok result) ≡ measured_at kind message.now at }
{
    StringRead {
        units: passed.units,
        bytes: passed.bytes,
        size: passed.size,
        shortest: passed_length(kind, message, at, passed.units, passed.bytes),
    }
}

// The text or byte string at the place `at` of the message.
pub fn read_string(kind: Encoding, message: &[u8], at: usize) -> Result<StringRead, Refused>
    ensures { told_string result ≡ measured_at kind message.now at }
{
    let passed = pass_string(kind, message, at)?;
    Ok(measured(kind, message, at, passed))
}

// The text at the place `at` of the message. A short one of ASCII is tried first.
pub fn read_text(message: &[u8], at: usize) -> Result<StringRead, Refused>
    ensures { told_string result ≡ measured_at Encoding.Utf8 message.now at }
{
    let passed = pass_text(message, at)?;
    Ok(measured(Encoding::Utf8, message, at, passed))
}
