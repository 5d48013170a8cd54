// The shortest form of a text or byte string at a place of a source: its length, and the form stored in a lent slice.
// Its content, stored in a lent slice.
#![tactic(auto)]

ghost use Rattle.std.specs.Prelude.{◌≡◌, [], ◌∷◌, ◌+◌, ◌^◌, ◌≤◌, ◌<◌, length, is_some, IfSome};
ghost use Rattle.std.proofs.Math.Option.{some};
ghost use Rattle.flow.specs.Flow.{stored};
ghost use Rattle.scalar.specs.declared.Encoding.TheVariants as Encoding;
ghost use Rattle.scalar.specs.Scalars.{weight as weightOf, part_head, last_heads, shortest_head, string_at};
ghost use Rattle.scalar.specs.Decoded.{pair_in, four_in};
ghost use Rattle.scalar.specs.Answers.{report, report_of, output_of, length_of, content_read, item_form, sized_form};
ghost use Rattle.text_writer.specs.Writing.{bytes_left, Going, singles_at, PieceMet, NextMet};
ghost use Rattle.text_writer.specs.Writing.{opening, Copyable, CopyMet, HeadsOf, laid, IsItem, FoundMet, Lays};

use scalar::{Encoding, Unwritten};
use texts::ChunkRead;

// The units of the longest chunk.
const LONGEST_CHUNK: usize = 65_535;

// Where the content of a text or byte string goes on: the place of its next byte, the bytes left in that chunk, those
// bytes' units, whether the chunk is the last, and whether its bytes stand in the content as they are.
#[derive(Clone, Copy)]
pub(crate) struct Cursor {
    pub here: usize,
    pub left: usize,
    pub units: usize,
    pub last: bool,
    pub plain: bool,
}

// The codes of heads: of a last chunk's, of one byte, up to `few` units, of two and of three bytes; and of another
// chunk's.
#[derive(Clone, Copy)]
pub(crate) struct Heads {
    pub one: u64,
    pub few: usize,
    pub two: u64,
    pub three: u64,
    pub part: u64,
}

// Bytes of a chunk that are passed at once: how many, those that the content has for them, and their units.
#[derive(Clone, Copy)]
pub(crate) struct Piece {
    pub size: usize,
    pub bytes: usize,
    pub units: usize,
}

// What is copied of a content: its bytes and its units, and the cursor after it.
#[derive(Clone, Copy)]
pub(crate) struct Copied {
    pub next: Cursor,
    pub bytes: usize,
    pub units: usize,
}

// A text or byte string: where its content begins, its units and its bytes.
#[derive(Clone, Copy)]
pub(crate) struct Item {
    pub first: Cursor,
    pub units: usize,
    pub bytes: usize,
}

// The kind and the source stay parameters, as the functions of texts take them. In the cursor, with what holds of it as
// its ghost field, the new form is no plainer: a contract then says `c.entry.kind` and `c.entry.source.now` for them.

// The units that a byte of a content adds to its length.
fn weight(kind: Encoding, b: u8) -> usize
    ensures { result ≡ weightOf kind b }
{
    match kind {
        Encoding::Binary => 1,
        Encoding::Utf8 => match b {
            0x80..=0xbf => 0,
            0xf0..=0xff => 2,
            _ => 1,
        },
    }
}

// Where the content of the chunk at `at` begins.
fn opened(at: usize, chunk: ChunkRead) -> Cursor
    requires { at + chunk.head < 2 ^ 64 }
    ensures { result ≡ opening at chunk }
{
    Cursor {
        here: at + chunk.head,
        left: chunk.size,
        units: chunk.units,
        last: chunk.last,
        plain: chunk.size == chunk.bytes,
    }
}

// How many bytes of the source from `at` on, up to `most`, weigh one unit each: those of ASCII, or any of a byte
// string.
fn singles(kind: Encoding, source: &[u8], at: usize, most: usize) -> usize
    ensures { result ≡ singles_at kind source.now at most }
{
    match kind {
        Encoding::Utf8 => texts::ascii(source, at, most),
        Encoding::Binary => most,
    }
}

// The character of the pair of halves that the bytes begin with, if they do.
fn pair(kind: Encoding, bytes: &[u8]) -> Option<[u8; 4]>
    ensures there { is_some result ≡ pair_in kind bytes.now }
    ensures character { IfSome result (λ w. w ≡ four_in bytes.now) }
{
    let Encoding::Utf8 = kind else {
        return None;
    };
    match *bytes {
        [0xed, d @ 0xa0..=0xaf, x, _, y, z, ..] => {
            let u = d % 16 + 1;
            Some([
                0xf0 + u / 4,
                0x80 + u % 4 * 16 + x % 64 / 4,
                0x80 + x % 4 * 16 + y % 16,
                0x80 + z % 64,
            ])
        }
        _ => None,
    }
}

// The bytes, in `out` from `to` on, where all of them fit. Inlined, a single byte is one move.
#[inline(always)]
fn put_bytes(bytes: &[u8], out: &mut [u8], to: usize)
    ensures { out.new ≡ stored out.old to bytes.now }
{
    if out.len() < to || out.len() - to < bytes.len() {
        return;
    }
    out[to..to + bytes.len()].copy_from_slice(bytes);
}

// The pair of halves that the bytes begin with, or else their first byte, in `out` from `to` on, where it fits;
// neither, where it has more than `cap` units.
fn put_character(
    kind: Encoding,
    bytes: &[u8],
    cap: usize,
    out: &mut [u8],
    to: usize,
) -> Option<Piece>
    requires { 0 < length bytes.now }
    ensures { PieceMet kind bytes.now cap out.old to result out.new }
{
    if let Some(character) = pair(kind, bytes) {
        if cap < 2 {
            return None;
        }
        put_bytes(&character, out, to);
        return Some(Piece {
            size: 6,
            bytes: 4,
            units: 2,
        });
    }
    let units = weight(kind, bytes[0]);
    if cap < units {
        return None;
    }
    put_bytes(&bytes[..1], out, to);
    Some(Piece {
        size: 1,
        bytes: 1,
        units,
    })
}

// What comes next in the cursor's chunk, in `out` from `to` on, where it fits: all that is left, where that stands as
// it is and has at most `cap` units; else bytes that weigh one unit each; else a character.
fn put_piece(
    kind: Encoding,
    source: &[u8],
    c: Cursor,
    cap: usize,
    out: &mut [u8],
    to: usize,
) -> Option<Piece>
    requires { Going kind source.now c × (0 < c.left) }
    ensures { PieceMet kind (bytes_left source.now c) cap out.old to result out.new }
{
    let bytes = &source[c.here..c.here + c.left];
    if c.plain && c.units <= cap {
        put_bytes(bytes, out, to);
        return Some(Piece {
            size: c.left,
            bytes: c.left,
            units: c.units,
        });
    }
    let n = singles(kind, source, c.here, c.left.min(cap));
    if 0 < n {
        put_bytes(&bytes[..n], out, to);
        return Some(Piece {
            size: n,
            bytes: n,
            units: n,
        });
    }
    put_character(kind, bytes, cap, out, to)
}

// What comes next of the content, in `out` from `to` on, where it fits: a piece of at most `cap` units; or nothing of
// the next chunk, where one ends. None, where the content ends, or no piece has so few units.
fn put_next(
    kind: Encoding,
    source: &[u8],
    c: Cursor,
    cap: usize,
    out: &mut [u8],
    to: usize,
) -> Option<Copied>
    requires { Going kind source.now c }
    ensures { NextMet kind source.now c cap out.old to result out.new }
{
    let here = c.here;
    if c.left == 0 {
        if c.last {
            return None;
        }
        let chunk = texts::chunk(kind, source, here).ok()?;
        return Some(Copied {
            next: opened(here, chunk),
            bytes: 0,
            units: 0,
        });
    }
    let piece = put_piece(kind, source, c, cap, out, to)?;
    Some(Copied {
        next: Cursor {
            here: here + piece.size,
            left: c.left - piece.size,
            units: c.units - piece.units,
            last: c.last,
            plain: c.plain,
        },
        bytes: piece.bytes,
        units: piece.units,
    })
}

// As many characters of the content from the cursor on as fit `cap` units, in `out` from `to` on, where they fit.
fn copy(
    kind: Encoding,
    source: &[u8],
    from: Cursor,
    cap: usize,
    out: &mut [u8],
    to: usize,
) -> Copied
    requires { Copyable kind source.now from cap to }
    ensures { CopyMet kind source.now from cap out.old to result out.new }
{
    let mut next = from;
    let mut bytes: usize = 0;
    let mut units: usize = 0;
    while let Some(copied) = put_next(kind, source, next, cap - units, out, to + bytes) {
        // Field by field: a whole struct is moved with the bytes between its fields.
        next = Cursor { ..copied.next };
        bytes += copied.bytes;
        units += copied.units;
    }
    Copied { next, bytes, units }
}

// The heads of this kind of chunks.
fn heads_of(kind: Encoding) -> Heads
    ensures { HeadsOf kind result }
{
    match kind {
        Encoding::Utf8 => Heads {
            one: 0x00,
            few: 32,
            two: 0x30,
            three: 0x53,
            part: 0x52,
        },
        Encoding::Binary => Heads {
            one: 0x20,
            few: 16,
            two: 0x34,
            three: 0x42,
            part: 0x41,
        },
    }
}

// The head of a last chunk of so many units, in `out` at `to`, where it fits. How many bytes it takes.
fn put_last_head(kind: Encoding, units: usize, out: &mut [u8], to: usize) -> usize
    requires { units < 65536 }
    ensures { (result ≡ length (shortest_head (last_heads kind) units))
        × (out.new ≡ stored out.old to (shortest_head (last_heads kind) units)) }
{
    let h = heads_of(kind);
    let u = units as u64;
    if units < h.few {
        wire::store_number(out, to, 1, h.one + u);
        return 1;
    }
    if units < 1024 {
        wire::store_number(out, to, 2, h.two * 0x100 + u);
        return 2;
    }
    wire::store_number(out, to, 3, h.three * 0x1_0000 + u);
    3
}

// The head of a chunk that is not the last: three bytes.
fn put_part_head(kind: Encoding, units: usize, out: &mut [u8], to: usize)
    requires { units < 65536 }
    ensures { (3 ≡ length (shortest_head (part_head kind ∷ []) units))
        × (out.new ≡ stored out.old to (shortest_head (part_head kind ∷ []) units)) }
{
    let h = heads_of(kind);
    wire::store_number(out, to, 3, h.part * 0x1_0000 + (units as u64));
}

// The shortest form of the item, in `out` from `to` on, where it fits. How many bytes it takes. How much a part takes
// is found by copying it to nowhere, since its head comes first.
fn lay(kind: Encoding, source: &[u8], item: Item, out: &mut [u8], to: usize) -> usize
    requires { IsItem kind source.now item × (to + length (laid kind source.now item.first) < 2 ^ 64) }
    ensures { Lays kind source.now item.first out.old to out.new result }
{
    let mut c = item.first;
    let mut rest = item.units;
    let mut place = to;
    // No range counts the parts: a character of two units may leave one unit of a chunk free.
    while LONGEST_CHUNK < rest {
        let part = copy(kind, source, c, LONGEST_CHUNK, &mut [], 0);
        put_part_head(kind, part.units, out, place);
        copy(kind, source, c, LONGEST_CHUNK, out, place + 3);
        c = part.next;
        rest -= part.units;
        place = place + 3 + part.bytes;
    }
    place += put_last_head(kind, rest, out, place);
    let last = copy(kind, source, c, rest, out, place);
    place + last.bytes - to
}

// The same as lay, straight where the form has one chunk, and the source has its bytes in one as they are: so have
// nearly all, and lay takes twice the instructions for a short one.
#[inline(always)]
fn store(kind: Encoding, source: &[u8], item: Item, out: &mut [u8], to: usize) -> usize
    requires { IsItem kind source.now item × (to + length (laid kind source.now item.first) < 2 ^ 64) }
    ensures { Lays kind source.now item.first out.old to out.new result }
{
    let first = item.first;
    if item.units <= LONGEST_CHUNK && first.last && first.plain {
        let head = put_last_head(kind, item.units, out, to);
        put_bytes(&source[first.here..first.here + item.bytes], out, to + head);
        return head + item.bytes;
    }
    lay(kind, source, item, out, to)
}

// The string at `at`: where its content begins, and its sizes.
fn find(kind: Encoding, source: &[u8], at: usize) -> Option<Item>
    ensures { FoundMet kind source.now at result }
{
    let chunk = texts::first_chunk(kind, source, at).ok()?;
    let first = opened(at, chunk);
    if chunk.last {
        return Some(Item {
            first,
            units: chunk.units,
            bytes: chunk.bytes,
        });
    }
    let others = texts::read_string(kind, source, first.here + first.left).ok()?;
    Some(Item {
        first,
        units: chunk.units + others.units,
        bytes: chunk.bytes + others.bytes,
    })
}

// How many bytes the shortest form of the item takes. It is laid only where it has more than one chunk.
fn form_size(kind: Encoding, source: &[u8], item: Item) -> usize
    requires { IsItem kind source.now item × (length (laid kind source.now item.first) < 2 ^ 64) }
    ensures { result ≡ length (laid kind source.now item.first) }
{
    if item.units <= LONGEST_CHUNK {
        return texts::last_head_size(kind, item.units) + item.bytes;
    }
    lay(kind, source, item, &mut [], 0)
}

// The shortest form of the item, in `out` from `to` on: stored whole or not at all.
fn write_item(
    kind: Encoding,
    source: &[u8],
    item: Item,
    out: &mut [u8],
    to: usize,
) -> Result<usize, Unwritten>
    requires { IsItem kind source.now item × (length (laid kind source.now item.first) < 2 ^ 64) }
    ensures { (report result ≡ report_of (some (laid kind source.now item.first)) (length out.old) to)
        × (out.new ≡ stored out.old to (laid kind source.now item.first)) }
{
    let needed = form_size(kind, source, item);
    if out.len() < to || out.len() - to < needed {
        return Err(Unwritten::NoRoom { needed });
    }
    store(kind, source, item, out, to);
    Ok(needed)
}

// How many bytes the shortest form of the string at `at` takes; 0, and not None, where none stands there: so its promise
// says (length_of).
pub fn string_length(kind: Encoding, source: &[u8], at: usize) -> usize
    ensures { result ≡ length_of (item_form kind source.now at) }
{
    match find(kind, source, at) {
        Some(item) => form_size(kind, source, item),
        None => 0,
    }
}

// The shortest form of the string at the place `at` of the source, in `out` from `to` on: stored whole or not at all.
pub fn write_string(
    kind: Encoding,
    source: &[u8],
    at: usize,
    out: &mut [u8],
    to: usize,
) -> Result<usize, Unwritten>
    ensures { (report result ≡ report_of (item_form kind source.now at) (length out.old) to)
        × (out.new ≡ output_of (item_form kind source.now at) out.old to) }
{
    let Some(item) = find(kind, source, at) else {
        return Err(Unwritten::NoSuchForm);
    };
    write_item(kind, source, item, out, to)
}

// The content of the string at the place `at` of the source, its chunks joined, in `out`: stored whole or not at all.
pub fn write_content(
    kind: Encoding,
    source: &[u8],
    at: usize,
    out: &mut [u8],
) -> Result<usize, Unwritten>
    ensures { (report result ≡ report_of (content_read (string_at kind source.now at)) (length out.old) 0)
        × (out.new ≡ output_of (content_read (string_at kind source.now at)) out.old 0) }
{
    let Some(item) = find(kind, source, at) else {
        return Err(Unwritten::NoSuchForm);
    };
    if out.len() < item.bytes {
        return Err(Unwritten::NoRoom { needed: item.bytes });
    }
    copy(kind, source, item.first, item.units, out, 0);
    Ok(item.bytes)
}

// The shortest form, if the string has so many units and bytes.
pub fn write_sized(
    kind: Encoding,
    source: &[u8],
    at: usize,
    units: usize,
    bytes: usize,
    out: &mut [u8],
    to: usize,
) -> Result<usize, Unwritten>
    ensures { (report result ≡ report_of (sized_form kind source.now at units bytes) (length out.old) to)
        × (out.new ≡ output_of (sized_form kind source.now at units bytes) out.old to) }
{
    let Some(item) = find(kind, source, at) else {
        return Err(Unwritten::NoSuchForm);
    };
    if item.units != units || item.bytes != bytes {
        return Err(Unwritten::NoSuchForm);
    }
    write_item(kind, source, item, out, to)
}
