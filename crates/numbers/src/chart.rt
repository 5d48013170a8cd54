// What the first byte of an item says. The definitions are in scalar's specs/Scalars.antt.
ghost use Rattle.std.specs.Prelude.{◌≡◌};
ghost use Rattle.scalar.specs.Chart.{entry as entry_of, follow_of};
ghost use Rattle.scalar.specs.Chart.{lead_of};

use scalar::{Lead, Sort};

// Each byte's entry: ten times the kind of the row that it opens, and how many bytes follow it before any content. It
// stays a table of numbers: 01 asks for a constant table of all 256 first bytes.
const CHART: [u8; 256] = [
    70, 70, 70, 70, 70, 70, 70, 70, 70, 70, 70, 70, 70, 70, 70, 70, 70, 70, 70, 70, 70, 70, 70, 70,
    70, 70, 70, 70, 70, 70, 70, 70, 80, 80, 80, 80, 80, 80, 80, 80, 80, 80, 80, 80, 80, 80, 80, 80,
    71, 71, 71, 71, 81, 81, 81, 81, 42, 42, 42, 42, 42, 42, 42, 42, 210, 82, 82, 150, 58, 210, 10,
    210, 110, 34, 68, 64, 48, 120, 0, 130, 210, 140, 72, 72, 20, 100, 100, 90, 90, 44, 200, 50, 50,
    51, 52, 54, 130, 130, 130, 130, 130, 130, 130, 130, 130, 130, 130, 130, 130, 130, 130, 130,
    100, 100, 100, 100, 100, 100, 100, 100, 90, 90, 90, 90, 90, 90, 90, 90, 30, 30, 30, 30, 30, 30,
    30, 30, 30, 30, 30, 30, 30, 30, 30, 30, 30, 30, 30, 30, 30, 30, 30, 30, 30, 30, 30, 30, 30, 30,
    30, 30, 30, 30, 30, 30, 30, 30, 30, 30, 30, 30, 30, 30, 30, 30, 30, 30, 30, 30, 30, 30, 30, 30,
    30, 30, 30, 30, 30, 30, 30, 30, 30, 30, 31, 31, 31, 31, 31, 31, 31, 31, 31, 31, 31, 31, 31, 31,
    31, 31, 32, 32, 32, 32, 32, 32, 32, 32, 40, 40, 40, 40, 40, 40, 40, 40, 40, 40, 40, 40, 40, 40,
    40, 40, 40, 40, 40, 40, 40, 40, 40, 40, 41, 41, 41, 41, 41, 41, 41, 41, 41, 41, 41, 41, 41, 41,
    41, 41,
];

// The byte's entry in the chart.
pub fn entry(b: u8) -> u8
    ensures { result ≡ entry_of b }
{
    CHART[usize::from(b)]
}

// How many bytes follow the byte before any content.
pub fn following(b: u8) -> usize
    ensures { result ≡ follow_of b }
{
    usize::from(entry(b) % 10)
}

// What the byte opens, by its range.
#[inline(always)]
pub fn classify(b: u8) -> Lead
    ensures { result ≡ lead_of b }
{
    match b {
        0x00..=0x1f | 0x30..=0x33 | 0x52 | 0x53 => Lead::Text,
        0x20..=0x2f | 0x34..=0x37 | 0x41 | 0x42 => Lead::Bytes,
        0x80..=0xd7 | 0x49 => Lead::Number(Sort::Int),
        0xd8..=0xff | 0x38..=0x3f | 0x59 | 0x4c => Lead::Number(Sort::Long),
        0x4a | 0x4b => Lead::Number(Sort::Date),
        0x5b..=0x5f | 0x44 => Lead::Number(Sort::Double),
        0x4e => Lead::Number(Sort::Null),
        0x46 => Lead::Number(Sort::False),
        0x54 => Lead::Number(Sort::True),
        0x70..=0x77 | 0x55 | 0x56 => Lead::TypedList,
        0x78..=0x7f | 0x57 | 0x58 => Lead::List,
        0x4d => Lead::TypedMap,
        0x48 => Lead::Map,
        0x43 => Lead::Definition,
        0x60..=0x6f | 0x4f => Lead::Object,
        0x51 => Lead::Reference,
        0x5a => Lead::Close,
        0x40 | 0x45 | 0x47 | 0x50 => Lead::Reserved,
    }
}
