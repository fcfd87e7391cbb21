// Numbers made by a record's rule, and what the proved functions answer of each.
use digest::Digest;
use std::num::wrapping_add_u64;

// The digest so far, the last word of the row, what is added to the next number's pattern, and the two numbers before it.
#[derive(Clone, Copy)]
struct Row {
    digest: Digest,
    word: u64,
    added: u64,
    last: f64,
    before: f64,
}

// A pattern, or that of its number's square, or of the square of the point half way to the next number: the square of r + 2^-53 is r * r + r * 2^-52 and a
// little more. The kind is a number of the record, as the stored answers have it.
fn raised(kind: u64, pattern: u64) -> u64 {
    let r = floats::float_of(pattern);
    match kind {
        0 => pattern,
        1 => floats::bits_of(r * r),
        _ => floats::bits_of(r * r + r * 2.220446049250313e-16),
    }
}

// The root's pattern, or 9 where it is refused.
fn root_of(x: f64) -> u64 {
    match root::root(x) {
        Some(r) => floats::bits_of(r),
        None => 9,
    }
}

// Both roots of a number, the distance of three, the floor and the ceiling as cells, which as floats are exact.
fn answered(d: Digest, x: f64, y: f64, z: f64) -> Digest {
    d.with(root_of(x))
        .with_float(root::square_root(x))
        .with_float(root::distance(x, y, z))
        .with_float(cells::float_cell(cells::floor_cell(x)))
        .with_float(cells::float_cell(cells::ceil_cell(x)))
}

// One more number: the next word's bits under the rule's mask, its first pattern added, raised by its kind, and what is added grows by its step.
fn turned(row: Row, rule: &[u8]) -> Row {
    let word = digest::stirred(row.word);
    let pattern = wrapping_add_u64(word & fields::u64_at(rule, 16), fields::u64_at(rule, 24));
    let made = raised(fields::u64_at(rule, 32), pattern);
    let x = floats::float_of(wrapping_add_u64(made, row.added));
    Row {
        digest: answered(row.digest, x, row.last, row.before),
        word,
        added: wrapping_add_u64(row.added, fields::u64_at(rule, 48)),
        last: x,
        before: row.last,
    }
}

// The digest of the answers to as many numbers as the rule says.
pub(crate) fn made(rule: &[u8]) -> Digest {
    let mut row = Row {
        digest: Digest::new(),
        word: fields::u64_at(rule, 8),
        added: fields::u64_at(rule, 40),
        last: 0.0,
        before: 0.0,
    };
    let count = fields::u64_at(rule, 0);
    for _ in 0..count {
        row = turned(row, rule);
    }
    row.digest
}
