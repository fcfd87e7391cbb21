// walkprint's lines (01, "Scenes and walkprint"; 02, No. 5), each written at the start of a lent buffer. A line has at most 128 bytes: a buffer that is
// shorter is left as it was, and the answer is 0.
ghost use Rattle.std.specs.Prelude.{◌≡◌, ◌+◌, ◌≤◌, length};
ghost use Rattle.digits.specs.Digits.{decimal};
ghost use Rattle.report.specs.Lines.{record_of, line_told, waypoint_fields, waypoint_line, in_buffer, count_in};
ghost use Rattle.report.specs.LineLaws.{head, Headed, Whole};

use crate::words;

// The room that every line has enough of.
pub const ROOM: usize = 128;

const SPACE: u8 = 32;

const NEWLINE: u8 = 10;

// What the first line begins with: a word and two counts. Of a refusal that is all.
fn put_head(out: &mut [u8], word: &[u8], a: u64, b: u64, end: u8) -> usize
    requires { (128 ≤ length out.old) × (length word.now ≤ 20) }
    ensures { Headed out.old out.new result (head word.now (decimal a) (decimal b)) end }
{
    let c = words::put_word(out, 0, word);
    let d = digits::put_decimal(out, c, a, SPACE);
    digits::put_decimal(out, d, b, end)
}

// The record that a refusal names: only 7 BadScene has one, and the others print 0.
#[tactic(auto, unfolding(crate::specs::Lines::record_of))]
fn record_of(number: u64, bad: u64) -> u64
    ensures { result ≡ record_of number bad }
{
    if number == 7 { bad } else { 0 }
}

// The number given back, the record that a refusal names, how many waypoints the list has, how many nodes were retained and closed, and the length.
// A number and no enum: the line of a refusal prints it, and `line_told` goes by it.
#[derive(Clone, Copy)]
pub struct Told {
    pub number: u64,
    pub bad: u64,
    pub waypoints: usize,
    pub retained: u64,
    pub closed: u64,
    pub total: f64,
}

// The first line, by the number given back: line 1 for 0 to 2, and else a refusal's, which is all that is printed then.
pub fn first_line(out: &mut [u8], told: Told) -> usize
    ensures count { result ≡ count_in (line_told told) out.old }
    ensures bytes { out.new ≡ in_buffer (line_told told) out.old }
{
    if out.len() < ROOM {
        return 0;
    }
    let number = told.number;
    if number < 3 {
        let word = words::outcome_word(number);
        let a = put_head(out, word, told.waypoints as u64, told.retained, SPACE);
        let b = digits::put_decimal(out, a, told.closed, SPACE);
        return digits::put_hex(out, b, floats::bits_of(told.total), NEWLINE);
    }
    put_head(
        out,
        words::REFUSED,
        number,
        record_of(number, told.bad),
        NEWLINE,
    )
}

// The fields of a waypoint's line: seven words of a record, in the line's order, as its definition takes them.
fn waypoint_fields(
    out: &mut [u8],
    place: u64,
    movement: u64,
    x: u64,
    y: u64,
    z: u64,
    lift: u64,
    door: u64,
) -> usize
    requires { (128 ≤ length out.old) × (movement ≤ 3) }
    ensures { Whole out.old out.new result (waypoint_fields place movement x y z lift door) }
{
    let a = digits::put_decimal(out, 0, place, SPACE);
    let b = words::put_word(out, a, words::movement_word(movement));
    let c = digits::put_hex(out, b, x, SPACE);
    let d = digits::put_hex(out, c, y, SPACE);
    let e = digits::put_hex(out, d, z, SPACE);
    let f = digits::put_hex(out, e, lift, SPACE);
    digits::put_decimal(out, f, door, NEWLINE)
}

// The line of the waypoint at a place of a list of records. Nothing is written where there is no such record, or no such movement.
pub fn waypoint_line(out: &mut [u8], list: &[u8], place: usize) -> usize
    ensures count { result ≡ count_in (waypoint_line list.now place) out.old }
    ensures bytes { out.new ≡ in_buffer (waypoint_line list.now place) out.old }
{
    if out.len() < ROOM {
        return 0;
    }
    if list.len() / 48 <= place {
        return 0;
    }
    let at = 48 * place;
    let movement = fields::u64_at(list, at + 32);
    if 3 < movement {
        return 0;
    }
    let x = fields::u64_at(list, at);
    let y = fields::u64_at(list, at + 8);
    let z = fields::u64_at(list, at + 16);
    let lift = fields::u64_at(list, at + 24);
    let door = fields::u64_at(list, at + 40);
    waypoint_fields(out, place as u64, movement, x, y, z, lift, door)
}
