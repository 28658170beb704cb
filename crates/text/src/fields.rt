// A line of a listing: a word, its fields in decimal, and a line feed.
ghost use Rattle.std.specs.Prelude.{◌≡◌, ◌+◌, ◌<◌, ◌≤◌, length};
ghost use Rattle.text.specs.Text.{digit_zero, digits, field, each, line};
ghost use Rattle.room.specs.Placing.{last_place, Placed};

use room::{put, put_word};

// Numbers are decimal; the greatest of 64 bits has twenty digits.
const BASE: usize = 10;

const MOST_DIGITS: usize = 20;

// A digit's byte.
fn digit(n: usize) -> u8
    requires { n < 10 }
    ensures { result ≡ digit_zero + n }
{
    b'0' + (n as u8)
}

// The digits of what is left of the number without its last, and then the last.
fn put_digits(room: &mut [u8], at: usize, most: usize, n: usize) -> usize
    requires { at + length (digits most n) ≤ last_place }
    ensures { Placed room.old room.new at result (digits most n) }
{
    if most == 0 {
        return at;
    }
    if n < BASE {
        return put(room, at, digit(n));
    }
    let next = put_digits(room, at, most - 1, n / BASE);
    put(room, next, digit(n % BASE))
}

fn put_field(room: &mut [u8], at: usize, n: usize) -> usize
    requires { at + length (field n) ≤ last_place }
    ensures { Placed room.old room.new at result (field n) }
{
    let next = put(room, at, b' ');
    put_digits(room, next, MOST_DIGITS, n)
}

fn put_fields(room: &mut [u8], at: usize, numbers: &[usize]) -> usize
    requires { at + length (each field numbers.now) ≤ last_place }
    ensures { Placed room.old room.new at result (each field numbers.now) }
{
    let mut next = at;
    for &n in numbers {
        next = put_field(room, next, n);
    }
    next
}

pub(crate) fn put_line(room: &mut [u8], at: usize, word: &[u8], numbers: &[usize]) -> usize
    requires { at + length (line word.now numbers.now) ≤ last_place }
    ensures { Placed room.old room.new at result (line word.now numbers.now) }
{
    let next = put_word(room, at, word);
    let next = put_fields(room, next, numbers);
    put(room, next, b'\n')
}
