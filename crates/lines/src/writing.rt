// Numbers and lines written into a lent list of bytes, from a place on. A byte past the list's end goes nowhere, so a text fits
// any list, and what it writes into a list that is too short still tells how long it is. List and place are handed on as they are: as a
// struct with methods on `&mut self` they were tried, and a line took four tenths longer.
ghost use Rattle.std.specs.Prelude.{[], ◌∷◌, ◌+◌, ◌^◌, ◌≤◌, ◌<◌};
ghost use Rattle.rules.specs.Bytes.{tab, decimal};
ghost use Rattle.lines.specs.Put.{Put, longest_line, line_written};

use crate::reading::{LINE_FEED, TAB};

// A line of so many numbers or more might end past the last place that there is.
const NUMBERS_MOST: usize = 1 << 32;

// Writes a byte, and gives the place after it.
fn byte(room: &mut [u8], at: usize, b: u8) -> usize
    requires { at + 1 < 2 ^ 64 }
    ensures { Put room.old at (b ∷ []) room.new result }
{
    // not by `get_mut`: no proof knows what is written through it
    if at < room.len() {
        room[at] = b;
    }
    at + 1
}

// Writes a number: the digits of its quotient by ten, then that of the remainder. No loop: document 01 names this form, decimal digits by
// recursion on the quotient by ten.
#[tactic(auto, using(crate::proofs::Putting::number_steps))]
fn number(room: &mut [u8], at: usize, n: u32) -> usize
    requires { at + 10 < 2 ^ 64 }
    ensures put { Put room.old at (decimal n) room.new result }
    ensures near { result ≤ at + 10 }
{
    // `as`: a proof shows that it fits, and `try_from` would make a case of what cannot be
    if n < 10 {
        byte(room, at, b'0' + n as u8)
    } else {
        let last = number(room, at, n / 10);
        byte(room, last, b'0' + (n % 10) as u8)
    }
}

// Writes a tab and a number.
fn field(room: &mut [u8], at: usize, n: u32) -> usize
    requires { at + 11 < 2 ^ 64 }
    ensures put { Put room.old at (tab ∷ decimal n) room.new result }
    ensures near { result ≤ at + 11 }
{
    let digits = byte(room, at, TAB);
    number(room, digits, n)
}

// Writes a line of a letter and numbers. Of one with too many numbers to tell where it ends nothing is written.
#[tactic(auto, using(crate::proofs::Putting::line_steps))]
pub fn line<const N: usize>(room: &mut [u8], at: u32, letter: u8, numbers: [u32; N]) -> usize
    ensures put { Put room.old at (line_written N letter numbers.entry) room.new result }
    ensures near { result ≤ at + longest_line N }
{
    // no call has so many; without this branch the contract would need a `requires`
    if N >= NUMBERS_MOST {
        // `as` here and below: std has no `usize::from` for 32 bits
        return at as usize;
    }
    let mut place = byte(room, at as usize, letter);
    for n in numbers {
        place = field(room, place, n);
    }
    byte(room, place, LINE_FEED)
}
