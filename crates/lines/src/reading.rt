// Reading of text: the line cursor, the fields of a line, and the numbers that fields say. Each function answers at any place.
ghost use Rattle.std.specs.Prelude.{◌≡◌, drop};
ghost use Rattle.std.proofs.lemmas.List.Edits.{sets};
ghost use Rattle.rules.specs.Bytes.{numbers_of, begins};
ghost use Rattle.lines.specs.Cursor.{cursor_at, line_after, top_line};
ghost use Rattle.lines.specs.Behind.{letter_of, ends_here, field_at, first_field, fields_behind, line_end, copied, leading};

pub(crate) const TAB: u8 = b'\t';

pub(crate) const LINE_FEED: u8 = b'\n';

const ZERO: u8 = b'0';

const NINE: u8 = b'9';

const NUMBER_MOST: u32 = 65535;

// Where a line begins, and its number.
#[derive(Clone, Copy, Debug, PartialEq, Eq)]
pub struct Lines {
    pub at: usize,
    pub line: u32,
}

// The number of the line after one; the greatest stays.
fn line_after(line: u32) -> u32
    ensures { result ≡ line_after line }
{
    line.saturating_add(1)
}

impl Lines {
    // The first line of a text is line 1.
    pub fn top() -> Lines
        ensures { result ≡ top_line }
    {
        Lines { at: 0, line: 1 }
    }

    // The cursor at the next line, where that begins.
    pub fn moved(self, next: usize) -> Lines
        ensures { result ≡ cursor_at next (line_after self.line) }
    {
        Lines {
            at: next,
            line: line_after(self.line),
        }
    }
}

// A number that a field says, and where the field ends.
#[derive(Clone, Copy, Debug, PartialEq, Eq)]
pub struct Number {
    pub value: u16,
    pub end: usize,
}

// Why there is none: the field says no number, or the line has no further field.
#[derive(Clone, Copy, Debug, PartialEq, Eq)]
pub enum Absent {
    NoNumber,
    NoField,
}

// Whether this byte stands at a place.
pub fn begins_at(text: &[u8], at: usize, byte: u8) -> bool
    ensures { result ≡ begins byte (drop at text.now) }
{
    text.get(at) == Some(&byte)
}

// The byte at a place, if a tab stands behind it.
pub fn letter_at(text: &[u8], at: usize) -> Option<u8>
    ensures { result ≡ letter_of (drop at text.now) }
{
    match text.get(at..) {
        Some([letter, TAB, ..]) => Some(*letter),
        _ => None,
    }
}

// Whether a field ends at a place: at a tab, at a line feed or at the end of the text.
fn ends_at(text: &[u8], at: usize) -> bool
    ensures { result ≡ ends_here (drop at text.now) }
{
    text.get(at)
        .is_none_or(|&byte| byte == TAB || byte == LINE_FEED)
}

// The number of the field that begins at a place of a text, and where the field ends. The first digit is read by itself, so that the loop
// has nothing to tell apart. It goes by index: over the slice behind that digit a path's numbers take a seventh longer.
#[tactic(auto, using(crate::proofs::DigitsBehind::digit_steps))]
fn number_at(text: &[u8], begin: usize) -> Result<Number, Absent>
    ensures { result ≡ field_at text.now begin }
{
    let Some(&first) = text.get(begin) else {
        return Err(Absent::NoNumber);
    };
    if !first.is_ascii_digit() {
        return Err(Absent::NoNumber);
    }
    let mut value = u32::from(first - ZERO);
    let mut end = text.len();
    for i in begin + 1..text.len() {
        let digit = text[i];
        // below `0` the field may end here, and above `9` it says no number
        if digit < ZERO {
            end = i;
            break;
        }
        if digit > NINE {
            return Err(Absent::NoNumber);
        }
        value = value * 10 + u32::from(digit - ZERO);
        if value > NUMBER_MOST {
            return Err(Absent::NoNumber);
        }
    }
    if !ends_at(text, end) {
        return Err(Absent::NoNumber);
    }
    if end - begin > 1 && first == ZERO {
        return Err(Absent::NoNumber);
    }
    // `as`: a proof shows that it fits, and `try_from` would make a case of what cannot be
    Ok(Number {
        value: value as u16,
        end,
    })
}

// The field behind one that ends at a place of a text, in the same line.
#[tactic(auto, using(crate::proofs::BehindPlaces::told_behind))]
pub fn field_behind(text: &[u8], at: usize) -> Result<Number, Absent>
    ensures { result ≡ first_field (fields_behind text.now at) at }
{
    match text.get(at) {
        None | Some(&LINE_FEED) => Err(Absent::NoField),
        Some(_) => number_at(text, at + 1),
    }
}

// How many numbers stand behind a place, and where their line ends.
#[derive(Clone, Copy, Debug, PartialEq, Eq)]
pub struct Copied {
    pub count: usize,
    pub end: usize,
}

// Copies the numbers behind a place, up to a field that says none, into a list from a place on, as far as the list goes. None where a
// field of the line says no number. `count` and `next` are counted by hand: where the numbers end only the text says, and `next` ends where
// the list does, so there is no range to go over.
#[tactic(auto, using(crate::proofs::CopyingNumbers::copied_here))]
pub fn copy_behind(text: &[u8], at: usize, list: &mut [u16], from: usize) -> Option<Copied>
    ensures { (result ≡ copied (numbers_of (fields_behind text.now at)) (line_end text.now at))
        × (list.new ≡ sets list.old from (leading (fields_behind text.now at))) }
{
    let mut place = at;
    let mut count = 0;
    let mut next = from;
    // no `while let`: each of the two reasons for no number has an answer of its own
    loop {
        match field_behind(text, place) {
            Ok(Number { value, end }) => {
                count += 1;
                place = end;
                // not by `get_mut`: no proof knows what is written through it
                if next < list.len() {
                    list[next] = value;
                    next += 1;
                }
            }
            Err(Absent::NoNumber) => return None,
            Err(Absent::NoField) => return Some(Copied { count, end: place }),
        }
    }
}
