// From a job's text to what is printed for it, in a room that every plan fits.
#![tactic(auto)]

ghost use Rattle.std.specs.Prelude.{◌≡◌, [], ◌∷◌, ◌≤◌, length};
ghost use Rattle.rules.specs.Sizes.{plan_most};
ghost use Rattle.rules.specs.Bytes.{line_text};
ghost use Rattle.rules.specs.Answers.{plans};
ghost use Rattle.job.specs.Told.{number_place};
ghost use Rattle.lines.specs.Put.{Put, longest_line};
ghost use Rattle.answer.specs.Told.{PrintedAs};

use job::{Job, Refusal};
use lines::writing;
use plan_text::from_text;

// Every plan fits in so many bytes.
pub const ROOM: usize = Job::PLAN;

// It is the number that the rules name. `Job::sizes` says so of the job's constant, and this of the room that `print` is lent.
pub fn plan_most() -> usize
    ensures { result ≡ plan_most }
{
    ROOM
}

// Writes the line of a refusal, which is a letter, its number and its place, and gives the place after it. A byte past the room's end goes nowhere.
pub fn refusal_line(room: &mut [u8], letter: u8, refusal: Refusal) -> usize
    ensures put { Put room.old 0 (line_text letter ((number_place refusal).0 ∷ (number_place refusal).1 ∷ [])) room.new result }
    ensures near { result ≤ longest_line 2 }
{
    writing::line(room, 0, letter, [refusal.number(), refusal.place()])
}

// What the program `plan` prints for a job's bytes, the plan or the line that tells why there is none, and how many bytes it is.
pub fn print(text: &[u8], room: &mut [u8; ROOM]) -> usize
    ensures printed_as { PrintedAs (plans text.now) result room.old room.new }
    ensures near { result ≤ length room.new }
{
    match from_text::answer(text, room) {
        // std has no `usize::from` for 32 bits
        Ok(bytes) => bytes as usize,
        Err(refusal) => refusal_line(room, b'R', refusal),
    }
}
