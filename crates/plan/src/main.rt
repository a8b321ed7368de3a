// The program `plan`: a job on standard input, and on standard output its plan, or the line that tells why there is none.
#![tactic(auto)]

ghost use Rattle.std.specs.Prelude.{◌≡◌, IfSome, OnOk};
ghost use Rattle.std.specs.Io.KnownBytes.{Appends, Keeps};
ghost use Rattle.std.specs.declared.io.Error.{Error};
ghost use Rattle.rules.specs.Answers.{plans};

use answer::ROOM;
use input::{Unread, read_all, tell_failure};
use job::Job;
use std::io;
use std::io::{Read, Write};

// What the system failed at. `Drop` alone is derived: an `io::Error` can't be copied or compared.
#[derive(Drop)]
pub enum Failure {
    Reading(io::Error),
    Writing(io::Error),
}

impl From<Unread> for Failure {
    ghost use Rattle.plan.specs.declared.Failure.TheVariants.{Reading};

    ghost from_gives = { λ unread failure. failure ≡ Reading unread.error };

    fn from(unread: Unread) -> Failure {
        Failure::Reading(unread.error)
    }
}

// Reads a job to its end, and writes its plan, or the line that tells why there is none. One byte more than a text may have is read, so that a
// longer text is seen to be too long, however much of it there is. Where it is known what the reader has, that is what is written about, and
// nothing else is written. After an error at reading nothing is.
pub fn print<R: Read, W: Write>(job: &mut R, out: &mut W) -> Result<(), Failure>
    ensures written { OnOk result (IfSome (R.remaining job.old) (λ text. Appends (W.contents out.old) (W.contents out.new) (plans text))) }
    ensures unread { (error : Error) → result ≡ Err (Failure.Reading error) → Keeps (W.contents out.old) (W.contents out.new) }
{
    let mut text = [0; Job::TEXT + 1]; // nothing is allocated: arrays of the greatest sizes here and below
    let bytes = read_all(job, &mut text)?;
    let mut room = [0; ROOM];
    let count = answer::print(&text[..bytes], &mut room);
    out.write_all(&room[..count]).map_err(Failure::Writing)
}

fn main(rt: HostRuntime) {
    let (what, error) = match print(&mut rt.stdin(), &mut rt.stdout()) {
        Ok(()) => return,
        Err(Failure::Reading(error)) => ("standard input", error),
        Err(Failure::Writing(error)) => ("standard output", error),
    };
    let _ = tell_failure(&mut rt.stderr(), what.as_bytes(), error);
}
