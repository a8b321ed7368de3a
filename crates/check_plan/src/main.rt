// The program `check`: a job and a plan in the two files that are named, and on standard output what the check of the plan finds.
#![tactic(auto)]

ghost use Rattle.std.specs.Prelude.{◌≤◌, ◌++◌, codes, length, IfSome, IfOk, OnOk};
ghost use Rattle.std.specs.Io.KnownBytes.{Appends};
ghost use Rattle.rules.specs.CheckedTexts.{checks};

use checking::ROOM;
use input::{read_all, tell_failure};
use job::Job;
use std::env::FillError;
use std::fs::{File, OpenOptions};
use std::io::{ErrorKind, Write};
use std::rt::{Env, Files};
use std::{io, str};

// The longest name that a file may be opened by: the system takes 4,096 bytes, and wants a zero behind it.
const NAME: usize = 4095;

// Writes how the program is to be called, and in which of the files' names the call is wrong. In parts, and not by `write!`: a name is bytes,
// not text.
fn tell_usage<W: Write>(out: &mut W, what: &[u8], name: &[u8]) -> io::Result<()>
    ensures { OnOk result (Appends (W.contents out.old) (W.contents out.new) (codes "check: " ++ what.now ++ name.now ++ codes " (check JOB PLAN)\n")) }
{
    out.write_all(b"check: ")?;
    out.write_all(what)?;
    out.write_all(name)?;
    out.write_all(b" (check JOB PLAN)\n")
}

// Whether the program is given argument i. Its own name is argument 0. Here and below rt is the system itself and not whatever meets a bound: so
// the check of the program rests on the functions of the C library that it calls, and on no others.
fn is_given(rt: &HostRuntime, i: usize) -> bool {
    !matches!(rt.arg(i, &mut [0u8; 1]), Err(FillError::NotPresent))
}

// Whether two files are named, no more and no fewer; else it is told.
fn two_are_named(rt: &HostRuntime, errors: &mut impl Write) -> bool {
    if !is_given(rt, 1) {
        let _ = tell_usage(errors, b"JOB and PLAN are missing", b"");
        return false;
    }
    if !is_given(rt, 2) {
        let _ = tell_usage(errors, b"PLAN is missing", b"");
        return false;
    }
    if is_given(rt, 3) {
        let mut name = [0; NAME]; // nothing is allocated: arrays of the greatest sizes here and below
        let length = rt.arg(3, &mut name).unwrap_or(0);
        let _ = tell_usage(errors, b"a third file is named: ", &name[..length]);
        return false;
    }
    true
}

// Opens the file of this name. std knows files by names that are text, so no file is found by one that is not UTF-8.
fn open(rt: &HostRuntime, name: &[u8]) -> io::Result<File> {
    let Ok(name) = str::from_utf8(name) else {
        return Err(io::Error::from(ErrorKind::InvalidFilename));
    };
    rt.open_file(OpenOptions::new().read(true), name)
}

// Reads the file of this name into the lent list, as `read_all` does, and says how many bytes that were.
fn read_file(rt: &HostRuntime, name: &[u8], text: &mut [u8]) -> io::Result<usize>
    ensures { IfOk result (λ bytes. bytes ≤ length text.new) }
{
    let mut file = open(rt, name)?;
    Ok(read_all(&mut file, text)?)
}

// Reads the file that argument i names, which is `what` of the two. What fails is told with the file's own name, and so is a name that is empty or too
// long. Such a name is not tried: a part of it could be the name of another file.
fn read_named(
    rt: &HostRuntime,
    errors: &mut impl Write,
    i: usize,
    what: &[u8],
    text: &mut [u8],
) -> Option<usize>
    ensures { IfSome result (λ bytes. bytes ≤ length text.new) }
{
    let mut name = [0; NAME];
    let wrong = match rt.arg(i, &mut name) {
        Ok(0) => "an empty name is given for ",
        // `TooLong`, and not `NotPresent`: `two_are_named` found the argument there
        Err(_) => "a name of more than 4,095 bytes is given for ",
        Ok(length) => {
            let name = &name[..length];
            match read_file(rt, name, text) {
                Ok(bytes) => return Some(bytes),
                Err(error) => {
                    let _ = tell_failure(errors, name, error);
                    return None;
                }
            }
        }
    };
    let _ = tell_usage(errors, wrong.as_bytes(), what);
    None
}

// Writes what the check of a plan's text against a job's finds, and nothing else.
pub fn print<W: Write>(job: &[u8], plan: &[u8], out: &mut W) -> io::Result<()>
    ensures { OnOk result (Appends (W.contents out.old) (W.contents out.new) (checks job.now plan.now)) }
{
    let mut room = [0; ROOM];
    let count = checking::print(job, plan, &mut room);
    out.write_all(&room[..count])
}

// One byte more than a text may have is read of each file, so that a longer text is seen to be too long, however much of it there is. Both are
// closed before anything is printed: where standard output was closed, a file that is opened gets its number.
fn main(rt: HostRuntime) {
    let mut errors = rt.stderr();
    if !two_are_named(&rt, &mut errors) {
        return;
    }
    let mut job = [0; Job::TEXT + 1];
    let Some(job_bytes) = read_named(&rt, &mut errors, 1, b"JOB", &mut job) else {
        return;
    };
    let mut plan = [0; Job::TEXT + 1];
    let Some(plan_bytes) = read_named(&rt, &mut errors, 2, b"PLAN", &mut plan) else {
        return;
    };
    let written = print(&job[..job_bytes], &plan[..plan_bytes], &mut rt.stdout());
    if let Err(error) = written {
        let _ = tell_failure(&mut errors, b"standard output", error);
    }
}
