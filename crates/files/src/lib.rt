// The texts that a program's arguments name: opened, and read whole or piece by piece; standard input; and what is printed. What cannot be had is said on
// standard error, in one line: the name of the text, and why.
#![tactic(auto)]

ghost use Rattle.std.specs.Counts.{IsPrefixLen};
ghost use Rattle.std.specs.Prelude.{◌≡◌, IfOk, IfErr};
ghost use Rattle.std.specs.Io.{ReadsAtMost};

use print::{SIZE, refused_plan_line};
use reader::RefusedAt;
use std::env::{Env, FillError};
use std::fs::File;
use std::io::{Error, ErrorKind, Print, Read, Write};
use std::{fs, io, str};

// A text that was opened: it, and how many bytes of the buffer are its name. (A number: a slice would keep the buffer lent.)
#[derive(Drop)]
pub struct Opened {
    pub file: File,
    pub size: usize,
}

// Why there is nothing to give was said on standard error. This is how many bytes are at the start of the lent buffer all the same: 0 where none is lent.
#[derive(Clone, Copy, Debug, PartialEq, Eq)]
pub struct Said {
    pub size: usize,
}

// The argument that names the plan, and the one that names the text beside it.
pub const PLAN: usize = 1;

pub const OTHER: usize = 2;

// The longest name of a text, in bytes, and one more.
pub const NAME: usize = 4096;

// How many arguments a program with two texts has, its own name among them.
const ARGUMENTS: usize = 3;

// How often a read that a signal interrupts is made again, at most.
const AGAIN: u64 = 1000000;

// The most bytes of what is said why a text cannot be had.
const REASON: usize = 128;

// The system's numbers of an argument that is not there, of a name that is too long, and of a name that is no text.
const MISSING: i32 = 22;

const TOO_LONG: i32 = 36;

const NO_TEXT: i32 = 84;

// Gives how many bytes of a printed error are its words: what stands in front of the bracket with the system's number, or of the zeros behind it.
fn words(text: &[u8]) -> usize
    ensures { IsPrefixLen result text.now }
{
    let end = text
        .iter()
        .position(|byte| *byte == b'(' || *byte == 0)
        .unwrap_or(text.len());
    if end > 0 && text[end - 1] == b' ' {
        return end - 1;
    }
    end
}

// Says on standard error, in one line, what cannot be had and why.
fn complain(rt: &HostRuntime, what: &[u8], error: Error) -> Said
    ensures { result.size ≡ 0 }
{
    let mut reason = [0u8; REASON];
    let mut room = &mut reason[..];
    let _ = write!(room, "{error}");
    let n = words(&reason);
    let errors = rt.stderr();
    let _ = Print::write_all(&errors, what);
    let _ = Print::write_all(&errors, b": ");
    let _ = Print::write_all(&errors, &reason[..n]);
    let _ = Print::write_all(&errors, b"\n");
    Said { size: 0 }
}

// Says whether the program was started with the names of two texts; if not, the usage goes to standard error.
pub fn two_names(rt: &HostRuntime, usage: &[u8]) -> bool {
    let mut name = [0u8; NAME];
    if has_argument(rt, ARGUMENTS - 1, &mut name) && !has_argument(rt, ARGUMENTS, &mut name) {
        return true;
    }
    let _ = Print::write_all(&rt.stderr(), usage);
    false
}

// Says whether the program was started with an argument of this number, however long. The name goes into the buffer, as far as it fits.
fn has_argument(rt: &HostRuntime, argument: usize, name: &mut [u8]) -> bool {
    !matches!(rt.arg(argument, name), Err(FillError::NotPresent))
}

// Opens the text that an argument names, and puts the name into the buffer, as far as it fits; or says why it cannot, and how long the name is that cannot be
// opened.
pub fn open(rt: &HostRuntime, argument: usize, name: &mut [u8]) -> Result<Opened, Said>
    ensures opened { IfOk result (λ opened. IsPrefixLen opened.size name.new) }
    ensures failed { IfErr result (λ said. IsPrefixLen said.size name.new) }
{
    match rt.arg(argument, name) {
        Ok(size) => match open_named(rt, &name[..size]) {
            Ok(file) => Ok(Opened { file, size }),
            Err(_) => Err(Said { size }),
        },
        Err(FillError::TooLong) => Err(complain(rt, name, Error::from_raw_os_error(TOO_LONG))),
        Err(FillError::NotPresent) => Err(complain(rt, name, Error::from_raw_os_error(MISSING))),
    }
}

// Opens the text of this name; or says why it cannot.
fn open_named(rt: &HostRuntime, name: &[u8]) -> Result<File, Said> {
    let Ok(path) = str::from_utf8(name) else {
        return Err(complain(rt, name, Error::from_raw_os_error(NO_TEXT)));
    };
    fs::open(rt, path).map_err(|error| complain(rt, name, error))
}

// Reads once, and again where a signal comes before the first byte; gives what the last read answers. A proved loop has to end, so the reads are counted.
fn read<R: Read>(file: &mut R, buf: &mut [u8]) -> io::Result<usize>
    ensures { ReadsAtMost result buf.new }
{
    for _ in 0..AGAIN {
        let got = file.read(buf);
        if !is_interrupted(&got) {
            return got;
        }
    }
    file.read(buf)
}

// Says whether a signal came before the first byte of a read.
fn is_interrupted(got: &io::Result<usize>) -> bool {
    matches!(got, Err(error) if error.kind() == ErrorKind::Interrupted)
}

// Reads once, and gives how many bytes: at least one, or none at the end of the text; or says why it cannot, and that none were read.
pub fn piece<R: Read>(
    rt: &HostRuntime,
    file: &mut R,
    name: &[u8],
    buf: &mut [u8],
) -> Result<usize, Said>
    ensures read { IfOk result (λ size. IsPrefixLen size buf.new) }
    ensures failed { IfErr result (λ said. IsPrefixLen said.size buf.new) }
{
    read(file, buf).map_err(|error| complain(rt, name, error))
}

// Reads until the buffer is full or the text is at its end, and gives how many bytes are at the start of the buffer; or says why it cannot, and how many are
// there from before.
fn fill<R: Read>(rt: &HostRuntime, file: &mut R, name: &[u8], buf: &mut [u8]) -> Result<usize, Said>
    ensures read { IfOk result (λ size. IsPrefixLen size buf.new) }
    ensures failed { IfErr result (λ said. IsPrefixLen said.size buf.new) }
{
    let mut n = 0;
    // A `while`: each read says how far it came, so no range has these steps.
    while n < buf.len() {
        match piece(rt, file, name, &mut buf[n..]) {
            Ok(0) => return Ok(n),
            Ok(got) => n += got,
            Err(_) => return Err(Said { size: n }),
        }
    }
    Ok(n)
}

// Reads the text that an argument names into the buffer, as far as there is room, and gives how many bytes; or says why it cannot, and how many were read before
// that.
pub fn text(rt: &HostRuntime, argument: usize, buf: &mut [u8]) -> Result<usize, Said>
    ensures read { IfOk result (λ size. IsPrefixLen size buf.new) }
    ensures failed { IfErr result (λ said. IsPrefixLen said.size buf.new) }
{
    let mut name = [0u8; NAME];
    let Ok(Opened { mut file, size }) = open(rt, argument, &mut name) else {
        return Err(Said { size: 0 });
    };
    fill(rt, &mut file, &name[..size], buf)
}

// Reads standard input until the buffer is full, the input is at its end or a read fails; gives how many bytes are at the start of the buffer.
pub fn input(rt: &HostRuntime, buf: &mut [u8]) -> usize
    ensures { IsPrefixLen result buf.new }
{
    let mut from = rt.stdin();
    let mut n = 0;
    // A `while`: each read says how far it came, so no range has these steps.
    while n < buf.len() {
        match read(&mut from, &mut buf[n..]) {
            Ok(got) if got > 0 => n += got,
            _ => return n,
        }
    }
    n
}

// Prints the refusal of a plan, as the table program does.
pub fn refuse(rt: &HostRuntime, refused: RefusedAt) {
    let mut out = [0; SIZE];
    let number = u64::from(refused.refusal);
    let n = refused_plan_line(&mut out, 0, number, refused.line as u64);
    let _ = print(rt, &out[..n]);
}

// Prints bytes; or says why it cannot. No buffer is lent, so what is said has the size 0.
pub fn print(rt: &HostRuntime, bytes: &[u8]) -> Result<(), Said> {
    Print::write_all(rt, bytes).map_err(|error| complain(rt, b"standard output", error))
}
