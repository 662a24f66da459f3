// The files that a program is given as arguments: each is judged, or played.
#![tactic(auto)]

ghost use Rattle.std.specs.Prelude.{◌≡◌, ◌≤◌, length, take, IfSome};
ghost use Rattle.std.specs.Io.{StartsWith};

mod playing;

use std::env::FillError;
use std::io::{Cursor, Read, Write};
use std::rt::{Env, Files};
use std::{fs, io, str};

// No file has a name of this many bytes. A longer argument is taken as an empty name, which no file has either.
const MOST_NAME: usize = 4096;

// How far a file is read.
const MOST_BYTES: usize = 65536;

// The error EILSEQ, which says that a name is no text.
const NOT_TEXT: i32 = 84;

// More bytes than the system says of any error.
const MOST_SAID: usize = 512;

// Puts argument k at the start of `name`, and answers its length: 0 where it is longer than `name`, and `None` where there is none.
fn name_of(rt: &impl Env, k: usize, name: &mut [u8]) -> Option<usize>
    ensures { IfSome result (λ n. n ≤ length name.new) }
{
    match rt.arg(k, name) {
        Ok(length) => Some(length),
        Err(FillError::TooLong) => Some(0),
        Err(FillError::NotPresent) => None,
    }
}

// Opens the file of that name for reading. Only a name that is text can be opened.
fn open<R: Files>(rt: &R, name: &[u8]) -> io::Result<R::File> {
    match str::from_utf8(name) {
        Ok(name) => fs::open(rt, name),
        Err(_) => Err(io::Error::from_raw_os_error(NOT_TEXT)),
    }
}

// Writes a line: what failed, a colon and what the system says of it, without the number that an `io::Error` puts after that.
fn fail(errors: &impl Print, what: &[u8], error: io::Error) -> io::Result<()> {
    let mut said = Cursor::new([0u8; MOST_SAID]);
    write!(said, "{error}")?;
    let said = said.into_inner();
    let said = str::from_utf8(&said).unwrap_or("");
    let words = match said.split_once(" (os error ") {
        Some((words, _)) => words,
        None => said.trim_end_matches('\0'),
    };
    errors.write_all(what)?;
    println!(errors; ": {words}")
}

// Opens the file of that name, and writes the name. Where it cannot be opened, says so and answers `None`.
fn open_named<R: Files + Print>(
    rt: &R,
    errors: &impl Print,
    name: &[u8],
) -> io::Result<Option<R::File>> {
    match open(rt, name) {
        Ok(file) => {
            rt.write_all(name)?;
            Ok(Some(file))
        }
        Err(error) => {
            fail(errors, name, error)?;
            Ok(None)
        }
    }
}

// Reads a file as far as the buffer goes, and closes it. A read that fails is the file's end.
fn read_opened<F: Read + Drop>(mut file: F, bytes: &mut [u8]) -> usize
    ensures in_bounds { result ≤ length bytes.new }
    ensures prefix { result ≡ length (take result bytes.new) }
    ensures first_bytes { IfSome (F.remaining file) (λ xs. StartsWith xs (take result bytes.new)) }
{
    let mut done = 0;
    // No index is counted here: each read says how far it went.
    while done < bytes.len() {
        match file.read(&mut bytes[done..]) {
            Ok(0) | Err(_) => break,
            Ok(n) => done += n,
        }
    }
    done
}

// Reads the file of that name, and shows its bytes.
fn one<R: Files + Print, F: Fn(&[u8]) -> io::Result<()>>(
    rt: &R,
    errors: &impl Print,
    name: &[u8],
    show: F,
) -> io::Result<()>
    requires { F.IsAlwaysCallable show }
{
    let Some(file) = open_named(rt, errors, name)? else {
        return Ok(());
    };
    let mut bytes = [0u8; MOST_BYTES];
    let n = read_opened(file, &mut bytes);
    show(&bytes[..n])
}

// Shows each file's bytes.
fn each<R: Env + Files + Print, F: Fn(&[u8]) -> io::Result<()>>(
    rt: &R,
    errors: &impl Print,
    show: F,
) -> io::Result<()>
    requires { F.IsAlwaysCallable show }
{
    for k in 1..usize::MAX {
        let mut name = [0u8; MOST_NAME];
        let Some(length) = name_of(rt, k, &mut name) else {
            break;
        };
        one(rt, errors, &name[..length], &show)?;
    }
    Ok(())
}

// Judges each file: a line with its name, the number and the place. A file that cannot be opened is named on `errors` and passed over.
pub fn judge_each<R: Env + Files + Print>(rt: &R, errors: &impl Print) -> io::Result<()> {
    each(rt, errors, |file| {
        let judged = reader::judge(file);
        println!(rt; " {} {}", judged.number, judged.place)
    })
}

// Plays each file from fresh, tick by tick: its name, then a line a tick. A file that cannot be opened is named on `errors` and passed
// over.
pub fn play_each<R: Env + Files + Print>(rt: &R, errors: &impl Print) -> io::Result<()> {
    each(rt, errors, |file| {
        println!(rt)?;
        playing::play_ticks(rt, file)
    })
}
