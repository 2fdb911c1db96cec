// What the programs ask of the system: the command's words, standard input and files, in lent memory; and why a file failed.
#![tactic(auto)]

ghost use Rattle.std.specs.Prelude.{◌≡◌, ◌≤◌, length, IfErr};
ghost use Rattle.std.specs.Io.{ReadsAtMost};

use std::env::FillError;
use std::io::{Error, ErrorKind, Read, Write};
use std::rt::{Env, Files};
use std::{fs, io};

// 4,096 zeros, which hold any path.
pub fn buffer() -> [u8; 4096]
    ensures { 4096 ≡ length result }
{
    [0; 4096]
}

pub fn large_buffer() -> [u8; 65536]
    ensures { 65536 ≡ length result }
{
    [0; 65536]
}

// How many words the command has, the program's name among them.
pub fn word_count(rt: &impl Env) -> usize {
    let mut first = [0u8; 1];
    for i in 0..usize::MAX {
        if let Err(FillError::NotPresent) = rt.arg(i, &mut first) {
            return i;
        }
    }
    usize::MAX
}

// The command's word i, which it puts in front of the room: nothing where it isn't there or is longer than the room.
pub fn word<'a>(rt: &impl Env, i: usize, room: &'a mut [u8]) -> &'a [u8]
    ensures { length result.now ≤ length room.old }
{
    match rt.arg(i, room) {
        Ok(n) => &room[..n],
        Err(_) => &[],
    }
}

// Reads until the room is full or the input ends, and says how many bytes stand in front.
pub fn read_full<R: Read>(from: &mut R, room: &mut [u8]) -> io::Result<usize>
    ensures ok { ReadsAtMost result room.new }
    ensures err { IfErr result (λ why. length room.new ≡ length room.old) }
{
    let mut done = 0;
    while done < room.len() {
        let n = from.read(&mut room[done..])?;
        if n == 0 {
            break;
        }
        done += n;
    }
    Ok(done)
}

// A path is text.
fn path_of(path: &[u8]) -> io::Result<&str> {
    str::from_utf8(path).map_err(|_| Error::from(ErrorKind::InvalidFilename))
}

pub fn open<R: Files>(rt: &R, path: &[u8]) -> io::Result<R::File> {
    fs::open(rt, path_of(path)?)
}

// Puts bytes into a file in place of what it held, or into a new one.
pub fn write(rt: &impl Files, path: &[u8], bytes: &[u8]) -> io::Result<()> {
    fs::write(rt, path_of(path)?, bytes)
}

// An error's words, without the number that the system has for it.
fn words_of(why: &str) -> &str {
    why.split_once(" (os error ")
        .map_or(why, |(words, _)| words)
}

// An error's words and its number fit: the system's longest are some fifty bytes.
const ROOM: usize = 512;

// A name on standard error; what is no text in it is shown as U+FFFD.
fn eprint_name(rt: &impl Eprint, name: &[u8]) -> io::Result<()> {
    for chunk in name.utf8_chunks() {
        rt.eprint(chunk.valid())?;
        if !chunk.invalid().is_empty() {
            rt.eprint("\u{fffd}")?;
        }
    }
    Ok(())
}

// A line on standard error: what failed, and why.
pub fn fail(rt: &impl Eprint, what: &[u8], why: Error) -> io::Result<()> {
    let mut room = [0u8; ROOM];
    let mut rest = &mut room[..];
    write!(rest, "{why}")?;
    let left = rest.len();
    let told = &room[..ROOM.saturating_sub(left)];
    eprint_name(rt, what)?;
    match str::from_utf8(told) {
        Ok(words) => eprintln!(rt; ": {}", words_of(words)),
        Err(_) => eprintln!(rt; ": an error"),
    }
}
