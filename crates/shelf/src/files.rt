// A file named by a word of the command, whole or not at all.
ghost use Rattle.std.specs.Prelude.{◌≡◌, ◌*◌, length};
ghost use Rattle.wire.specs.Answers.{words_per};

use std::io;
use std::io::Read;
use std::rt::{Files, Runtime};

// The words of 16,384 entries, for a store or a value list.
const WORDS: usize = 16384 * entry::WORDS;

pub fn words_room() -> [u64; WORDS]
    ensures { 16384 * words_per ≡ length result }
{
    [0; WORDS]
}

// The room for a table, a message, a pool, an output or the file of a value list: as many bytes as those words have.
pub const LARGE: usize = 8 * WORDS;

pub fn large_room() -> [u8; LARGE]
    ensures { 8 * (16384 * words_per) ≡ length result }
{
    [0; LARGE]
}

// The room for a batch or a row. A message that fits its own room has a row that fits here.
pub const LARGEST: usize = 2097152;

pub fn largest_room() -> [u8; LARGEST] {
    [0; LARGEST]
}

// A file's bytes, in front of the room; none if there are more than fit.
fn read_whole<'a, R: Files>(
    rt: &R,
    path: &[u8],
    room: &'a mut [u8],
) -> io::Result<Option<&'a [u8]>> {
    let mut file = host::open(rt, path)?;
    let len = host::read_full(&mut file, room)?;
    let mut next = [0u8; 1];
    if file.read(&mut next)? != 0 {
        return Ok(None);
    }
    Ok(Some(&room[..len]))
}

// Runs on the file that the command's word i names, read into a room. Where that fails, it says why, and nothing is run.
pub fn with<R: Runtime, F: FnOnce(&[u8]) -> io::Result<()>>(
    rt: &R,
    i: usize,
    room: &mut [u8],
    run: F,
) -> io::Result<()>
    requires { F.IsAlwaysCallable run }
{
    let mut buffer = host::buffer();
    let path = host::word(rt, i, &mut buffer);
    let size = room.len();
    match read_whole(rt, path, room) {
        Ok(Some(bytes)) => run(bytes),
        Ok(None) => {
            rt.write_all(path)?;
            println!(rt; ": larger than the room of {size} bytes")
        }
        Err(why) => host::fail(rt, path, why),
    }
}

// Runs on the files that the command's words 2 and 3 name: a table and a message, or two tables.
pub fn with_two<R: Runtime, F: FnOnce(&[u8], &[u8]) -> io::Result<()>>(
    rt: &R,
    run: F,
) -> io::Result<()>
    requires { F.IsAlwaysCallable run }
{
    with(rt, 2, &mut large_room(), |one| {
        with(rt, 3, &mut large_room(), |two| run(one, two))
    })
}

// Puts bytes into the file that the command's word i names, and says whether that is done.
pub fn save(rt: &impl Runtime, i: usize, bytes: &[u8]) -> io::Result<()> {
    let mut buffer = host::buffer();
    let path = host::word(rt, i, &mut buffer);
    if let Err(why) = host::write(rt, path, bytes) {
        return host::fail(rt, path, why);
    }
    print!(rt; "wrote {} bytes to ", bytes.len())?;
    rt.write_all(path)?;
    print!(rt; "\n")
}
