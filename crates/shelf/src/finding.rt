// One item of a message, by a path in decimal.
use crate::decimal;
use std::io;
use std::rt::Env;

// A path has at most so many positions: no chain of a good table is longer.
const DEEPEST: usize = 256;

// The path that the command's words spell from the fifth on, in front of the room; none if they spell none. No table has a
// position that doesn't fit 64 bits.
fn path_of<'a>(rt: &impl Env, room: &'a mut [u64], words: usize) -> Option<&'a [u64]> {
    let depth = words.checked_sub(4)?;
    let path = room.get_mut(..depth)?;
    for (i, position) in path.iter_mut().enumerate() {
        *position = decimal::at_most(rt, 4 + i)?;
    }
    Some(path)
}

// Finds the item at the path that the command's words spell.
pub fn find(rt: &(impl Env + Print), table: &[u8], message: &[u8], words: usize) -> io::Result<()> {
    let mut room = [0u64; DEEPEST];
    let Some(path) = path_of(rt, &mut room, words) else {
        return println!(rt; "a path is up to 256 numbers in decimal");
    };
    let answer = find::find(table, path, message);
    listing::found::show(rt, table, path, message, answer)
}
