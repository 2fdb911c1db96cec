// Replays recorded answers of the oracle: asks the same again, compares the whole of each answer,
// and writes a line for each kind of request. HOW.md says how the lists were made.
#![tactic(auto)]

mod agree;
mod answers;
mod nights;
mod rows;
mod told;

ghost use Rattle.std.specs.Prelude.{◌+◌, ◌^◌, ◌<◌, ◌≤◌, IfOk};

use recorded::{field, memory};
use std::io;
use std::rt::Files;

// How many records were replayed, and how many of them agree.
#[derive(Clone, Copy)]
struct Tally {
    records: u64,
    agree: u64,
}

// Whether a record has so many fields and agrees; says so if it doesn't.
fn try_record<F: Fn(&[u8]) -> bool>(
    rt: &impl Print,
    fields: usize,
    agrees: &F,
    record: &[u8],
    which: u64,
) -> io::Result<bool>
    requires { F.IsAlwaysCallable agrees.now }
{
    if !field::is_whole(record, fields) {
        println!(rt; "record {which} is not one of this kind")?;
        return Ok(false);
    }
    if !agrees(record) {
        println!(rt; "record {which} differs")?;
        return Ok(false);
    }
    Ok(true)
}

// One more if a record is good.
fn counted(agree: u64, good: bool) -> u64
    requires { agree + 1 < 2 ^ 64 }
    ensures { result ≤ agree + 1 }
{
    if good { agree + 1 } else { agree }
}

// Replays each record of a list.
fn try_list<F: Fn(&[u8]) -> bool>(
    rt: &impl Print,
    fields: usize,
    agrees: &F,
    list: &[u8],
) -> io::Result<Tally>
    requires { F.IsAlwaysCallable agrees.now }
    ensures { IfOk result (λ tally. tally.agree ≤ tally.records) }
{
    let mut rest = list;
    let mut records: u64 = 0;
    let mut agree: u64 = 0;
    while 0 < rest.len() {
        let end = field::end_of(rest);
        if end < 2 {
            println!(rt; "the list ends inside a record")?;
            return Ok(Tally { records, agree });
        }
        records += 1;
        let good = try_record(rt, fields, agrees, &rest[2..end], records)?;
        agree = counted(agree, good);
        rest = &rest[end..];
    }
    Ok(Tally { records, agree })
}

// Replays the list of a kind, whose records have so many fields, and says how many agree, of how many bytes it is, and their sum.
fn replay<R: Files + Print + Eprint, F: Fn(&[u8]) -> bool>(
    rt: &R,
    name: &str,
    fields: usize,
    agrees: F,
) -> io::Result<()>
    requires { F.IsAlwaysCallable agrees }
{
    let mut file = match host::open(rt, name.as_bytes()) {
        Ok(file) => file,
        Err(why) => return host::fail(rt, name.as_bytes(), why),
    };
    let mut room = memory::room();
    let end = host::read_full(&mut file, &mut room)?;
    if end == room.len() {
        return println!(rt; "{name}: larger than the room for a list");
    }
    let list = &room[..end];
    let Tally { records, agree } = try_list(rt, fields, &agrees, list)?;
    let sum = memory::sum(list);
    println!(rt;
        "{name}: {agree} of {records} agree; {} bytes, sum {sum:08x}",
        list.len()
    )
}

fn main(rt: HostRuntime) -> io::Result<()> {
    replay(&rt, "reading", 8, answers::read)?;
    replay(&rt, "strict", 8, answers::read_strict)?;
    replay(&rt, "writing", 8, answers::write)?;
    replay(&rt, "appending", 6, answers::ask)?;
    replay(&rt, "waiting", 12, answers::feed)?;
    replay(&rt, "feeding", 10, answers::bridge)?;
    replay(&rt, "frames", 10, answers::bridge)?;
    replay(&rt, "taking", 8, answers::take)?;
    replay(&rt, "finding", 7, answers::find)?;
    replay(&rt, "comparing", 8, answers::compare)?;
    replay(&rt, "batching", 11, nights::ask)?;
    replay(&rt, "compacting", 7, nights::compact)?;
    replay(&rt, "exporting", 7, rows::export)?;
    replay(&rt, "importing", 7, rows::import)
}
