// The accident that the append question prevents: a new table puts a field in front, and the old one reads other numbers
// without an error. The same field at the end does no harm.
#![tactic(auto)]

use say::Signed;
use std::io;
use wire::NotAsked;

// A work area for the append question.
fn work_area() -> [u8; append::AREA] {
    [0; append::AREA]
}

fn say_question(rt: &impl Print, old: &[u8], new: &[u8]) -> io::Result<()> {
    let mut area = work_area();
    match append::appends(old, new, &mut area) {
        Ok(true) => println!(rt; "yes, it only appends."),
        Ok(false) => println!(rt; "no, it does not only append."),
        Err(NotAsked::Table { .. }) => println!(rt; "a table is not good."),
        Err(NotAsked::ShortArea) => println!(rt; "the work area is too short."),
    }
}

// What the old table reads: the entries behind the struct's own.
fn say_reading(rt: &impl Print, old: &[u8], message: &[u8]) -> io::Result<()> {
    let mut store = [0u64; 4 * entry::WORDS];
    if reader::read(old, message, &mut store).is_err() {
        return println!(rt; "The old table would refuse it.");
    }
    let shop = store[entry::WORDS];
    let product = store[2 * entry::WORDS];
    let count = Signed(store[3 * entry::WORDS]);
    println!(rt;
        "The old table would read store {shop}, product {product}, count {count}, and no error."
    )
}

fn main(rt: HostRuntime) -> io::Result<()> {
    // A struct of a store (u32), a product (u64) and a count (i32); and the same with a further u32, in front and at the end.
    let old = b"\x07\0\0\0\0\0\
        \x08\0\0\0\0\0\
        \x03\0\0\0\0\0\
        \x12\0\0\0\x03\0\
        \0\0\x01\0\x02\0\
        \x06\0\x1e\0\x04\0\x03\0\x53\x50";
    let front = b"\x07\0\0\0\0\0\
        \x08\0\0\0\0\0\
        \x03\0\0\0\0\0\
        \x12\0\0\0\x04\0\
        \0\0\0\0\x01\0\x02\0\
        \x08\0\x20\0\x04\0\x03\0\x53\x50";
    let end = b"\x07\0\0\0\0\0\
        \x08\0\0\0\0\0\
        \x03\0\0\0\0\0\
        \x12\0\0\0\x04\0\
        \0\0\x01\0\x02\0\0\0\
        \x08\0\x20\0\x04\0\x03\0\x53\x50";
    println!(&rt;
        "Counted: store 300, product 5, count -2. The new table adds a field, with 7 in it.\n"
    )?;
    print!(&rt; "The new table puts the field in front: ")?;
    say_question(&rt, old, front)?;
    say_reading(&rt, old, b"\x07\xac\x02\x05\x03")?;
    print!(&rt; "\nThe new table puts the field at the end: ")?;
    say_question(&rt, old, end)?;
    say_reading(&rt, old, b"\xac\x02\x05\x03\x07")
}
