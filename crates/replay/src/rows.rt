// Asks again for a message's row, or for a row's message, and compares the whole of the answer with the record's.
use crate::agree::{bytes, tells};
use crate::told;
use desk::NotRows;
use recorded::field;

fn answers<F: FnOnce(&[u8], &[u8], &mut [u8]) -> Result<usize, NotRows>>(
    record: &[u8],
    ask: F,
) -> bool
    requires { F.IsAlwaysCallable ask }
{
    bytes(record, 5, 6, |out| {
        let answer = ask(field::part(record, 3), field::part(record, 4), out);
        tells(record, told::row(answer))
    })
}

pub fn export(record: &[u8]) -> bool {
    answers(record, csv_rows::export)
}

pub fn import(record: &[u8]) -> bool {
    answers(record, csv_rows::import)
}
