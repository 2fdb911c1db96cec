// Loops over the leaves, so that a driver can time them without a call for each item. No part of the library.
#![tactic(auto)]

use varint::{U16, U32, U64, Width};

// The sum of a message's varints, one after the other, up to the first that is refused.
fn sum<W: Width>(message: &[u8]) -> u64 {
    let mut sum: u64 = 0;
    let mut rest = message;
    while 0 < rest.len() {
        let Ok(own) = varint::take::<W>(rest) else {
            return sum;
        };
        sum = std::num::wrapping_add_u64(sum, own.first);
        rest = &rest[own.used..];
    }
    sum
}

#[unsafe(no_mangle)]
pub extern "C" fn measure_u16(message: &[u8]) -> u64 {
    sum::<U16>(message)
}

#[unsafe(no_mangle)]
pub extern "C" fn measure_u32(message: &[u8]) -> u64 {
    sum::<U32>(message)
}

#[unsafe(no_mangle)]
pub extern "C" fn measure_u64(message: &[u8]) -> u64 {
    sum::<U64>(message)
}

// 1 if a text is UTF-8.
#[unsafe(no_mangle)]
pub extern "C" fn measure_text(text: &[u8]) -> u64 {
    let ok = utf8::is_text(text);
    if ok { 1 } else { 0 }
}
