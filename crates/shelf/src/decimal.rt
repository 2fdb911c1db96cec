// Numbers in decimal, as a command's words spell them.
use std::rt::Env;

// Why a word spells no number of 64 bits: it isn't digits alone, or the number is larger.
#[derive(Clone, Copy)]
pub enum NoNumber {
    NotDecimal,
    TooLarge,
}

fn decimal(word: &[u8]) -> Result<u64, NoNumber> {
    if !word.iter().all(|sign| sign.is_ascii_digit()) {
        return Err(NoNumber::NotDecimal);
    }
    match str::from_utf8(word) {
        Ok("") | Err(_) => Err(NoNumber::NotDecimal),
        Ok(digits) => digits.parse::<u64>().map_err(|_| NoNumber::TooLarge),
    }
}

// The number that the command's word i spells.
pub fn word(rt: &impl Env, i: usize) -> Result<u64, NoNumber> {
    decimal(host::word(rt, i, &mut host::buffer()))
}

// The same, or the largest in place of one that is too large, where no such large number is to be found.
pub fn at_most(rt: &impl Env, i: usize) -> Option<u64> {
    match word(rt, i) {
        Ok(number) => Some(number),
        Err(NoNumber::TooLarge) => Some(u64::MAX),
        Err(NoNumber::NotDecimal) => None,
    }
}
