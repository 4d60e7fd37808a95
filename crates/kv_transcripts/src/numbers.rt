//! Lists of numbers.

use crate::fault::Fault;
use kv_base::Items;
use std::alloc::Global;

/// The number of this text.
pub fn number(text: &str) -> Result<u64, Fault> {
    text.parse::<u64>().map_err(|_| Fault::Number)
}

/// Both ends of `FIRST..LAST`.
pub fn range(text: &str) -> Option<(u64, u64)> {
    let (first, last) = text.split_once("..")?;
    Some((number(first).ok()?, number(last).ok()?))
}

/// The numbers of these words: `N`, `FIRST..LAST` with both ends, or `NxCOUNT` for N so many times.
pub fn numbers(alloc: Global, text: &str) -> Result<Items<u64>, Fault> {
    let mut numbers = Items::new(alloc);
    for word in text.split_whitespace() {
        if let Some((first, last)) = range(word) {
            for number in first..=last {
                numbers.push(number)?;
            }
        } else if let Some((one, count)) = word.split_once('x') {
            push_times(&mut numbers, number(one)?, number(count)?)?;
        } else {
            numbers.push(number(word)?)?;
        }
    }
    Ok(numbers)
}

fn push_times(numbers: &mut Items<u64>, number: u64, count: u64) -> Result<(), Fault> {
    for _ in 0..count {
        numbers.push(number)?;
    }
    Ok(())
}
