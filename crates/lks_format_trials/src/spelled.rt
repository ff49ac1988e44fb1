//! Rows of tables as text: a column of numbers, and one of bytes.

use std::alloc::{AllocError, Global};
use std::test::Fail;

/// The numbers of a column. The word `hash` stands for 0 to 31.
pub fn numbers(alloc: Global, column: &str) -> Result<Vec<u32>, Fail> {
    let mut numbers = Vec::new(alloc);
    for word in column.split_whitespace() {
        if word == "hash" {
            for number in 0..32 {
                numbers.push(number)?;
            }
        } else {
            numbers.push(word.parse::<u32>()?)?;
        }
    }
    Ok(numbers)
}

/// The bytes of a column.
pub fn bytes(alloc: Global, column: &str) -> Result<Vec<u8>, Fail> {
    let mut bytes = Vec::new(alloc);
    for number in numbers(alloc, column)?.iter() {
        bytes.push(u8::try_from(*number)?)?;
    }
    Ok(bytes)
}

/// A row's bytes, and the numbers that they are to say.
pub fn row(alloc: Global, line: &str) -> Result<(Vec<u8>, Vec<u32>), Fail> {
    let (bytes_column, numbers_column) = line.split_once(':').ok_or("a row")?;
    Ok((bytes(alloc, bytes_column)?, numbers(alloc, numbers_column)?))
}

pub fn add_peers(numbers: &mut Vec<u32>, peers: &[u16]) -> Result<(), AllocError> {
    for peer in peers {
        numbers.push(u32::from(*peer))?;
    }
    Ok(())
}

pub fn add_bytes(numbers: &mut Vec<u32>, bytes: &[u8]) -> Result<(), AllocError> {
    for byte in bytes {
        numbers.push(u32::from(*byte))?;
    }
    Ok(())
}
