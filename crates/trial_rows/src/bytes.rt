//! Bytes by their hexadecimal digits, and changes of bytes.

use crate::fault::Fault;
use crate::words::number;
use hex::FromHexError;
use std::alloc::Global;

/// The bytes that the hexadecimal digits mean.
pub fn bytes_of(alloc: Global, digits: &str) -> Result<Vec<u8>, Fault> {
    match hex::decode(alloc, digits) {
        Ok(bytes) => Ok(bytes),
        Err(FromHexError::OutOfMemory) => Err(Fault::OutOfMemory),
        Err(_) => Err(Fault::Unreadable),
    }
}

/// The content with changed bytes, each a place and two digits, as `8=02`. `<18` cuts it there.
pub fn changed(alloc: Global, content: &[u8], words: &str) -> Result<Vec<u8>, Fault> {
    let mut bytes = Vec::from_slice(alloc, content)?;
    for word in words.split_whitespace() {
        change(&mut bytes, word)?;
    }
    Ok(bytes)
}

fn change(bytes: &mut Vec<u8>, word: &str) -> Result<(), Fault> {
    if let Some(len) = word.strip_prefix('<') {
        bytes.truncate(number(len)? as usize);
        return Ok(());
    }
    let (place, digits) = word.split_once('=').ok_or(Fault::Unreadable)?;
    let place = number(place)? as usize;
    let byte = u8::from_str_radix(digits, 16)?;
    if place >= bytes.len() {
        return Err(Fault::Unreadable);
    }
    bytes[place] = byte;
    Ok(())
}
