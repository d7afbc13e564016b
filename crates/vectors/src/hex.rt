// Bytes from hexadecimal digits.
use std::alloc::{AllocError, Global};

pub(crate) fn from_hex(heap: Global, hex: &[u8]) -> Result<Vec<u8>, AllocError> {
    let mut bytes = Vec::new(heap);
    for pair in hex.chunks_exact(2) {
        if let [high, low] = pair {
            bytes.push(nibble(*high) << 4 | nibble(*low))?;
        }
    }
    Ok(bytes)
}

fn nibble(digit: u8) -> u8 {
    match digit {
        b'0'..=b'9' => digit - b'0',
        b'a'..=b'f' => digit - b'a' + 10,
        _ => 0,
    }
}
