//! Decimal numbers.

use crate::fault::RowFault;

/// No sign and no leading zero stand before the digits, which `parse` alone allows.
fn is_plain(digits: &str) -> bool {
    if digits.starts_with("+") {
        return false;
    }
    digits == "0" || !digits.starts_with("0")
}

/// The number that the digits write, without a sign and without a leading zero.
pub fn number64(digits: &str) -> Result<u64, RowFault> {
    if !is_plain(digits) {
        return Err(RowFault::Outside);
    }
    match digits.parse::<u64>() {
        Ok(number) => Ok(number),
        Err(_) => Err(RowFault::Outside),
    }
}

/// The same, of a number below 2^32.
pub fn number32(digits: &str) -> Result<u32, RowFault> {
    if !is_plain(digits) {
        return Err(RowFault::Outside);
    }
    match digits.parse::<u32>() {
        Ok(number) => Ok(number),
        Err(_) => Err(RowFault::Outside),
    }
}
