// Bytes written as hexadecimal digits.
ghost use Rattle.std.specs.Prelude.{◌≡◌, ◌<◌, IfOk, IfSome};
ghost use Rattle.ori_spec_data.specs.Fit.{hex_bytes, hex_digit};

use ori_bytes::{Blob, NoMemory};
use std::alloc::Global;

/// The bytes that a text of an even number of digits 0-9a-f names, or none for any other text.
#[tactic(auto, using(crate::proofs::HexSteps::odd_is_none))]
pub fn from_hex(alloc: Global, text: &[u8]) -> Result<Option<Blob>, NoMemory>
    ensures { IfOk result (λ r. r ≡ hex_bytes text.now) }
{
    if text.len() % 2 != 0 {
        return Ok(None);
    }
    let mut bytes = Blob::new(alloc);
    for at in 0..text.len() / 2 {
        let Some(high) = hex_digit(text[2 * at]) else {
            return Ok(None);
        };
        let Some(low) = hex_digit(text[2 * at + 1]) else {
            return Ok(None);
        };
        bytes.push(16 * high + low)?;
    }
    Ok(Some(bytes))
}

// The value of a digit 0-9a-f, below 16.
fn hex_digit(digit: u8) -> Option<u8>
    ensures value { result ≡ hex_digit digit }
    ensures below { IfSome result (λ d. d < 16) }
{
    match digit {
        b'0'..=b'9' => Some(digit - b'0'),
        b'a'..=b'f' => Some(digit - b'a' + 10),
        _ => None,
    }
}
