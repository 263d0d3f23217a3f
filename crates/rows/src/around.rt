// Rows of units: a line `<TEXT` sets what stands in front of the texts that follow, a line `>TEXT` what stands behind them,
// and each other line is a text, in which `\n` is a newline and `\` with two hexadecimal digits that byte.
use std::alloc::{AllocError, Global};

/// What stands in front of a row's text and behind it.
#[derive(Drop)]
pub struct Around {
    front: Vec<u8>,
    back: Vec<u8>,
}

impl Around {
    /// Nothing in front and nothing behind.
    pub fn new(alloc: Global) -> Around {
        Around {
            front: Vec::new(alloc),
            back: Vec::new(alloc),
        }
    }

    /// Takes a line. Where it is a row, its whole text is given.
    pub fn take(&mut self, alloc: Global, line: &str) -> Result<Option<Vec<u8>>, AllocError> {
        if let Some(text) = line.strip_prefix('<') {
            self.front = bytes_of(alloc, text)?;
            return Ok(None);
        }
        if let Some(text) = line.strip_prefix('>') {
            self.back = bytes_of(alloc, text)?;
            return Ok(None);
        }
        let text = bytes_of(alloc, line)?;
        let mut whole = Vec::new(alloc);
        whole.extend_from_slice(self.front.as_slice())?;
        whole.extend_from_slice(text.as_slice())?;
        whole.extend_from_slice(self.back.as_slice())?;
        Ok(Some(whole))
    }
}

// The bytes of a text, with what stands for others in their place. A `\` that stands for nothing is left out.
fn bytes_of(alloc: Global, text: &str) -> Result<Vec<u8>, AllocError> {
    let mut bytes = Vec::new(alloc);
    let mut pieces = text.split('\\');
    if let Some(piece) = pieces.next() {
        bytes.extend_from_slice(piece.as_bytes())?;
    }
    for piece in pieces {
        let rest = match piece.strip_prefix('n') {
            Some(rest) => {
                bytes.push(b'\n')?;
                rest
            }
            None => after_digits(&mut bytes, piece)?,
        };
        bytes.extend_from_slice(rest.as_bytes())?;
    }
    Ok(bytes)
}

// Puts the byte that two digits in front stand for, and gives what is behind them.
fn after_digits<'a>(bytes: &mut Vec<u8>, piece: &'a str) -> Result<&'a str, AllocError> {
    let Some((digits, rest)) = piece.split_at_checked(2) else {
        return Ok(piece);
    };
    match u8::from_str_radix(digits, 16) {
        Ok(byte) => {
            bytes.push(byte)?;
            Ok(rest)
        }
        Err(_) => Ok(piece),
    }
}
