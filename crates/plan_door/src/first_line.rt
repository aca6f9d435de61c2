//! The first line of a request, for the log.

/// The first line that isn't empty. A line over 256 bytes has no text, because no route needs one.
#[derive(Drop)]
pub(crate) struct FirstLine {
    bytes: [u8; 256],
    length: usize,
    is_whole: bool,
}

impl FirstLine {
    /// Returns the line before the first byte.
    pub(crate) fn new() -> FirstLine {
        FirstLine {
            bytes: [0; 256],
            length: 0,
            is_whole: false,
        }
    }

    // Adds a byte.
    fn push_byte(&mut self, byte: u8) {
        if byte == b'\r' || byte == b'\n' {
            self.is_whole = self.length > 0;
            return;
        }
        if let Some(place) = self.bytes.get_mut(self.length) {
            *place = byte;
        }
        self.length = self.length.saturating_add(1);
    }

    /// Adds the bytes that belong to the line.
    pub(crate) fn push(&mut self, bytes: &[u8]) {
        for &byte in bytes {
            if self.is_whole {
                return;
            }
            self.push_byte(byte);
        }
    }

    // The line, if it is complete and not too long.
    fn text(&self) -> Option<&str> {
        if !self.is_whole {
            return None;
        }
        str::from_utf8(self.bytes.get(..self.length)?).ok()
    }

    /// Returns its first two tokens: the method and the target of a request.
    pub(crate) fn method_and_target(&self) -> Option<(&str, &str)> {
        let mut tokens = self.text()?.split(' ');
        Some((tokens.next()?, tokens.next()?))
    }
}
