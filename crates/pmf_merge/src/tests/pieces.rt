//! A source that gives a text in pieces, and fails when a test wants it.

ghost use Rattle.std.specs.Prelude.{◌≡◌, None};

use pmf_device::{Device, Failed, Source};

// Gives the text, at most `most` bytes a read, which is not 0, and then the end.
#[derive(Drop)]
pub struct Pieces<'a> {
    rest: &'a [u8],
    most: usize,
    fails_after: bool,
    failures: u64,
}

impl<'a> Pieces<'a> {
    // Where it fails, each read behind the text fails in place of the end.
    pub fn new(text: &'a [u8], most: usize, fails_after: bool) -> Pieces<'a>
        ensures { result.failures ≡ 0 }
    {
        Pieces {
            rest: text,
            most,
            fails_after,
            failures: 0,
        }
    }
}

impl Pieces<'_> {
    // How many bytes it has left to give.
    pub fn left(&self) -> usize {
        self.rest.len()
    }
}

impl<'a> Device for Pieces<'a> {
    ghost failed_calls = { λ s. s.failures };

    fn failures(&self) -> u64 {
        self.failures
    }
}

impl<'a> Source for Pieces<'a> {
    ghost left = { λ _. None };

    fn read(&mut self, buffer: &mut [u8]) -> Result<usize, Failed> {
        if self.rest.is_empty() && self.fails_after {
            self.failures += 1;
            return Err(Failed);
        }
        let count = self.rest.len().min(buffer.len()).min(self.most);
        buffer[..count].copy_from_slice(&self.rest[..count]);
        self.rest = &self.rest[count..];
        Ok(count)
    }
}
