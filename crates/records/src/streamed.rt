//! Readers and writers of std as sources and drains.
ghost use Rattle.std.specs.Prelude.{◌≡◌, false};

use crate::{Drain, Failed, Source};
use std::io::{Read, Write};

/// A reader or writer of std that is asked no more once a call of it has failed.
#[derive(Drop)]
pub struct Streamed<X> {
    inner: X,
    failed: bool,
}

impl<X> Streamed<X> {
    ghost use Rattle.records.specs.Streamed.{stream_inside, stream_failed};

    pub fn new(inner: X) -> Self
        ensures inner { stream_inside result ≡ inner }
        ensures failed { stream_failed result ≡ false }
    {
        Streamed {
            inner,
            failed: false,
        }
    }

    pub fn into_inner(self) -> X
        ensures { result ≡ stream_inside self }
    {
        let Streamed { inner, failed: _ } = self;
        inner
    }
}

impl<X: Read> Source for Streamed<X> {
    ghost use Rattle.records.specs.Streamed.{stream_inside, stream_failed};

    ghost left = { λ s. X.remaining (stream_inside s) };

    ghost failed = { λ s. stream_failed s };

    fn take(&mut self, piece: &mut [u8]) -> Result<usize, Failed> {
        if self.failed {
            return Err(Failed);
        }
        match self.inner.read(piece) {
            Ok(count) => Ok(count),
            Err(_) => {
                self.failed = true;
                Err(Failed)
            }
        }
    }
}

impl<X: Write> Drain for Streamed<X> {
    ghost use Rattle.records.specs.Streamed.{stream_inside, stream_failed};

    ghost written = { λ s. X.contents (stream_inside s) };

    ghost failed = { λ s. stream_failed s };

    fn put(&mut self, piece: &[u8]) -> Result<usize, Failed> {
        if self.failed {
            return Err(Failed);
        }
        match self.inner.write(piece) {
            // A writer that takes nothing of a piece will take no more.
            Ok(0) if !piece.is_empty() => {
                self.failed = true;
                Err(Failed)
            }
            Ok(count) => Ok(count),
            Err(_) => {
                self.failed = true;
                Err(Failed)
            }
        }
    }
}
