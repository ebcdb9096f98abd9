ghost use Rattle.std.specs.Prelude.{◌≡◌, ℕ, ◌+◌, ◌-◌, ◌^◌, ◌||◌, min, true, false, is_err};
ghost use Rattle.std.specs.Io.{ReadsAtMost, WritesAtMost};
ghost use Rattle.std.specs.Io.KnownBytes.{Keeps, ReadConsumes, WriteAppends};
ghost use Rattle.sipl_lines.specs.Tapped.{tapped_inner, has_failed, read_count, write_fails};

use std::io::{Read, Result, Write};

/// A reader or a writer that records whether a call of it has failed, and counts the reads.
#[derive(Drop)]
pub struct Tapped<T> {
    inner: T,
    failed: bool,
    reads: u64,
}

impl<T> Tapped<T> {
    /// Wraps a reader or a writer. No call of it has failed yet.
    pub fn new(inner: T) -> Self
        ensures inner { tapped_inner result ≡ inner }
        ensures failed { has_failed result ≡ false }
        ensures reads { read_count result ≡ 0 }
    {
        Tapped {
            inner,
            failed: false,
            reads: 0,
        }
    }

    /// Whether a call has returned an error, or a write of a text that is not empty wrote nothing.
    pub fn failed(&self) -> bool
        ensures { result ≡ has_failed self.now }
    {
        self.failed
    }

    /// The number of reads, at most the greatest `u64`.
    pub fn reads(&self) -> u64
        ensures { result ≡ read_count self.now }
    {
        self.reads
    }

    /// Returns what was wrapped.
    pub fn into_inner(self) -> T
        ensures { result ≡ tapped_inner self }
    {
        self.inner
    }
}

impl<R: Read> Read for Tapped<R> {
    ghost remaining = { λ t. R.remaining (tapped_inner t) };

    fn read(&mut self, buf: &mut [u8]) -> Result<usize>
        ensures bound { ReadsAtMost result buf.new }
        ensures bytes { ReadConsumes (R.remaining (tapped_inner self.old))
            (R.remaining (tapped_inner self.new)) result buf.new }
        ensures failed { has_failed self.new ≡ (has_failed self.old || is_err result) }
        ensures counted { read_count self.new ≡ min (read_count self.old + 1) (2 ^ 64 - 1) }
    {
        self.reads = self.reads.saturating_add(1);
        let outcome = self.inner.read(buf);
        self.failed = self.failed || outcome.is_err();
        outcome
    }
}

impl<W: Write> Write for Tapped<W> {
    ghost contents = { λ t. W.contents (tapped_inner t) };

    fn write(&mut self, buf: &[u8]) -> Result<usize>
        ensures bound { WritesAtMost result buf.now }
        ensures bytes { WriteAppends (W.contents (tapped_inner self.old))
            (W.contents (tapped_inner self.new)) result buf.now }
        ensures failed { has_failed self.new ≡ (has_failed self.old || write_fails result buf.now) }
        ensures counted { read_count self.new ≡ read_count self.old }
    {
        let outcome = self.inner.write(buf);
        let fails = match &outcome {
            Ok(count) => *count == 0 && !buf.is_empty(),
            Err(_) => true,
        };
        self.failed = self.failed || fails;
        outcome
    }

    fn flush(&mut self) -> Result<()>
        ensures bytes { Keeps (W.contents (tapped_inner self.old))
            (W.contents (tapped_inner self.new)) }
        ensures failed { has_failed self.new ≡ (has_failed self.old || is_err result) }
        ensures counted { read_count self.new ≡ read_count self.old }
    {
        let outcome = self.inner.flush();
        self.failed = self.failed || outcome.is_err();
        outcome
    }
}
