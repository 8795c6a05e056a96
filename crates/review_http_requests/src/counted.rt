//! A reader or a writer that counts.
ghost use Rattle.std.specs.Io.{ReadsAtMost, WritesAtMost};
ghost use Rattle.std.specs.{Io.KnownBytes.ReadConsumes, Io.KnownBytes.WriteAppends, Io.KnownBytes.Keeps, Prelude.◌≡◌};
ghost use Rattle.review_http_requests.specs.Counts.{one_more, faults_after, write_faults_after};

use std::io::{Read, Result, Write};

/// A reader or a writer with counts of its faults and its reads. Both stop at the greatest value.
#[derive(Drop)]
pub struct Counted<T> {
    inner: T,
    faults: u64,
    reads: u64,
}

impl<T> Counted<T> {
    /// It, with nothing counted yet. This takes no memory.
    pub fn new(inner: T) -> Counted<T>
        ensures inner { result.inner ≡ inner }
        ensures faults { result.faults ≡ 0 }
        ensures reads { result.reads ≡ 0 }
    {
        Counted {
            inner,
            faults: 0,
            reads: 0,
        }
    }

    /// The reads, writes and flushes that answered an error, and the writes that took no byte.
    pub fn faults(&self) -> u64
        ensures { result ≡ self.now.faults }
    {
        self.faults
    }

    /// The reads.
    pub fn reads(&self) -> u64
        ensures { result ≡ self.now.reads }
    {
        self.reads
    }

    /// What was wrapped. The counts are gone.
    pub fn into_inner(self) -> T
        ensures { result ≡ self.inner }
    {
        let Counted { inner, .. } = self;
        inner
    }
}

impl<R: Read> Read for Counted<R> {
    ghost remaining = { λ c. R.remaining c.inner };

    fn read(&mut self, buf: &mut [u8]) -> Result<usize>
        ensures bound { ReadsAtMost result buf.new }
        ensures bytes { ReadConsumes (R.remaining self.old.inner) (R.remaining self.new.inner) result buf.new }
        ensures reads { self.new.reads ≡ one_more self.old.reads }
        ensures faults { self.new.faults ≡ faults_after result self.old.faults }
    {
        self.reads = self.reads.saturating_add(1);
        let result = self.inner.read(buf);
        if result.is_err() {
            self.faults = self.faults.saturating_add(1);
        }
        result
    }
}

impl<W: Write> Write for Counted<W> {
    ghost contents = { λ c. W.contents c.inner };

    fn write(&mut self, buf: &[u8]) -> Result<usize>
        ensures bound { WritesAtMost result buf.now }
        ensures bytes { WriteAppends (W.contents self.old.inner) (W.contents self.new.inner) result buf.now }
        ensures faults { self.new.faults ≡ write_faults_after result self.old.faults }
        ensures reads { self.new.reads ≡ self.old.reads }
    {
        let result = self.inner.write(buf);
        if !matches!(&result, Ok(taken) if *taken > 0) {
            self.faults = self.faults.saturating_add(1);
        }
        result
    }

    fn flush(&mut self) -> Result<()>
        ensures bytes { Keeps (W.contents self.old.inner) (W.contents self.new.inner) }
        ensures faults { self.new.faults ≡ faults_after result self.old.faults }
        ensures reads { self.new.reads ≡ self.old.reads }
    {
        let result = self.inner.flush();
        if result.is_err() {
            self.faults = self.faults.saturating_add(1);
        }
        result
    }
}
