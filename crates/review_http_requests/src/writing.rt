//! All of some bytes, written.
ghost use Rattle.std.specs.Io.KnownBytes.{Appends};
ghost use Rattle.std.specs.Prelude.{◌≡◌, ◌≤◌, ℕ, List, OnOk, OnErr, take, drop, length};
ghost use Rattle.review_http_requests.specs.{Bytes.IsFirstPart, Counts.one_more, Shown.inner_of, Shown.faults_of};

use crate::counted::Counted;
use std::io::Write;

/// The writer failed, or took no byte.
#[derive(Clone, Copy, PartialEq, Eq)]
pub struct WriteFault;

fn bytes_from(bytes: &[u8], start: usize) -> &[u8]
    requires { start ≤ length bytes.now }
    ensures { result.now ≡ drop start bytes.now }
{
    &bytes[start..]
}

/// Writes all the bytes, or a first part of them, and flushes. A writer that takes no byte has failed.
pub fn write_and_flush<W: Write>(writer: &mut Counted<W>, bytes: &[u8]) -> Result<(), WriteFault>
    ensures whole { OnOk result (Appends (W.contents (inner_of writer.old)) (W.contents (inner_of writer.new)) bytes.now) }
    ensures part { OnErr result ((part : List ℕ) × IsFirstPart part bytes.now × Appends (W.contents (inner_of writer.old)) (W.contents (inner_of writer.new)) part) }
    ensures kept { OnOk result (faults_of writer.new ≡ faults_of writer.old) }
    ensures fault { OnErr result (faults_of writer.new ≡ one_more (faults_of writer.old)) }
{
    let mut start = 0;
    while start < bytes.len() {
        match writer.write(bytes_from(bytes, start)) {
            Ok(0) => return Err(WriteFault),
            Ok(count) => start += count,
            Err(_) => return Err(WriteFault),
        }
    }
    match writer.flush() {
        Ok(()) => Ok(()),
        Err(_) => Err(WriteFault),
    }
}
