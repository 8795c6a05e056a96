//! Answers on their way out.
ghost use Rattle.std.specs.Io.KnownBytes.{Appends};
ghost use Rattle.std.specs.Prelude.{◌≡◌, ◌≤◌, ◌++◌, [], ℕ, List, false, IfErr, OnOk, OnErr, drop, length};
ghost use Rattle.review_json_lines.specs.Answers.{IsPartOf};
ghost use Rattle.review_json_lines.specs.declared.fault.Fault.TheVariants as fault;

use crate::fault::Fault;
use std::alloc::{AllocError, Global};
use std::io::Write;

fn bytes_from(bytes: &[u8], start: usize) -> &[u8]
    requires { start ≤ length bytes.now }
    ensures { result.now ≡ drop start bytes.now }
{
    &bytes[start..]
}

/// Writes all the bytes, or a first part of them. A writer that takes no byte has failed.
fn write_whole<W: Write>(writer: &mut W, bytes: &[u8]) -> Result<(), Fault>
    ensures whole { OnOk result (Appends (W.contents writer.old) (W.contents writer.new) bytes.now) }
    ensures part { OnErr result ((part : List ℕ) × IsPartOf part bytes.now × Appends (W.contents writer.old) (W.contents writer.new) part) }
    ensures cause { IfErr result (λ e. e ≡ fault.Output) }
{
    let mut start = 0;
    while start < bytes.len() {
        match writer.write(bytes_from(bytes, start)) {
            Ok(0) => return Err(Fault::Output),
            Ok(count) => start += count,
            Err(_) => return Err(Fault::Output),
        }
    }
    Ok(())
}

/// Writes all the bytes, or a first part of them, and flushes. A writer that takes no byte has failed.
pub fn write_and_flush<W: Write>(writer: &mut W, bytes: &[u8]) -> Result<(), Fault>
    ensures whole { OnOk result (Appends (W.contents writer.old) (W.contents writer.new) bytes.now) }
    ensures part { OnErr result ((part : List ℕ) × IsPartOf part bytes.now × Appends (W.contents writer.old) (W.contents writer.new) part) }
    ensures cause { IfErr result (λ e. e ≡ fault.Output) }
{
    write_whole(writer, bytes)?;
    match writer.flush() {
        Ok(()) => Ok(()),
        Err(_) => Err(Fault::Output),
    }
}

/// Lines that wait to be written together.
#[derive(Drop)]
pub struct Output {
    waiting: Vec<u8>,
}

impl Output {
    pub fn new(alloc: Global) -> Output
        ensures { result.waiting.items ≡ [] }
    {
        Output {
            waiting: Vec::new(alloc),
        }
    }

    /// Adds a line, with its end, to those that wait. Nothing is added where there is no memory.
    pub fn add(&mut self, line: &str) -> Result<(), AllocError>
        ensures added { OnOk result (self.new.waiting.items ≡ self.old.waiting.items ++ line.now) }
        ensures kept { OnErr result (self.new.waiting.items ≡ self.old.waiting.items) }
    {
        self.waiting.extend_from_slice(line.as_bytes())
    }

    /// Writes the lines that wait, or a first part of them where the writer failed, and flushes. None waits afterwards.
    pub fn send<W: Write>(&mut self, writer: &mut W) -> Result<(), Fault>
        ensures none { self.new.waiting.items ≡ [] }
        ensures sent { OnOk result (Appends (W.contents writer.old) (W.contents writer.new) self.old.waiting.items) }
        ensures part { OnErr result ((part : List ℕ) × IsPartOf part self.old.waiting.items × Appends (W.contents writer.old) (W.contents writer.new) part) }
        ensures cause { IfErr result (λ e. e ≡ fault.Output) }
    {
        if self.waiting.is_empty() {
            return Ok(());
        }
        let result = write_and_flush(writer, &self.waiting);
        self.waiting.clear();
        result
    }

    /// Sends what waits where the next line isn't at hand, since whoever sends that line may wait for these answers.
    pub fn send_unless<W: Write>(&mut self, is_at_hand: bool, writer: &mut W) -> Result<(), Fault>
        ensures sent { OnOk result ((text : List ℕ) × (self.old.waiting.items ≡ text ++ self.new.waiting.items) × Appends (W.contents writer.old) (W.contents writer.new) text) }
        ensures none { OnErr result (self.new.waiting.items ≡ []) }
        ensures all { is_at_hand ≡ false → self.new.waiting.items ≡ [] }
        ensures part { OnErr result ((part : List ℕ) × IsPartOf part self.old.waiting.items × Appends (W.contents writer.old) (W.contents writer.new) part) }
        ensures cause { IfErr result (λ e. e ≡ fault.Output) }
    {
        if is_at_hand {
            return Ok(());
        }
        self.send(writer)
    }
}
