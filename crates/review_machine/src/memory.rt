//! Deliveries by the line on a desk in memory.
ghost use Rattle.review_machine.specs.Memory.{RanInMemory};

use crate::apply::apply_lines;
use review_json_lines::{Fault, Outcome};
use review_memory::MemoryShelf;
use std::alloc::Global;
use std::io::{Read, Write};
use std::mem::forget;

/// Does as [`apply_lines`] on an empty desk in memory, whose rows the end of the process frees and not this. Such a desk has no store that could fail or shut, so no premise on a
/// store is left: the deliveries of the first lines, of all where no fault came, were a run, in which each request of an open epoch acted once, on the desk of no request. As there, it is said of readers
/// and writers whose bytes are known.
///
/// Errors as those of [`apply_lines`], and want of memory for the desk.
pub fn apply_in_memory<R: Read, W: Write>(
    alloc: Global,
    reader: &mut R,
    writer: &mut W,
) -> Result<Outcome, Fault>
    ensures { RanInMemory (R.remaining reader.old) (W.contents writer.old) (W.contents writer.new) result }
{
    let mut shelf = MemoryShelf::new(alloc)?;
    let told = apply_lines(alloc, reader, writer, &mut shelf);
    forget(shelf);
    told
}
