//! Pages on their way out.
ghost use Rattle.std.specs.Io.KnownBytes.{Appends};
ghost use Rattle.std.specs.Prelude.{◌≡◌, ℕ, List, IfErr, OnOk, OnErr};
ghost use Rattle.review_json_lines.specs.Answers.{IsPartOf};
ghost use Rattle.review_desk_work.specs.declared.show_fault.ShowFault.TheVariants as fault;

use crate::show_fault::ShowFault;
use review_json_lines::write_and_flush;
use std::io::Write;

/// Writes all the bytes of a page, or a first part of them, and flushes.
pub fn write_page<W: Write>(writer: &mut W, page: &[u8]) -> Result<(), ShowFault>
    ensures whole { OnOk result (Appends (W.contents writer.old) (W.contents writer.new) page.now) }
    ensures part { OnErr result ((part : List ℕ) × IsPartOf part page.now × Appends (W.contents writer.old) (W.contents writer.new) part) }
    ensures cause { IfErr result (λ e. e ≡ fault.Output) }
{
    match write_and_flush(writer, page) {
        Ok(()) => Ok(()),
        Err(_) => Err(ShowFault::Output),
    }
}
