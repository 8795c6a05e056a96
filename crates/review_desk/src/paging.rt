//! The pages of a new desk's file.
//!
//! A request writes seven pages or more, and each takes time in proportion to its size. So a new file gets pages of 1,024 bytes: with SQLite's own 4,096 a
//! request takes nearly twice the instructions. Proved is that a longer file and any log stay as they were (`make_blank`). No promise needs more: whatever a file
//! holds when it is opened then, a desk is made there or nothing is.
ghost use Rattle.std.specs.Prelude.{◌≡◌, ◌<◌, ◌≤◌, true, length, IfOk, IsTrue};

use sqlite::{Files, Start};
use sqlite_disk::Disk;
use std::io;

/// The bytes of a page.
const PAGE_BYTES: usize = 1_024;

/// The first bytes of a database with a log, one page of 1,024 bytes and no table, as SQLite 3.45.0 writes them. The rest of the page is zeros.
const BLANK: [u8; 112] = [
    83, 81, 76, 105, 116, 101, 32, 102, 111, 114, 109, 97, 116, 32, 51, 0, 4, 0, 2, 2, 0, 64, 32,
    32, 0, 0, 0, 0, 0, 0, 0, 1, 0, 0, 0, 0, 0, 0, 0, 0, 0, 0, 0, 1, 0, 0, 0, 4, 0, 0, 0, 0, 0, 0,
    0, 0, 0, 0, 0, 1, 0, 0, 0, 0, 0, 0, 0, 0, 0, 0, 0, 0, 0, 0, 0, 0, 0, 0, 0, 0, 0, 0, 0, 0, 0, 0,
    0, 0, 0, 0, 0, 0, 0, 0, 0, 0, 0, 46, 118, 136, 13, 0, 0, 0, 0, 4, 0, 0, 0, 0, 0, 0,
];

/// Makes a file that is new, or empty, a database of small pages without a table. So it does with one in which an earlier call was stopped; any other stays as it
/// is. Where that fails the file has the pages that SQLite gives it, or opening it tells why.
pub fn give_small_pages<F: Start>(rt: &HostRuntime, file: &str, start: F) {
    if file == ":memory:" || file.starts_with("file:") {
        return;
    }
    // Both files are locked until they are closed again.
    if let Ok(mut files) = sqlite_std_file::open(rt, file, start) {
        let _ = make_blank(&mut files);
    }
}

/// The same over open files. An error may leave a part of the page.
fn make_blank<D: Disk>(files: &mut Files<D>) -> io::Result<()>
    requires log { IsTrue (D.Disk.is_usable files.old.log) }
    requires db { IsTrue (D.Disk.is_usable files.old.db) }
    ensures kept { IsTrue (D.Disk.is_clean files.new.db) → 1024 < length (D.Disk.seen files.old.db) → D.Disk.seen files.new.db ≡ D.Disk.seen files.old.db }
    ensures log { D.Disk.seen files.new.log ≡ D.Disk.seen files.old.log }
{
    if files.log.len()? > 0 {
        return Ok(());
    }
    let page = blank_page();
    if is_begun(&mut files.db, &page)? {
        files.db.write_at(0, &page)?;
        files.db.sync()?;
    }
    Ok(())
}

/// The page of a database without a table.
fn blank_page() -> [u8; PAGE_BYTES] {
    let mut page = [0u8; PAGE_BYTES];
    page[..BLANK.len()].copy_from_slice(&BLANK);
    page
}

/// Whether a file is empty, or holds no more than what a write of this page may leave that was stopped: each byte is that of the page, or 0.
fn is_begun<D: Disk>(file: &mut D, page: &[u8; PAGE_BYTES]) -> io::Result<bool>
    requires { IsTrue (D.Disk.is_usable file.old) }
    ensures usable { IsTrue (D.Disk.is_usable file.new) }
    ensures kept { D.Disk.seen file.new ≡ D.Disk.seen file.old }
    ensures clean { IsTrue (D.Disk.is_clean file.new) → IsTrue (D.Disk.is_clean file.old) }
    ensures short { IfOk result (λ is. is ≡ true → IsTrue (D.Disk.is_clean file.new) → length (D.Disk.seen file.old) ≤ 1024) }
{
    let length = file.len()?;
    if length > PAGE_BYTES {
        return Ok(false);
    }
    let mut found = [0u8; PAGE_BYTES];
    if length > 0 {
        file.read_at(0, &mut found[..length])?;
    }
    for at in 0..PAGE_BYTES {
        if found[at] != 0 && found[at] != page[at] {
            return Ok(false);
        }
    }
    Ok(true)
}
