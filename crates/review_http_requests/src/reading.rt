//! One read more.
ghost use Rattle.std.specs.Prelude.{◌≡◌, ℕ, List, Bool, OnOk, Err};
ghost use Rattle.review_http_requests.specs.{Bytes.Gave, Bytes.IsBrought, Counts.one_more};
ghost use Rattle.review_http_requests.specs.Shown.{inner_of, reads_of, faults_of};

use crate::counted::Counted;
use std::io::Read;

/// How many bytes are asked for at once.
const PIECE_BYTES: usize = 4096;

/// Why a read brought no bytes.
#[derive(Clone, Copy, PartialEq, Eq)]
pub enum Stop {
    /// The reader failed.
    Read,
    /// There was no memory for what came.
    Memory,
}

/// Reads once, up to 4,096 bytes, and puts what came behind the bytes that are there: false where the input ended.
///
/// After an error the bytes are as they were. A reader that failed gave none; what came is lost where there was no memory for it.
pub fn read_more<R: Read>(reader: &mut Counted<R>, bytes: &mut Vec<u8>) -> Result<bool, Stop>
    ensures gave { (piece : List ℕ) × (ended : Bool)
        × Gave (R.remaining (inner_of reader.old)) (R.remaining (inner_of reader.new)) piece ended
        × IsBrought result piece ended bytes.old.items bytes.new.items }
    ensures reads { reads_of reader.new ≡ one_more (reads_of reader.old) }
    ensures kept { OnOk result (faults_of reader.new ≡ faults_of reader.old) }
    ensures lost { result ≡ Err Stop.Memory → faults_of reader.new ≡ faults_of reader.old }
    ensures fault { result ≡ Err Stop.Read → faults_of reader.new ≡ one_more (faults_of reader.old) }
{
    let mut piece = [0u8; PIECE_BYTES];
    match reader.read(&mut piece) {
        Ok(0) => Ok(false),
        Ok(count) => match bytes.extend_from_slice(&piece[..count]) {
            Ok(()) => Ok(true),
            Err(_) => Err(Stop::Memory),
        },
        Err(_) => Err(Stop::Read),
    }
}
