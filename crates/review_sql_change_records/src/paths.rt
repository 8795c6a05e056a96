//! Sets of paths as one text.
ghost use Rattle.std.specs.Prelude.{◌≡◌, ◌∷◌, ◌++◌, [], true, IfOk, OnOk, string_bytes};
ghost use Rattle.review_names.specs.Forms.{is_path};
ghost use Rattle.review_sql_change_records.specs.Forms.{are_read_back, are_same, paths_in, paths_text, set_in, with_line};

use review_words::{Bad, Path, Paths};
use std::alloc::{AllocError, Global};

fn add_path(text: &mut String, path: &Path) -> Result<(), AllocError>
    ensures { OnOk result (string_bytes text.new ≡ with_line (string_bytes text.old) path.now) }
{
    if !text.is_empty() {
        text.push_str("\n")?;
    }
    text.push_str(path.as_str())
}

/// Paths in their order, joined by line feeds.
pub fn paths_text(alloc: Global, paths: &[Path]) -> Result<String, AllocError>
    ensures { IfOk result (λ text. string_bytes text ≡ paths_text paths.now) }
{
    let mut text = String::new(alloc);
    for path in paths {
        add_path(&mut text, path)?;
    }
    Ok(text)
}

fn set_of(alloc: Global, paths: Vec<Path>) -> Result<Option<Paths>, AllocError>
    ensures { IfOk result (λ set. set ≡ set_in paths.items) }
{
    match Paths::from_vec(alloc, paths) {
        Ok(set) => Ok(Some(set)),
        Err(Bad::Form) => Ok(None),
        Err(Bad::Memory) => Err(AllocError),
    }
}

// Adds the path that a line is; false where it is none.
fn add_line(alloc: Global, paths: &mut Vec<Path>, line: &str) -> Result<bool, AllocError>
    ensures is { IfOk result (λ is. is ≡ is_path line.now) }
    ensures added { IfOk result (λ is. is ≡ true → paths.new.items ≡ paths.old.items ++ line.now ∷ []) }
{
    match Path::read(alloc, line) {
        Ok(path) => {
            paths.push(path)?;
            Ok(true)
        }
        Err(Bad::Form) => Ok(false),
        Err(Bad::Memory) => Err(AllocError),
    }
}

/// The paths of a text, where it is one of paths.
pub fn read_paths(alloc: Global, text: &str) -> Result<Option<Paths>, AllocError>
    ensures { IfOk result (λ paths. paths ≡ paths_in text.now) }
{
    let mut paths = Vec::new(alloc);
    if text.is_empty() {
        return set_of(alloc, paths);
    }
    let mut rest = text;
    while let Some((line, more)) = rest.split_once('\n') {
        if !add_line(alloc, &mut paths, line)? {
            return Ok(None);
        }
        rest = more;
    }
    if !add_line(alloc, &mut paths, rest)? {
        return Ok(None);
    }
    set_of(alloc, paths)
}

fn are_same(some: &[Path], others: &[Path]) -> bool
    ensures { result ≡ are_same some.now others.now }
{
    some == others
}

/// Whether the text of paths reads as the same paths.
pub fn is_read_back(alloc: Global, paths: &Paths) -> Result<bool, AllocError>
    ensures { IfOk result (λ is. is ≡ are_read_back paths.now) }
{
    let text = paths_text(alloc, paths.as_slice())?;
    match read_paths(alloc, text.as_str())? {
        Some(read) => Ok(are_same(read.as_slice(), paths.as_slice())),
        None => Ok(false),
    }
}
