//! Words that no text has: none is empty, a minus in front is cut off, and a text in which a quote has no other half is refused before.

use review_expr_spelling::read_requirement;
use review_expr_terms::WordFault;
use std::alloc::Global;
use std::test::Fail;

fn fault_of(alloc: Global, word: &str) -> Option<WordFault> {
    read_requirement(alloc, word).err()
}

#[test]
fn words_that_no_text_has(rt: HostRuntime) -> Result<(), Fail> {
    for word in ["", "-is:true", "is:\""] {
        let fault = fault_of(rt.alloc(), word);
        assert!(rt; fault == Some(WordFault::BadTerm), "of {word}");
    }
    Ok(())
}
