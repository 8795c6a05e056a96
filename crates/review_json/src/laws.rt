//! Laws of lines and bodies, as contracts of calls that do nothing.
ghost use Rattle.review_json.specs.Laws.{CommentsOfBodiesGoByPlace, CommentsGoByPlace};

/// Whatever the order in a body or a line, the comments of a review go by the bytes of their places.
#[tactic(auto, using(crate::proofs::Delivered::bodies_by_place, crate::proofs::Delivered::delivered_by_place))]
pub fn comments_go_by_place()
    ensures bodies { CommentsOfBodiesGoByPlace }
    ensures lines { CommentsGoByPlace }
{}
