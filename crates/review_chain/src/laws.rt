//! Laws of chains, as contracts of calls that do nothing.
ghost use Rattle.std.specs.List.{All, IsDistinct};
ghost use Rattle.std.specs.Prelude.{◌≡◌, ◌≢◌, ◌⊎◌, ◌<◌, ◌≤◌, ◌+◌, ◌==◌, ◌++◌, ◌∷◌, [], ℕ, List, IsSome, length};
ghost use Rattle.review_chain.specs.Branches.{Branch, IsWhole};
ghost use Rattle.review_chain.specs.Parts.{IsDecided, IsPart, IsWanted, Knows, Want};
ghost use Rattle.review_chain.specs.{Places.places, Places.places_from, Steps.left};
ghost use Rattle.review_chain.specs.Walks.{IsBadLink, IsChain, IsReady};
ghost use Rattle.review_chain.specs.declared.walks.ChainFault.{ChainFault, TheVariants.Broken};

/// A change has at most one chain, one bad link and one thing that is wanted, by one walk; and not two of the three.
pub fn only_one_chain()
    ensures chains { (b : Branch) (xs ys : List ℕ) (c : ℕ) → IsChain b xs c → IsChain b ys c → xs ≡ ys }
    ensures either { (b : Branch) (xs ys : List ℕ) (c : ℕ) (fault : ChainFault) → IsChain b xs c → IsBadLink b ys c fault → ⊥ }
    ensures faults { (b : Branch) (xs ys : List ℕ) (c : ℕ) (fault other : ChainFault) → IsBadLink b xs c fault → IsBadLink b ys c other → (xs ≡ ys) × (fault ≡ other) }
    ensures wants { (b : Branch) (xs ys : List ℕ) (c : ℕ) (want other : Want) → IsWanted b xs c want → IsWanted b ys c other → (xs ≡ ys) × (want ≡ other) }
    ensures chain_decides { (b : Branch) (xs : List ℕ) (c : ℕ) → IsChain b xs c → IsDecided b c }
    ensures fault_decides { (b : Branch) (xs : List ℕ) (c : ℕ) (fault : ChainFault) → IsBadLink b xs c fault → IsDecided b c }
{}

/// Where nothing is wanted a change has a chain or a bad link. Of a whole branch nothing is wanted, and no link is broken.
#[tactic(auto, using(crate::proofs::Parting::one_is_there, crate::proofs::Parting::whole_decided, crate::proofs::Parting::whole_sound))]
pub fn each_has_one()
    ensures decided { (b : Branch) (c : ℕ) → IsDecided b c → (walk : List ℕ) × (IsChain b walk c ⊎ ((fault : ChainFault) × IsBadLink b walk c fault)) }
    ensures whole { (b : Branch) (c : ℕ) → IsWhole b → IsSome (b.link c) → IsDecided b c }
    ensures sound { (b : Branch) (walk : List ℕ) (c : ℕ) (fault : ChainFault) → IsWhole b → IsBadLink b walk c fault → fault ≢ Broken }
{}

/// Each front of a chain is the chain of its last change. So no change stands twice in a chain, and each but the last is open and not in work
/// in progress.
#[tactic(auto, using(crate::proofs::Walking::front_is_chain, crate::proofs::Walking::chain_distinct, crate::proofs::Walking::chain_ready))]
pub fn each_front_is_a_chain()
    ensures fronts { (b : Branch) (xs ys : List ℕ) (d c : ℕ) → IsChain b (xs ++ d ∷ ys) c → IsChain b (xs ++ d ∷ []) d }
    ensures distinct { (b : Branch) (walk : List ℕ) (c : ℕ) → IsChain b walk c → IsDistinct ◌==◌ walk }
    ensures ready { (b : Branch) (walk : List ℕ) (c : ℕ) → IsChain b walk c → All (λ d. (d ≡ c) ⊎ IsReady b d) walk }
{}

/// The chain or the bad link that a part of a branch has is that of the whole branch.
#[tactic(auto, using(crate::proofs::Parting::chain_kept, crate::proofs::Parting::bad_kept))]
pub fn parts_keep()
    ensures chain { (part whole : Branch) (walk : List ℕ) (c : ℕ) → IsPart part whole → IsChain part walk c → IsChain whole walk c }
    ensures fault { (part whole : Branch) (walk : List ℕ) (c : ℕ) (fault : ChainFault) → IsPart part whole → IsBadLink part walk c fault → IsBadLink whole walk c fault }
{}

/// A part of a branch in which nothing is wanted has the chain or the bad link of the whole branch.
pub fn parts_decide()
    ensures chain { (part whole : Branch) (walk : List ℕ) (c : ℕ) → IsPart part whole → IsDecided part c → IsChain whole walk c → IsChain part walk c }
    ensures fault { (part whole : Branch) (walk : List ℕ) (c : ℕ) (fault : ChainFault) → IsPart part whole → IsDecided part c → IsBadLink whole walk c fault → IsBadLink part walk c fault }
{}

/// At most 200 look-ups are made for a chain, each of what is wanted: where it is then known, fewer are left.
#[tactic(auto, using(crate::proofs::LookingUp::most_left, crate::proofs::LookingUp::fewer_left))]
pub fn look_ups_end()
    ensures most { (b : Branch) (c : ℕ) → left b c ≤ 200 }
    ensures fewer { (b after : Branch) (walk : List ℕ) (c : ℕ) (want : Want) → IsPart b after → IsWanted b walk c want → Knows after want → left after c < left b c }
{}

/// The places of a chain that joins a branch are those after the last place.
#[tactic(auto, using(crate::proofs::Walking::places_append))]
pub fn places_go_on()
    ensures { (joined chain : List ℕ) → places (joined ++ chain) ≡ places joined ++ places_from (length joined + 1) chain }
{}
