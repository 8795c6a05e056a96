//! Laws of the changes that joined a branch.
ghost use Rattle.std.specs.List.{All, Contains, IsDistinct};
ghost use Rattle.std.specs.Prelude.{◌≡◌, ◌==◌, ◌≤◌, ◌∷◌, ◌++◌, ℕ, List, Some, length, map};
ghost use Rattle.review_words.specs.{History.Entry, declared.command.Command.TheVariants.Submit};
ghost use Rattle.review_words.specs.declared.reply.Answer.{Answer, TheVariants.Submitted};
ghost use Rattle.review_words.specs.declared.{reply.Reply.TheVariants.Done, shown.JoinedChange.JoinedChange};
ghost use Rattle.{review_core_rules.specs.Change.Change, review_machine_rows.specs.Answer.IsHistory};
ghost use Rattle.review_machine_rows.specs.Changes.{Reading, Reads, change, change_count, joined, joined_in, place_in};
ghost use Rattle.review_machine_rows.specs.{Known.HaveJoined, Known.IsLastJoined, Questions.joined_change, View.fact};
ghost use Rattle.review_machine_laws.specs.{Accepted.IsAccepted, Accepted.MayJoin, Joined.HasJoined, Parents.StandsOn};
ghost use Rattle.review_machine_laws.specs.{Places.place_of, SoundBranches.AreSoundBranches};

/// The place of a change among those that joined a branch is the place that it has, and a change that is not merged has none.
#[tactic(auto, using(crate::proofs::Joined::placed))]
pub fn places_are_kept()
    ensures { (reading : Reading) (h : List Entry) (project branch : List ℕ) (n : ℕ) → IsHistory h → Reads reading h → place_in (joined h project branch) n ≡ place_of project branch (change reading h n) }
{}

/// A change joins its branch at most once, and no other branch. Those that joined a branch are the changes for it that are merged.
pub fn joined_once()
    ensures distinct { (reading : Reading) (h : List Entry) (project branch : List ℕ) → IsHistory h → Reads reading h → IsDistinct ◌==◌ (joined h project branch) }
    ensures merged { (reading : Reading) (h : List Entry) (project branch : List ℕ) → IsHistory h → Reads reading h → All (HasJoined reading h project branch) (joined h project branch) }
    ensures each { (reading : Reading) (h : List Entry) (project branch : List ℕ) (n : ℕ) → IsHistory h → Reads reading h → HasJoined reading h project branch n → Contains (joined h project branch) n }
    ensures one_branch { (reading : Reading) (h : List Entry) (project branch other_project other_branch : List ℕ) (n : ℕ) → IsHistory h → Reads reading h → Contains (joined h project branch) n → Contains (joined h other_project other_branch) n → (project ≡ other_project) × (branch ≡ other_branch) }
{}

/// No more changes join a branch than there are.
pub fn joined_few()
    ensures { (reading : Reading) (h : List Entry) (project branch : List ℕ) → IsHistory h → Reads reading h → length (joined h project branch) ≤ change_count h }
{}

/// The last place that rows tell of a branch is how many changes joined it.
pub fn last_is_length()
    ensures { (reading : Reading) (h : List Entry) (project branch : List ℕ) (last : ℕ) → IsHistory h → Reads reading h → IsLastJoined (fact reading h) (record { project = project; branch = branch }) last → last ≡ length (joined h project branch) }
{}

/// The changes that rows tell to have joined a branch are those that joined it, in their order, each with its current commit: the answer to the question.
pub fn joined_is_listed()
    ensures { (reading : Reading) (h : List Entry) (project branch : List ℕ) (listed : List JoinedChange) → IsHistory h → Reads reading h → HaveJoined (fact reading h) (record { project = project; branch = branch }) listed → listed ≡ map (joined_change reading h) (joined h project branch) }
{}

/// A submit is accepted only of a change that is open and not in work in progress, and its chain joins. Each change that joins by it was, just
/// before, open and not in work in progress, for the same branch, and none of its requirements was unsatisfied; so none had joined it before.
pub fn accepted_submit()
    ensures accepted { (reading : Reading) (e : Entry) (h : List Entry) (m : ℕ) (a : Answer) → IsHistory (e ∷ h) → Reads reading h → e.command ≡ Submit m → e.reply ≡ Done a → IsAccepted reading h m a }
    ensures each { (reading : Reading) (e : Entry) (h : List Entry) (m : ℕ) (a : Answer) (c : Change) → IsHistory (e ∷ h) → Reads reading h → e.command ≡ Submit m → e.reply ≡ Done a → change reading h m ≡ Some c → All (MayJoin reading h c.project c.branch) (joined_in (Done a)) }
    ensures new { (reading : Reading) (e : Entry) (h : List Entry) (m : ℕ) (a : Answer) (c : Change) → IsHistory (e ∷ h) → Reads reading h → e.command ≡ Submit m → e.reply ≡ Done a → change reading h m ≡ Some c → All (λ n. Contains (joined h c.project c.branch) n → ⊥) (joined_in (Done a)) }
{}

/// Parents join before their children: of each change that joins a branch, the current parent is a base of the branch, or the current commit of
/// a change that joined it before. So it is when the submit is accepted, where such a change joined by an earlier submit or stands earlier in
/// this one's chain, and so it stays.
#[tactic(auto, using(crate::proofs::Parents::entry_stands, crate::proofs::Parents::joined_stands))]
pub fn parents_join_first()
    ensures newest { (reading : Reading) (e : Entry) (h : List Entry) (m : ℕ) (c : Change) (front : List ℕ) (n : ℕ) (back : List ℕ) → IsHistory (e ∷ h) → Reads reading h → e.command ≡ Submit m → e.reply ≡ Done (Submitted (front ++ n ∷ back)) → change reading h m ≡ Some c → StandsOn reading h c.project c.branch (joined h c.project c.branch ++ front) n }
    ensures all { (reading : Reading) (h : List Entry) (project branch front : List ℕ) (n : ℕ) (back : List ℕ) → IsHistory h → Reads reading h → joined h project branch ≡ front ++ n ∷ back → StandsOn reading h project branch front n }
{}

/// Of every history: each change joined its branch at most once and has its place there; it stands on a base of the branch or on a change that joined
/// before it; and just before its submit it was open, not in work in progress, and no requirement was unsatisfied.
#[tactic(auto, using(crate::proofs::Parents::sound_branches))]
pub fn branches_are_sound()
    ensures { (h : List Entry) → IsHistory h → AreSoundBranches h }
{}
