//! Laws of the branches of a history.
ghost use Rattle.std.specs.Prelude.{◌≡◌, ℕ, List, Some, true, false};
ghost use Rattle.review_words.specs.History.{Entry, is_base};
ghost use Rattle.review_chain.specs.{Branches.IsWhole, Parts.IsPart, Parts.Want, Steps.wanted};
ghost use Rattle.{review_chain.specs.declared.links.Standing.Standing, review_core_rules.specs.Change.Change};
ghost use Rattle.{review_core_rules.specs.declared.rows.PatchRow.PatchRow, review_machine_rows.specs.Answer.IsHistory};
ghost use Rattle.review_machine_rows.specs.Changes.{Reading, Reads, change, is_known};
ghost use Rattle.review_machine_rows.specs.{Known.Agrees, Known.IsKnown, Known.StandsAs, Links.links_in, Steps.look_up};
ghost use Rattle.review_machine_rows.specs.{Submits.branch_after, Submits.standing_of, View.fact, View.view};
ghost use Rattle.{review_machine_rows.specs.declared.rows.Rows.Rows, review_machine_laws.specs.Patches.HasPatch};
ghost use Rattle.review_machine_rows.specs.declared.rows.Want.TheVariants as want;

/// Patch sets in one branch have commits of their own, and the branch has none of them as a base.
pub fn commits_are_apart()
    ensures apart { (reading : Reading) (h : List Entry) (project branch : List ℕ) (n k m j : ℕ) (p q : PatchRow) → IsHistory h → Reads reading h →
        HasPatch project branch k p (change reading h n) → HasPatch project branch j q (change reading h m) → p.commit ≡ q.commit → (n ≡ m) × (k ≡ j) }
    ensures no_base { (reading : Reading) (h : List Entry) (project branch : List ℕ) (n k : ℕ) (p : PatchRow) → IsHistory h → Reads reading h →
        HasPatch project branch k p (change reading h n) → is_base h project branch p.commit ≡ false }
{}

/// The commit that each patch set stands on is known in the branch of its change.
pub fn parents_are_known()
    ensures { (reading : Reading) (h : List Entry) (project branch : List ℕ) (n k : ℕ) (p : PatchRow) → IsHistory h → Reads reading h →
        HasPatch project branch k p (change reading h n) → is_known reading h project branch p.parent ≡ true }
{}

/// What rows show a commit to be to a branch, it is.
pub fn standings_are_shown()
    ensures { (reading : Reading) (h : List Entry) (project branch x : List ℕ) (s : Standing) → IsHistory h → Reads reading h →
        StandsAs (fact reading h) (record { project = project; branch = branch; commit = x }) s → s ≡ standing_of reading h project branch x }
{}

/// The branch that a history leaves is whole: the parent of each change for it is in it or the commit of a patch set of a change for it, and the
/// current commit of a merged change is in it.
#[tactic(auto, using(crate::proofs::Shown::whole))]
pub fn branches_are_whole()
    ensures { (reading : Reading) (h : List Entry) (project branch : List ℕ) → IsHistory h → Reads reading h → IsWhole (branch_after reading h project branch) }
{}

/// What rows that agree with a history know of a branch is so in it, and the link of a change that was looked up is its link there.
pub fn rows_are_parts()
    ensures part { (reading : Reading) (h : List Entry) (rows : Rows) (project branch : List ℕ) → IsHistory h → Reads reading h → Agrees (view reading h) rows →
        IsPart (links_in rows project branch) (branch_after reading h project branch) }
    ensures links { (reading : Reading) (h : List Entry) (rows : Rows) (project branch : List ℕ) (n : ℕ) → Agrees (view reading h) rows → IsKnown rows (want.Change n) →
        (links_in rows project branch).link n ≡ (branch_after reading h project branch).link n }
{}

/// What is wanted for the chain of a change was not looked up, where the rows agree with a history that has the change.
#[tactic(auto, using(crate::proofs::Shown::decided))]
pub fn wants_are_unknown()
    ensures { (reading : Reading) (h : List Entry) (rows : Rows) (n : ℕ) (c : Change) (w : Want) → IsHistory h → Reads reading h → Agrees (view reading h) rows →
        change reading h n ≡ Some c → wanted (links_in rows c.project c.branch) n ≡ Some w → IsKnown rows (look_up c.project c.branch w) → ⊥ }
{}
