// Laws of the journal's text.
ghost use Rattle.std.specs.Prelude.{◌≡◌, ◌⊎◌, ◌<◌, ◌^◌, List, ℕ, length};
ghost use Rattle.gt_journal.specs.JournalText.{IsBytes, IsDamagedAfter, IsJournalText};

/// Each file of bytes stands for a list of bodies or is damaged after one, never both, and in one way.
pub fn one_reading()
    ensures some { (file : List ℕ) → length file < 2 ^ 63 → IsBytes file
        → ((bodies : List (List ℕ)) × IsJournalText bodies file)
        ⊎ ((bodies : List (List ℕ)) × IsDamagedAfter bodies file) }
    ensures one_list { (xs ys : List (List ℕ)) (file : List ℕ)
        → IsJournalText xs file → IsJournalText ys file → xs ≡ ys }
    ensures apart { (xs ys : List (List ℕ)) (file : List ℕ)
        → IsJournalText xs file → IsDamagedAfter ys file → ⊥ }
    ensures one_place { (xs ys : List (List ℕ)) (file : List ℕ)
        → IsDamagedAfter xs file → IsDamagedAfter ys file → xs ≡ ys }
{}
