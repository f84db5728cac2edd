ghost use Rattle.std.specs.Prelude.{◌≡◌, ◌<◌, ℕ, All, List, Ok};
ghost use Rattle.mqb_entries.specs.declared.entry.Entry.{Entry};
ghost use Rattle.mqb_entries.specs.Entries.{entry_of};
ghost use Rattle.mqb_entries.specs.SpelledEntries.{IsEntry, spelled};

/// What an entry is spelled as is read as that entry.
pub fn spelled_is_read()
    ensures { (entry : Entry) → IsEntry entry → entry_of (spelled entry) ≡ Ok entry }
{}

/// What is read as an entry is what that entry is spelled as.
pub fn read_is_spelled()
    ensures { (bytes : List ℕ) (entry : Entry) → All (λ b. b < 256) bytes →
        entry_of bytes ≡ Ok entry → IsEntry entry × (bytes ≡ spelled entry) }
{}

/// No two entries are spelled alike.
pub fn one_spelling()
    ensures { (a b : Entry) → IsEntry a → IsEntry b → spelled a ≡ spelled b → a ≡ b }
{}
