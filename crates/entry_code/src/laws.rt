//! What holds of the words of all entries. The law is a call that does nothing, and whose contract is the law.

ghost use Rattle.std.specs.Prelude.{◌≡◌, ◌≤◌, ◌^◌, ℕ};
ghost use Rattle.entry_code.specs.Entry.{Entry};
ghost use Rattle.entry_code.specs.Words.{IsSpellable, words_of};

/// Two entries with the same words are one.
pub fn one_spelling()
    ensures { (p n : ℕ) (e f : Entry) → p ≤ 2 ^ 32 → IsSpellable p n e → IsSpellable p n f → words_of e ≡ words_of f → e ≡ f }
{}
