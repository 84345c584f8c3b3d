//! The law of file tables: what opens, closes and stats find and change in any table.

ghost use Rattle.std.specs.Prelude.{◌≡◌, ◌≢◌, ℕ, ◌+◌, ◌<◌, List, ◌∷◌, ◌++◌, length, Some, None};
ghost use Rattle.std.specs.List.{All};
ghost use Rattle.fak_model.specs.declared.file.FileEntry.{FileEntry};
ghost use Rattle.fak_run.specs.Examples.{changed, used};
ghost use Rattle.fak_run.specs.Files.{close_change, free_entry, open_change, uses_of};

/// An open adds 1 to the uses of the first entry with the inode, unless it has the most uses; if there is none, it
/// takes the first free entry. A close subtracts 1, and the last close frees the entry; if there is none, a close
/// changes nothing.
pub fn each_open_and_close_is_counted()
    ensures opens { (before after : List FileEntry) (inode uses : ℕ) → All (λ e. e.inode ≢ inode) before
        → uses < 4294967295 → open_change (before ++ used inode uses ∷ after) inode
        ≡ changed (Some (length before)) (before ++ used inode (uses + 1) ∷ after) }
    ensures most { (before after : List FileEntry) (inode : ℕ) → All (λ e. e.inode ≢ inode) before
        → open_change (before ++ used inode 4294967295 ∷ after) inode
        ≡ changed None (before ++ used inode 4294967295 ∷ after) }
    ensures takes { (before after : List FileEntry) (inode : ℕ)
        → All (λ e. e.inode ≢ inode) (before ++ free_entry ∷ after) → All (λ e. e.inode ≢ 0) before
        → open_change (before ++ free_entry ∷ after) inode
        ≡ changed (Some (length before)) (before ++ used inode 1 ∷ after) }
    ensures full { (entries : List FileEntry) (inode : ℕ) → All (λ e. e.inode ≢ inode) entries
        → All (λ e. e.inode ≢ 0) entries → open_change entries inode ≡ changed None entries }
    ensures closes { (before after : List FileEntry) (inode uses : ℕ) → All (λ e. e.inode ≢ inode) before
        → close_change (before ++ used inode (uses + 2) ∷ after) inode
        ≡ changed (Some (length before)) (before ++ used inode (uses + 1) ∷ after) }
    ensures frees { (before after : List FileEntry) (inode : ℕ) → All (λ e. e.inode ≢ inode) before
        → close_change (before ++ used inode 1 ∷ after) inode
        ≡ changed (Some (length before)) (before ++ free_entry ∷ after) }
    ensures unopened { (entries : List FileEntry) (inode : ℕ) → All (λ e. e.inode ≢ inode) entries
        → close_change entries inode ≡ changed None entries }
    ensures uses { (before after : List FileEntry) (inode uses : ℕ) → All (λ e. e.inode ≢ inode) before
        → uses_of (before ++ used inode uses ∷ after) inode ≡ Some uses }
    ensures no_uses { (entries : List FileEntry) (inode : ℕ) → All (λ e. e.inode ≢ inode) entries
        → uses_of entries inode ≡ None }
{}
