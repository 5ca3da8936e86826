//! What the definitions of cursors promise of each other.

ghost use Rattle.std.specs.Prelude.{◌≡◌, None};
ghost use Rattle.tree_index.specs.declared.cursor.End.TheVariants.{Done};
ghost use Rattle.tree_index.specs.Cursor.{Cursor, moved_back, moved_forth, next_back_of, next_of, shown_forth, shown_back};

/// A cursor that is done stays at none: an end that went past the last pair on its way, shows none, answers
/// none from then on, and moves no more.
pub fn done_stays_at_none<K: Ord, V>()
    ensures forward { (c : Cursor K V) → c.forward ≡ Done → (next_of K.cmp c ≡ None) × (moved_forth K.cmp c ≡ c) × (shown_forth K.cmp c ≡ None) }
    ensures backward { (c : Cursor K V) → c.backward ≡ Done → (next_back_of K.cmp c ≡ None) × (moved_back K.cmp c ≡ c) × (shown_back K.cmp c ≡ None) }
{}
