//! What bytes hold, they hold once.
ghost use Rattle.std.specs.Prelude.{◌≡◌, ℕ, List};
ghost use Rattle.lks_field.specs.Frames.{HoldsBodies, IsDamagedAt};

/// Bytes hold one list of bodies at most, and are damaged at one place at most, and never both.
pub fn one_reading()
    ensures held_once { (a b : List (List ℕ)) (file : List ℕ) → HoldsBodies a file → HoldsBodies b file → a ≡ b }
    ensures damaged_once { (file : List ℕ) (m n : ℕ) → IsDamagedAt file m → IsDamagedAt file n → m ≡ n }
    ensures not_both { (bodies : List (List ℕ)) (file : List ℕ) (offset : ℕ) → HoldsBodies bodies file
        → IsDamagedAt file offset → ⊥ }
{}
