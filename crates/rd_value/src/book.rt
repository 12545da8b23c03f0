//! Books, whose byte strings their digests tell apart.

ghost use Rattle.std.specs.Prelude.{◌≡◌, ℕ, List, true};
ghost use Rattle.rd_value.specs.Book.{IsBook, is_over, is_over_expr};
ghost use Rattle.rd_value.specs.Erase.{erase, erase_expr};
ghost use Rattle.rd_value.specs.Model.{ModelValue, ModelExpr};

/// Values and expressions over one book are equal where their erasures are.
pub fn erasures_tell_apart()
    ensures values { (book : List (List ℕ)) → IsBook book → (v w : ModelValue) → is_over book v ≡ true → is_over book w ≡ true → erase v ≡ erase w → v ≡ w }
    ensures exprs { (book : List (List ℕ)) → IsBook book → (d e : ModelExpr) → is_over_expr book d ≡ true → is_over_expr book e ≡ true → erase_expr d ≡ erase_expr e → d ≡ e }
{}
