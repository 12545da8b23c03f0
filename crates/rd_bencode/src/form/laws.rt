//! Laws of the form of items.

ghost use Rattle.std.specs.Prelude.{◌≡◌, ◌<◌, ◌^◌, ◌++◌, ℕ, List, length};
ghost use Rattle.std.specs.List.{All};
ghost use Rattle.rd_base.specs.declared.digest.Digest.{Digest};
ghost use Rattle.rd_value.specs.Canon.{canon, canon_expr};
ghost use Rattle.rd_bencode.specs.Exprs.{Expr};
ghost use Rattle.rd_bencode.specs.Form.{IsItem};
ghost use Rattle.rd_bencode.specs.Proper.{IsProper, IsProperExpr};
ghost use Rattle.rd_bencode.specs.Records.{canon_args, canon_writes, canon_children, canon_footprint, canon_execution};
ghost use Rattle.rd_bencode.specs.Values.{Value};
ghost use Rattle.rd_bencode.specs.declared.form.Spelling.{Spelling};
ghost use Rattle.rd_bencode.specs.declared.form.Spelling.TheVariants.{Any, One};
ghost use Rattle.rd_bencode.specs.declared.record.CallKey.{CallKey};
ghost use Rattle.rd_bencode.specs.declared.record.Execution.{Execution};
ghost use Rattle.rd_bencode.specs.declared.record.Footprint.{Footprint};

/// No item begins another, and an item whose numbers have one spelling is an item.
pub fn one_item_in_front()
    ensures apart { (s : Spelling) (a b x y : List ℕ) → IsItem s a → IsItem s b → a ++ x ≡ b ++ y → (a ≡ b) × (x ≡ y) }
    ensures any { (a : List ℕ) → IsItem One a → IsItem Any a }
{}

/// What is written is one item, in which each number has its one spelling.
pub fn written_is_one_item()
    ensures value { (v : Value) → IsProper v → length (canon (λ f. f) v) < 2 ^ 64 → IsItem One (canon (λ f. f) v) }
    ensures expr { (e : Expr) → IsProperExpr e → length (canon_expr (λ f. f) e) < 2 ^ 64 → IsItem One (canon_expr (λ f. f) e) }
    ensures args { (vs : List Value) → All IsProper vs → length (canon_args (λ f. f) vs) < 2 ^ 64 → IsItem One (canon_args (λ f. f) vs) }
    ensures writes { (ws : List (List ℕ × Digest)) → length (canon_writes ws) < 2 ^ 64 → IsItem One (canon_writes ws) }
    ensures children { (ks : List CallKey) → length (canon_children ks) < 2 ^ 64 → IsItem One (canon_children ks) }
    ensures footprint { (f : Footprint) → length (canon_footprint f) < 2 ^ 64 → IsItem One (canon_footprint f) }
    ensures execution { (x : Execution) → x.serial < 2 ^ 64 → x.moment < 2 ^ 64 → IsProperExpr x.root → All (λ j. j.parent < 2 ^ 64) x.jobs → length (canon_execution x) < 2 ^ 64 → IsItem One (canon_execution x) }
{}
