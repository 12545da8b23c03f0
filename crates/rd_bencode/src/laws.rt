//! Laws of canonical bytes.

ghost use Rattle.std.specs.Prelude.{◌≡◌, ◌<◌, ◌^◌, ◌++◌, ℕ, true, List, length};
ghost use Rattle.rd_base.specs.declared.digest.Digest.{Digest};
ghost use Rattle.rd_value.specs.Canon.{canon, canon_expr};
ghost use Rattle.rd_value.specs.Limits.{is_within, is_within_expr};
ghost use Rattle.rd_bencode.specs.Blob.{blob};
ghost use Rattle.rd_bencode.specs.declared.kind.Kind.{Kind};
ghost use Rattle.rd_bencode.specs.declared.record.CallKey.{CallKey};
ghost use Rattle.rd_bencode.specs.declared.record.Execution.{Execution};
ghost use Rattle.rd_bencode.specs.declared.record.Footprint.{Footprint};
ghost use Rattle.rd_bencode.specs.Exprs.{Expr};
ghost use Rattle.rd_bencode.specs.Proper.{IsProper, IsProperExpr};
ghost use Rattle.rd_bencode.specs.ProperRecords.{AreProperArgs, AreProperWrites, AreProperChildren, IsProperFootprint, IsProperExecution};
ghost use Rattle.rd_bencode.specs.RecordReaders.{read_args, read_writes, read_children, read_footprint, read_execution};
ghost use Rattle.rd_bencode.specs.Records.{canon_args, canon_writes, canon_children, canon_footprint, canon_execution};
ghost use Rattle.rd_bencode.specs.Values.{Value};
ghost use Rattle.rd_bencode.specs.Whole.{value_of, expr_of, read_all};

/// Values that a program can hold have different canonical bytes, and those of one begin no other's.
pub fn one_value_spelling()
    ensures apart { (v w : Value) → IsProper v → IsProper w → length (canon (λ f. f) v) < 2 ^ 64 → canon (λ f. f) v ≡ canon (λ f. f) w → v ≡ w }
    ensures no_prefix { (v w : Value) (more : List ℕ) → IsProper v → IsProper w → length (canon (λ f. f) w) < 2 ^ 64 → canon (λ f. f) v ++ more ≡ canon (λ f. f) w → v ≡ w }
{}

/// The same of expressions.
pub fn one_expr_spelling()
    ensures apart { (d e : Expr) → IsProperExpr d → IsProperExpr e → length (canon_expr (λ f. f) d) < 2 ^ 64 → canon_expr (λ f. f) d ≡ canon_expr (λ f. f) e → d ≡ e }
    ensures no_prefix { (d e : Expr) (more : List ℕ) → IsProperExpr d → IsProperExpr e → length (canon_expr (λ f. f) e) < 2 ^ 64 → canon_expr (λ f. f) d ++ more ≡ canon_expr (λ f. f) e → d ≡ e }
{}

/// The same of arguments.
pub fn one_args_spelling()
    ensures apart { (x y : List Value) → AreProperArgs x → AreProperArgs y → length (canon_args (λ f. f) x) < 2 ^ 64 → canon_args (λ f. f) x ≡ canon_args (λ f. f) y → x ≡ y }
    ensures no_prefix { (x y : List Value) (more : List ℕ) → AreProperArgs x → AreProperArgs y → length (canon_args (λ f. f) y) < 2 ^ 64 → canon_args (λ f. f) x ++ more ≡ canon_args (λ f. f) y → x ≡ y }
{}

/// The same of written files.
pub fn one_writes_spelling()
    ensures apart { (x y : List (List ℕ × Digest)) → AreProperWrites x → AreProperWrites y → length (canon_writes x) < 2 ^ 64 → canon_writes x ≡ canon_writes y → x ≡ y }
    ensures no_prefix { (x y : List (List ℕ × Digest)) (more : List ℕ) → AreProperWrites x → AreProperWrites y → length (canon_writes y) < 2 ^ 64 → canon_writes x ++ more ≡ canon_writes y → x ≡ y }
{}

/// The same of the calls that a call made.
pub fn one_children_spelling()
    ensures apart { (x y : List CallKey) → AreProperChildren x → AreProperChildren y → length (canon_children x) < 2 ^ 64 → canon_children x ≡ canon_children y → x ≡ y }
    ensures no_prefix { (x y : List CallKey) (more : List ℕ) → AreProperChildren x → AreProperChildren y → length (canon_children y) < 2 ^ 64 → canon_children x ++ more ≡ canon_children y → x ≡ y }
{}

/// The same of footprints.
pub fn one_footprint_spelling()
    ensures apart { (x y : Footprint) → IsProperFootprint x → IsProperFootprint y → length (canon_footprint x) < 2 ^ 64 → canon_footprint x ≡ canon_footprint y → x ≡ y }
    ensures no_prefix { (x y : Footprint) (more : List ℕ) → IsProperFootprint x → IsProperFootprint y → length (canon_footprint y) < 2 ^ 64 → canon_footprint x ++ more ≡ canon_footprint y → x ≡ y }
{}

/// The same of executions.
pub fn one_execution_spelling()
    ensures apart { (x y : Execution) → IsProperExecution x → IsProperExecution y → length (canon_execution x) < 2 ^ 64 → canon_execution x ≡ canon_execution y → x ≡ y }
    ensures no_prefix { (x y : Execution) (more : List ℕ) → IsProperExecution x → IsProperExecution y → length (canon_execution y) < 2 ^ 64 → canon_execution x ++ more ≡ canon_execution y → x ≡ y }
{}

/// What is written within the limits is read back.
pub fn written_is_read_back()
    ensures value { (v : Value) → IsProper v → is_within (λ f. f) v ≡ true → value_of (canon (λ f. f) v) ≡ Ok v }
    ensures expr { (e : Expr) → IsProperExpr e → is_within_expr (λ f. f) e ≡ true → expr_of (canon_expr (λ f. f) e) ≡ Ok e }
    ensures args { (x : List Value) → AreProperArgs x → length (canon_args (λ f. f) x) < 2 ^ 64 → read_all read_args (canon_args (λ f. f) x) ≡ Ok x }
    ensures writes { (x : List (List ℕ × Digest)) → AreProperWrites x → length (canon_writes x) < 2 ^ 64 → read_all read_writes (canon_writes x) ≡ Ok x }
    ensures children { (x : List CallKey) → AreProperChildren x → length (canon_children x) < 2 ^ 64 → read_all read_children (canon_children x) ≡ Ok x }
    ensures footprint { (x : Footprint) → IsProperFootprint x → length (canon_footprint x) < 2 ^ 64 → read_all read_footprint (canon_footprint x) ≡ Ok x }
    ensures execution { (x : Execution) → IsProperExecution x → length (canon_execution x) < 2 ^ 64 → read_all read_execution (canon_execution x) ≡ Ok x }
{}

/// Blobs of different kinds differ, and so do those of different structures.
pub fn blobs_differ()
    ensures { (k j : Kind) (s t : List ℕ) → blob k s ≡ blob j t → (k ≡ j) × (s ≡ t) }
{}
