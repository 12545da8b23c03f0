//! Files as digests in place of their texts.

ghost use Rattle.std.specs.Prelude.{◌≡◌, ℕ, List, map, Option};
ghost use Rattle.std.specs.Option.{option_map};
ghost use Rattle.rd_value.specs.declared.class.Class.{Class};
ghost use Rattle.rd_value.specs.declared.value.ErrorValue.{ErrorValue};
ghost use Rattle.rd_value.specs.declared.expr.OpKind.{OpKind};
ghost use Rattle.rd_value.specs.Bind.{bind};
ghost use Rattle.rd_value.specs.Canon.{canon, canon_expr};
ghost use Rattle.rd_value.specs.Compare.{compared, equal};
ghost use Rattle.rd_value.specs.Depth.{depth, depth_expr};
ghost use Rattle.rd_value.specs.Erase.{erase, erase_expr, carried, carried_all, carried_expr, with_files_default, with_files_keyword};
ghost use Rattle.rd_value.specs.Expand.{expand_map, expand_catch};
ghost use Rattle.rd_value.specs.Limits.{is_within, is_within_expr, size};
ghost use Rattle.rd_value.specs.Model.{ModelValue, ModelExpr, file_of};
ghost use Rattle.rd_value.specs.Operators.{applied, plus};
ghost use Rattle.rd_value.specs.Repr.{repr};
ghost use Rattle.rd_value.specs.Truth.{truth};

/// What is computed on a value's erasure, which has a digest in place of each file's text, is what
/// is computed on the value.
pub fn erasure_agrees()
    ensures truth { (v : ModelValue) → truth (erase v) ≡ truth v }
    ensures compared { (v w : ModelValue) → compared (λ f. f) (erase v) (erase w) ≡ compared file_of v w }
    ensures equal { (v w : ModelValue) → equal (λ f. f) (erase v) (erase w) ≡ equal file_of v w }
    ensures canon { (v : ModelValue) → canon (λ f. f) (erase v) ≡ canon file_of v }
    ensures canon_expr { (e : ModelExpr) → canon_expr (λ f. f) (erase_expr e) ≡ canon_expr file_of e }
    ensures size { (v : ModelValue) → size (λ f. f) (erase v) ≡ size file_of v }
    ensures depth { (v : ModelValue) → depth (erase v) ≡ depth v }
    ensures depth_expr { (e : ModelExpr) → depth_expr (erase_expr e) ≡ depth_expr e }
    ensures within { (v : ModelValue) → is_within (λ f. f) (erase v) ≡ is_within file_of v }
    ensures within_expr { (e : ModelExpr) → is_within_expr (λ f. f) (erase_expr e) ≡ is_within_expr file_of e }
    ensures repr { (v : ModelValue) → repr (λ f. f) (erase v) ≡ repr file_of v }
    ensures plus { (a b : ModelValue) → plus (λ f. f) (erase a) (erase b) ≡ carried file_of (plus file_of a b) }
    ensures applied { (op : OpKind) (parts : List ModelValue) → applied (λ f. f) op (map erase parts) ≡ carried file_of (applied file_of op parts) }
    ensures bind { (ps : List (List ℕ × Option ModelValue)) (vs : List ModelValue) (ks : List (List ℕ × ModelValue)) →
        bind (λ f. f) (map (with_files_default file_of) ps) (map erase vs) (map (with_files_keyword file_of) ks) ≡ carried_all file_of (bind file_of ps vs ks) }
    ensures expand_map { (task : List ℕ) (v : ModelValue) → expand_map (λ f. f) task (erase v) ≡ carried_expr file_of (expand_map file_of task v) }
    ensures expand_catch { (class : Class) (recover : List ℕ) (e : ErrorValue) → expand_catch class recover e ≡ option_map erase_expr (expand_catch class recover e) }
{}
