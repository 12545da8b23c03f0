//! Laws of the bodies and the structures of a module's tasks, and of fresh evaluation.

ghost use Rattle.std.specs.Prelude.{◌≡◌, ◌≢◌, ◌<◌, ◌≤◌, ◌^◌, ℕ, List, length, map};
ghost use Rattle.rd_value.specs.declared.value.FileValue.{FileValue};
ghost use Rattle.rd_value.specs.declared.value.Datum.{Datum};
ghost use Rattle.rd_value.specs.Erase.{carried_expr, erase, with_files_default};
ghost use Rattle.rd_value.specs.Model.{ModelExpr, ModelValue, file_of};
ghost use Rattle.rd_tree.specs.declared.tree.Function.{Function};
ghost use Rattle.rd_tree.specs.declared.tree.Module.{Module};
ghost use Rattle.rd_code.specs.declared.code.TaskCode.{TaskCode};
ghost use Rattle.rd_structure.specs.Structure.{structure_of};
ghost use Rattle.rd_interpreter.specs.Running.{own};
ghost use Rattle.rd_registry.specs.Bodies.{body, signature_of};
ghost use Rattle.rd_registry.specs.Codes as codes;
ghost use Rattle.rd_registry.specs.Footprint.{Agree};
ghost use Rattle.rd_registry.specs.Fresh as fresh;
ghost use Rattle.rd_registry.specs.Registry.{IsCodeOf};
ghost use Rattle.rd_registry.specs.Structures.{AreLawful, HasStructure};

/// What a function of a module comes to on erased values is the erasure of what it comes to on the values. Its defaults hold no files.
pub fn modules_agree()
    ensures bodies { (m : Module) (f : Function) (args : List ModelValue) → body own m f (map erase args) ≡ carried_expr file_of (body file_of m f args) }
    ensures signatures { (f : Function) → map (with_files_default file_of) (signature_of f) ≡ signature_of f }
{}

/// A task has one structure, which its module's trees alone give.
pub fn one_structure()
    ensures is { (m : Module) (f : Function) (code : TaskCode) → IsCodeOf m f code → HasStructure m f (structure_of code) }
    ensures one { (m : Module) (f : Function) (s t : List ℕ) → HasStructure m f s → HasStructure m f t → s ≡ t }
{}

/// Where two modules give tasks the same structure, both take the same and mean the same. Of one of the two is asked what every
/// program keeps: its values are lawful, and its structure has a length.
pub fn equal_structures_mean_the_same()
    ensures signatures { (m n : Module) (f g : Function) (s : List ℕ) (u : HasStructure m f s) → AreLawful f u.helpers → length s < 2 ^ 64 → HasStructure n g s → codes.signature_of f ≡ codes.signature_of g }
    ensures bodies { (m n : Module) (f g : Function) (s : List ℕ) (u : HasStructure m f s) → AreLawful f u.helpers → length s < 2 ^ 64 → HasStructure n g s → (args : List (Datum FileValue)) → body own m f args ≡ body own n g args }
    ensures model_bodies { (m n : Module) (f g : Function) (s : List ℕ) (u : HasStructure m f s) → AreLawful f u.helpers → length s < 2 ^ 64 → HasStructure n g s → (args : List ModelValue) → body file_of m f args ≡ body file_of n g args }
{}

/// Deeper evaluation is the same: an answer that isn't Deep stays at every depth from its own on, with all that happens.
pub fn deeper_is_the_same()
    ensures answer { (m : Module) (e : ModelExpr) (n k : ℕ) → n ≤ k → fresh.fresh file_of m n e ≢ fresh.Deep → fresh.fresh file_of m k e ≡ fresh.fresh file_of m n e }
    ensures events { (m : Module) (e : ModelExpr) (n k : ℕ) → n ≤ k → fresh.fresh file_of m n e ≢ fresh.Deep → fresh.trace file_of m k e ≡ fresh.trace file_of m n e }
{}

/// Evaluation depends on its footprint alone: where another module agrees on the tasks of all calls that happen, bound or not, it
/// gives the same answer there, and the same happens.
pub fn footprint_is_enough()
    ensures answer { (m n : Module) (k : ℕ) (e : ModelExpr) → Agree file_of m n (fresh.trace file_of m k e) → fresh.fresh file_of n k e ≡ fresh.fresh file_of m k e }
    ensures events { (m n : Module) (k : ℕ) (e : ModelExpr) → Agree file_of m n (fresh.trace file_of m k e) → fresh.trace file_of n k e ≡ fresh.trace file_of m k e }
{}
