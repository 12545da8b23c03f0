//! Files as digests in place of their texts, in bodies.

ghost use Rattle.std.specs.Prelude.{◌≡◌, List, map};
ghost use Rattle.std.specs.List.{AllZip};
ghost use Rattle.rd_value.specs.declared.value.FileValue.{FileValue};
ghost use Rattle.rd_value.specs.Erase.{carried_expr, erase};
ghost use Rattle.rd_value.specs.Model.{ModelFile, ModelValue, file_of};
ghost use Rattle.rd_code.specs.declared.code.TaskCode.{TaskCode};
ghost use Rattle.rd_interpreter.specs.Body.{Routine, whole};
ghost use Rattle.rd_interpreter.specs.Running.{own};
ghost use Rattle.rd_body.specs.Code.{meaning};
ghost use Rattle.rd_body.specs.Erasure.{HasFilesOf};

/// What a body comes to on erased values is the erasure of what it comes to on the values.
pub fn bodies_agree<N>()
    ensures { (fs : List (Routine N ModelFile)) (gs : List (Routine N FileValue)) → AllZip (HasFilesOf file_of) fs gs → (f : Routine N ModelFile) (g : Routine N FileValue) → HasFilesOf file_of f g →
        (args : List ModelValue) → whole own gs g (map erase args) ≡ carried_expr file_of (whole file_of fs f args) }
{}

/// The same of the code of every task.
pub fn codes_agree()
    ensures { (code : TaskCode) (args : List ModelValue) → meaning own code (map erase args) ≡ carried_expr file_of (meaning file_of code args) }
{}
