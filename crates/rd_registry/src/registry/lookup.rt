//! Tasks by full names, by words and by numbers.

ghost use Rattle.std.specs.Prelude.{◌≡◌, ℕ, List, IfOk, IfSome, MatchOption, None, Option, Some};
ghost use Rattle.std.specs.Arc.{arc_value};
ghost use Rattle.std.specs.Option.{option_map};
ghost use Rattle.rd_tree.specs.declared.tree.Module.{Module};
ghost use Rattle.rd_structure.specs.Structure as structure;
ghost use Rattle.rd_names.specs.Options.{first_space};
ghost use Rattle.rd_registry.specs.Bodies.{find_task};
ghost use Rattle.rd_registry.specs.Registry.{HasTask, IsTaskOf, Registers, code_of};
ghost use Rattle.rd_registry.specs.Words.{by_name, find_word};

use crate::registry::Registry;
use crate::task::TaskId;
use rd_base::{Bytes, Digest, OutOfMemory, Text};
use rd_code::TaskCode;
use rd_routine::Callee;
use rd_structure::write_structure;
use rd_value::signature::Signature;
use std::alloc::Global;
use std::sync::Arc;

impl Registry {
    /// The task of a full name.
    pub fn find(&self, full_name: &Text) -> Option<TaskId>
        ensures given { IfSome result (HasTask self.now) }
        ensures found { (m : Module) → Registers m self.now → MatchOption result (find_task m full_name.now ≡ None) (IsTaskOf m self.now full_name.now) }
    {
        let place = self.tasks.get_index_of(full_name)?;
        Some(TaskId(place as u32))
    }

    /// The task of a function of this name.
    fn find_function(&self, name: &Text) -> Option<TaskId>
        ensures given { IfSome result (HasTask self.now) }
        ensures found { (m : Module) → Registers m self.now → MatchOption result (by_name (first_space m.namespaces) m.functions name.now ≡ None) (λ task. (full : List ℕ) × (by_name (first_space m.namespaces) m.functions name.now ≡ Some full) × IsTaskOf m self.now full task) }
    {
        match &self.functions.get(name)?.callee {
            Callee::Task(full_name) => self.find(full_name),
            _ => None,
        }
    }

    /// The task that a word names: by its full name, else by its function's.
    pub fn find_word(&self, word: &Text) -> Option<TaskId>
        ensures given { IfSome result (HasTask self.now) }
        ensures found { (m : Module) → Registers m self.now → MatchOption result (find_word m word.now ≡ None) (λ task. (full : List ℕ) × (find_word m word.now ≡ Some full) × IsTaskOf m self.now full task) }
    {
        match self.find(word) {
            Some(task) => Some(task),
            None => self.find_function(word),
        }
    }

    pub fn code(&self, task: TaskId) -> &Arc<TaskCode, Global>
        requires { HasTask self.now task }
        ensures { code_of self.now task ≡ Some (arc_value result.now) }
    {
        &self.tasks[task.0 as usize].code
    }

    pub fn full_name(&self, task: TaskId) -> &str
        requires { HasTask self.now task }
        ensures { option_map (λ code. code.full_name) (code_of self.now task) ≡ Some result.now }
    {
        self.code(task).full_name.as_str()
    }

    pub fn signature(&self, task: TaskId) -> &Signature
        requires { HasTask self.now task }
        ensures { option_map (λ code. code.signature) (code_of self.now task) ≡ Some result.now }
    {
        &self.code(task).signature
    }

    /// The SHA-256 of the blob of the task's structure.
    pub fn digest(&self, task: TaskId) -> &Digest
        requires { HasTask self.now task }
        ensures { option_map structure.digest_of (code_of self.now task) ≡ Some result.now.0 }
    {
        &self.tasks[task.0 as usize].digest
    }

    /// The structure of the task.
    pub fn structure(&self, alloc: Global, task: TaskId) -> Result<Bytes, OutOfMemory>
        requires { HasTask self.now task }
        ensures { IfOk result (λ bytes. option_map structure.structure_of (code_of self.now task) ≡ Some bytes) }
    {
        write_structure(alloc, self.code(task))
    }
}
