//! The tasks of a module.

ghost use Rattle.std.specs.Prelude.{◌≤◌, ◌^◌};
ghost use Rattle.indexmap.specs.IndexMap.{index_map_len};

mod lookup;
mod registering;

use crate::functions::Functions;
use crate::task::Task;
use indexmap::IndexMap;
use rd_base::Text;
pub use registering::register;

/// The most tasks of a registry: a TaskId has no more numbers.
const MOST_TASKS: usize = 4_294_967_296;

/// The tasks of a module by their full names.
type Tasks = IndexMap<Text, Task>;

/// The tasks of a module whose names keep the rules.
#[derive(Drop)]
pub struct Registry {
    functions: Functions,
    tasks: Tasks,
    ghost few: { index_map_len tasks ≤ 2 ^ 32 },
}
