//! Calls.

ghost use Rattle.std.specs.Prelude.{◌≡◌, ◌≤◌, map, slice_get, IfOk};
ghost use Rattle.std.specs.Option.{option_copied};
ghost use Rattle.rd_routine.specs.Callees.{known, special_of};
ghost use Rattle.rd_value.specs.declared.expr.Lazy.TheVariants as lazy;
ghost use Rattle.rd_interpreter.specs.Body as spec;
ghost use Rattle.rd_interpreter.specs.Making.{measured as spec_measured};
ghost use Rattle.rd_interpreter.specs.State.{all};
ghost use Rattle.rd_interpreter.specs.Running.{Answers, Gives, Raises, calls_in, function_in, meant, own, state};

use crate::binding::{arguments, first_frame};
use crate::builtins::{bad_arguments, builtin};
use crate::frame::Frame;
use crate::halt::{Halt, raise};
use crate::making::measured;
use crate::scope::Scope;
use rd_base::{Boxed, Copies, Items, Text};
use rd_routine::{Callee, Form, Routine, Slot, Special, form_of};
use rd_tree::Node;
use rd_value::class::Class;
use rd_value::expr::{Expr, Exprs, NamedExprs};
use rd_value::value::Value;
use std::alloc::Global;

fn too_many_calls(alloc: Global) -> Halt
    ensures { Raises result spec.too_many_calls }
{
    raise(alloc, Class::RecursionError, "call depth")
}

/// A function without `return` gives None.
fn value_of(returned: Option<Expr>) -> Expr
    ensures { result ≡ spec.returned returned }
{
    match returned {
        Some(value) => value,
        None => Expr::Val(Value::Nothing),
    }
}

impl Scope<'_> {
    /// What a name that is called stands for.
    fn callee(&self, slot: Slot) -> Option<&Callee>
        ensures { known (option_copied result) ≡ (function_in self.now).callee slot }
    {
        match self.routine.words.as_slice().get(slot) {
            Some(word) => Some(&word.callee),
            None => None,
        }
    }

    /// What a call of the name makes, if that is special.
    fn special(&self, slot: Slot) -> Option<Special>
        ensures { result ≡ special_of ((function_in self.now).callee slot) }
    {
        match self.callee(slot) {
            Some(Callee::Special(special)) => Some(*special),
            _ => None,
        }
    }

    /// A call by its form. A task and a class among its arguments aren't evaluated.
    #[cycle(run)]
    pub fn call(
        &self,
        slot: Slot,
        positional: &[Node<Slot>],
        keywords: &[(Slot, Node<Slot>)],
        frame: &mut Frame,
    ) -> Result<Expr, Halt>
        ensures gives { let form = spec.form own (calls_in self.now) (function_in self.now) slot positional.now keywords.now in
            Gives result (state frame.new) (spec.formed own (calls_in self.now) (function_in self.now) form slot (map (meant self.now) positional.now) (map (λ k. (k.0, meant self.now k.1)) keywords.now) (state frame.old)) }
        ensures left { frame.new.left ≤ frame.old.left }
    {
        match form_of(self.special(slot), positional, keywords) {
            Form::Plain | Form::Wrong => self.plain_call(slot, positional, keywords, frame),
            Form::Mapping { task, list } => {
                let list = self.node(list, frame)?;
                self.mapped(*task, list, frame)
            }
            Form::Catching {
                tried,
                class,
                recover,
            } => {
                let tried = self.node(tried, frame)?;
                self.caught(*class, *recover, tried, frame)
            }
        }
    }

    /// A call whose arguments all come first.
    #[cycle(run)]
    fn plain_call(
        &self,
        slot: Slot,
        positional: &[Node<Slot>],
        keywords: &[(Slot, Node<Slot>)],
        frame: &mut Frame,
    ) -> Result<Expr, Halt>
        ensures gives { Gives result (state frame.new) (spec.call own (calls_in self.now) (function_in self.now) slot (map (meant self.now) positional.now) (map (λ k. (k.0, meant self.now k.1)) keywords.now) (state frame.old)) }
        ensures left { frame.new.left ≤ frame.old.left }
    {
        let positional = self.nodes(positional, frame)?;
        let keywords = self.keywords(keywords, frame)?;
        self.called(slot, positional, keywords, frame)
    }

    /// The calls of a task with each item of a list.
    fn mapped(&self, slot: Slot, list: Expr, frame: &Frame) -> Result<Expr, Halt>
        ensures { Gives result (state frame.now) (spec.mapped own (calls_in self.now) (function_in self.now) slot ((function_in self.now).callee slot) list (state frame.now)) }
    {
        match self.callee(slot) {
            Some(Callee::Task(task)) => {
                let map = Expr::Map {
                    task: task.copy(self.alloc)?,
                    list: Boxed::new(self.alloc, list)?,
                };
                measured(self.alloc, frame, map)
            }
            _ => Err(self.no_name(slot)),
        }
    }

    /// What is tried, with the task that recovers from an error of a class.
    fn caught(&self, class: Slot, recover: Slot, tried: Expr, frame: &Frame) -> Result<Expr, Halt>
        ensures { Gives result (state frame.now) (spec.caught own (calls_in self.now) (function_in self.now) class ((function_in self.now).class_of class) recover ((function_in self.now).callee recover) tried (state frame.now)) }
    {
        let Some(class) = self.class(class) else {
            return Err(self.no_name(class));
        };
        match self.callee(recover) {
            Some(Callee::Task(task)) => {
                let catch = Expr::Catch {
                    tried: Boxed::new(self.alloc, tried)?,
                    class,
                    recover: task.copy(self.alloc)?,
                };
                measured(self.alloc, frame, catch)
            }
            _ => Err(self.no_name(recover)),
        }
    }

    /// A conditional on what isn't there yet.
    fn conditional(
        &self,
        test: &Expr,
        when_true: &Expr,
        when_false: &Expr,
        frame: &Frame,
    ) -> Result<Expr, Halt>
        ensures { Gives result (state frame.now) (spec_measured own (lazy.Cond test.now when_true.now when_false.now) (state frame.now)) }
    {
        let conditional = Expr::Cond {
            test: Boxed::new(self.alloc, test.copy(self.alloc)?)?,
            when_true: Boxed::new(self.alloc, when_true.copy(self.alloc)?)?,
            when_false: Boxed::new(self.alloc, when_false.copy(self.alloc)?)?,
        };
        measured(self.alloc, frame, conditional)
    }

    /// A call of this kind whose arguments are all evaluated.
    fn made_special(
        &self,
        special: Special,
        arguments: &[Expr],
        frame: &Frame,
    ) -> Result<Expr, Halt>
        ensures { Gives result (state frame.now) (spec.made_special own (calls_in self.now) (function_in self.now) special arguments.now (state frame.now)) }
    {
        match (special, arguments) {
            (Special::Cond, [test, when_true, when_false]) => {
                self.conditional(test, when_true, when_false, frame)
            }
            _ => Err(bad_arguments(self.alloc)),
        }
    }

    #[cycle(run)]
    fn keyword(&self, keyword: &(Slot, Node<Slot>), frame: &mut Frame) -> Result<(Text, Expr), Halt>
        ensures gives { Gives result (state frame.new) (spec.keyword (function_in self.now) (keyword.now.0, meant self.now keyword.now.1) (state frame.old)) }
        ensures left { frame.new.left ≤ frame.old.left }
    {
        let value = self.node(&keyword.1, frame)?;
        let name = Text::from_str(self.alloc, self.spelling(keyword.0))?;
        Ok((name, value))
    }

    #[cycle(run)]
    fn keywords(
        &self,
        keywords: &[(Slot, Node<Slot>)],
        frame: &mut Frame,
    ) -> Result<NamedExprs, Halt>
        ensures gives { Gives result (state frame.new) (all (map (spec.keyword (function_in self.now)) (map (λ k. (k.0, meant self.now k.1)) keywords.now)) (state frame.old)) }
        ensures left { frame.new.left ≤ frame.old.left }
    {
        let mut all = Items::new(self.alloc);
        for keyword in keywords {
            all.push(self.alloc, self.keyword(keyword, frame)?)?;
        }
        Ok(all)
    }

    #[cycle(run)]
    fn called(
        &self,
        slot: Slot,
        positional: Exprs,
        keywords: NamedExprs,
        frame: &mut Frame,
    ) -> Result<Expr, Halt>
        ensures gives { Gives result (state frame.new) (spec.called own (calls_in self.now) (function_in self.now) slot ((function_in self.now).callee slot) positional keywords (state frame.old)) }
        ensures left { frame.new.left ≤ frame.old.left }
    {
        match self.callee(slot) {
            Some(Callee::Task(task)) => {
                let call = Expr::Call {
                    task: task.copy(self.alloc)?,
                    positional,
                    keywords,
                };
                measured(self.alloc, frame, call)
            }
            Some(Callee::Helper(place)) => self.helper(*place, positional, keywords, frame),
            Some(Callee::Builtin(kind)) => {
                builtin(self.alloc, frame, *kind, positional.as_slice())
            }
            Some(Callee::Special(special)) => {
                self.made_special(*special, positional.as_slice(), frame)
            }
            Some(Callee::Unknown) | None => Err(self.no_name(slot)),
        }
    }

    fn routine_at(&self, place: usize) -> Option<&Routine>
        ensures { option_copied result ≡ slice_get self.now.helpers.now place }
    {
        self.helpers.get(place)
    }

    /// A call of a helper.
    #[cycle(run)]
    fn helper(
        &self,
        place: usize,
        positional: Exprs,
        keywords: NamedExprs,
        frame: &mut Frame,
    ) -> Result<Expr, Halt>
        ensures gives { Gives result (state frame.new) (spec.after_call (calls_in self.now place positional keywords (state frame.old).left) (state frame.old)) }
        ensures left { frame.new.left ≤ frame.old.left }
    {
        let left = frame.left();
        let (value, left) = self.opened(place, positional, keywords, left)?;
        frame.leave(left);
        Ok(value)
    }

    /// A helper on its arguments, which are bound before the calls that are open are counted.
    #[cycle(run)]
    fn opened(
        &self,
        place: usize,
        positional: Exprs,
        keywords: NamedExprs,
        left: u32,
    ) -> Result<(Expr, u32), Halt>
        ensures gives { Answers result (calls_in self.now place positional keywords left) }
        ensures left { IfOk result (λ r. r.1 ≤ left) }
    {
        let Some(routine) = self.routine_at(place) else {
            return Err(too_many_calls(self.alloc));
        };
        let arguments = arguments(self.alloc, routine, positional, keywords)?;
        if self.spare == 0 {
            return Err(too_many_calls(self.alloc));
        }
        let scope = Scope {
            alloc: self.alloc,
            routine,
            helpers: self.helpers,
            spare: self.spare - 1,
        };
        scope.run(arguments, left)
    }

    /// The function on one argument for each parameter, with the steps that are left.
    #[cycle(run)]
    pub fn run(&self, arguments: Exprs, left: u32) -> Result<(Expr, u32), Halt>
        ensures gives { Answers result (spec.run own (calls_in self.now) (function_in self.now) arguments left) }
        ensures left { IfOk result (λ r. r.1 ≤ left) }
    {
        let mut frame = first_frame(self.alloc, self.routine, arguments, left)?;
        let returned = self.block(self.routine.block.as_slice(), &mut frame)?;
        let left = frame.left();
        Ok((value_of(returned), left))
    }
}
