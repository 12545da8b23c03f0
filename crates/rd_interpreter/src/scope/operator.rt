//! Operators.

ghost use Rattle.std.specs.Prelude.{◌≡◌, ◌≤◌, map};
ghost use Rattle.rd_interpreter.specs.Body as spec;
ghost use Rattle.rd_interpreter.specs.State.{spend};
ghost use Rattle.rd_interpreter.specs.Running.{Gives, meant, own, state};

use crate::frame::Frame;
use crate::halt::Halt;
use crate::held::truth;
use crate::operation::{compare, kind_of, negative, operate};
use crate::scope::Scope;
use rd_routine::Slot;
use rd_tree::{Comparison, Node, Operator};
use rd_value::expr::{Expr, OpKind};
use rd_value::value::Value;

/// The operators before operands. No source gives operands without one.
fn operators<T>(operands: &[T]) -> usize
    ensures { result ≡ spec.operators operands.now }
{
    if operands.is_empty() {
        1
    } else {
        operands.len()
    }
}

impl Scope<'_> {
    #[cycle(run)]
    pub fn index(
        &self,
        receiver: &Node<Slot>,
        index: &Node<Slot>,
        frame: &mut Frame,
    ) -> Result<Expr, Halt>
        ensures gives { Gives result (state frame.new) (spec.index own (meant self.now receiver.now) (meant self.now index.now) (state frame.old)) }
        ensures left { frame.new.left ≤ frame.old.left }
    {
        let receiver = self.node(receiver, frame)?;
        let index = self.node(index, frame)?;
        operate(self.alloc, frame, OpKind::Index, &receiver, &index)
    }

    #[cycle(run)]
    pub fn comparison(
        &self,
        comparison: Comparison,
        left: &Node<Slot>,
        right: &Node<Slot>,
        frame: &mut Frame,
    ) -> Result<Expr, Halt>
        ensures gives { Gives result (state frame.new) (spec.comparing own comparison (meant self.now left.now) (meant self.now right.now) (state frame.old)) }
        ensures left { frame.new.left ≤ frame.old.left }
    {
        let left = self.node(left, frame)?;
        let right = self.node(right, frame)?;
        compare(self.alloc, frame, comparison, &left, &right)
    }

    #[cycle(run)]
    pub fn negation(&self, operand: &Node<Slot>, frame: &mut Frame) -> Result<Expr, Halt>
        ensures gives { Gives result (state frame.new) (spec.negation own (meant self.now operand.now) (state frame.old)) }
        ensures left { frame.new.left ≤ frame.old.left }
    {
        let value = self.node(operand, frame)?;
        negative(self.alloc, frame, &value)
    }

    #[cycle(run)]
    pub fn inversion(&self, operand: &Node<Slot>, frame: &mut Frame) -> Result<Expr, Halt>
        ensures gives { Gives result (state frame.new) (spec.inversion (meant self.now operand.now) (state frame.old)) }
        ensures left { frame.new.left ≤ frame.old.left }
    {
        let holds = self.holds(operand, frame)?;
        Ok(Expr::Val(Value::Bool(!holds)))
    }

    #[cycle(run)]
    pub fn choice(
        &self,
        test: &Node<Slot>,
        when_true: &Node<Slot>,
        when_false: &Node<Slot>,
        frame: &mut Frame,
    ) -> Result<Expr, Halt>
        ensures gives { Gives result (state frame.new) (spec.choice (meant self.now test.now) (meant self.now when_true.now) (meant self.now when_false.now) (state frame.old)) }
        ensures left { frame.new.left ≤ frame.old.left }
    {
        if self.holds(test, frame)? {
            self.node(when_true, frame)
        } else {
            self.node(when_false, frame)
        }
    }

    /// Operands of one level.
    #[cycle(run)]
    pub fn chain(
        &self,
        first: &Node<Slot>,
        rest: &[(Operator, Node<Slot>)],
        frame: &mut Frame,
    ) -> Result<Expr, Halt>
        ensures gives { Gives result (state frame.new) (spend (spec.operators rest.now) (state frame.old) (spec.chain own (meant self.now first.now) (map (λ l. (l.0, meant self.now l.1)) rest.now))) }
        ensures left { frame.new.left ≤ frame.old.left }
    {
        frame.spend(self.alloc, operators(rest))?;
        let first = self.node(first, frame)?;
        self.links(first, rest, frame)
    }

    /// The operands of a chain behind the first, each taken to what stands before it.
    #[cycle(run)]
    fn links(
        &self,
        first: Expr,
        rest: &[(Operator, Node<Slot>)],
        frame: &mut Frame,
    ) -> Result<Expr, Halt>
        ensures gives { Gives result (state frame.new) (spec.links own first (map (λ l. (l.0, meant self.now l.1)) rest.now) (state frame.old)) }
        ensures left { frame.new.left ≤ frame.old.left }
    {
        let mut done = first;
        for (operator, operand) in rest {
            let operand = self.node(operand, frame)?;
            done = operate(self.alloc, frame, kind_of(*operator), &done, &operand)?;
        }
        Ok(done)
    }

    /// The operands of `and` or `or`: the first whose truth is `stop`, else the last.
    #[cycle(run)]
    pub fn operands(
        &self,
        stop: bool,
        parts: &[Node<Slot>],
        frame: &mut Frame,
    ) -> Result<Expr, Halt>
        ensures gives { Gives result (state frame.new) (spec.operands stop (map (meant self.now) parts.now) (state frame.old)) }
        ensures left { frame.new.left ≤ frame.old.left }
    {
        match parts.split_first() {
            Some((first, more)) => {
                frame.spend(self.alloc, operators(more))?;
                let first = self.node(first, frame)?;
                self.until(stop, first, more, frame)
            }
            None => Ok(Expr::Val(Value::Nothing)),
        }
    }

    #[cycle(run)]
    fn until(
        &self,
        stop: bool,
        first: Expr,
        more: &[Node<Slot>],
        frame: &mut Frame,
    ) -> Result<Expr, Halt>
        ensures gives { Gives result (state frame.new) (spec.until stop first (map (meant self.now) more.now) (state frame.old)) }
        ensures left { frame.new.left ≤ frame.old.left }
    {
        let mut done = first;
        for next in more {
            if truth(self.alloc, &done)? == stop {
                return Ok(done);
            }
            done = self.node(next, frame)?;
        }
        Ok(done)
    }
}
