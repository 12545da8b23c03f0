//! Expressions.

ghost use Rattle.std.specs.Prelude.{◌≡◌, ◌≤◌, map, Ok, Some};
ghost use Rattle.rd_interpreter.specs.Body as spec;
ghost use Rattle.rd_interpreter.specs.Held.{iterated};
ghost use Rattle.rd_interpreter.specs.State.{all, and_then, answered, collected};
ghost use Rattle.rd_interpreter.specs.Running.{Answers, Gives, GivesItems, calls_in, function_in, meant, own, put, state};
ghost use Rattle.rd_interpreter.specs.Turns.{GivesTurns, left};

use crate::display::{shown_dict, shown_list};
use crate::frame::Frame;
use crate::halt::Halt;
use crate::held::{path, truth};
use crate::methods::method;
use crate::scope::Scope;
use crate::turns::{Turns, through};
use rd_base::{Copies, Items, Text};
use rd_routine::Slot;
use rd_tree::Node;
use rd_value::expr::{Expr, Exprs};
use rd_value::value::Value;
use std::alloc::Global;

fn literal(alloc: Global, value: &Value) -> Result<Expr, Halt>
    ensures { Answers result (Ok (spec.literal value.now)) }
{
    match value {
        Value::Bool(b) => Ok(Expr::Val(Value::Bool(*b))),
        Value::Int(n) => Ok(Expr::Val(Value::Int(*n))),
        Value::Text(text) => Ok(Expr::Val(Value::Text(text.copy(alloc)?))),
        _ => Ok(Expr::Val(Value::Nothing)),
    }
}

impl Scope<'_> {
    /// An expression.
    #[cycle(run)]
    #[tactic(auto, using(crate::proofs::Layers::node_lit, crate::proofs::Layers::node_name, crate::proofs::Layers::node_method, crate::proofs::Layers::node_index, crate::proofs::Layers::node_path, crate::proofs::Layers::node_neg, crate::proofs::Layers::node_not, crate::proofs::Layers::node_compare, crate::proofs::Layers::node_and, crate::proofs::Layers::node_or, crate::proofs::Layers::node_cond, crate::proofs::Layers::node_list, crate::proofs::Layers::node_dict, crate::proofs::Layers::node_comp, crate::proofs::Layers::node_call))]
    pub fn node(&self, node: &Node<Slot>, frame: &mut Frame) -> Result<Expr, Halt>
        ensures gives { Gives result (state frame.new) (meant self.now node.now (state frame.old)) }
        ensures left { frame.new.left ≤ frame.old.left }
    {
        match node {
            Node::Lit(value) => {
                frame.spend(self.alloc, 1)?;
                literal(self.alloc, value)
            }
            Node::Name(slot) => {
                frame.spend(self.alloc, 1)?;
                self.name(*slot, frame)
            }
            Node::Call {
                name,
                positional,
                keywords,
            } => {
                frame.spend(self.alloc, 1)?;
                self.call(*name, positional.as_slice(), keywords.as_slice(), frame)
            }
            Node::Method {
                receiver,
                name,
                arguments,
            } => {
                frame.spend(self.alloc, 1)?;
                self.method(receiver.get(), name, arguments.as_slice(), frame)
            }
            Node::Path(receiver) => {
                frame.spend(self.alloc, 1)?;
                self.path(receiver.get(), frame)
            }
            Node::List(items) => {
                frame.spend(self.alloc, 1)?;
                let items = self.nodes(items.as_slice(), frame)?;
                shown_list(self.alloc, frame, items)
            }
            Node::Dict(pairs) => {
                frame.spend(self.alloc, 1)?;
                self.dict(pairs.as_slice(), frame)
            }
            Node::Comp {
                element,
                name,
                iterable,
                condition,
            } => {
                frame.spend(self.alloc, 1)?;
                let conditions = condition.as_slice();
                self.comprehended(element.get(), *name, iterable.get(), conditions, frame)
            }
            Node::Index { receiver, index } => {
                frame.spend(self.alloc, 1)?;
                self.index(receiver.get(), index.get(), frame)
            }
            Node::Neg(operand) => {
                frame.spend(self.alloc, 1)?;
                self.negation(operand.get(), frame)
            }
            Node::Not(operand) => {
                frame.spend(self.alloc, 1)?;
                self.inversion(operand.get(), frame)
            }
            Node::Chain { first, rest } => { self.chain(first.get(), rest.as_slice(), frame) }
            Node::Compare {
                operator,
                left,
                right,
            } => {
                frame.spend(self.alloc, 1)?;
                self.comparison(*operator, left.get(), right.get(), frame)
            }
            Node::And(parts) => self.operands(false, parts.as_slice(), frame),
            Node::Or(parts) => self.operands(true, parts.as_slice(), frame),
            Node::Cond {
                test,
                when_true,
                when_false,
            } => {
                frame.spend(self.alloc, 1)?;
                self.choice(test.get(), when_true.get(), when_false.get(), frame)
            }
        }
    }

    /// A truth that is asked for.
    #[cycle(run)]
    pub fn holds(&self, node: &Node<Slot>, frame: &mut Frame) -> Result<bool, Halt>
        ensures gives { Gives result (state frame.new) (spec.tested (meant self.now node.now) (state frame.old)) }
        ensures left { frame.new.left ≤ frame.old.left }
    {
        let value = self.node(node, frame)?;
        truth(self.alloc, &value)
    }

    /// `.path` of what stands before it.
    #[cycle(run)]
    fn path(&self, receiver: &Node<Slot>, frame: &mut Frame) -> Result<Expr, Halt>
        ensures gives { Gives result (state frame.new) (spec.path own (meant self.now receiver.now) (state frame.old)) }
        ensures left { frame.new.left ≤ frame.old.left }
    {
        let receiver = self.node(receiver, frame)?;
        path(self.alloc, &receiver)
    }

    /// What a loop goes through.
    #[cycle(run)]
    pub fn iterable(&self, iterable: &Node<Slot>, frame: &mut Frame) -> Result<Turns, Halt>
        ensures gives { GivesTurns result (state frame.new) (and_then (meant self.now iterable.now (state frame.old)) (λ e t. answered (iterated e) t)) }
        ensures left { frame.new.left ≤ frame.old.left }
    {
        let iterable = self.node(iterable, frame)?;
        through(self.alloc, &iterable)
    }

    /// One after the other, from the left.
    #[cycle(run)]
    pub fn nodes(&self, nodes: &[Node<Slot>], frame: &mut Frame) -> Result<Exprs, Halt>
        ensures gives { Gives result (state frame.new) (all (map (meant self.now) nodes.now) (state frame.old)) }
        ensures left { frame.new.left ≤ frame.old.left }
    {
        let mut all = Items::new(self.alloc);
        for node in nodes {
            all.push(self.alloc, self.node(node, frame)?)?;
        }
        Ok(all)
    }

    /// A method of what stands before the dot.
    #[cycle(run)]
    fn method(
        &self,
        receiver: &Node<Slot>,
        name: &Text,
        arguments: &[Node<Slot>],
        frame: &mut Frame,
    ) -> Result<Expr, Halt>
        ensures gives { Gives result (state frame.new) (spec.method own (meant self.now receiver.now) name.now (map (meant self.now) arguments.now) (state frame.old)) }
        ensures left { frame.new.left ≤ frame.old.left }
    {
        let receiver = self.node(receiver, frame)?;
        let arguments = self.nodes(arguments, frame)?;
        method(
            self.alloc,
            frame,
            &receiver,
            name.as_str(),
            arguments.as_slice(),
        )
    }

    /// A key and its value.
    #[cycle(run)]
    fn pair(&self, pair: &(Node<Slot>, Node<Slot>), frame: &mut Frame) -> Result<(Expr, Expr), Halt>
        ensures gives { Gives result (state frame.new) (spec.both (meant self.now pair.now.0, meant self.now pair.now.1) (state frame.old)) }
        ensures left { frame.new.left ≤ frame.old.left }
    {
        let key = self.node(&pair.0, frame)?;
        let value = self.node(&pair.1, frame)?;
        Ok((key, value))
    }

    #[cycle(run)]
    fn pairs(
        &self,
        pairs: &[(Node<Slot>, Node<Slot>)],
        frame: &mut Frame,
    ) -> Result<Vec<(Expr, Expr)>, Halt>
        ensures gives { GivesItems result (state frame.new) (all (map spec.both (map (λ p. (meant self.now p.0, meant self.now p.1)) pairs.now)) (state frame.old)) }
        ensures left { frame.new.left ≤ frame.old.left }
    {
        let mut all = Vec::new(self.alloc);
        for pair in pairs {
            all.push(self.pair(pair, frame)?)?;
        }
        Ok(all)
    }

    #[cycle(run)]
    fn dict(&self, pairs: &[(Node<Slot>, Node<Slot>)], frame: &mut Frame) -> Result<Expr, Halt>
        ensures gives { Gives result (state frame.new) (spec.shown_pairs own (map (λ p. (meant self.now p.0, meant self.now p.1)) pairs.now) (state frame.old)) }
        ensures left { frame.new.left ≤ frame.old.left }
    {
        let pairs = self.pairs(pairs, frame)?;
        shown_dict(self.alloc, frame, pairs)
    }

    /// The condition of a comprehension, if it has one.
    #[cycle(run)]
    fn condition(&self, conditions: &[Node<Slot>], frame: &mut Frame) -> Result<bool, Halt>
        ensures gives { Gives result (state frame.new) (spec.condition (map (meant self.now) conditions.now) (state frame.old)) }
        ensures left { frame.new.left ≤ frame.old.left }
    {
        match conditions.first() {
            Some(condition) => self.holds(condition, frame),
            None => Ok(true),
        }
    }

    /// The element of a comprehension for one item, where the condition holds.
    #[cycle(run)]
    fn element(
        &self,
        element: &Node<Slot>,
        conditions: &[Node<Slot>],
        frame: &mut Frame,
    ) -> Result<Option<Expr>, Halt>
        ensures gives { Gives result (state frame.new) (spec.element (meant self.now element.now) (map (meant self.now) conditions.now) (state frame.old)) }
        ensures left { frame.new.left ≤ frame.old.left }
    {
        if self.condition(conditions, frame)? {
            Ok(Some(self.node(element, frame)?))
        } else {
            Ok(None)
        }
    }

    /// The elements of a comprehension.
    #[cycle(run)]
    fn elements(
        &self,
        element: &Node<Slot>,
        slot: Slot,
        conditions: &[Node<Slot>],
        items: Turns,
        frame: &mut Frame,
    ) -> Result<Exprs, Halt>
        ensures gives { Gives result (state frame.new) (collected (λ x t. spec.element (meant self.now element.now) (map (meant self.now) conditions.now) (put slot (Some x) t)) (left items) (state frame.old)) }
        ensures left { frame.new.left ≤ frame.old.left }
    {
        let mut items = items;
        let mut all = Items::new(self.alloc);
        while let Some(item) = items.next(self.alloc)? {
            frame.spend(self.alloc, 1)?;
            frame.set(slot, Some(item))?;
            if let Some(value) = self.element(element, conditions, frame)? {
                all.push(self.alloc, value)?;
            }
        }
        Ok(all)
    }

    #[cycle(run)]
    fn comprehended(
        &self,
        element: &Node<Slot>,
        slot: Slot,
        iterable: &Node<Slot>,
        conditions: &[Node<Slot>],
        frame: &mut Frame,
    ) -> Result<Expr, Halt>
        ensures gives { Gives result (state frame.new) (spec.comprehended own (calls_in self.now) (function_in self.now) (meant self.now element.now) slot (meant self.now iterable.now) (map (meant self.now) conditions.now) (state frame.old)) }
        ensures left { frame.new.left ≤ frame.old.left }
    {
        let items = self.iterable(iterable, frame)?;
        self.comprehension(element, slot, conditions, items, frame)
    }

    /// A comprehension over some items. Its name is its own.
    #[cycle(run)]
    fn comprehension(
        &self,
        element: &Node<Slot>,
        slot: Slot,
        conditions: &[Node<Slot>],
        items: Turns,
        frame: &mut Frame,
    ) -> Result<Expr, Halt>
        ensures gives { Gives result (state frame.new) (spec.comprehension own (calls_in self.now) (function_in self.now) (meant self.now element.now) slot (map (meant self.now) conditions.now) (left items) (state frame.old)) }
        ensures left { frame.new.left ≤ frame.old.left }
    {
        let before = frame.copied(self.alloc, slot)?;
        let all = self.elements(element, slot, conditions, items, frame)?;
        frame.set(slot, before)?;
        shown_list(self.alloc, frame, all)
    }
}
