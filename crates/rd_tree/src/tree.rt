//! The trees of sources. `N` is what a name carries: its text with its line in a module, its text alone in a block that stands by itself.

ghost use Rattle.std.specs.Prelude.{◌≡◌, IfOk};

use rd_base::{Boxed, Copies, Items, OutOfMemory, Text};
use rd_value::value::Value;
use std::alloc::Global;

/// A name as it stands in a source.
#[derive(PartialEq, Eq, Drop)]
pub struct Name {
    pub text: Text,
    /// The first line is 1.
    pub line: u32,
}

impl Copies for Name {
    fn copy(&self, alloc: Global) -> Result<Name, OutOfMemory> {
        Ok(Name {
            text: self.text.copy(alloc)?,
            line: self.line,
        })
    }
}

/// An operator of a chain.
#[derive(Clone, Copy, Debug, PartialEq, Eq)]
pub enum Operator {
    Add,
    Sub,
    Mul,
    FloorDiv,
    Mod,
}

/// An operator that compares two operands.
#[derive(Clone, Copy, Debug, PartialEq, Eq)]
pub enum Comparison {
    Eq,
    Ne,
    Lt,
    Le,
    Gt,
    Ge,
    In,
    NotIn,
}

/// An expression.
#[derive(PartialEq, Eq, Drop)]
pub enum Node<N> {
    Lit(Value),
    Name(N),
    Call {
        name: N,
        positional: Items<Node<N>>,
        keywords: Items<(N, Node<N>)>,
    },
    Method {
        receiver: Boxed<Node<N>>,
        name: Text,
        arguments: Items<Node<N>>,
    },
    Index {
        receiver: Boxed<Node<N>>,
        index: Boxed<Node<N>>,
    },
    Path(Boxed<Node<N>>),
    Neg(Boxed<Node<N>>),
    Not(Boxed<Node<N>>),
    /// Operands of one level, and the operators before each but the first. `rest` isn't empty.
    Chain {
        first: Boxed<Node<N>>,
        rest: Items<(Operator, Node<N>)>,
    },
    Compare {
        operator: Comparison,
        left: Boxed<Node<N>>,
        right: Boxed<Node<N>>,
    },
    /// At least two operands.
    And(Items<Node<N>>),
    /// At least two operands.
    Or(Items<Node<N>>),
    Cond {
        test: Boxed<Node<N>>,
        when_true: Boxed<Node<N>>,
        when_false: Boxed<Node<N>>,
    },
    List(Items<Node<N>>),
    Dict(Items<(Node<N>, Node<N>)>),
    /// At most one condition.
    Comp {
        element: Boxed<Node<N>>,
        name: N,
        iterable: Boxed<Node<N>>,
        condition: Items<Node<N>>,
    },
}

/// A statement.
#[derive(PartialEq, Eq, Drop)]
pub enum Statement<N> {
    Assign {
        name: N,
        value: Node<N>,
    },
    For {
        name: N,
        iterable: Node<N>,
        body: Items<Statement<N>>,
    },
    While {
        test: Node<N>,
        body: Items<Statement<N>>,
    },
    /// The tests with their blocks, and the block of `else`, which is empty where there is none.
    If {
        branches: Items<(Node<N>, Items<Statement<N>>)>,
        otherwise: Items<Statement<N>>,
    },
    Return(Option<Node<N>>),
    Raise {
        class: N,
        text: Node<N>,
    },
    Pass,
    Expr(Node<N>),
}

/// Statements without lines.
pub type Block = Items<Statement<Text>>;

/// A parameter of a function.
#[derive(PartialEq, Eq, Drop)]
pub struct Parameter {
    pub name: Name,
    pub default: Option<Value>,
}

/// An option of a task.
#[derive(PartialEq, Eq, Drop)]
pub struct TaskOption {
    pub name: Name,
    pub value: Value,
}

#[derive(PartialEq, Eq, Drop)]
pub struct Function {
    /// The line is that of `def`.
    pub name: Name,
    /// The options of a task. A helper has none.
    pub task: Option<Items<TaskOption>>,
    pub parameters: Items<Parameter>,
    pub body: Items<Statement<Name>>,
}

#[derive(PartialEq, Eq, Drop)]
pub struct Module {
    /// The namespaces that the source gives, in their order.
    pub namespaces: Items<Name>,
    pub functions: Items<Function>,
}
