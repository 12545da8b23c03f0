//! The calls that make an expression of their own.

ghost use Rattle.std.specs.Prelude.{◌≡◌, option_copied};
ghost use Rattle.rd_routine.specs.Forms as spec;
ghost use Rattle.rd_routine.specs.Forms.{name_alone};

use rd_tree::Node;

/// What such a call makes. Some of its arguments are names of tasks and classes, and no values.
#[derive(Clone, Copy, Debug, PartialEq, Eq)]
pub enum Special {
    Cond,
    Catch,
    Map,
}

/// As what a call takes its arguments.
#[derive(Clone, Copy)]
pub enum Form<'a, N> {
    /// Each as a value.
    Plain,
    /// Each as a value, where such a call is written otherwise.
    Wrong,
    /// A task, and a value.
    Mapping {
        task: &'a N,
        list: &'a Node<N>,
    },
    /// A value, an error class and a task.
    Catching {
        tried: &'a Node<N>,
        class: &'a N,
        recover: &'a N,
    },
}

/// The name, where an expression is a name alone.
fn name_alone<N>(node: &Node<N>) -> Option<&N>
    ensures { option_copied result ≡ name_alone node.now }
{
    match node {
        Node::Name(name) => Some(name),
        _ => None,
    }
}

fn mapping<'a, N>(task: &'a Node<N>, list: &'a Node<N>) -> Form<'a, N>
    ensures { spec.held result ≡ spec.mapping (name_alone task.now) list.now }
{
    match name_alone(task) {
        Some(task) => Form::Mapping { task, list },
        None => Form::Wrong,
    }
}

fn catching<'a, N>(tried: &'a Node<N>, class: &'a Node<N>, recover: &'a Node<N>) -> Form<'a, N>
    ensures { spec.held result ≡ spec.catching tried.now (name_alone class.now) (name_alone recover.now) }
{
    match (name_alone(class), name_alone(recover)) {
        (Some(class), Some(recover)) => Form::Catching {
            tried,
            class,
            recover,
        },
        _ => Form::Wrong,
    }
}

/// The form of such a call without keywords.
fn special_form<N>(call: Special, positional: &[Node<N>]) -> Form<'_, N>
    ensures { spec.held result ≡ spec.special_form name_alone call positional.now }
{
    match (call, positional) {
        (Special::Cond, [_, _, _]) => Form::Plain,
        (Special::Map, [task, list]) => mapping(task, list),
        (Special::Catch, [tried, class, recover]) => catching(tried, class, recover),
        _ => Form::Wrong,
    }
}

/// The form of a call, by what it makes, if that is special. Such a call has no keywords.
pub fn form_of<'a, N, K>(
    special: Option<Special>,
    positional: &'a [Node<N>],
    keywords: &[K],
) -> Form<'a, N>
    ensures { spec.held result ≡ spec.form_of name_alone special positional.now keywords.now }
{
    match special {
        None => Form::Plain,
        Some(call) if keywords.is_empty() => special_form(call, positional),
        Some(_) => Form::Wrong,
    }
}
