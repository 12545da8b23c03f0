//! The names that stand in a tree, each with its role.

ghost use Rattle.std.specs.Prelude.{◌≡◌, ◌++◌, ◌∷◌, [], OnOk, IfOk, map};
ghost use Rattle.rd_tree.specs.declared.tree.Node.TheVariants as node;
ghost use Rattle.rd_names.specs.Uses.{joined};
ghost use Rattle.rd_code.specs.Mentions.{called, mention, named_in, named_in_block, plain};

mod statement;

use rd_base::{Copies, OutOfMemory, Text};
use rd_names::special_named;
use rd_routine::{Form, form_of};
use rd_tree::{Node, Operator, Statement};
use std::alloc::Global;

/// As what a name stands.
#[derive(Clone, Copy, Debug, PartialEq, Eq)]
pub enum Role {
    /// A local, or the name of a keyword.
    Plain,
    /// Also a task in `map_` and `catch`.
    Called,
    /// Behind `raise`, and in `catch`.
    Class,
}

/// A name where it stands.
#[derive(Drop)]
pub struct Mention<N> {
    pub role: Role,
    pub name: N,
}

/// The names that were met, in their order.
#[derive(Drop)]
struct Mentions {
    alloc: Global,
    all: Vec<Mention<Text>>,
}

impl Mentions {
    fn add(&mut self, role: Role, name: &Text) -> Result<(), OutOfMemory>
        ensures { OnOk result (self.new.all.items ≡ self.old.all.items ++ mention role name.now ∷ []) }
    {
        let name = name.copy(self.alloc)?;
        self.all.push(Mention { role, name })?;
        Ok(())
    }

    #[cycle(nodes)]
    #[tactic(auto, using(crate::proofs::Mentions::behind, crate::proofs::Mentions::mentions_lit, crate::proofs::Mentions::mentions_name, crate::proofs::Mentions::mentions_method, crate::proofs::Mentions::mentions_index, crate::proofs::Mentions::mentions_path, crate::proofs::Mentions::mentions_neg, crate::proofs::Mentions::mentions_not, crate::proofs::Mentions::mentions_compare, crate::proofs::Mentions::mentions_and, crate::proofs::Mentions::mentions_or, crate::proofs::Mentions::mentions_list, crate::proofs::Mentions::mentions_cond, crate::proofs::Mentions::mentions_comp))]
    fn node(&mut self, node: &Node<Text>) -> Result<(), OutOfMemory>
        ensures { OnOk result (self.new.all.items ≡ self.old.all.items ++ named_in node.now) }
    {
        match node {
            Node::Lit(_) => Ok(()),
            Node::Name(name) => self.add(Role::Plain, name),
            Node::Call {
                name,
                positional,
                keywords,
            } => self.call(name, positional.as_slice(), keywords.as_slice()),
            Node::Method {
                receiver,
                arguments,
                ..
            } => self.first(receiver.get(), arguments.as_slice()),
            Node::Path(part) | Node::Neg(part) | Node::Not(part) => self.node(part.get()),
            Node::Index { receiver, index } => self.both(receiver.get(), index.get()),
            Node::Compare { left, right, .. } => self.both(left.get(), right.get()),
            Node::Chain { first, rest } => self.chain(first.get(), rest.as_slice()),
            Node::And(parts) | Node::Or(parts) | Node::List(parts) => self.nodes(parts.as_slice()),
            Node::Cond {
                test,
                when_true,
                when_false,
            } => self.three(test.get(), when_true.get(), when_false.get()),
            Node::Dict(pairs) => self.pairs(pairs.as_slice()),
            Node::Comp {
                element,
                name,
                iterable,
                condition,
            } => self.comprehension(element.get(), name, iterable.get(), condition.as_slice()),
        }
    }

    #[cycle(nodes)]
    #[tactic(auto, using(crate::proofs::Mentions::behind, crate::proofs::Mentions::mentions_call))]
    fn call(
        &mut self,
        name: &Text,
        positional: &[Node<Text>],
        keywords: &[(Text, Node<Text>)],
    ) -> Result<(), OutOfMemory>
        ensures { let call = node.Call name.now positional.now keywords.now in
            OnOk result (self.new.all.items ≡ self.old.all.items ++ named_in call) }
    {
        self.add(Role::Called, name)?;
        match form_of(special_named(name.as_str()), positional, keywords) {
            Form::Plain | Form::Wrong => self.arguments(positional, keywords),
            Form::Mapping { task, list } => {
                self.add(Role::Called, task)?;
                self.node(list)
            }
            Form::Catching {
                tried,
                class,
                recover,
            } => {
                self.node(tried)?;
                self.add(Role::Class, class)?;
                self.add(Role::Called, recover)
            }
        }
    }

    #[cycle(nodes)]
    #[tactic(auto, using(crate::proofs::Mentions::behind))]
    fn arguments(
        &mut self,
        positional: &[Node<Text>],
        keywords: &[(Text, Node<Text>)],
    ) -> Result<(), OutOfMemory>
        ensures { let behind = joined (map (λ k. plain k.0 ∷ named_in k.1) keywords.now) in
            OnOk result (self.new.all.items ≡ self.old.all.items ++ (joined (map named_in positional.now) ++ behind)) }
    {
        self.nodes(positional)?;
        self.keywords(keywords)
    }

    #[cycle(nodes)]
    #[tactic(auto, using(crate::proofs::Mentions::behind))]
    fn first(&mut self, first: &Node<Text>, others: &[Node<Text>]) -> Result<(), OutOfMemory>
        ensures { OnOk result (self.new.all.items ≡ self.old.all.items ++ (named_in first.now ++ joined (map named_in others.now))) }
    {
        self.node(first)?;
        self.nodes(others)
    }

    #[cycle(nodes)]
    #[tactic(auto, using(crate::proofs::Mentions::behind))]
    fn both(&mut self, left: &Node<Text>, right: &Node<Text>) -> Result<(), OutOfMemory>
        ensures { OnOk result (self.new.all.items ≡ self.old.all.items ++ (named_in left.now ++ named_in right.now)) }
    {
        self.node(left)?;
        self.node(right)
    }

    #[cycle(nodes)]
    #[tactic(auto, using(crate::proofs::Mentions::behind))]
    fn three(
        &mut self,
        test: &Node<Text>,
        when_true: &Node<Text>,
        when_false: &Node<Text>,
    ) -> Result<(), OutOfMemory>
        ensures { OnOk result (self.new.all.items ≡ self.old.all.items ++ (named_in test.now ++ (named_in when_true.now ++ named_in when_false.now))) }
    {
        self.node(test)?;
        self.both(when_true, when_false)
    }

    #[cycle(nodes)]
    #[tactic(auto, using(crate::proofs::Mentions::behind))]
    fn chain(
        &mut self,
        first: &Node<Text>,
        rest: &[(Operator, Node<Text>)],
    ) -> Result<(), OutOfMemory>
        ensures { OnOk result (self.new.all.items ≡ self.old.all.items ++ (named_in first.now ++ joined (map (λ l. named_in l.1) rest.now))) }
    {
        self.node(first)?;
        self.links(rest)
    }

    #[cycle(nodes)]
    #[tactic(auto, using(crate::proofs::Mentions::behind))]
    fn comprehension(
        &mut self,
        element: &Node<Text>,
        name: &Text,
        iterable: &Node<Text>,
        condition: &[Node<Text>],
    ) -> Result<(), OutOfMemory>
        ensures { let rest = named_in iterable.now ++ joined (map named_in condition.now) in
            OnOk result (self.new.all.items ≡ self.old.all.items ++ (named_in element.now ++ (plain name.now ∷ rest))) }
    {
        self.node(element)?;
        self.add(Role::Plain, name)?;
        self.first(iterable, condition)
    }

    #[cycle(nodes)]
    #[tactic(auto, using(crate::proofs::Mentions::behind))]
    fn nodes(&mut self, nodes: &[Node<Text>]) -> Result<(), OutOfMemory>
        ensures { OnOk result (self.new.all.items ≡ self.old.all.items ++ joined (map named_in nodes.now)) }
    {
        for node in nodes {
            self.node(node)?;
        }
        Ok(())
    }

    #[cycle(nodes)]
    #[tactic(auto, using(crate::proofs::Mentions::behind))]
    fn keywords(&mut self, keywords: &[(Text, Node<Text>)]) -> Result<(), OutOfMemory>
        ensures { OnOk result (self.new.all.items ≡ self.old.all.items ++ (joined (map (λ k. plain k.0 ∷ named_in k.1) keywords.now))) }
    {
        for keyword in keywords {
            self.add(Role::Plain, &keyword.0)?;
            self.node(&keyword.1)?;
        }
        Ok(())
    }

    #[cycle(nodes)]
    #[tactic(auto, using(crate::proofs::Mentions::behind))]
    fn links(&mut self, links: &[(Operator, Node<Text>)]) -> Result<(), OutOfMemory>
        ensures { OnOk result (self.new.all.items ≡ self.old.all.items ++ (joined (map (λ l. named_in l.1) links.now))) }
    {
        for link in links {
            self.node(&link.1)?;
        }
        Ok(())
    }

    #[cycle(nodes)]
    #[tactic(auto, using(crate::proofs::Mentions::behind))]
    fn pairs(&mut self, pairs: &[(Node<Text>, Node<Text>)]) -> Result<(), OutOfMemory>
        ensures { OnOk result (self.new.all.items ≡ self.old.all.items ++ (joined (map (λ p. named_in p.0 ++ named_in p.1) pairs.now))) }
    {
        for pair in pairs {
            self.both(&pair.0, &pair.1)?;
        }
        Ok(())
    }
}

/// The names that stand in a block.
pub fn mentions_of(
    alloc: Global,
    block: &[Statement<Text>],
) -> Result<Vec<Mention<Text>>, OutOfMemory>
    ensures { IfOk result (λ all. all.items ≡ named_in_block block.now) }
{
    let mut mentions = Mentions {
        alloc,
        all: Vec::new(alloc),
    };
    mentions.block(block)?;
    let Mentions { all, .. } = mentions;
    Ok(all)
}
