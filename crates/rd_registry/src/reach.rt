//! The helpers that a block reaches, and the names that aren't local.

ghost use Rattle.std.specs.Prelude.{◌≡◌, ◌<◌, List, [], ◌++◌, IfOk, OnOk, filter, is_some, length, map};
ghost use Rattle.rd_names.specs.Names.{with_name, with_names};
ghost use Rattle.rd_names.specs.Uses.{joined};
ghost use Rattle.rd_registry.specs.Codes as codes;
ghost use Rattle.rd_registry.specs.Functions.{helper_in};
ghost use Rattle.rd_registry.specs.Reach as spec;

use crate::functions::{Functions, helper_named};
use indexmap::IndexSet;
use rd_base::{Copies, OutOfMemory, Text};
use rd_code::{Helper, Mention, Role, mentions_of};
use rd_tree::Statement;
use std::alloc::Global;

fn is_outside(role: Role) -> bool
    ensures { result ≡ codes.is_outside role }
{
    match role {
        Role::Plain => false,
        Role::Called | Role::Class => true,
    }
}

fn outside_of(alloc: Global, mentions: &[Mention<Text>]) -> Result<Vec<Text>, OutOfMemory>
    ensures { IfOk result (λ texts. texts.items ≡ codes.outside_of mentions.now) }
{
    let mut texts = Vec::new(alloc);
    for mention in mentions {
        if is_outside(mention.role) {
            texts.push(mention.name.copy(alloc)?)?;
        }
    }
    Ok(texts)
}

/// The names of a block that aren't local, each where it stands.
fn outside(alloc: Global, block: &[Statement<Text>]) -> Result<Vec<Text>, OutOfMemory>
    ensures { IfOk result (λ texts. texts.items ≡ codes.outside block.now) }
{
    let mentions = mentions_of(alloc, block)?;
    outside_of(alloc, mentions.as_slice())
}

fn add_name(alloc: Global, names: &mut IndexSet<Text>, name: &Text) -> Result<(), OutOfMemory>
    ensures { OnOk result (names.new.keys ≡ with_name names.old.keys name.now) }
{
    names.insert(name.copy(alloc)?)?;
    Ok(())
}

/// Adds those of the names that are helpers.
fn add_named(
    alloc: Global,
    functions: &Functions,
    texts: &[Text],
    names: &mut IndexSet<Text>,
) -> Result<(), OutOfMemory>
    ensures { OnOk result (names.new.keys ≡ with_names names.old.keys (filter (spec.names_helper (helper_in functions.now)) texts.now)) }
{
    for text in texts {
        if helper_named(functions, text).is_some() {
            add_name(alloc, names, text)?;
        }
    }
    Ok(())
}

/// Adds the helpers that a block names.
fn add_helpers(
    alloc: Global,
    functions: &Functions,
    block: &[Statement<Text>],
    names: &mut IndexSet<Text>,
) -> Result<(), OutOfMemory>
    ensures { OnOk result (names.new.keys ≡ with_names names.old.keys (filter (spec.names_helper (helper_in functions.now)) (codes.outside block.now))) }
{
    let texts = outside(alloc, block)?;
    add_named(alloc, functions, texts.as_slice(), names)
}

/// Adds the helpers that the helper of a name names.
fn add_further(
    alloc: Global,
    functions: &Functions,
    name: &Text,
    names: &mut IndexSet<Text>,
) -> Result<(), OutOfMemory>
    ensures { OnOk result (names.new.keys ≡ with_names names.old.keys (spec.further (helper_in functions.now) name.now)) }
{
    match helper_named(functions, name) {
        Some(helper) => add_helpers(alloc, functions, helper.block.as_slice(), names),
        None => Ok(()),
    }
}

/// The names of the helpers that a block reaches.
pub fn reached(
    alloc: Global,
    functions: &Functions,
    block: &[Statement<Text>],
) -> Result<IndexSet<Text>, OutOfMemory>
    ensures { IfOk result (λ names. spec.AreReached (helper_in functions.now) block.now names.keys) }
{
    let mut names = IndexSet::new(alloc);
    add_helpers(alloc, functions, block, &mut names)?;
    let mut place = 0;
    while place < names.len() {
        let name = names.as_slice()[place].copy(alloc)?;
        add_further(alloc, functions, &name, &mut names)?;
        place += 1;
    }
    Ok(names)
}

fn add_all(alloc: Global, texts: &[Text], names: &mut IndexSet<Text>) -> Result<(), OutOfMemory>
    ensures { OnOk result (names.new.keys ≡ with_names names.old.keys texts.now) }
{
    for text in texts {
        add_name(alloc, names, text)?;
    }
    Ok(())
}

fn add_outside(
    alloc: Global,
    block: &[Statement<Text>],
    names: &mut IndexSet<Text>,
) -> Result<(), OutOfMemory>
    ensures { OnOk result (names.new.keys ≡ with_names names.old.keys (codes.outside block.now)) }
{
    let texts = outside(alloc, block)?;
    add_all(alloc, texts.as_slice(), names)
}

/// The names of a block and of helpers that aren't local.
pub fn all_outside(
    alloc: Global,
    block: &[Statement<Text>],
    helpers: &[Helper],
) -> Result<IndexSet<Text>, OutOfMemory>
    ensures { IfOk result (λ names. names.keys ≡ with_names [] (codes.outside block.now ++ joined (map (λ h. codes.outside h.block) helpers.now))) }
{
    let mut names = IndexSet::new(alloc);
    add_outside(alloc, block, &mut names)?;
    for helper in helpers {
        add_outside(alloc, helper.block.as_slice(), &mut names)?;
    }
    Ok(names)
}
