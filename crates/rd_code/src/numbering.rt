//! Functions with numbers in the place of names.

ghost use Rattle.std.specs.Prelude.{◌≡◌, ℕ, List, IfOk, OnOk, map};
ghost use Rattle.std.specs.Option.{option_map};
ghost use Rattle.std.specs.Str.{bytes_eq};
ghost use Rattle.indexmap.specs.IndexMap.{get};
ghost use Rattle.rd_names.specs.Names.{with_name};
ghost use Rattle.rd_routine.specs.Callees as callees;
ghost use Rattle.rd_code.specs.Known as known;
ghost use Rattle.rd_code.specs.Mentions.{plain};
ghost use Rattle.rd_code.specs.Numbering as spec;
ghost use Rattle.rd_code.specs.Numbering.{place_among, use_among, word_by};
ghost use Rattle.rd_code.specs.Words.{word_from};

use crate::firsts::put_first;
use crate::known::{built_in, class_named};
use crate::mention::{Mention, mentions_of};
use crate::named::{Helper, NamedUse, UseKind};
use crate::renaming::{Renaming, renamed_block};
use indexmap::{IndexMap, IndexSet};
use rd_base::{Copies, Items, OutOfMemory, Text};
use rd_routine::{Callee, Parameter, Routine, Slot, Word};
use rd_tree::Statement;
use rd_value::signature;
use rd_value::value::Value;
use std::alloc::Global;

/// The words of the names that aren't local.
pub type Words = IndexMap<Text, Word>;

/// The place of the first helper of each name.
fn places(alloc: Global, helpers: &[Helper]) -> Result<IndexMap<Text, usize>, OutOfMemory>
    ensures { IfOk result (λ places. (text : List ℕ) → get bytes_eq places text ≡ place_among 0 helpers.now text) }
{
    let mut places = IndexMap::new(alloc);
    let mut place: usize = 0;
    for helper in helpers {
        put_first(&mut places, helper.name.copy(alloc)?, place)?;
        place += 1;
    }
    Ok(places)
}

/// What is called by the name of a helper.
fn helper_at(places: &IndexMap<Text, usize>, name: &Text) -> Callee
    ensures { result ≡ spec.helper_at (get bytes_eq places.now name.now) }
{
    match places.get(name) {
        Some(place) => Callee::Helper(*place),
        None => Callee::Unknown,
    }
}

fn built_in_or_unknown(name: &str) -> Callee
    ensures { result ≡ callees.known (known.built_in name.now) }
{
    match built_in(name) {
        Some(callee) => callee,
        None => Callee::Unknown,
    }
}

fn callee_of(
    alloc: Global,
    places: &IndexMap<Text, usize>,
    named: &NamedUse,
) -> Result<Callee, OutOfMemory>
    ensures { let u = named.now in IfOk result (λ c. c ≡ spec.callee_by u.kind u.name u.task (get bytes_eq places.now u.name)) }
{
    match named.kind {
        UseKind::Task => Ok(Callee::Task(named.task.copy(alloc)?)),
        UseKind::Helper => Ok(helper_at(places, &named.name)),
        UseKind::Builtin => Ok(built_in_or_unknown(named.name.as_str())),
        UseKind::ErrorClass => Ok(Callee::Unknown),
    }
}

fn word_of(
    alloc: Global,
    places: &IndexMap<Text, usize>,
    named: &NamedUse,
) -> Result<Word, OutOfMemory>
    ensures { IfOk result (λ w. w ≡ word_by (get bytes_eq places.now) named.now) }
{
    Ok(Word {
        spelling: named.name.copy(alloc)?,
        callee: callee_of(alloc, places, named)?,
        class: class_named(named.name.as_str()),
    })
}

fn words_by(
    alloc: Global,
    places: &IndexMap<Text, usize>,
    uses: &[NamedUse],
) -> Result<Words, OutOfMemory>
    ensures { IfOk result (λ words. (text : List ℕ) → get bytes_eq words text ≡ option_map (word_by (get bytes_eq places.now)) (use_among uses.now text)) }
{
    let mut words = IndexMap::new(alloc);
    for named in uses {
        put_first(
            &mut words,
            named.name.copy(alloc)?,
            word_of(alloc, places, named)?,
        )?;
    }
    Ok(words)
}

/// What is known of the names that are used.
pub fn words_of(alloc: Global, helpers: &[Helper], uses: &[NamedUse]) -> Result<Words, OutOfMemory>
    ensures { IfOk result (λ words. (text : List ℕ) → word_from words text ≡ spec.word_in helpers.now uses.now text) }
{
    let places = places(alloc, helpers)?;
    words_by(alloc, &places, uses)
}

fn word_of_text(alloc: Global, words: &Words, text: &Text) -> Result<Word, OutOfMemory>
    ensures { IfOk result (λ w. w ≡ word_from words.now text.now) }
{
    match words.get(text) {
        Some(word) => Ok(Word {
            spelling: text.copy(alloc)?,
            callee: word.callee.copy(alloc)?,
            class: word.class,
        }),
        None => Ok(Word {
            spelling: text.copy(alloc)?,
            callee: Callee::Unknown,
            class: None,
        }),
    }
}

fn words_in(alloc: Global, words: &Words, texts: &[Text]) -> Result<Items<Word>, OutOfMemory>
    ensures { IfOk result (λ all. all ≡ map (word_from words.now) texts.now) }
{
    let mut all = Vec::new(alloc);
    for text in texts {
        all.push(word_of_text(alloc, words, text)?)?;
    }
    Items::from_vec(alloc, all)
}

fn add_text(alloc: Global, texts: &mut IndexSet<Text>, text: &Text) -> Result<(), OutOfMemory>
    ensures { OnOk result (texts.new.keys ≡ with_name texts.old.keys text.now) }
{
    texts.insert(text.copy(alloc)?)?;
    Ok(())
}

fn add_parameters(
    alloc: Global,
    texts: &mut IndexSet<Text>,
    parameters: &[signature::Parameter],
) -> Result<(), OutOfMemory>
    ensures { OnOk result (texts.new.keys ≡ spec.with_mentions texts.old.keys (map (λ p. plain p.name) parameters.now)) }
{
    for parameter in parameters {
        add_text(alloc, texts, &parameter.name)?;
    }
    Ok(())
}

fn add_mentions(
    alloc: Global,
    texts: &mut IndexSet<Text>,
    mentions: &[Mention<Text>],
) -> Result<(), OutOfMemory>
    ensures { OnOk result (texts.new.keys ≡ spec.with_mentions texts.old.keys mentions.now) }
{
    for mention in mentions {
        add_text(alloc, texts, &mention.name)?;
    }
    Ok(())
}

/// The texts of a function's names, those of its parameters first.
fn texts_within(
    alloc: Global,
    parameters: &[signature::Parameter],
    block: &[Statement<Text>],
) -> Result<IndexSet<Text>, OutOfMemory>
    ensures { IfOk result (λ texts. texts.keys ≡ spec.texts_within parameters.now block.now) }
{
    let mut texts = IndexSet::new(alloc);
    add_parameters(alloc, &mut texts, parameters)?;
    let mentions = mentions_of(alloc, block)?;
    add_mentions(alloc, &mut texts, mentions.as_slice())?;
    Ok(texts)
}

/// The texts of a function's names, whose places stand for them.
#[derive(Drop)]
struct TextPlaces<'a> {
    texts: &'a IndexSet<Text>,
}

/// The place of a name. One that isn't there has the place behind all others.
fn place(texts: &IndexSet<Text>, name: &Text) -> Slot
    ensures { result ≡ spec.place texts.now.keys name.now }
{
    match texts.get_index_of(name) {
        Some(place) => place,
        None => texts.len(),
    }
}

impl Renaming<Text, Slot> for TextPlaces<'_> {
    ghost use Rattle.rd_code.specs.Numbering as spec;

    ghost renamed = { λ p. spec.place p.texts.now.keys };

    fn name(&self, _alloc: Global, name: &Text) -> Result<Slot, OutOfMemory> {
        Ok(place(self.texts, name))
    }
}

/// The value of a literal. There are no others in a source.
fn literal(alloc: Global, value: &Value) -> Result<Value, OutOfMemory>
    ensures { IfOk result (λ v. v ≡ spec.literal_value value.now) }
{
    match value {
        Value::Bool(b) => Ok(Value::Bool(*b)),
        Value::Int(n) => Ok(Value::Int(*n)),
        Value::Text(text) => Ok(Value::Text(text.copy(alloc)?)),
        _ => Ok(Value::Nothing),
    }
}

fn default_of(alloc: Global, parameter: &signature::Parameter) -> Result<Option<Value>, OutOfMemory>
    ensures { IfOk result (λ o. o ≡ option_map spec.literal_value parameter.now.default) }
{
    match &parameter.default {
        Some(value) => Ok(Some(literal(alloc, value)?)),
        None => Ok(None),
    }
}

fn numbered_parameters(
    alloc: Global,
    texts: &IndexSet<Text>,
    parameters: &[signature::Parameter],
) -> Result<Items<Parameter>, OutOfMemory>
    ensures { IfOk result (λ ps. ps ≡ map (spec.numbered_parameter texts.now.keys) parameters.now) }
{
    let mut all = Vec::new(alloc);
    for parameter in parameters {
        all.push(Parameter {
            slot: place(texts, &parameter.name),
            default: default_of(alloc, parameter)?,
        })?;
    }
    Items::from_vec(alloc, all)
}

/// A function with the places of its names' texts.
pub fn numbered(
    alloc: Global,
    words: &Words,
    parameters: &[signature::Parameter],
    block: &[Statement<Text>],
) -> Result<Routine, OutOfMemory>
    ensures { IfOk result (λ routine. routine ≡ spec.numbered (word_from words.now) parameters.now block.now) }
{
    let texts = texts_within(alloc, parameters, block)?;
    Ok(Routine {
        words: words_in(alloc, words, texts.as_slice())?,
        parameters: numbered_parameters(alloc, &texts, parameters)?,
        block: renamed_block(alloc, &TextPlaces { texts: &texts }, block)?,
    })
}

/// The helpers with the places of their names' texts.
pub fn numbered_helpers(
    alloc: Global,
    words: &Words,
    helpers: &[Helper],
) -> Result<Items<Routine>, OutOfMemory>
    ensures { IfOk result (λ routines. routines ≡ map (spec.numbered_helper (word_from words.now)) helpers.now) }
{
    let mut all = Vec::new(alloc);
    for helper in helpers {
        let parameters = helper.parameters.as_slice();
        all.push(numbered(alloc, words, parameters, helper.block.as_slice())?)?;
    }
    Items::from_vec(alloc, all)
}
