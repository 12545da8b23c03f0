ghost use Rattle.std.specs.Prelude.{◌≡◌, [], ◌∷◌, ◌++◌, ◌<◌, length, OnOk, OnErr, IfOk};
ghost use Rattle.std.specs.Arc.{arc_value};

use crate::copies::Copies;
use crate::memory::OutOfMemory;
use std::alloc::Global;
use std::marker::Model;
use std::sync::Arc;

/// A list, whose copies share its items: contracts see it as the list of its items.
#[derive(Debug, Drop)]
pub struct Items<T> {
    items: Option<Arc<Vec<T>, Global>>,
}

impl<T> Model for Items<T> {
    ghost use Rattle.std.specs.Prelude.{List};
    ghost use Rattle.std.specs.Coded.{coded_list};
    ghost use Rattle.rd_base.specs.Items.{shared_items};

    ghost Value = { List T };

    ghost coded = { coded_list T.code };

    ghost view = { λ it. shared_items it.items };
}

impl<T> Items<T> {
    pub fn new(_alloc: Global) -> Items<T>
        ensures { result ≡ [] }
    {
        Items { items: None }
    }

    pub fn as_slice(&self) -> &[T]
        ensures { result.now ≡ self.now }
    {
        match &self.items {
            Some(items) => items.as_slice(),
            None => &[],
        }
    }

    pub fn len(&self) -> usize
        ensures { result ≡ length self.now }
    {
        self.as_slice().len()
    }
}

impl<T: Drop> Items<T> {
    pub fn from_vec(alloc: Global, items: Vec<T>) -> Result<Items<T>, OutOfMemory>
        ensures { IfOk result (λ it. it ≡ items.items) }
    {
        Ok(Items {
            items: Some(Arc::new(alloc, items)?),
        })
    }
}

fn copied<T: Copies>(alloc: Global, items: &[T]) -> Result<Vec<T>, OutOfMemory>
    ensures { IfOk result (λ v. v.items ≡ items.now) }
{
    let mut copies = Vec::with_capacity(alloc, items.len().saturating_add(1))?;
    for item in items {
        copies.push(item.copy(alloc)?)?;
    }
    Ok(copies)
}

fn push_shared<T: Copies>(
    alloc: Global,
    shared: &mut Arc<Vec<T>, Global>,
    item: T,
) -> Result<(), OutOfMemory>
    ensures ok { OnOk result ((arc_value shared.new).items ≡ (arc_value shared.old).items ++ item ∷ []) }
    ensures err { OnErr result ((arc_value shared.new).items ≡ (arc_value shared.old).items) }
{
    match Arc::get_mut(shared) {
        Some(items) => {
            items.push(item)?;
            Ok(())
        }
        None => {
            let mut items = copied(alloc, shared.as_slice())?;
            items.push(item)?;
            *shared = Arc::new(alloc, items)?;
            Ok(())
        }
    }
}

fn unshared<T: Copies>(alloc: Global, shared: Arc<Vec<T>, Global>) -> Result<Vec<T>, OutOfMemory>
    ensures { IfOk result (λ v. v.items ≡ (arc_value shared).items) }
{
    match Arc::try_unwrap(shared) {
        Ok(items) => Ok(items),
        Err(shared) => copied(alloc, shared.as_slice()),
    }
}

impl<T: Copies> Items<T> {
    /// The items, moved out where this list is their one owner, and else copied.
    pub fn into_vec(self, alloc: Global) -> Result<Vec<T>, OutOfMemory>
        ensures { IfOk result (λ v. v.items ≡ self) }
    {
        let Items { items } = self;
        match items {
            Some(shared) => unshared(alloc, shared),
            None => Ok(Vec::new(alloc)),
        }
    }

    pub fn from_slice(alloc: Global, items: &[T]) -> Result<Items<T>, OutOfMemory>
        ensures { IfOk result (λ it. it ≡ items.now) }
    {
        Items::from_vec(alloc, copied(alloc, items)?)
    }

    pub fn push(&mut self, alloc: Global, item: T) -> Result<(), OutOfMemory>
        ensures ok { OnOk result (self.new ≡ self.old ++ item ∷ []) }
        ensures err { OnErr result (self.new ≡ self.old) }
    {
        match &mut self.items {
            Some(shared) => push_shared(alloc, shared, item),
            None => {
                let mut items = Vec::new(alloc);
                items.push(item)?;
                self.items = Some(Arc::new(alloc, items)?);
                Ok(())
            }
        }
    }
}

impl<T: Drop> Copies for Items<T> {
    fn copy(&self, _alloc: Global) -> Result<Items<T>, OutOfMemory> {
        match &self.items {
            Some(items) => Ok(Items {
                items: Some(Arc::try_clone(items)?),
            }),
            None => Ok(Items { items: None }),
        }
    }
}
