//! Items that many may hold, where each holder has changes of its own.

ghost use Rattle.std.specs.Prelude.{◌≡◌, ◌≢◌, [], ◌∷◌, length, get_or, set, ◌<◌, IsTrue, IfOk, IfSome, IfNone, OnOk, OnErr};
ghost use Rattle.shared_list.specs.Changes.{changed, Proceeds, Settles};
ghost use Rattle.shared_list.specs.Items.{kept_items};

use crate::changes::{Changes, change, with_change};
use std::alloc::{AllocError, Global};
use std::marker::Model;
use std::rc::Rc;

/// A list of at most so many items is copied where others hold it too and one is set.
const SHORT: usize = 2_048;

/// A longer list is copied once one item of so many was set since it was shared.
const PART: usize = 32;

/// A list, which others may hold too.
#[derive(Drop)]
pub struct Items<T> {
    kept: Kept<T>,
}

/// The list, or one that others hold too with changes of it.
#[derive(Drop)]
pub enum Kept<T> {
    Whole(Rc<Vec<T>>),
    Written(Box<Written<T>>),
}

/// Changes of a list, and how many items were set since it was shared or copied.
#[derive(Drop)]
pub struct Written<T> {
    alloc: Global,
    base: Rc<Vec<T>>,
    changes: Rc<Changes<T>>,
    writes: usize,
}

impl<T> Model for Items<T> {
    ghost use Rattle.std.specs.Prelude.{List};
    ghost use Rattle.std.specs.Coded.{coded_list};

    ghost Value = { List T };

    ghost coded = { coded_list T.code };

    ghost use Rattle.shared_list.specs.Items.{kept_items};

    ghost view = { λ i. kept_items i.kept };
}

impl<T: Copy> Items<T> {
    /// The items of a vector.
    pub fn new(alloc: Global, items: Vec<T>) -> Result<Items<T>, AllocError>
        ensures { IfOk result (λ list. list ≡ items.items) }
    {
        let items = Rc::new(alloc, items)?;
        Ok(Items {
            kept: Kept::Whole(items),
        })
    }

    /// The same list once more, without a copy of its items.
    pub fn share(&self) -> Result<Items<T>, AllocError>
        ensures { IfOk result (λ list. list ≡ self.now) }
    {
        match &self.kept {
            Kept::Whole(items) => {
                let items = items.clone()?;
                Ok(Items {
                    kept: Kept::Whole(items),
                })
            }
            Kept::Written(written) => {
                let base = written.base.clone()?;
                let changes = written.changes.clone()?;
                let written = Box::new(
                    written.alloc,
                    Written {
                        alloc: written.alloc,
                        base,
                        changes,
                        writes: 0,
                    },
                )?;
                Ok(Items {
                    kept: Kept::Written(written),
                })
            }
        }
    }

    /// How many items there are.
    #[tactic(auto, using(crate::proofs::api::Changed::of_lengths))]
    pub fn len(&self) -> usize
        ensures { result ≡ length self.now }
    {
        match &self.kept {
            Kept::Whole(items) => items.as_slice().len(),
            Kept::Written(written) => written.base.as_slice().len(),
        }
    }

    /// The item of a list of one item.
    #[tactic(auto, using(crate::proofs::api::Changed::of_lengths))]
    pub fn only(&self) -> Option<T>
        ensures item { IfSome result (λ item. self.now ≡ item ∷ []) }
        ensures none { IfNone result (length self.now ≢ 1) }
    {
        if self.len() != 1 {
            return None;
        }
        match &self.kept {
            Kept::Whole(items) => Some(items.as_slice()[0]),
            Kept::Written(written) => Some(self.item_or(0, written.base.as_slice()[0])),
        }
    }

    /// The item at a place, or `nothing` past the end.
    pub fn item_or(&self, place: usize, nothing: T) -> T
        ensures { result ≡ get_or self.now place nothing }
    {
        match &self.kept {
            Kept::Whole(items) => item_or(items, place, nothing),
            Kept::Written(written) => {
                changed_item_or(&written.base, &written.changes, place, nothing)
            }
        }
    }

    /// The items, copied only where they have changes.
    pub fn in_order(&self, alloc: Global) -> Result<Rc<Vec<T>>, AllocError>
        ensures { IfOk result (λ items. items.value.items ≡ self.now) }
    {
        match &self.kept {
            Kept::Whole(items) => items.clone(),
            Kept::Written(written) => {
                let items = with_changes(alloc, &written.base, &written.changes)?;
                Ok(Rc::new(alloc, items)?)
            }
        }
    }

    /// The items as a vector, copied only where others hold them too or they have changes.
    pub fn into_vec(self, alloc: Global) -> Result<Vec<T>, AllocError>
        ensures { IfOk result (λ items. items.items ≡ self) }
    {
        let Items { kept } = self;
        match kept {
            Kept::Whole(items) => taken(alloc, items),
            Kept::Written(written) => with_changes(alloc, &written.base, &written.changes),
        }
    }

    /// Sets an item, where there is one at this place. What others hold stays as it is.
    pub fn set(&mut self, alloc: Global, place: usize, item: T) -> Result<(), AllocError>
        ensures set { OnOk result (self.new ≡ set self.old place item) }
        ensures refused { OnErr result (self.new ≡ self.old) }
    {
        if let Kept::Whole(items) = &mut self.kept {
            if set_alone(items, place, item) {
                return Ok(());
            }
        }
        let kept = kept_with(alloc, &self.kept, place, item)?;
        self.kept = kept;
        Ok(())
    }
}

/// What is kept, with an item set, where there is one at this place.
#[tactic(auto, using(crate::proofs::api::Changed::of_none))]
fn kept_with<T: Copy>(
    alloc: Global,
    kept: &Kept<T>,
    place: usize,
    item: T,
) -> Result<Kept<T>, AllocError>
    ensures { IfOk result (λ found. kept_items found ≡ set (kept_items kept.now) place item) }
{
    match kept {
        Kept::Whole(items) => {
            let none = Rc::new(alloc, Changes::Unchanged)?;
            written_with(alloc, items, &none, 0, place, item)
        }
        Kept::Written(written) => written_with(
            alloc,
            &written.base,
            &written.changes,
            written.writes,
            place,
            item,
        ),
    }
}

/// A list that others hold too with its changes, of which so many were made since it was shared,
/// and with an item set. A short list is copied, and a longer one once the writes have paid for the
/// copy: so each costs about what it changes.
#[tactic(auto, using(crate::proofs::api::Changed::of_more))]
fn written_with<T: Copy>(
    alloc: Global,
    base: &Rc<Vec<T>>,
    changes: &Rc<Changes<T>>,
    writes: usize,
    place: usize,
    item: T,
) -> Result<Kept<T>, AllocError>
    ensures { IfOk result (λ found. kept_items found
        ≡ set (changed changes.now.value base.now.value.items) place item) }
{
    let length = base.as_slice().len();
    if length <= SHORT || length / PART <= writes {
        let mut items = with_changes(alloc, base, changes)?;
        set_in(&mut items, place, item);
        return Ok(Kept::Whole(Rc::new(alloc, items)?));
    }
    let changes = with_change(alloc, changes, place, place, item)?;
    let base = base.clone()?;
    let written = Box::new(
        alloc,
        Written {
            alloc,
            base,
            changes,
            writes: writes + 1,
        },
    )?;
    Ok(Kept::Written(written))
}

/// A list with its changes.
#[tactic(auto, using(crate::proofs::api::Changed::of_settled))]
fn with_changes<T: Copy>(
    alloc: Global,
    base: &[T],
    changes: &Changes<T>,
) -> Result<Vec<T>, AllocError>
    ensures { IfOk result (λ items. items.items ≡ changed changes.now base.now) }
{
    let mut items = Vec::from_slice(alloc, base)?;
    settle(&mut items, changes, changes);
    Ok(items)
}

/// Changes the items that a part of the changes is about.
#[tactic(auto, using(crate::proofs::api::Changed::of_settling))]
fn settle<T: Copy>(items: &mut Vec<T>, part: &Changes<T>, changes: &Changes<T>)
    ensures { Settles part.now changes.now items.old.items items.new.items }
{
    match part {
        Changes::Unchanged => {}
        Changes::Changed {
            place,
            even,
            odd,
            ..
        } => {
            settle_at(items, *place, changes);
            settle(items, even, changes);
            settle(items, odd, changes);
        }
    }
}

/// Changes the item at a place.
#[tactic(auto, using(crate::proofs::api::Changed::of_one_settled))]
fn settle_at<T: Copy>(items: &mut Vec<T>, place: usize, changes: &Changes<T>)
    ensures proceeds { Proceeds changes.now items.old.items items.new.items }
    ensures settled { (past : T) → place < length items.old.items → get_or items.new.items place past
        ≡ get_or (changed changes.now items.old.items) place past }
{
    if let Some(item) = change(changes, place, place) {
        set_in(items, place, item);
    }
}

/// The item at a place of a list with its changes, or `nothing` past the end.
fn changed_item_or<T: Copy>(base: &[T], changes: &Changes<T>, place: usize, nothing: T) -> T
    ensures { result ≡ get_or (changed changes.now base.now) place nothing }
{
    if place >= base.len() {
        return nothing;
    }
    match change(changes, place, place) {
        Some(item) => item,
        None => base[place],
    }
}

/// The items as a vector, copied where others hold them too.
fn taken<T: Copy>(alloc: Global, items: Rc<Vec<T>>) -> Result<Vec<T>, AllocError>
    ensures { IfOk result (λ found. found.items ≡ items.value.items) }
{
    match Rc::try_unwrap(items) {
        Ok(items) => Ok(items),
        Err(items) => Vec::from_slice(alloc, &items),
    }
}

/// Sets an item where nobody else holds the list, and answers whether so.
fn set_alone<T: Copy>(items: &mut Rc<Vec<T>>, place: usize, item: T) -> bool
    ensures alone { IsTrue result → items.new.value.items ≡ set items.old.value.items place item }
    ensures others { ¬ IsTrue result → items.new ≡ items.old }
{
    match Rc::get_mut(items) {
        Some(items) => {
            set_in(items, place, item);
            true
        }
        None => false,
    }
}

/// Sets an item, where there is one at this place.
fn set_in<T: Copy>(items: &mut Vec<T>, place: usize, item: T)
    ensures { items.new.items ≡ set items.old.items place item }
{
    if place < items.len() {
        items[place] = item;
    }
}

/// The item at a place, or `nothing` past the end.
pub fn item_or<T: Copy>(items: &[T], place: usize, nothing: T) -> T
    ensures { result ≡ get_or items.now place nothing }
{
    match items.get(place) {
        Some(found) => *found,
        None => nothing,
    }
}
