//! Lists that many may hold.

ghost use Rattle.std.specs.Prelude.{◌≡◌, ◌<◌, ◌^◌, [], ◌∷◌, length, get_or, set, IfOk, IfSome, IfNone, OnOk, OnErr, ◌≢◌};
ghost use Rattle.shared_list.specs.Turned.{turned};

use crate::held::{Held, Transpose};
use crate::items::Items;
use crate::turning::{set_turned, turned_item_or, turned_items};
use std::alloc::{AllocError, Global};
use std::marker::Model;
use std::rc::Rc;

/// A list, which others may hold too.
#[derive(Drop)]
pub struct SharedList<T> {
    held: Held<T>,
}

impl<T> Model for SharedList<T> {
    ghost use Rattle.std.specs.Prelude.{List};
    ghost use Rattle.std.specs.Coded.{coded_list};

    ghost Value = { List T };

    ghost coded = { coded_list T.code };

    ghost use Rattle.shared_list.specs.Held.{items_of, IsWhole};

    ghost view = { λ l. items_of l.held };

    ghost invariant = { λ l. IsWhole l.held };
}

impl<T: Copy> SharedList<T> {
    /// One item by itself, for which no memory is taken.
    pub fn one(item: T) -> SharedList<T>
        ensures { result ≡ item ∷ [] }
    {
        SharedList {
            held: Held::One(item),
        }
    }

    /// The items of a vector.
    pub fn new(alloc: Global, items: Vec<T>) -> Result<SharedList<T>, AllocError>
        ensures { IfOk result (λ list. list ≡ items.items) }
    {
        let items = Items::new(alloc, items)?;
        Ok(SharedList {
            held: Held::Rows(items),
        })
    }

    /// The same list once more, without a copy of its items.
    pub fn share(&self) -> Result<SharedList<T>, AllocError>
        ensures { IfOk result (λ list. list ≡ self.now) }
    {
        match &self.held {
            Held::One(item) => Ok(SharedList::one(*item)),
            Held::Rows(items) => {
                let items = items.share()?;
                Ok(SharedList {
                    held: Held::Rows(items),
                })
            }
            Held::Turned(turn) => {
                let items = turn.items.share()?;
                let turn = Box::new(
                    turn.alloc,
                    Transpose {
                        alloc: turn.alloc,
                        nothing: turn.nothing,
                        items,
                        rows: turn.rows,
                        columns: turn.columns,
                    },
                )?;
                Ok(SharedList {
                    held: Held::Turned(turn),
                })
            }
        }
    }

    /// How many items there are.
    pub fn len(&self) -> usize
        ensures { result ≡ length self.now }
    {
        match &self.held {
            Held::One(_) => 1,
            Held::Rows(items) => items.len(),
            Held::Turned(turn) => turn.items.len(),
        }
    }

    /// The item of a list of one item.
    pub fn only(&self) -> Option<T>
        ensures item { IfSome result (λ item. self.now ≡ item ∷ []) }
        ensures none { IfNone result (length self.now ≢ 1) }
    {
        if self.len() != 1 {
            return None;
        }
        match &self.held {
            Held::One(item) => Some(*item),
            Held::Rows(items) => items.only(),
            Held::Turned(turn) => Some(self.item_or(0, turn.nothing)),
        }
    }

    /// The item at a place, or `nothing` past the end.
    pub fn item_or(&self, place: usize, nothing: T) -> T
        ensures { result ≡ get_or self.now place nothing }
    {
        match &self.held {
            Held::One(item) => { if place == 0 { *item } else { nothing } }
            Held::Rows(items) => items.item_or(place, nothing),
            Held::Turned(turn) => turned_item_or(
                &turn.items,
                turn.rows as usize,
                turn.columns as usize,
                turn.nothing,
                place,
                nothing,
            ),
        }
    }

    /// The items in order, copied only where they are in another order or have changes.
    pub fn in_order(&self, alloc: Global) -> Result<Rc<Vec<T>>, AllocError>
        ensures { IfOk result (λ items. items.value.items ≡ self.now) }
    {
        match &self.held {
            Held::One(item) => {
                let items = alone(alloc, *item)?;
                Ok(Rc::new(alloc, items)?)
            }
            Held::Rows(items) => items.in_order(alloc),
            Held::Turned(turn) => {
                let items = turned_in_order(alloc, turn)?;
                Ok(Rc::new(alloc, items)?)
            }
        }
    }

    /// The items as a vector, copied only where others hold them too, they are in another order or
    /// they have changes.
    pub fn into_vec(self, alloc: Global) -> Result<Vec<T>, AllocError>
        ensures { IfOk result (λ items. items.items ≡ self) }
    {
        let SharedList { held } = self;
        match held {
            Held::One(item) => alone(alloc, item),
            Held::Rows(items) => items.into_vec(alloc),
            Held::Turned(turn) => turned_in_order(alloc, &turn),
        }
    }

    /// n rows of m items, as m rows of n, without a copy where there are n * m.
    pub fn transposed(
        &self,
        alloc: Global,
        n: usize,
        m: usize,
        nothing: T,
    ) -> Result<SharedList<T>, AllocError>
        requires n { n < 2 ^ 32 }
        requires m { m < 2 ^ 32 }
        ensures { IfOk result (λ list. list ≡ turned nothing n m self.now) }
    {
        match &self.held {
            Held::Rows(items) if items.len() == n * m => {
                let items = items.share()?;
                let turn = Box::new(
                    alloc,
                    Transpose {
                        alloc,
                        nothing,
                        items,
                        rows: n as u32,
                        columns: m as u32,
                    },
                )?;
                Ok(SharedList {
                    held: Held::Turned(turn),
                })
            }
            Held::Turned(turn) if turn.rows as usize == m && turn.columns as usize == n => {
                let items = turn.items.share()?;
                Ok(SharedList {
                    held: Held::Rows(items),
                })
            }
            _ => self.rearranged(alloc, n, m, nothing),
        }
    }

    /// n rows of m items, as m rows of n, by a copy.
    fn rearranged(
        &self,
        alloc: Global,
        n: usize,
        m: usize,
        nothing: T,
    ) -> Result<SharedList<T>, AllocError>
        requires n { n < 2 ^ 32 }
        requires m { m < 2 ^ 32 }
        ensures { IfOk result (λ list. list ≡ turned nothing n m self.now) }
    {
        let items = self.in_order(alloc)?;
        let turned = turned_items(alloc, n, m, nothing, &items)?;
        SharedList::new(alloc, turned)
    }

    /// Sets an item, where there is one at this place. What others hold stays as it is, and costs a
    /// copy only where it is short or as many items were set as pay for that.
    #[tactic(auto, using(crate::proofs::api::Transposes::of_sets))]
    pub fn set(&mut self, alloc: Global, place: usize, item: T) -> Result<(), AllocError>
        ensures set { OnOk result (self.new ≡ set self.old place item) }
        ensures refused { OnErr result (self.new ≡ self.old) }
    {
        match &mut self.held {
            Held::One(only) => {
                if place == 0 {
                    *only = item;
                }
                Ok(())
            }
            Held::Rows(items) => items.set(alloc, place, item),
            Held::Turned(turn) => {
                let rows = turn.rows as usize;
                let columns = turn.columns as usize;
                set_turned(alloc, &mut turn.items, rows, columns, place, item)
            }
        }
    }
}

/// A vector of one item.
fn alone<T: Copy>(alloc: Global, item: T) -> Result<Vec<T>, AllocError>
    ensures { IfOk result (λ items. items.items ≡ item ∷ []) }
{
    let mut items = Vec::new(alloc);
    items.push(item)?;
    Ok(items)
}

/// The items of a transpose.
fn turned_in_order<T: Copy>(alloc: Global, turn: &Transpose<T>) -> Result<Vec<T>, AllocError>
    ensures { IfOk result (λ items. items.items
        ≡ turned turn.now.nothing turn.now.rows turn.now.columns turn.now.items) }
{
    let items = turn.items.in_order(alloc)?;
    turned_items(
        alloc,
        turn.rows as usize,
        turn.columns as usize,
        turn.nothing,
        &items,
    )
}
