//! The names in scope.

ghost use Rattle.std.specs.Prelude.{◌≡◌, ℕ, ◌<◌, ◌-◌, List, [], ◌∷◌, ◌++◌, length, take, get_or, set, Option, None, IsSome, IfSome, IfNone, OnOk, OnErr, option_copied, is_some};
ghost use Rattle.arr_scope.specs.declared.bound.Bound.TheVariants.{Turn};
ghost use Rattle.arr_scope.specs.Scope.{binding_of, place_of, with_binding, array_of};

use crate::bound::Bound;
use arr_ast::ShapeOf;
use std::alloc::{AllocError, Global};
use std::marker::Model;

/// The names in scope by their numbers, with what they stand for, seen as a list, the oldest first.
///
/// The oldest place of each name is kept beside the list, so a look-up takes constant time, and forgetting costs only the names
/// forgotten. A short list, as that of a definition's parameters, is gone through instead, so that making one costs no more than
/// its names.
#[derive(Drop)]
pub struct Scope<A> {
    names: Vec<(usize, Bound<A>)>,
    places: Vec<Option<usize>>,
    is_short: bool,
}

impl<A> Model for Scope<A> {
    ghost use Rattle.std.specs.Prelude.{◌≡◌, false};
    ghost use Rattle.arr_scope.specs.Scope.{Names};
    ghost use Rattle.arr_scope.specs.Places.{Answers};

    ghost Value = { Names A };

    ghost view = { λ s. s.names.items };

    ghost invariant = { λ s. s.is_short ≡ false → Answers s.places.items s.names.items };
}

impl<A: Drop> Scope<A> {
    /// No names.
    pub fn new(alloc: Global) -> Scope<A>
        ensures { result ≡ [] }
    {
        Scope {
            names: Vec::new(alloc),
            places: Vec::new(alloc),
            is_short: false,
        }
    }

    /// No names, where only a few will come.
    pub fn short(alloc: Global) -> Scope<A>
        ensures { result ≡ [] }
    {
        Scope {
            names: Vec::new(alloc),
            places: Vec::new(alloc),
            is_short: true,
        }
    }

    /// How many names are in scope.
    pub fn len(&self) -> usize
        ensures { result ≡ length self.now }
    {
        self.names.len()
    }

    /// What a name stands for, if it is in scope.
    pub fn get(&self, name: usize) -> Option<&Bound<A>>
        ensures { option_copied result ≡ binding_of name self.now }
    {
        match self.place(name) {
            Some(place) => Some(&self.names[place].1),
            None => None,
        }
    }

    /// Sets what a name stands for, if it is in scope, and gives what it stood for.
    pub fn replace(&mut self, name: usize, new: Bound<A>) -> Option<Bound<A>>
        ensures old { result ≡ binding_of name self.old }
        ensures new { self.new ≡ with_binding name new self.old }
    {
        match self.place(name) {
            Some(place) => Some(std::mem::replace(&mut self.names[place], (name, new)).1),
            None => None,
        }
    }

    /// Takes away the array of a name, if it has one. A turn is put in its place.
    pub fn take(&mut self, name: usize) -> Option<(ShapeOf, A)>
        ensures array { result ≡ array_of (binding_of name self.old) }
        ensures hole { IfSome result (λ _. self.new ≡ with_binding name (Turn 0) self.old) }
        ensures none { IfNone result (self.new ≡ self.old) }
    {
        if !self.has_array(name) {
            return None;
        }
        match self.replace(name, Bound::Turn(0)) {
            Some(Bound::Value(shape, array)) => Some((shape, array)),
            _ => None,
        }
    }

    /// Whether a name stands for an array.
    fn has_array(&self, name: usize) -> bool
        ensures { result ≡ is_some (array_of (binding_of name self.now)) }
    {
        matches!(self.get(name), Some(Bound::Value(_, _)))
    }

    /// Where a name is, if it is in scope.
    pub fn place(&self, name: usize) -> Option<usize>
        ensures { result ≡ place_of name self.now }
    {
        if self.is_short {
            place_among(&self.names, name)
        } else {
            place_at(&self.places, name)
        }
    }

    /// Adds a name after the others. Where the name was in scope already, the older one is still found first.
    pub fn declare(&mut self, name: usize, binding: Bound<A>) -> Result<(), AllocError>
        ensures declared { OnOk result (self.new ≡ self.old ++ (name, binding) ∷ []) }
        ensures err { OnErr result (self.new ≡ self.old) }
    {
        if self.is_short {
            self.declare_short(name, binding)
        } else if self.place(name).is_some() {
            self.declare_again(name, binding)
        } else {
            self.declare_new(name, binding)
        }
    }

    /// Adds a name to a short list.
    fn declare_short(&mut self, name: usize, binding: Bound<A>) -> Result<(), AllocError>
        ensures declared { OnOk result (self.new ≡ self.old ++ (name, binding) ∷ []) }
        ensures err { OnErr result (self.new ≡ self.old) }
    {
        self.is_short = true;
        self.names.push((name, binding))?;
        Ok(())
    }

    /// Adds a name that is in scope.
    fn declare_again(&mut self, name: usize, binding: Bound<A>) -> Result<(), AllocError>
        requires { IsSome (place_of name self.old) }
        ensures declared { OnOk result (self.new ≡ self.old ++ (name, binding) ∷ []) }
        ensures err { OnErr result (self.new ≡ self.old) }
    {
        self.names.push((name, binding))?;
        Ok(())
    }

    /// Adds a name that isn't in scope.
    fn declare_new(&mut self, name: usize, binding: Bound<A>) -> Result<(), AllocError>
        requires { place_of name self.old ≡ None }
        ensures declared { OnOk result (self.new ≡ self.old ++ (name, binding) ∷ []) }
        ensures err { OnErr result (self.new ≡ self.old) }
    {
        let place = self.names.len();
        extend_places(&mut self.places, name)?;
        self.names.push((name, binding))?;
        set_place(&mut self.places, name, Some(place));
        Ok(())
    }

    /// Forgets all names but the oldest.
    pub fn forget(&mut self, kept: usize)
        ensures { self.new ≡ take kept self.old }
    {
        while self.names.len() > kept {
            self.forget_last();
        }
    }

    /// Forgets the newest name.
    fn forget_last(&mut self)
        requires { 0 < length self.old }
        ensures { self.new ≡ take (length self.old - 1) self.old }
    {
        if let Some((name, _)) = self.names.pop() {
            let place = self.names.len();
            if place_at(&self.places, name) == Some(place) {
                set_place(&mut self.places, name, None);
            }
        }
    }
}

/// The first place of a name in a list.
fn place_among<A: Drop>(names: &[(usize, Bound<A>)], name: usize) -> Option<usize>
    ensures { result ≡ place_of name names.now }
{
    for (place, entry) in names.iter().enumerate() {
        if entry.0 == name {
            return Some(place);
        }
    }
    None
}

/// The place of a name, which is none after the last.
fn place_at(places: &[Option<usize>], name: usize) -> Option<usize>
    ensures { result ≡ get_or places.now name None }
{
    match places.get(name) {
        Some(place) => *place,
        None => None,
    }
}

/// Sets the place of a name, where the list goes so far.
fn set_place(places: &mut Vec<Option<usize>>, name: usize, place: Option<usize>)
    ensures { places.new.items ≡ set places.old.items name place }
{
    if name < places.len() {
        places[name] = place;
    }
}

/// Extends the list as far as the place of a name.
fn extend_places(places: &mut Vec<Option<usize>>, name: usize) -> Result<(), AllocError>
    ensures same { (other : ℕ) → get_or places.new.items other None
        ≡ get_or places.old.items other None }
    ensures capacity { OnOk result (name < length places.new.items) }
{
    'each: while places.len() <= name {
        places.push(None)?;
    }
    Ok(())
}
