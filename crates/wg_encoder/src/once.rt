//! Values each of which is there once.
ghost use Rattle.std.specs.Prelude.{◌≡◌, ◌+◌, ◌≤◌, [], length, vec_len, vec_capacity, IfOk, IfSome, OnOk};
ghost use Rattle.std.specs.List.{list_any};
ghost use Rattle.indexmap.specs.IndexSet.{insert_all, spare};
ghost use Rattle.wg_encoder.specs.Once.{values_of, room_of, AreOnce};

use indexmap::IndexSet;
use std::alloc::Global;
use std::hash::Hash;
use wg_types::NoMemory;

/// So few values are looked through one after another, which costs less than to find them by a hash.
const FEW: usize = 8;

/// Values in the order in which they first came, each once: a few in a list, and more in a set.
#[derive(Drop)]
pub enum Once<T: Eq + Hash> {
    Few(Vec<T>),
    Many(IndexSet<T>),
}

/// Whether a list has a value.
fn has<T: Copy + Eq>(list: &[T], value: T) -> bool
    ensures { result ≡ list_any (T.eq value) list.now }
{
    for other in list {
        if value == *other {
            return true;
        }
    }
    false
}

/// Adds each of some values that is not there to a list, which has room for all.
fn add_few<T: Copy + Eq>(list: &mut Vec<T>, more: &[T])
    requires { vec_len list.old + length more.now ≤ vec_capacity list.old }
    ensures { list.new.items ≡ insert_all T.eq list.old.items more.now }
{
    for value in more {
        if !has(list.as_slice(), *value) {
            list.push_reserved(*value);
        }
    }
}

/// Adds each of some values that is not there to a set, which has room for all.
fn add_many<T: Copy + Eq + Hash>(set: &mut IndexSet<T>, more: &[T])
    requires { length more.now ≤ spare set.old }
    ensures { set.new.keys ≡ insert_all T.eq set.old.keys more.now }
{
    for value in more {
        let Ok(_) = set.insert(*value) else {
            unreachable!();
        };
    }
}

/// A set of the values of a list, with room for so many more.
fn set_of<T: Copy + Eq + Hash>(
    alloc: Global,
    list: &[T],
    more: usize,
) -> Result<IndexSet<T>, NoMemory>
    ensures keys { IfOk result (λ set. set.keys ≡ insert_all T.eq [] list.now) }
    ensures room { IfOk result (λ set. more ≤ spare set) }
{
    let mut set = IndexSet::with_capacity(alloc, list.len())?;
    add_many(&mut set, list);
    set.reserve(more)?;
    Ok(set)
}

/// Whether so many values and more are few.
fn are_few(len: usize, more: usize) -> bool {
    len <= FEW && more <= FEW - len
}

impl<T: Copy + Eq + Hash> Once<T> {
    /// No values. It takes no memory.
    pub fn new(alloc: Global) -> Once<T>
        ensures { values_of result ≡ [] }
    {
        Once::Few(Vec::new(alloc))
    }

    /// A set in place of a list that is none of few values with so many more.
    fn grown(&self, alloc: Global, more: usize) -> Result<Option<IndexSet<T>>, NoMemory>
        ensures keys { IfOk result (λ grown. IfSome grown (λ set. set.keys ≡ insert_all T.eq [] (values_of self.now))) }
        ensures room { IfOk result (λ grown. IfSome grown (λ set. more ≤ spare set)) }
    {
        match self {
            Once::Few(list) => {
                if are_few(list.len(), more) {
                    return Ok(None);
                }
                let set = set_of(alloc, list.as_slice(), more)?;
                return Ok(Some(set));
            }
            Once::Many(_) => return Ok(None),
        }
    }

    /// Takes room for so many more.
    pub fn reserve(&mut self, alloc: Global, more: usize) -> Result<(), NoMemory>
        ensures same { AreOnce T.eq (values_of self.old) → values_of self.new ≡ values_of self.old }
        ensures room { OnOk result (more ≤ room_of self.new) }
    {
        if let Some(set) = self.grown(alloc, more)? {
            *self = Once::Many(set);
            return Ok(());
        }
        match self {
            Once::Few(list) => {
                list.reserve(more)?;
                return Ok(());
            }
            Once::Many(set) => {
                set.reserve(more)?;
                return Ok(());
            }
        }
    }

    /// Adds each of some values that is not there, in room that there is.
    pub fn add(&mut self, more: &[T])
        requires { length more.now ≤ room_of self.old }
        ensures { values_of self.new ≡ insert_all T.eq (values_of self.old) more.now }
    {
        match self {
            Once::Few(list) => add_few(list, more),
            Once::Many(set) => add_many(set, more),
        }
    }

    /// The values, in the order in which they first came.
    pub fn as_slice(&self) -> &[T]
        ensures { result.now ≡ values_of self.now }
    {
        match self {
            Once::Few(list) => list.as_slice(),
            Once::Many(set) => set.as_slice(),
        }
    }
}
