//! A value that may have several owners, seen as that value.
ghost use Rattle.std.specs.Prelude.{◌≡◌, ◌⊎◌, IfOk, IfSome};

use std::alloc::{AllocError, Global};
use std::fmt::{self, Debug, Formatter, Write};
use std::hash::{Hash, Hasher};
use std::marker::Model;
use std::rc::Rc;

/// A value that may have several owners. Contracts see the value alone.
#[derive(Drop)]
pub struct Shared<T> {
    inner: Rc<T>,
}

impl<T> Model for Shared<T> {
    ghost Value = { T };

    ghost coded = { T.code };

    ghost view = { λ shared. shared.inner.value };
}

impl<T: Drop> Shared<T> {
    pub fn new(alloc: Global, value: T) -> Result<Shared<T>, AllocError>
        ensures { IfOk result (λ shared. shared ≡ value) }
    {
        Ok(Shared {
            inner: Rc::new(alloc, value)?,
        })
    }
}

impl<T> Shared<T> {
    ghost use Rattle.std.specs.Borrow.{sem, LendsIf, LendsSoOk};
    ghost use Rattle.graphql_base.specs.contracts.shared.Shared.{the_row};

    pub fn get(&self) -> &T
        ensures { result.now ≡ self.now }
    {
        &self.inner
    }

    /// The value, to write to; `None` where it has another owner.
    pub fn get_mut(&mut self) -> Option<&mut T>
        ensures* writes_back { sem 𝓛
            (LendsIf (the_row T.row) T.row self.entry result (λ value. value) self.old) }
        ensures value { IfSome result (λ value. value.now ≡ self.old) }
    {
        Rc::get_mut(&mut self.inner)
    }

    /// The value, to write to. Where it has another owner, this one gets a clone of its own first.
    pub fn make_mut(&mut self) -> Result<&mut T, AllocError>
    where
        T: Clone,
        ensures* writes_back { sem 𝓛 (LendsSoOk (the_row T.row) T.row self.entry result
            (λ shared value. shared ≡ value)
            (λ shared. (shared ≡ self.old) ⊎ T.is_clone self.old shared)) }
        ensures value { IfOk result
            (λ value. (value.now ≡ self.old) ⊎ T.is_clone self.old value.now) }
    {
        Rc::make_mut(&mut self.inner)
    }
}

impl<T: Drop> Clone for Shared<T> {
    ghost is_clone = { λ shared copy. copy ≡ shared };

    fn clone(&self) -> Result<Shared<T>, AllocError> {
        Ok(Shared {
            inner: self.inner.clone()?,
        })
    }
}

impl<T: PartialEq> PartialEq for Shared<T> {
    ghost eq = { T.eq };

    ghost laws = { T.laws };

    fn eq(&self, other: &Shared<T>) -> bool {
        *self.get() == *other.get()
    }
}

impl<T: Eq> Eq for Shared<T> {
    ghost laws = { T.Eq.laws };
}

impl<T: Hash> Hash for Shared<T> {
    ghost hash_input = { T.hash_input };

    ghost respects_eq = { T.respects_eq };

    fn hash<H: Hasher>(&self, state: &mut H) {
        self.get().hash(state)
    }
}

impl<T: Debug> Debug for Shared<T> {
    fn fmt<W: Write>(&self, f: &mut Formatter<W>) -> fmt::Result {
        self.get().fmt(f)
    }
}
