//! A text that may have several owners, seen as its bytes.
ghost use Rattle.std.specs.Prelude.{◌≡◌, IfOk, nat_eq};
ghost use Rattle.std.specs.Cmp.{partial_equiv_from_equiv};
ghost use Rattle.std.specs.Cmp.Lexicographic.{pointwise, nat_list_eq_equiv};
ghost use Rattle.std.specs.Cmp.Rules.{hashing};
ghost use Rattle.std.specs.Hash as fed;
ghost use Rattle.std.proofs.Common.{rules};

use std::alloc::{AllocError, Global};
use std::fmt::{self, Debug, Formatter, Write};
use std::hash::{Hash, Hasher};
use std::marker::Model;
use std::rc::RcStr;

/// A text that may have several owners. Contracts see its bytes alone.
#[derive(Drop)]
pub struct SharedText {
    inner: RcStr,
}

impl Model for SharedText {
    ghost use Rattle.std.specs.Prelude.{List, ℕ};
    ghost use Rattle.std.specs.Rc.{rc_str_bytes};

    ghost Value = { List ℕ };

    ghost view = { λ text. rc_str_bytes text.inner };
}

impl SharedText {
    pub fn new(alloc: Global, text: &str) -> Result<SharedText, AllocError>
        ensures { IfOk result (λ shared. shared ≡ text.now) }
    {
        Ok(SharedText {
            inner: RcStr::from_str(alloc, text)?,
        })
    }

    pub fn as_str(&self) -> &str
        ensures { result.now ≡ self.now }
    {
        self.inner.as_str()
    }
}

impl Clone for SharedText {
    ghost is_clone = { λ text copy. copy ≡ text };

    fn clone(&self) -> Result<SharedText, AllocError> {
        Ok(SharedText {
            inner: self.inner.clone()?,
        })
    }
}

impl PartialEq for SharedText {
    ghost eq = { pointwise nat_eq };

    ghost laws = { partial_equiv_from_equiv nat_list_eq_equiv };

    fn eq(&self, other: &SharedText) -> bool {
        self.as_str() == other.as_str()
    }
}

impl Eq for SharedText {
    ghost laws = { nat_list_eq_equiv };
}

impl Hash for SharedText {
    ghost hash_input = { fed.str };

    ghost respects_eq = { Prim.search (hashing, rules) };

    fn hash<H: Hasher>(&self, state: &mut H) {
        self.as_str().hash(state);
    }
}

impl Debug for SharedText {
    fn fmt<W: Write>(&self, f: &mut Formatter<W>) -> fmt::Result {
        self.as_str().fmt(f)
    }
}
