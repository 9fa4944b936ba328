//! Type references, and the macro `ty!`.
ghost use Rattle.std.specs.Prelude.{◌≡◌, ◌↔◌, IfOk, IsTrue, true, false};

pub(crate) mod print;

pub use graphql_base::name::NamedType;
use std::alloc::{AllocError, Global};

/// A type reference (`Type`, section 2.11): the type of a field, an argument or a variable.
///
/// Equality and hash ignore source locations.
///
/// ```
/// let tags = ty!(in alloc; [String!])?;
/// println!(rt; "{tags}")?;              // [String!]
/// tags.inner_named_type()               // the name String
/// ty!(Int!).is_assignable_to(&ty!(Int)) // true
/// ```
#[derive(PartialEq, Eq, Hash, Debug, Drop)]
pub enum Type {
    /// `Name`: its values, and null.
    Named(NamedType),
    /// `Name!`: its values, without null.
    NonNullNamed(NamedType),
    /// `[..]`: lists of items of the type within, and null.
    List(Box<Type>),
    /// `[..]!`: lists of items of the type within, without null.
    NonNullList(Box<Type>),
}

impl Type {
    ghost use Rattle.graphql_values.specs.trees.TypeTrees.{type_tree, type_wrapping};
    ghost use Rattle.graphql_values.specs.kinds.Wrappings.{IsAssignable, is_list, is_named_type, is_non_null, item_wrapping, listed, with_nullability};

    /// This type, but non-null: with `!` after it.
    pub fn non_null(self) -> Type
        ensures { type_wrapping result ≡ with_nullability true (type_wrapping self) }
    {
        match self {
            Type::Named(name) | Type::NonNullNamed(name) => Type::NonNullNamed(name),
            Type::List(item) | Type::NonNullList(item) => Type::NonNullList(item),
        }
    }

    /// This type, but nullable: without `!` after it.
    pub fn nullable(self) -> Type
        ensures { type_wrapping result ≡ with_nullability false (type_wrapping self) }
    {
        match self {
            Type::Named(name) | Type::NonNullNamed(name) => Type::Named(name),
            Type::List(item) | Type::NonNullList(item) => Type::List(item),
        }
    }

    /// The nullable list of items of this type. `AllocError` where memory is refused; the type is dropped then.
    pub fn list(self, alloc: Global) -> Result<Type, AllocError>
        ensures { IfOk result (λ list. type_wrapping list ≡ listed false (type_wrapping self)) }
    {
        Ok(Type::List(Box::new(alloc, self)?))
    }

    /// The type of the items of a list, and a named type itself.
    pub fn item_type(&self) -> &Type
        ensures { type_wrapping result.now ≡ item_wrapping (type_wrapping self.now) }
    {
        match self {
            Type::List(item) | Type::NonNullList(item) => item,
            Type::Named(_) | Type::NonNullNamed(_) => self,
        }
    }

    /// The name inside all lists.
    pub fn inner_named_type(&self) -> &NamedType
        ensures { result.now ≡ (type_wrapping self.now).base }
    {
        let mut ty = self;
        loop {
            match ty {
                Type::Named(name) | Type::NonNullNamed(name) => return name,
                Type::List(item) | Type::NonNullList(item) => ty = item,
            }
        }
    }

    /// Whether the type has `!` after it (`NonNullType`).
    pub fn is_non_null(&self) -> bool
        ensures { result ≡ is_non_null (type_tree self.now) }
    {
        match self {
            Type::NonNullNamed(_) | Type::NonNullList(_) => true,
            Type::Named(_) | Type::List(_) => false,
        }
    }

    /// Whether the type is a list (`ListType`), non-null or not.
    pub fn is_list(&self) -> bool
        ensures { result ≡ is_list (type_tree self.now) }
    {
        match self {
            Type::List(_) | Type::NonNullList(_) => true,
            Type::Named(_) | Type::NonNullNamed(_) => false,
        }
    }

    /// Whether the type is a name (`NamedType`), non-null or not.
    pub fn is_named(&self) -> bool
        ensures { result ≡ is_named_type (type_tree self.now) }
    {
        !self.is_list()
    }

    /// Whether a value of this type may stand where one of the target type is wanted (`AreTypesCompatible`, section
    /// 5.8.5): both have the same name in as many lists, and where the target is non-null, so is this type.
    pub fn is_assignable_to(&self, target: &Type) -> bool
        ensures { IsTrue result ↔ IsAssignable (type_tree self.now) (type_tree target.now) }
    {
        if target.is_non_null() && !self.is_non_null() {
            return false;
        }
        match (self, target) {
            (
                Type::Named(given) | Type::NonNullNamed(given),
                Type::Named(wanted) | Type::NonNullNamed(wanted),
            ) => given == wanted,
            (
                Type::List(given) | Type::NonNullList(given),
                Type::List(wanted) | Type::NonNullList(wanted),
            ) => given.is_assignable_to(wanted),
            (Type::Named(_) | Type::NonNullNamed(_), Type::List(_) | Type::NonNullList(_))
            | (Type::List(_) | Type::NonNullList(_), Type::Named(_) | Type::NonNullNamed(_)) =>
                false,
        }
    }
}

impl Clone for Type {
    ghost use Rattle.graphql_values.specs.trees.TypeTrees.{IsTypeCloneOf};

    ghost is_clone = { IsTypeCloneOf };

    fn clone(&self) -> Result<Type, AllocError> {
        match self {
            Type::Named(name) => Ok(Type::Named(name.clone()?)),
            Type::NonNullNamed(name) => Ok(Type::NonNullNamed(name.clone()?)),
            Type::List(item) => Ok(Type::List(Box::new(*Box::allocator(item), (**item).clone()?)?)),
            Type::NonNullList(item) => Ok(Type::NonNullList(Box::new(
                *Box::allocator(item),
                (**item).clone()?,
            )?)),
        }
    }
}

/// A type over a static name. `ty!(N)` and `ty!(N!)` are a `Type`, and take no memory. `ty!(in alloc; [..])` and
/// `ty!(in alloc; [..]!)` are a `Result<Type, AllocError>`, with `AllocError` where memory is refused.
///
/// That the name is in name syntax is proved at the call. It stands in the body of a function.
///
/// ```
/// ty!(Int!)
/// ty!(in alloc; [[String!]]!)?
/// ```
#[macro_export]
macro_rules! ty {
    ($name:ident) => {
        $crate::types::Type::Named($crate::types::NamedType::new_static_unchecked(stringify!($name)))
    };
    ($name:ident !) => {
        $crate::types::Type::NonNullNamed($crate::types::NamedType::new_static_unchecked(stringify!($name)))
    };
    (in $alloc:expr; [ $($item:tt)+ ] !) => {
        match $crate::ty!(in $alloc; [ $($item)+ ]) {
            Ok(list) => Ok(list.non_null()),
            Err(error) => Err(error),
        }
    };
    (in $alloc:expr; [ [ $($item:tt)+ ] $($bang:tt)? ]) => {{
        let alloc = $alloc;
        match $crate::ty!(in alloc; [ $($item)+ ] $($bang)?) {
            Ok(item) => item.list(alloc),
            Err(error) => Err(error),
        }
    }};
    (in $alloc:expr; [ $($name:tt)+ ]) => {
        $crate::ty!($($name)+).list($alloc)
    };
}
