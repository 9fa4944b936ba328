//! Names, with their syntax, and the macro `name!`.

pub use graphql_base::name::{InvalidNameError, Name, NameError, NamedType};

/// A name over a static text: an identifier, or a text literal. It allocates no memory.
///
/// That the text is in name syntax is proved at the call, so `name!("1nvalid")` is refused by the check.
/// It stands in the body of a function.
///
/// ```
/// name!(Query)
/// name!("__typename")
/// ```
#[macro_export]
macro_rules! name {
    ($word:ident) => {
        $crate::name::Name::new_static_unchecked(stringify!($word))
    };
    ($text:literal) => {
        $crate::name::Name::new_static_unchecked($text)
    };
}
