//! The macro `value!`, and what it calls.
ghost use Rattle.std.specs.Prelude.{◌≡◌, ◌∷◌, ◌++◌, ℕ, [], IfOk, IsOkAnd, IsSomeAnd, IsTrue, List, None, Ok, Some, map, ⊤};
ghost use Rattle.graphql_base.specs.Node.{node_at};
ghost use Rattle.graphql_text.specs.lexical.Literals.{is_float};
ghost use Rattle.graphql_values.specs.code.ValueQueries.{float_of, int_of, list_items_of, object_fields_of, string_of, unlocated_field};
ghost use Rattle.graphql_values.specs.trees.Literals.{float_text, int_number};

use crate::literal::FloatValue;
use crate::value::Value;
use graphql_base::name::Name;
use std::alloc::{AllocError, Global};

/// A literal of Rust that may be written in `value!`.
///
/// It is an integer within `i64`, a number with a fraction or an exponent, or a text.
///
/// ```
/// value!(in alloc; 1.50)?              // 1.50
/// Literal::value(1.50, alloc, "1.50")? // the same
/// ```
pub trait Literal {
    ghost use Rattle.graphql_values.specs.declared.value.Value.{Value};

    /// What the literal's own text, as it is written, has to be.
    ghost can_be_written: { List ℕ → Type 0 };

    /// What the value holds, by the literal and its text.
    ghost value_gives: { Self → List ℕ → Value → Type 0 };

    /// The value of the literal, which is written so. `AllocError` where memory is refused.
    fn value(self, alloc: Global, written: &str) -> Result<Value, AllocError>
        requires { can_be_written written.now }
        ensures { IfOk result (value_gives self written.now) };
}

impl Literal for i64 {
    ghost can_be_written = { λ _. ⊤ };

    ghost value_gives = { λ number _ value.
        IsSomeAnd (int_of value) (λ int. int_number int ≡ number) };

    fn value(self, alloc: Global, _written: &str) -> Result<Value, AllocError> {
        Value::from_i64(alloc, self)
    }
}

impl Literal for f64 {
    ghost can_be_written = { λ written. IsTrue (is_float written) };

    ghost value_gives = { λ _ written value.
        IsSomeAnd (float_of value) (λ float. float_text float ≡ written) };

    fn value(self, alloc: Global, written: &str) -> Result<Value, AllocError> {
        Ok(Value::Float(FloatValue::new_parsed(alloc, written)?))
    }
}

impl Literal for &str {
    ghost can_be_written = { λ _. ⊤ };

    ghost value_gives = { λ text _ value. string_of value ≡ Some text.now };

    fn value(self, alloc: Global, _written: &str) -> Result<Value, AllocError> {
        Value::from_text(alloc, self)
    }
}

/// The value itself, which took no memory.
pub fn plain(value: Value) -> Result<Value, AllocError>
    ensures { result ≡ Ok value }
{
    Ok(value)
}

/// No items, or no fields. It takes no memory.
pub fn no_items<T>(alloc: Global) -> Result<Vec<T>, AllocError>
    ensures { IsOkAnd result (λ items. items.items ≡ []) }
{
    Ok(Vec::new(alloc))
}

/// The items, and one more behind them. `AllocError` where memory is refused, or was for the items or for the one.
pub fn with_item<T: Drop>(
    items: Result<Vec<T>, AllocError>,
    item: Result<T, AllocError>,
) -> Result<Vec<T>, AllocError>
    ensures { IfOk result (λ all. IsOkAnd items
        (λ first. IsOkAnd item (λ last. all.items ≡ first.items ++ last ∷ []))) }
{
    let mut all = items?;
    all.push(item?)?;
    Ok(all)
}

/// The field of an object. `AllocError` where memory was refused for its value.
pub fn field(name: Name, value: Result<Value, AllocError>) -> Result<(Name, Value), AllocError>
    ensures name { IfOk result (λ field. field.0 ≡ name) }
    ensures value { IfOk result (λ field. value ≡ Ok field.1) }
{
    Ok((name, value?))
}

/// The list of the items. `AllocError` where memory is refused, or was for the items.
pub fn list(alloc: Global, items: Result<Vec<Value>, AllocError>) -> Result<Value, AllocError>
    ensures { IfOk result (λ value. IsOkAnd items
        (λ items. list_items_of value ≡ Some (map (node_at None) items.items))) }
{
    Value::list(alloc, items?)
}

/// The object of the fields. `AllocError` where memory is refused, or was for the fields.
pub fn object(
    alloc: Global,
    fields: Result<Vec<(Name, Value)>, AllocError>,
) -> Result<Value, AllocError>
    ensures { IfOk result (λ value. IsOkAnd fields
        (λ fields. object_fields_of value ≡ Some (map unlocated_field fields.items))) }
{
    Value::object(alloc, fields?)
}

/// A value as GraphQL writes it: a `Result<Value, AllocError>`, with `AllocError` where memory is refused.
///
/// Integers within `i64`, numbers with a fraction or an exponent, and texts are literals of Rust; of a number with a
/// fraction or an exponent the digits stay as they are written. Enum values, variables and the names of fields are
/// identifiers. That a number is a `FloatValue`, and a name in name syntax, is proved at the call. No node has a
/// location. It stands in the body of a function.
///
/// Where a list or an object has a variable or a negative number, it may have about a hundred items.
///
/// ```
/// value!(in alloc; {min: 0, max: $max, tags: ["new", NEW], other: null})?
/// value!(in alloc; [-1, 1.50, true])?
/// ```
#[macro_export]
macro_rules! value {
    (in $alloc:expr; null) => {
        $crate::value_macro::plain($crate::value::Value::Null)
    };
    (in $alloc:expr; true) => {
        $crate::value_macro::plain($crate::value::Value::Boolean(true))
    };
    (in $alloc:expr; false) => {
        $crate::value_macro::plain($crate::value::Value::Boolean(false))
    };
    (in $alloc:expr; $name:ident) => {
        $crate::value_macro::plain($crate::value::Value::Enum(
            $crate::types::NamedType::new_static_unchecked(stringify!($name))
        ))
    };
    (in $alloc:expr; $literal:literal) => {
        $crate::value_macro::Literal::value($literal, $alloc, stringify!($literal))
    };
    (in $alloc:expr; ($literal:literal)) => {
        $crate::value_macro::Literal::value($literal, $alloc, stringify!($literal))
    };
    (in $alloc:expr; ($dollar:tt $name:ident)) => {
        $crate::value!(in $alloc; $dollar $name)
    };
    (in $alloc:expr; [ $($item:tt),* $(,)? ]) => {{
        let alloc = $alloc;
        let items = $crate::value_macro::no_items(alloc);
        $(let items = $crate::value_macro::with_item(items, $crate::value!(in alloc; $item));)*
        $crate::value_macro::list(alloc, items)
    }};
    (in $alloc:expr; { $($name:ident : $value:tt),* $(,)? }) => {{
        let alloc = $alloc;
        let fields = $crate::value_macro::no_items(alloc);
        $(let fields = $crate::value_macro::with_item(fields, $crate::value_macro::field(
            $crate::types::NamedType::new_static_unchecked(stringify!($name)),
            $crate::value!(in alloc; $value),
        ));)*
        $crate::value_macro::object(alloc, fields)
    }};
    // an item of two tokens, a variable or a negative number, becomes one by parentheses
    (in $alloc:expr; [ $($rest:tt)+ ]) => {
        $crate::value!(@list $alloc; [] $($rest)+)
    };
    (in $alloc:expr; { $($rest:tt)+ }) => {
        $crate::value!(@object $alloc; [] $($rest)+)
    };
    (in $alloc:expr; $dollar:tt $name:ident) => {
        $crate::value_macro::plain($crate::value::Value::Variable(
            $crate::types::NamedType::new_static_unchecked(stringify!($name))
        ))
    };
    (@list $alloc:expr; [$($items:tt)*]) => {
        $crate::value!(in $alloc; [ $($items)* ])
    };
    (@list $alloc:expr; [$($items:tt)*] $item:tt $(, $($rest:tt)*)?) => {
        $crate::value!(@list $alloc; [$($items)* $item,] $($($rest)*)?)
    };
    (@list $alloc:expr; [$($items:tt)*] $literal:literal $(, $($rest:tt)*)?) => {
        $crate::value!(@list $alloc; [$($items)* ($literal),] $($($rest)*)?)
    };
    (@list $alloc:expr; [$($items:tt)*] $dollar:tt $name:ident $(, $($rest:tt)*)?) => {
        $crate::value!(@list $alloc; [$($items)* ($dollar $name),] $($($rest)*)?)
    };
    (@object $alloc:expr; [$($fields:tt)*]) => {
        $crate::value!(in $alloc; { $($fields)* })
    };
    (@object $alloc:expr; [$($fields:tt)*] $key:ident : $value:tt $(, $($rest:tt)*)?) => {
        $crate::value!(@object $alloc; [$($fields)* $key: $value,] $($($rest)*)?)
    };
    (@object $alloc:expr; [$($fields:tt)*] $key:ident : $literal:literal $(, $($rest:tt)*)?) => {
        $crate::value!(@object $alloc; [$($fields)* $key: ($literal),] $($($rest)*)?)
    };
    (@object $alloc:expr; [$($fields:tt)*] $key:ident : $dollar:tt $name:ident $(, $($rest:tt)*)?) => {
        $crate::value!(@object $alloc; [$($fields)* $key: ($dollar $name),] $($($rest)*)?)
    };
}
