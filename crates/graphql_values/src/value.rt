//! Values of arguments and defaults.
ghost use Rattle.std.specs.Prelude.{◌≡◌, FitsSigned, IfOk, IsNone, IsOk, IsSomeAnd, MatchOption, None, Some, SomeIff, map, option_copied, string_bytes};
ghost use Rattle.std.specs.Fmt.{signed_decimal};
ghost use Rattle.std.specs.Int.{w32, w64};
ghost use Rattle.graphql_base.specs.Node.{node_at};
ghost use Rattle.graphql_values.specs.trees.Literals.{int_number, int_text};

pub(crate) mod print;
pub(crate) mod well_formed;

use crate::literal::{FloatValue, IntValue};
use graphql_base::name::Name;
use graphql_base::node::Node;
use std::alloc::{AllocError, Global};

/// A value (`Value`, section 2.9).
///
/// The items of a list and the fields of an object stand in order; of fields with one name each is kept. Equality and
/// hash ignore source locations.
///
/// ```
/// let filter = value!(in alloc; {min: 0, tags: ["new"]})?;
/// println!(rt; "{}", filter.serialize().no_indent())?; // {min: 0, tags: ["new"]}
/// filter.as_object()                                   // Some: the two fields, min and tags
/// ```
#[derive(PartialEq, Eq, Hash, Debug, Drop)]
pub enum Value {
    /// `null`.
    Null,
    /// A name other than `true`, `false` and `null`. A value with one of these isn't well formed.
    Enum(Name),
    /// The name that stands after `$`.
    Variable(Name),
    /// The characters that a string stands for.
    String(String),
    Float(FloatValue),
    Int(IntValue),
    Boolean(bool),
    /// The items, in order.
    List(Vec<Node<Value>>),
    /// The fields, in order; of fields with one name each is kept.
    Object(Vec<(Name, Node<Value>)>),
}

impl Value {
    ghost use Rattle.graphql_values.specs.code.ValueQueries.{boolean_of, enum_of, int_of, is_null, list_items_of, object_fields_of, string_of, unlocated_field, variable_of};

    /// The number as an integer. It takes no memory, and is never an error.
    ///
    /// ```
    /// Value::from_i32(alloc, -7)? // -7
    /// ```
    pub fn from_i32(alloc: Global, number: i32) -> Result<Value, AllocError>
        ensures text { IfOk result (λ value.
            IsSomeAnd (int_of value) (λ int. int_text int ≡ signed_decimal number)) }
        ensures number { IfOk result
            (λ value. IsSomeAnd (int_of value) (λ int. int_number int ≡ number)) }
        ensures ok { IsOk result }
    {
        Ok(Value::Int(IntValue::from_i32(alloc, number)?))
    }

    /// The number of 64 bits as an integer. It takes no memory, and is never an error.
    ///
    /// ```
    /// Value::from_i64(alloc, 3000000000)? // 3000000000
    /// ```
    pub fn from_i64(alloc: Global, number: i64) -> Result<Value, AllocError>
        ensures text { IfOk result (λ value.
            IsSomeAnd (int_of value) (λ int. int_text int ≡ signed_decimal number)) }
        ensures number { IfOk result
            (λ value. IsSomeAnd (int_of value) (λ int. int_number int ≡ number)) }
        ensures ok { IsOk result }
    {
        Ok(Value::Int(IntValue::from_i64(alloc, number)?))
    }

    /// The list of these items, each in a node without a location. `AllocError` where memory is refused; the items are
    /// dropped then.
    ///
    /// ```
    /// Value::list(alloc, vec![in alloc; Value::from(true), Value::Null]?)? // [true, null]
    /// ```
    pub fn list(alloc: Global, items: Vec<Value>) -> Result<Value, AllocError>
        ensures { IfOk result
            (λ value. list_items_of value ≡ Some (map (node_at None) items.items)) }
    {
        let mut nodes = Vec::new(alloc);
        for item in items {
            nodes.push(Node::new(alloc, item)?)?;
        }
        Ok(Value::List(nodes))
    }

    /// The object of these fields, the value of each in a node without a location. `AllocError` where memory is
    /// refused; the fields are dropped then.
    ///
    /// ```
    /// Value::object(alloc, vec![in alloc; (name!(a), Value::Null)]?)? // {a: null}
    /// ```
    pub fn object(alloc: Global, fields: Vec<(Name, Value)>) -> Result<Value, AllocError>
        ensures { IfOk result
            (λ value. object_fields_of value ≡ Some (map unlocated_field fields.items)) }
    {
        let mut nodes = Vec::new(alloc);
        for field in fields {
            let (name, value) = field;
            nodes.push((name, Node::new(alloc, value)?))?;
        }
        Ok(Value::Object(nodes))
    }

    /// A string of a copy of the text. `AllocError` where memory is refused.
    ///
    /// ```
    /// Value::from_text(alloc, "new")? // "new"
    /// ```
    pub fn from_text(alloc: Global, text: &str) -> Result<Value, AllocError>
        ensures { IfOk result (λ value. string_of value ≡ Some text.now) }
    {
        Ok(Value::String(String::from_str(alloc, text)?))
    }

    /// Whether the value is `null`.
    pub fn is_null(&self) -> bool
        ensures { result ≡ is_null self.now }
    {
        matches!(self, Value::Null)
    }

    /// The name of an enum value.
    pub fn as_enum(&self) -> Option<&Name>
        ensures { option_copied result ≡ enum_of self.now }
    {
        match self {
            Value::Enum(name) => Some(name),
            _ => None,
        }
    }

    /// The name of a variable, without `$`.
    pub fn as_variable(&self) -> Option<&Name>
        ensures { option_copied result ≡ variable_of self.now }
    {
        match self {
            Value::Variable(name) => Some(name),
            _ => None,
        }
    }

    /// The text that a string stands for.
    pub fn as_str(&self) -> Option<&str>
        ensures { option_copied result ≡ string_of self.now }
    {
        match self {
            Value::String(text) => Some(text.as_str()),
            _ => None,
        }
    }

    /// The number of an integer that is within `i32`.
    pub fn to_i32(&self) -> Option<i32>
        ensures { MatchOption (int_of self.now) (IsNone result)
            (λ int. SomeIff result (FitsSigned w32 (int_number int)) (int_number int)) }
    {
        match self {
            Value::Int(int) => int.try_to_i32().ok(),
            _ => None,
        }
    }

    /// The number of an integer that is within `i64`.
    ///
    /// ```
    /// Value::from_i64(alloc, 3000000000)?.to_i64() // Some(3000000000)
    /// Value::Null.to_i64()                         // None
    /// ```
    pub fn to_i64(&self) -> Option<i64>
        ensures { MatchOption (int_of self.now) (IsNone result)
            (λ int. SomeIff result (FitsSigned w64 (int_number int)) (int_number int)) }
    {
        match self {
            Value::Int(int) => int.try_to_i64().ok(),
            _ => None,
        }
    }

    /// The boolean.
    pub fn to_bool(&self) -> Option<bool>
        ensures { result ≡ boolean_of self.now }
    {
        match self {
            Value::Boolean(boolean) => Some(*boolean),
            _ => None,
        }
    }

    /// The items of a list.
    pub fn as_list(&self) -> Option<&[Node<Value>]>
        ensures { option_copied result ≡ list_items_of self.now }
    {
        match self {
            Value::List(items) => Some(items.as_slice()),
            _ => None,
        }
    }

    /// The fields of an object.
    pub fn as_object(&self) -> Option<&[(Name, Node<Value>)]>
        ensures { option_copied result ≡ object_fields_of self.now }
    {
        match self {
            Value::Object(fields) => Some(fields.as_slice()),
            _ => None,
        }
    }
}

impl Clone for Value {
    ghost use Rattle.graphql_values.specs.trees.ValueTrees.{IsCloneOf};

    ghost is_clone = { IsCloneOf };

    fn clone(&self) -> Result<Value, AllocError> {
        match self {
            Value::Null => Ok(Value::Null),
            Value::Enum(name) => Ok(Value::Enum(name.clone()?)),
            Value::Variable(name) => Ok(Value::Variable(name.clone()?)),
            Value::String(text) => Ok(Value::String(text.clone()?)),
            Value::Float(float) => Ok(Value::Float(float.clone()?)),
            Value::Int(int) => Ok(Value::Int(int.clone()?)),
            Value::Boolean(boolean) => Ok(Value::Boolean(*boolean)),
            Value::List(items) => Ok(Value::List(items.clone()?)),
            Value::Object(fields) => Ok(Value::Object(fields.clone()?)),
        }
    }
}

impl From<()> for Value {
    ghost use Rattle.std.specs.Prelude.{IsTrue};
    ghost use Rattle.graphql_values.specs.code.ValueQueries.{is_null};

    ghost from_gives = { λ _ value. IsTrue (is_null value) };

    fn from(_: ()) -> Value {
        Value::Null
    }
}

impl From<bool> for Value {
    ghost use Rattle.std.specs.Prelude.{◌≡◌, Some};
    ghost use Rattle.graphql_values.specs.code.ValueQueries.{boolean_of};

    ghost from_gives = { λ boolean value. boolean_of value ≡ Some boolean };

    fn from(is_true: bool) -> Value {
        Value::Boolean(is_true)
    }
}

impl From<String> for Value {
    ghost use Rattle.std.specs.Prelude.{◌≡◌, Some, string_bytes};
    ghost use Rattle.graphql_values.specs.code.ValueQueries.{string_of};

    ghost from_gives = { λ text value. string_of value ≡ Some (string_bytes text) };

    fn from(text: String) -> Value {
        Value::String(text)
    }
}
