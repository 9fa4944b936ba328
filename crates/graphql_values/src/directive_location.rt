//! Where directives may stand.
ghost use Rattle.std.specs.Prelude.{◌≡◌};
ghost use Rattle.graphql_values.specs.kinds.DirectiveLocations.{location_name, operation_location};
ghost use Rattle.graphql_values.specs.trees.LocationTrees.{location_tree, operation_type_tree};

use crate::operation_type::OperationType;
use std::fmt::{self, Display, Formatter, Write};

/// A part of a document that a directive may be written at (`DirectiveLocation`, section 3.13).
///
/// ```
/// println!(rt; "{}", DirectiveLocation::FragmentSpread)?; // FRAGMENT_SPREAD
/// DirectiveLocation::from(OperationType::Query)           // DirectiveLocation::Query
/// ```
#[derive(Clone, Copy, PartialEq, Eq, Hash, Debug)]
pub enum DirectiveLocation {
    Query,
    Mutation,
    Subscription,
    Field,
    FragmentDefinition,
    FragmentSpread,
    InlineFragment,
    VariableDefinition,
    Schema,
    Scalar,
    Object,
    FieldDefinition,
    ArgumentDefinition,
    Interface,
    Union,
    Enum,
    EnumValue,
    InputObject,
    InputFieldDefinition,
}

impl DirectiveLocation {
    /// The word of the grammar, as `FRAGMENT_SPREAD`.
    pub fn name(self) -> &'static str
        ensures { result.now ≡ location_name (location_tree self) }
    {
        match self {
            DirectiveLocation::Query => "QUERY",
            DirectiveLocation::Mutation => "MUTATION",
            DirectiveLocation::Subscription => "SUBSCRIPTION",
            DirectiveLocation::Field => "FIELD",
            DirectiveLocation::FragmentDefinition => "FRAGMENT_DEFINITION",
            DirectiveLocation::FragmentSpread => "FRAGMENT_SPREAD",
            DirectiveLocation::InlineFragment => "INLINE_FRAGMENT",
            DirectiveLocation::VariableDefinition => "VARIABLE_DEFINITION",
            DirectiveLocation::Schema => "SCHEMA",
            DirectiveLocation::Scalar => "SCALAR",
            DirectiveLocation::Object => "OBJECT",
            DirectiveLocation::FieldDefinition => "FIELD_DEFINITION",
            DirectiveLocation::ArgumentDefinition => "ARGUMENT_DEFINITION",
            DirectiveLocation::Interface => "INTERFACE",
            DirectiveLocation::Union => "UNION",
            DirectiveLocation::Enum => "ENUM",
            DirectiveLocation::EnumValue => "ENUM_VALUE",
            DirectiveLocation::InputObject => "INPUT_OBJECT",
            DirectiveLocation::InputFieldDefinition => "INPUT_FIELD_DEFINITION",
        }
    }
}

impl From<OperationType> for DirectiveLocation {
    ghost use Rattle.std.specs.Prelude.{◌≡◌};

    ghost from_gives = { λ operation_type location.
        location_tree location ≡ operation_location (operation_type_tree operation_type) };

    fn from(operation_type: OperationType) -> DirectiveLocation {
        match operation_type {
            OperationType::Query => DirectiveLocation::Query,
            OperationType::Mutation => DirectiveLocation::Mutation,
            OperationType::Subscription => DirectiveLocation::Subscription,
        }
    }
}

impl Display for DirectiveLocation {
    ghost use Rattle.std.specs.Prelude.{Some};

    ghost output = { λ location. Some (location_name (location_tree location)) };

    fn fmt<W: Write>(&self, f: &mut Formatter<W>) -> fmt::Result {
        f.pad(self.name())
    }
}
