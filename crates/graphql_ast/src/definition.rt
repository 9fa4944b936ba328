//! Definitions: what documents are made of.
ghost use Rattle.std.specs.Prelude.{◌≡◌, Some, option_copied};
ghost use Rattle.graphql_ast.specs.DefinitionQueries.{definition_description, definition_directives, definition_kind_name, definition_location, definition_name, definition_selection_set, is_executable, is_extension, is_type_definition};
ghost use Rattle.graphql_ast.specs.DefinitionQueries.{directive_definition_of, enum_type_definition_of, enum_type_extension_of, fragment_definition_of, input_object_type_definition_of, input_object_type_extension_of, interface_type_definition_of, interface_type_extension_of, object_type_definition_of, object_type_extension_of, operation_definition_of, scalar_type_definition_of, scalar_type_extension_of, schema_definition_of, schema_extension_of, union_type_definition_of, union_type_extension_of};

pub(crate) mod print;

use graphql_base::name::Name;
use graphql_base::node::{Node, NodeStr};
use graphql_base::span::SourceSpan;
use graphql_executable::fragment_definition::FragmentDefinition;
use graphql_executable::operation_definition::OperationDefinition;
use graphql_executable::selection::Selection;
use graphql_type_system::enum_type::{EnumTypeDefinition, EnumTypeExtension};
use graphql_type_system::input_object_type::{InputObjectTypeDefinition, InputObjectTypeExtension};
use graphql_type_system::interface_type::{InterfaceTypeDefinition, InterfaceTypeExtension};
use graphql_type_system::object_type::{ObjectTypeDefinition, ObjectTypeExtension};
use graphql_type_system::scalar_type::{ScalarTypeDefinition, ScalarTypeExtension};
use graphql_type_system::schema::{SchemaDefinition, SchemaExtension};
use graphql_type_system::union_type::{UnionTypeDefinition, UnionTypeExtension};
use graphql_values::directive_definition::DirectiveDefinition;
use graphql_values::directive_list::DirectiveList;

/// A definition of a document (`Definition`, section 2.2).
///
/// It is an operation or a fragment, which can be executed; a definition of a directive, of the schema or of a type; or
/// an extension of the schema or of a type.
///
/// Equality and hash ignore source locations.
///
/// ```
/// for definition in &document.definitions {
///     if let Definition::ObjectTypeDefinition(object) = definition {
///         println!(rt; "type {}", object.name)?; // type Query
///     }
/// }
/// ```
#[derive(Clone, PartialEq, Eq, Hash, Debug, Drop)]
pub enum Definition {
    /// An operation.
    OperationDefinition(Node<OperationDefinition>),
    /// A fragment.
    FragmentDefinition(Node<FragmentDefinition>),
    /// A directive.
    DirectiveDefinition(Node<DirectiveDefinition>),
    /// A schema.
    SchemaDefinition(Node<SchemaDefinition>),
    /// A scalar type.
    ScalarTypeDefinition(Node<ScalarTypeDefinition>),
    /// An object type.
    ObjectTypeDefinition(Node<ObjectTypeDefinition>),
    /// An interface type.
    InterfaceTypeDefinition(Node<InterfaceTypeDefinition>),
    /// A union type.
    UnionTypeDefinition(Node<UnionTypeDefinition>),
    /// An enum type.
    EnumTypeDefinition(Node<EnumTypeDefinition>),
    /// An input object type.
    InputObjectTypeDefinition(Node<InputObjectTypeDefinition>),
    /// What is added to the schema.
    SchemaExtension(Node<SchemaExtension>),
    /// What is added to a scalar type.
    ScalarTypeExtension(Node<ScalarTypeExtension>),
    /// What is added to an object type.
    ObjectTypeExtension(Node<ObjectTypeExtension>),
    /// What is added to an interface type.
    InterfaceTypeExtension(Node<InterfaceTypeExtension>),
    /// What is added to a union type.
    UnionTypeExtension(Node<UnionTypeExtension>),
    /// What is added to an enum type.
    EnumTypeExtension(Node<EnumTypeExtension>),
    /// What is added to an input object type.
    InputObjectTypeExtension(Node<InputObjectTypeExtension>),
}

impl Definition {
    /// Whether it can be executed: an operation or a fragment (`ExecutableDefinition`, section 2.2).
    pub fn is_executable_definition(&self) -> bool
        ensures { result ≡ is_executable self.now }
    {
        matches!(
            self,
            Definition::OperationDefinition(_) | Definition::FragmentDefinition(_)
        )
    }

    /// Whether it defines a type (`TypeDefinition`, section 3.4).
    pub fn is_type_definition(&self) -> bool
        ensures { result ≡ is_type_definition self.now }
    {
        matches!(
            self,
            Definition::ScalarTypeDefinition(_)
                | Definition::ObjectTypeDefinition(_)
                | Definition::InterfaceTypeDefinition(_)
                | Definition::UnionTypeDefinition(_)
                | Definition::EnumTypeDefinition(_)
                | Definition::InputObjectTypeDefinition(_)
        )
    }

    /// Whether it adds to a schema or to a type that is defined elsewhere (`TypeSystemExtension`, section 3.1).
    pub fn is_extension_definition(&self) -> bool
        ensures { result ≡ is_extension self.now }
    {
        matches!(
            self,
            Definition::SchemaExtension(_)
                | Definition::ScalarTypeExtension(_)
                | Definition::ObjectTypeExtension(_)
                | Definition::InterfaceTypeExtension(_)
                | Definition::UnionTypeExtension(_)
                | Definition::EnumTypeExtension(_)
                | Definition::InputObjectTypeExtension(_)
        )
    }

    /// The source location: that of its node.
    pub fn location(&self) -> Option<SourceSpan>
        ensures { result ≡ definition_location self.now }
    {
        match self {
            Definition::OperationDefinition(node) => node.location(),
            Definition::FragmentDefinition(node) => node.location(),
            Definition::DirectiveDefinition(node) => node.location(),
            Definition::SchemaDefinition(node) => node.location(),
            Definition::ScalarTypeDefinition(node) => node.location(),
            Definition::ObjectTypeDefinition(node) => node.location(),
            Definition::InterfaceTypeDefinition(node) => node.location(),
            Definition::UnionTypeDefinition(node) => node.location(),
            Definition::EnumTypeDefinition(node) => node.location(),
            Definition::InputObjectTypeDefinition(node) => node.location(),
            Definition::SchemaExtension(node) => node.location(),
            Definition::ScalarTypeExtension(node) => node.location(),
            Definition::ObjectTypeExtension(node) => node.location(),
            Definition::InterfaceTypeExtension(node) => node.location(),
            Definition::UnionTypeExtension(node) => node.location(),
            Definition::EnumTypeExtension(node) => node.location(),
            Definition::InputObjectTypeExtension(node) => node.location(),
        }
    }

    /// The words of the grammar that it begins with, behind its description: `query`, `type`, `extend enum`. What is
    /// printed in shorthand is a `query` too.
    ///
    /// ```
    /// definition.kind_name() // "extend enum" of extend enum A @d
    /// ```
    pub fn kind_name(&self) -> &'static str
        ensures { result.now ≡ definition_kind_name self.now }
    {
        match self {
            Definition::OperationDefinition(node) => node.operation_type.name(),
            Definition::FragmentDefinition(_) => "fragment",
            Definition::DirectiveDefinition(_) => "directive",
            Definition::SchemaDefinition(_) => "schema",
            Definition::ScalarTypeDefinition(_) => "scalar",
            Definition::ObjectTypeDefinition(_) => "type",
            Definition::InterfaceTypeDefinition(_) => "interface",
            Definition::UnionTypeDefinition(_) => "union",
            Definition::EnumTypeDefinition(_) => "enum",
            Definition::InputObjectTypeDefinition(_) => "input",
            Definition::SchemaExtension(_) => "extend schema",
            Definition::ScalarTypeExtension(_) => "extend scalar",
            Definition::ObjectTypeExtension(_) => "extend type",
            Definition::InterfaceTypeExtension(_) => "extend interface",
            Definition::UnionTypeExtension(_) => "extend union",
            Definition::EnumTypeExtension(_) => "extend enum",
            Definition::InputObjectTypeExtension(_) => "extend input",
        }
    }

    /// The string before it. `None` for an extension, which can have none.
    ///
    /// ```
    /// definition.description() // of "D" scalar A a node of the text D
    /// ```
    pub fn description(&self) -> Option<&NodeStr>
        ensures { option_copied result ≡ definition_description self.now }
    {
        match self {
            Definition::OperationDefinition(node) => node.description.as_ref(),
            Definition::FragmentDefinition(node) => node.description.as_ref(),
            Definition::DirectiveDefinition(node) => node.description.as_ref(),
            Definition::SchemaDefinition(node) => node.description.as_ref(),
            Definition::ScalarTypeDefinition(node) => node.description.as_ref(),
            Definition::ObjectTypeDefinition(node) => node.description.as_ref(),
            Definition::InterfaceTypeDefinition(node) => node.description.as_ref(),
            Definition::UnionTypeDefinition(node) => node.description.as_ref(),
            Definition::EnumTypeDefinition(node) => node.description.as_ref(),
            Definition::InputObjectTypeDefinition(node) => node.description.as_ref(),
            Definition::SchemaExtension(_) => None,
            Definition::ScalarTypeExtension(_) => None,
            Definition::ObjectTypeExtension(_) => None,
            Definition::InterfaceTypeExtension(_) => None,
            Definition::UnionTypeExtension(_) => None,
            Definition::EnumTypeExtension(_) => None,
            Definition::InputObjectTypeExtension(_) => None,
        }
    }

    /// What it defines or extends, by name. `None` exactly for a schema definition, a schema extension and an anonymous
    /// operation.
    pub fn name(&self) -> Option<&Name>
        ensures { option_copied result ≡ definition_name self.now }
    {
        match self {
            Definition::OperationDefinition(node) => node.name.as_ref(),
            Definition::FragmentDefinition(node) => Some(&node.name),
            Definition::DirectiveDefinition(node) => Some(&node.name),
            Definition::SchemaDefinition(_) => None,
            Definition::ScalarTypeDefinition(node) => Some(&node.name),
            Definition::ObjectTypeDefinition(node) => Some(&node.name),
            Definition::InterfaceTypeDefinition(node) => Some(&node.name),
            Definition::UnionTypeDefinition(node) => Some(&node.name),
            Definition::EnumTypeDefinition(node) => Some(&node.name),
            Definition::InputObjectTypeDefinition(node) => Some(&node.name),
            Definition::SchemaExtension(_) => None,
            Definition::ScalarTypeExtension(node) => Some(&node.name),
            Definition::ObjectTypeExtension(node) => Some(&node.name),
            Definition::InterfaceTypeExtension(node) => Some(&node.name),
            Definition::UnionTypeExtension(node) => Some(&node.name),
            Definition::EnumTypeExtension(node) => Some(&node.name),
            Definition::InputObjectTypeExtension(node) => Some(&node.name),
        }
    }

    /// The directives that stand in it. `None` exactly for a directive definition, in which none can stand.
    pub fn directives(&self) -> Option<&DirectiveList>
        ensures { option_copied result ≡ definition_directives self.now }
    {
        match self {
            Definition::OperationDefinition(node) => Some(&node.directives),
            Definition::FragmentDefinition(node) => Some(&node.directives),
            Definition::DirectiveDefinition(_) => None,
            Definition::SchemaDefinition(node) => Some(&node.directives),
            Definition::ScalarTypeDefinition(node) => Some(&node.directives),
            Definition::ObjectTypeDefinition(node) => Some(&node.directives),
            Definition::InterfaceTypeDefinition(node) => Some(&node.directives),
            Definition::UnionTypeDefinition(node) => Some(&node.directives),
            Definition::EnumTypeDefinition(node) => Some(&node.directives),
            Definition::InputObjectTypeDefinition(node) => Some(&node.directives),
            Definition::SchemaExtension(node) => Some(&node.directives),
            Definition::ScalarTypeExtension(node) => Some(&node.directives),
            Definition::ObjectTypeExtension(node) => Some(&node.directives),
            Definition::InterfaceTypeExtension(node) => Some(&node.directives),
            Definition::UnionTypeExtension(node) => Some(&node.directives),
            Definition::EnumTypeExtension(node) => Some(&node.directives),
            Definition::InputObjectTypeExtension(node) => Some(&node.directives),
        }
    }

    /// The selections that stand in it, in order. `None` exactly for what isn't executable.
    ///
    /// ```
    /// definition.selection_set() // of query A { a } one field
    /// ```
    pub fn selection_set(&self) -> Option<&[Selection]>
        ensures { option_copied result ≡ definition_selection_set self.now }
    {
        match self {
            Definition::OperationDefinition(node) => Some(node.selection_set.as_slice()),
            Definition::FragmentDefinition(node) => Some(node.selection_set.as_slice()),
            _ => None,
        }
    }

    /// The operation, if it is one.
    pub fn as_operation_definition(&self) -> Option<&Node<OperationDefinition>>
        ensures { option_copied result ≡ operation_definition_of self.now }
    {
        match self {
            Definition::OperationDefinition(node) => Some(node),
            _ => None,
        }
    }

    /// The fragment definition, if it is one.
    pub fn as_fragment_definition(&self) -> Option<&Node<FragmentDefinition>>
        ensures { option_copied result ≡ fragment_definition_of self.now }
    {
        match self {
            Definition::FragmentDefinition(node) => Some(node),
            _ => None,
        }
    }

    /// The directive definition, if it is one.
    pub fn as_directive_definition(&self) -> Option<&Node<DirectiveDefinition>>
        ensures { option_copied result ≡ directive_definition_of self.now }
    {
        match self {
            Definition::DirectiveDefinition(node) => Some(node),
            _ => None,
        }
    }

    /// The schema definition, if it is one.
    pub fn as_schema_definition(&self) -> Option<&Node<SchemaDefinition>>
        ensures { option_copied result ≡ schema_definition_of self.now }
    {
        match self {
            Definition::SchemaDefinition(node) => Some(node),
            _ => None,
        }
    }

    /// The definition of a scalar type, if it is one.
    pub fn as_scalar_type_definition(&self) -> Option<&Node<ScalarTypeDefinition>>
        ensures { option_copied result ≡ scalar_type_definition_of self.now }
    {
        match self {
            Definition::ScalarTypeDefinition(node) => Some(node),
            _ => None,
        }
    }

    /// The definition of an object type, if it is one.
    pub fn as_object_type_definition(&self) -> Option<&Node<ObjectTypeDefinition>>
        ensures { option_copied result ≡ object_type_definition_of self.now }
    {
        match self {
            Definition::ObjectTypeDefinition(node) => Some(node),
            _ => None,
        }
    }

    /// The definition of an interface type, if it is one.
    pub fn as_interface_type_definition(&self) -> Option<&Node<InterfaceTypeDefinition>>
        ensures { option_copied result ≡ interface_type_definition_of self.now }
    {
        match self {
            Definition::InterfaceTypeDefinition(node) => Some(node),
            _ => None,
        }
    }

    /// The definition of a union type, if it is one.
    pub fn as_union_type_definition(&self) -> Option<&Node<UnionTypeDefinition>>
        ensures { option_copied result ≡ union_type_definition_of self.now }
    {
        match self {
            Definition::UnionTypeDefinition(node) => Some(node),
            _ => None,
        }
    }

    /// The definition of an enum type, if it is one.
    pub fn as_enum_type_definition(&self) -> Option<&Node<EnumTypeDefinition>>
        ensures { option_copied result ≡ enum_type_definition_of self.now }
    {
        match self {
            Definition::EnumTypeDefinition(node) => Some(node),
            _ => None,
        }
    }

    /// The definition of an input object type, if it is one.
    pub fn as_input_object_type_definition(&self) -> Option<&Node<InputObjectTypeDefinition>>
        ensures { option_copied result ≡ input_object_type_definition_of self.now }
    {
        match self {
            Definition::InputObjectTypeDefinition(node) => Some(node),
            _ => None,
        }
    }

    /// The extension of a schema, if it is one.
    pub fn as_schema_extension(&self) -> Option<&Node<SchemaExtension>>
        ensures { option_copied result ≡ schema_extension_of self.now }
    {
        match self {
            Definition::SchemaExtension(node) => Some(node),
            _ => None,
        }
    }

    /// The extension of a scalar type, if it is one.
    pub fn as_scalar_type_extension(&self) -> Option<&Node<ScalarTypeExtension>>
        ensures { option_copied result ≡ scalar_type_extension_of self.now }
    {
        match self {
            Definition::ScalarTypeExtension(node) => Some(node),
            _ => None,
        }
    }

    /// The extension of an object type, if it is one.
    pub fn as_object_type_extension(&self) -> Option<&Node<ObjectTypeExtension>>
        ensures { option_copied result ≡ object_type_extension_of self.now }
    {
        match self {
            Definition::ObjectTypeExtension(node) => Some(node),
            _ => None,
        }
    }

    /// The extension of an interface type, if it is one.
    pub fn as_interface_type_extension(&self) -> Option<&Node<InterfaceTypeExtension>>
        ensures { option_copied result ≡ interface_type_extension_of self.now }
    {
        match self {
            Definition::InterfaceTypeExtension(node) => Some(node),
            _ => None,
        }
    }

    /// The extension of a union type, if it is one.
    pub fn as_union_type_extension(&self) -> Option<&Node<UnionTypeExtension>>
        ensures { option_copied result ≡ union_type_extension_of self.now }
    {
        match self {
            Definition::UnionTypeExtension(node) => Some(node),
            _ => None,
        }
    }

    /// The extension of an enum type, if it is one.
    pub fn as_enum_type_extension(&self) -> Option<&Node<EnumTypeExtension>>
        ensures { option_copied result ≡ enum_type_extension_of self.now }
    {
        match self {
            Definition::EnumTypeExtension(node) => Some(node),
            _ => None,
        }
    }

    /// The extension of an input object type, if it is one.
    pub fn as_input_object_type_extension(&self) -> Option<&Node<InputObjectTypeExtension>>
        ensures { option_copied result ≡ input_object_type_extension_of self.now }
    {
        match self {
            Definition::InputObjectTypeExtension(node) => Some(node),
            _ => None,
        }
    }
}

impl From<Node<OperationDefinition>> for Definition {
    ghost from_gives = { λ node definition. operation_definition_of definition ≡ Some node };

    fn from(node: Node<OperationDefinition>) -> Definition {
        Definition::OperationDefinition(node)
    }
}

impl From<Node<FragmentDefinition>> for Definition {
    ghost from_gives = { λ node definition. fragment_definition_of definition ≡ Some node };

    fn from(node: Node<FragmentDefinition>) -> Definition {
        Definition::FragmentDefinition(node)
    }
}

impl From<Node<DirectiveDefinition>> for Definition {
    ghost from_gives = { λ node definition. directive_definition_of definition ≡ Some node };

    fn from(node: Node<DirectiveDefinition>) -> Definition {
        Definition::DirectiveDefinition(node)
    }
}

impl From<Node<SchemaDefinition>> for Definition {
    ghost from_gives = { λ node definition. schema_definition_of definition ≡ Some node };

    fn from(node: Node<SchemaDefinition>) -> Definition {
        Definition::SchemaDefinition(node)
    }
}

impl From<Node<ScalarTypeDefinition>> for Definition {
    ghost from_gives = { λ node definition. scalar_type_definition_of definition ≡ Some node };

    fn from(node: Node<ScalarTypeDefinition>) -> Definition {
        Definition::ScalarTypeDefinition(node)
    }
}

impl From<Node<ObjectTypeDefinition>> for Definition {
    ghost from_gives = { λ node definition. object_type_definition_of definition ≡ Some node };

    fn from(node: Node<ObjectTypeDefinition>) -> Definition {
        Definition::ObjectTypeDefinition(node)
    }
}

impl From<Node<InterfaceTypeDefinition>> for Definition {
    ghost from_gives = { λ node definition. interface_type_definition_of definition ≡ Some node };

    fn from(node: Node<InterfaceTypeDefinition>) -> Definition {
        Definition::InterfaceTypeDefinition(node)
    }
}

impl From<Node<UnionTypeDefinition>> for Definition {
    ghost from_gives = { λ node definition. union_type_definition_of definition ≡ Some node };

    fn from(node: Node<UnionTypeDefinition>) -> Definition {
        Definition::UnionTypeDefinition(node)
    }
}

impl From<Node<EnumTypeDefinition>> for Definition {
    ghost from_gives = { λ node definition. enum_type_definition_of definition ≡ Some node };

    fn from(node: Node<EnumTypeDefinition>) -> Definition {
        Definition::EnumTypeDefinition(node)
    }
}

impl From<Node<InputObjectTypeDefinition>> for Definition {
    ghost from_gives = { λ node definition.
        input_object_type_definition_of definition ≡ Some node };

    fn from(node: Node<InputObjectTypeDefinition>) -> Definition {
        Definition::InputObjectTypeDefinition(node)
    }
}

impl From<Node<SchemaExtension>> for Definition {
    ghost from_gives = { λ node definition. schema_extension_of definition ≡ Some node };

    fn from(node: Node<SchemaExtension>) -> Definition {
        Definition::SchemaExtension(node)
    }
}

impl From<Node<ScalarTypeExtension>> for Definition {
    ghost from_gives = { λ node definition. scalar_type_extension_of definition ≡ Some node };

    fn from(node: Node<ScalarTypeExtension>) -> Definition {
        Definition::ScalarTypeExtension(node)
    }
}

impl From<Node<ObjectTypeExtension>> for Definition {
    ghost from_gives = { λ node definition. object_type_extension_of definition ≡ Some node };

    fn from(node: Node<ObjectTypeExtension>) -> Definition {
        Definition::ObjectTypeExtension(node)
    }
}

impl From<Node<InterfaceTypeExtension>> for Definition {
    ghost from_gives = { λ node definition. interface_type_extension_of definition ≡ Some node };

    fn from(node: Node<InterfaceTypeExtension>) -> Definition {
        Definition::InterfaceTypeExtension(node)
    }
}

impl From<Node<UnionTypeExtension>> for Definition {
    ghost from_gives = { λ node definition. union_type_extension_of definition ≡ Some node };

    fn from(node: Node<UnionTypeExtension>) -> Definition {
        Definition::UnionTypeExtension(node)
    }
}

impl From<Node<EnumTypeExtension>> for Definition {
    ghost from_gives = { λ node definition. enum_type_extension_of definition ≡ Some node };

    fn from(node: Node<EnumTypeExtension>) -> Definition {
        Definition::EnumTypeExtension(node)
    }
}

impl From<Node<InputObjectTypeExtension>> for Definition {
    ghost from_gives = { λ node definition. input_object_type_extension_of definition ≡ Some node };

    fn from(node: Node<InputObjectTypeExtension>) -> Definition {
        Definition::InputObjectTypeExtension(node)
    }
}
