//! The operations that are printed.
ghost use Rattle.std.specs.Prelude.{IsTrue};
ghost use Rattle.graphql_base.specs.Names.{is_name};

use crate::trees::Builder;
use graphql_base::node::Node;
use graphql_executable::field::Field;
use graphql_executable::fragment_spread::FragmentSpread;
use graphql_executable::inline_fragment::InlineFragment;
use graphql_executable::operation_definition::OperationDefinition;
use graphql_executable::selection::Selection;
use graphql_executable::variable_definition::VariableDefinition;
use graphql_values::operation_type::OperationType;
use graphql_values::types::Type;
use graphql_values::value::Value;
use std::alloc::AllocError;

impl Builder {
    fn variable(&mut self, name: &'static str) -> Result<Value, AllocError>
        requires { IsTrue (is_name name.now) }
    {
        Ok(Value::Variable(self.name(name)?))
    }

    /// A field that is a name alone.
    fn field(&mut self, name: &'static str) -> Result<Field, AllocError>
        requires { IsTrue (is_name name.now) }
    {
        Ok(Field::new(self.alloc, self.name(name)?))
    }

    fn select(&self, selections: &mut Vec<Selection>, field: Field) -> Result<(), AllocError> {
        selections.push(Selection::field(self.alloc, field)?)?;
        Ok(())
    }

    /// `picture: avatar(size: 64)`
    fn select_picture(&mut self, selections: &mut Vec<Selection>) -> Result<(), AllocError> {
        let mut picture = self.field("avatar")?;
        picture.alias = Some(self.name("picture")?);
        let size = self.int(64)?;
        picture.arguments = self.argument("size", size)?;
        self.select(selections, picture)
    }

    /// `updatedAt @include(if: $detailed)`
    fn select_update(&mut self, selections: &mut Vec<Selection>) -> Result<(), AllocError> {
        let mut update = self.field("updatedAt")?;
        let detailed = self.variable("detailed")?;
        update.directives = self.directive("include", "if", detailed)?;
        self.select(selections, update)
    }

    /// `friends(first: $count) { id name .. }`, with two selections more.
    fn select_friends(&mut self, selections: &mut Vec<Selection>) -> Result<(), AllocError> {
        let mut friends = self.field("friends")?;
        let count = self.variable("count")?;
        friends.arguments = self.argument("first", count)?;
        let mut inner = self.list(4)?;
        let id = self.field("id")?;
        self.select(&mut inner, id)?;
        let name = self.field("name")?;
        self.select(&mut inner, name)?;
        self.select_picture(&mut inner)?;
        self.select_update(&mut inner)?;
        friends.selection_set = inner;
        self.select(selections, friends)
    }

    /// `...UserParts`
    fn select_spread(&mut self, selections: &mut Vec<Selection>) -> Result<(), AllocError> {
        let spread = FragmentSpread::new(self.alloc, self.name("UserParts")?);
        selections.push(Selection::fragment_spread(self.alloc, spread)?)?;
        Ok(())
    }

    /// `... on Member { email joinedAt }`
    fn select_member(&mut self, selections: &mut Vec<Selection>) -> Result<(), AllocError> {
        let mut inner = self.list(2)?;
        let email = self.field("email")?;
        self.select(&mut inner, email)?;
        let joined = self.field("joinedAt")?;
        self.select(&mut inner, joined)?;
        let mut member = InlineFragment::new(self.alloc);
        member.type_condition = Some(self.name("Member")?);
        member.selection_set = inner;
        selections.push(Selection::inline_fragment(self.alloc, member)?)?;
        Ok(())
    }

    /// `viewer: user(id: ..) @skip(if: $detailed) { .. }`, with five selections.
    fn select_viewer(
        &mut self,
        selections: &mut Vec<Selection>,
        number: usize,
    ) -> Result<(), AllocError> {
        let mut viewer = self.field("user")?;
        viewer.alias = Some(self.name("viewer")?);
        let id = self.int(number)?;
        viewer.arguments = self.argument("id", id)?;
        let detailed = self.variable("detailed")?;
        viewer.directives = self.directive("skip", "if", detailed)?;
        let mut inner = self.list(5)?;
        self.select_friends(&mut inner)?;
        self.select_spread(&mut inner)?;
        self.select_member(&mut inner)?;
        self.select_picture(&mut inner)?;
        self.select_update(&mut inner)?;
        viewer.selection_set = inner;
        self.select(selections, viewer)
    }

    fn variable_definition(
        &mut self,
        name: &'static str,
        ty: Type,
        default_value: Option<Node<Value>>,
    ) -> Result<Node<VariableDefinition>, AllocError>
        requires { IsTrue (is_name name.now) }
    {
        let ty = Node::new(self.alloc, ty)?;
        let mut definition = VariableDefinition::new(self.alloc, self.name(name)?, ty);
        definition.default_value = default_value;
        Node::new(self.alloc, definition)
    }

    /// `$count: Int = 10` and `$detailed: Boolean!`
    fn variable_definitions(&mut self) -> Result<Vec<Node<VariableDefinition>>, AllocError> {
        let mut variables = self.list(2)?;
        let int = Type::Named(self.name("Int")?);
        let ten = Node::new(self.alloc, self.int(10)?)?;
        variables.push(self.variable_definition("count", int, Some(ten))?)?;
        let boolean = Type::NonNullNamed(self.name("Boolean")?);
        variables.push(self.variable_definition("detailed", boolean, None)?)?;
        Ok(variables)
    }

    /// A query of three levels: two variables, and two fields of five selections.
    pub(crate) fn operation(&mut self, number: usize) -> Result<OperationDefinition, AllocError> {
        let mut selections = self.list(2)?;
        self.select_viewer(&mut selections, number)?;
        self.select_viewer(&mut selections, number.wrapping_mul(7))?;
        let mut query = OperationDefinition::new(self.alloc, OperationType::Query);
        query.name = Some(self.name("ViewerQuery")?);
        query.variables = self.variable_definitions()?;
        query.selection_set = selections;
        Ok(query)
    }

    /// Such queries.
    pub fn operations(&mut self, count: usize) -> Result<Vec<OperationDefinition>, AllocError> {
        let mut operations = self.list(count)?;
        for number in 0..count {
            operations.push(self.operation(number)?)?;
        }
        Ok(operations)
    }
}
