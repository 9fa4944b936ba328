//! Trees that are deep, of each of the thirty kinds: 1,000 lists, objects, selection sets or list types in one another are printed,
//! compared, hashed, cloned, asked for what is ill formed, and dropped.
use crate::checks::{check_case, check_equal};
use crate::samples::document;
use graphql_ast::ast::{
    Argument, Definition, Directive, DirectiveDefinition, DirectiveList, DirectiveLocation,
    Document, EnumTypeDefinition, EnumTypeExtension, EnumValueDefinition, Field, FieldDefinition,
    FragmentDefinition, FragmentSpread, InlineFragment, InputObjectTypeDefinition,
    InputObjectTypeExtension, InputValueDefinition, InterfaceTypeDefinition,
    InterfaceTypeExtension, ObjectTypeDefinition, ObjectTypeExtension, OperationDefinition,
    OperationType, ScalarTypeDefinition, ScalarTypeExtension, SchemaDefinition, SchemaExtension,
    Selection, Type, UnionTypeDefinition, UnionTypeExtension, Value, VariableDefinition,
};
use graphql_ast::node::Node;
use graphql_ast::serialize::{PrintError, Serialize, Syntax};
use graphql_ast::{name, ty};
use std::alloc::{AllocError, Global};
use std::collections::HashSet;
use std::hash::Hash;
use std::process::Abort;

const LEVELS: usize = 1000;

/// A text that stands in each level before what is within, then the innermost, and one that stands behind.
fn nested(alloc: Global, before: &str, inner: &str, behind: &str) -> Result<String, AllocError> {
    let mut text = before.repeat(alloc, LEVELS - 1)?;
    text.push_str(inner)?;
    text.push_str(behind.repeat(alloc, LEVELS - 1)?.as_str())?;
    Ok(text)
}

/// `[[..[]..]]`
fn lists(alloc: Global) -> Result<Node<Value>, AllocError> {
    let mut list = Node::new(alloc, Value::List(Vec::new(alloc)))?;
    for _ in 1..LEVELS {
        list = Node::new(alloc, Value::List(vec![in alloc; list]?))?;
    }
    Ok(list)
}

/// `{k: {k: ..{}..}}`
fn objects(alloc: Global) -> Result<Node<Value>, AllocError> {
    let mut object = Node::new(alloc, Value::Object(Vec::new(alloc)))?;
    for _ in 1..LEVELS {
        object = Node::new(alloc, Value::Object(vec![in alloc; (name!(k), object)]?))?;
    }
    Ok(object)
}

/// `[[..Int..]]`
fn list_types(alloc: Global) -> Result<Type, AllocError> {
    let mut ty = ty!(Int);
    for _ in 0..LEVELS {
        ty = ty.list(alloc)?;
    }
    Ok(ty)
}

/// `{ a { a .. { a } .. } }`
fn sets(alloc: Global) -> Result<Vec<Selection>, AllocError> {
    let mut set = vec![in alloc; Selection::field(alloc, Field::new(alloc, name!(a)))?]?;
    for _ in 1..LEVELS {
        let mut field = Field::new(alloc, name!(a));
        field.selection_set = set;
        set = vec![in alloc; Selection::field(alloc, field)?]?;
    }
    Ok(set)
}

/// `@d(x: [[..[]..]])`
fn directive(alloc: Global) -> Result<Directive, AllocError> {
    let argument = Argument::new_node(alloc, name!(x), lists(alloc)?)?;
    let mut directive = Directive::new(alloc, name!(d));
    directive.arguments.push(argument)?;
    Ok(directive)
}

fn directives(alloc: Global) -> Result<DirectiveList, AllocError> {
    let directive = Node::new(alloc, directive(alloc)?)?;
    Ok(DirectiveList(vec![in alloc; directive]?))
}

/// What is wanted of trees: the text of what is within them on one line, and how deep they nest, with so many lists around a type.
#[derive(Drop)]
struct Deep<'a, R: Abort> {
    rt: &'a R,
    alloc: Global,
    inner: &'a str,
    depths: (usize, usize),
}

impl<R: Abort> Deep<'_, R> {
    fn of<'a>(rt: &'a R, alloc: Global, inner: &'a str, depths: (usize, usize)) -> Deep<'a, R> {
        Deep {
            rt,
            alloc,
            inner,
            depths,
        }
    }

    /// Two equal trees that share nothing, and what stands before and behind what is within them.
    fn take<T: Syntax + Clone + PartialEq + Eq + Hash + Drop>(
        &self,
        trees: (Result<T, AllocError>, Result<T, AllocError>),
        before: &str,
        behind: &str,
    ) {
        let rt = self.rt;
        let (tree, other) = (trees.0.expect(rt, "memory"), trees.1.expect(rt, "memory"));
        self.check_depths(&tree, before);
        self.check_last_level(&tree, before, behind);
        self.check_level_above(&tree, before);
        self.check_clone(&tree, &other, before);
        let mut seen = HashSet::new(self.alloc);
        seen.insert(tree).expect(rt, "memory");
        check_case(rt, before, seen.contains(&other), true);
    }

    fn check_depths<T: Syntax>(&self, tree: &T, before: &str) {
        check_case(self.rt, before, tree.is_well_formed(), true);
        let found = tree
            .find_depths()
            .map(|depths| (depths.nesting, depths.lists));
        check_case(self.rt, before, found, Some(self.depths));
    }

    /// The text at the last level that fits.
    fn check_last_level<T: Syntax>(&self, tree: &T, before: &str, behind: &str) {
        let (rt, depth) = (self.rt, self.depths.0);
        let print = Serialize::new(tree).no_indent();
        let last = print.initial_indent_level(usize::MAX - depth);
        let text = last.to_text(self.alloc).expect(rt, "memory");
        let inner = text
            .as_str()
            .strip_prefix(before)
            .and_then(|rest| rest.strip_suffix(behind));
        check_case(rt, before, inner, Some(self.inner));
    }

    /// The next level is one too many, where a tree nests.
    fn check_level_above<T: Syntax>(&self, tree: &T, before: &str) {
        let depth = self.depths.0;
        if depth > 0 {
            let print = Serialize::new(tree).no_indent();
            let above = print.initial_indent_level(usize::MAX - depth + 1);
            let answer = above.to_text(self.alloc);
            check_case(
                self.rt,
                before,
                answer.err(),
                Some(PrintError::LevelOverflow),
            );
        }
    }

    /// A clone is equal to the tree, and so is another one.
    fn check_clone<T: Clone + PartialEq + Drop>(&self, tree: &T, other: &T, before: &str) {
        let copy = tree.clone().expect(self.rt, "memory");
        check_case(
            self.rt,
            before,
            (copy == *tree, *other == *tree),
            (true, true),
        );
    }
}

// KINDS WITH ONE DIRECTIVE, IN WHICH LISTS NEST

fn scalar(alloc: Global) -> Result<ScalarTypeDefinition, AllocError> {
    Ok(ScalarTypeDefinition {
        directives: directives(alloc)?,
        ..ScalarTypeDefinition::new(alloc, name!(N))
    })
}

fn object(alloc: Global) -> Result<ObjectTypeDefinition, AllocError> {
    Ok(ObjectTypeDefinition {
        directives: directives(alloc)?,
        ..ObjectTypeDefinition::new(alloc, name!(N))
    })
}

fn interface(alloc: Global) -> Result<InterfaceTypeDefinition, AllocError> {
    Ok(InterfaceTypeDefinition {
        directives: directives(alloc)?,
        ..InterfaceTypeDefinition::new(alloc, name!(N))
    })
}

fn union(alloc: Global) -> Result<UnionTypeDefinition, AllocError> {
    Ok(UnionTypeDefinition {
        directives: directives(alloc)?,
        ..UnionTypeDefinition::new(alloc, name!(N))
    })
}

fn enumeration(alloc: Global) -> Result<EnumTypeDefinition, AllocError> {
    Ok(EnumTypeDefinition {
        directives: directives(alloc)?,
        ..EnumTypeDefinition::new(alloc, name!(N))
    })
}

fn input(alloc: Global) -> Result<InputObjectTypeDefinition, AllocError> {
    Ok(InputObjectTypeDefinition {
        directives: directives(alloc)?,
        ..InputObjectTypeDefinition::new(alloc, name!(N))
    })
}

fn enum_value(alloc: Global) -> Result<EnumValueDefinition, AllocError> {
    Ok(EnumValueDefinition {
        directives: directives(alloc)?,
        ..EnumValueDefinition::new(alloc, name!(A))
    })
}

fn schema_extension(alloc: Global) -> Result<SchemaExtension, AllocError> {
    Ok(SchemaExtension {
        directives: directives(alloc)?,
        ..SchemaExtension::new(alloc)
    })
}

fn scalar_extension(alloc: Global) -> Result<ScalarTypeExtension, AllocError> {
    Ok(ScalarTypeExtension {
        directives: directives(alloc)?,
        ..ScalarTypeExtension::new(alloc, name!(N))
    })
}

fn object_extension(alloc: Global) -> Result<ObjectTypeExtension, AllocError> {
    Ok(ObjectTypeExtension {
        directives: directives(alloc)?,
        ..ObjectTypeExtension::new(alloc, name!(N))
    })
}

fn interface_extension(alloc: Global) -> Result<InterfaceTypeExtension, AllocError> {
    Ok(InterfaceTypeExtension {
        directives: directives(alloc)?,
        ..InterfaceTypeExtension::new(alloc, name!(N))
    })
}

fn union_extension(alloc: Global) -> Result<UnionTypeExtension, AllocError> {
    Ok(UnionTypeExtension {
        directives: directives(alloc)?,
        ..UnionTypeExtension::new(alloc, name!(N))
    })
}

fn enum_extension(alloc: Global) -> Result<EnumTypeExtension, AllocError> {
    Ok(EnumTypeExtension {
        directives: directives(alloc)?,
        ..EnumTypeExtension::new(alloc, name!(N))
    })
}

fn input_extension(alloc: Global) -> Result<InputObjectTypeExtension, AllocError> {
    Ok(InputObjectTypeExtension {
        directives: directives(alloc)?,
        ..InputObjectTypeExtension::new(alloc, name!(N))
    })
}

fn spread(alloc: Global) -> Result<FragmentSpread, AllocError> {
    Ok(FragmentSpread {
        directives: directives(alloc)?,
        ..FragmentSpread::new(alloc, name!(F))
    })
}

/// What stands before the lists that an argument of a directive has.
fn check_types<R: Abort>(lists: &Deep<'_, R>) {
    let alloc = lists.alloc;
    lists.take((scalar(alloc), scalar(alloc)), "scalar N @d(x: ", ")");
    lists.take((object(alloc), object(alloc)), "type N @d(x: ", ")");
    let trees = (interface(alloc), interface(alloc));
    lists.take(trees, "interface N @d(x: ", ")");
    lists.take((union(alloc), union(alloc)), "union N @d(x: ", ")");
}

fn check_enums_and_inputs<R: Abort>(lists: &Deep<'_, R>) {
    let alloc = lists.alloc;
    let trees = (enumeration(alloc), enumeration(alloc));
    lists.take(trees, "enum N @d(x: ", ")");
    lists.take((input(alloc), input(alloc)), "input N @d(x: ", ")");
    lists.take((enum_value(alloc), enum_value(alloc)), "A @d(x: ", ")");
}

fn check_extensions<R: Abort>(lists: &Deep<'_, R>) {
    let alloc = lists.alloc;
    let trees = (schema_extension(alloc), schema_extension(alloc));
    lists.take(trees, "extend schema @d(x: ", ")");
    let trees = (scalar_extension(alloc), scalar_extension(alloc));
    lists.take(trees, "extend scalar N @d(x: ", ")");
    let trees = (object_extension(alloc), object_extension(alloc));
    lists.take(trees, "extend type N @d(x: ", ")");
    let trees = (interface_extension(alloc), interface_extension(alloc));
    lists.take(trees, "extend interface N @d(x: ", ")");
}

fn check_extensions_of_members<R: Abort>(lists: &Deep<'_, R>) {
    let alloc = lists.alloc;
    let trees = (union_extension(alloc), union_extension(alloc));
    lists.take(trees, "extend union N @d(x: ", ")");
    let trees = (enum_extension(alloc), enum_extension(alloc));
    lists.take(trees, "extend enum N @d(x: ", ")");
    let trees = (input_extension(alloc), input_extension(alloc));
    lists.take(trees, "extend input N @d(x: ", ")");
}

fn value_of(node: Result<Node<Value>, AllocError>) -> Result<Value, AllocError> {
    match node {
        Ok(node) => (*node).clone(),
        Err(error) => Err(error),
    }
}

/// `schema @d(x: [[..[]..]]) { query: Q }`
fn schema(alloc: Global) -> Result<SchemaDefinition, AllocError> {
    let root = Node::new(alloc, (OperationType::Query, name!(Q)))?;
    Ok(SchemaDefinition {
        directives: directives(alloc)?,
        root_operations: vec![in alloc; root]?,
        ..SchemaDefinition::new(alloc)
    })
}

/// `x: Int = [[..[]..]]`
fn input_value(alloc: Global) -> Result<InputValueDefinition, AllocError> {
    let ty = Node::new(alloc, ty!(Int))?;
    Ok(InputValueDefinition {
        default_value: Some(lists(alloc)?),
        ..InputValueDefinition::new(alloc, name!(x), ty)
    })
}

/// `directive @d(x: Int = [[..[]..]]) on FIELD`
fn directive_definition(alloc: Global) -> Result<DirectiveDefinition, AllocError> {
    let input = Node::new(alloc, input_value(alloc)?)?;
    Ok(DirectiveDefinition {
        arguments: vec![in alloc; input]?,
        locations: vec![in alloc; DirectiveLocation::Field]?,
        ..DirectiveDefinition::new(alloc, name!(d))
    })
}

fn check_values<R: Abort>(values: &Deep<'_, R>) {
    let alloc = values.alloc;
    let trees = (value_of(lists(alloc)), value_of(lists(alloc)));
    values.take(trees, "", "");
    values.take((input_value(alloc), input_value(alloc)), "x: Int = ", "");
}

fn check_objects(rt: &impl Abort, alloc: Global) {
    let inner = nested(alloc, "{k: ", "{}", "}").expect(rt, "memory");
    let values = Deep::of(rt, alloc, inner.as_str(), (999, 0));
    let trees = (value_of(objects(alloc)), value_of(objects(alloc)));
    values.take(trees, "", "");
}

fn check_directives<R: Abort>(lists: &Deep<'_, R>) {
    let alloc = lists.alloc;
    lists.take((directive(alloc), directive(alloc)), "@d(x: ", ")");
    lists.take((directives(alloc), directives(alloc)), " @d(x: ", ")");
    let trees = (directive_definition(alloc), directive_definition(alloc));
    lists.take(trees, "directive @d(x: Int = ", ") on FIELD");
    let trees = (schema(alloc), schema(alloc));
    lists.take(trees, "schema @d(x: ", ") { query: Q }");
    lists.take((spread(alloc), spread(alloc)), "...F @d(x: ", ")");
}

/// Values themselves and a default value nest one less deep than what stands in an argument.
#[test]
fn lists_and_objects_nest_in_each_kind(rt: HostRuntime) {
    let alloc = rt.alloc();
    let inner = nested(alloc, "[", "[]", "]").expect(&rt, "memory");
    check_values(&Deep::of(&rt, alloc, inner.as_str(), (999, 0)));
    check_objects(&rt, alloc);
    let lists = Deep::of(&rt, alloc, inner.as_str(), (1000, 0));
    check_directives(&lists);
    check_types(&lists);
    check_enums_and_inputs(&lists);
    check_extensions(&lists);
    check_extensions_of_members(&lists);
}

/// `f { a { a .. { a } .. } }`
fn field(alloc: Global) -> Result<Field, AllocError> {
    let mut field = Field::new(alloc, name!(f));
    field.selection_set = sets(alloc)?;
    Ok(field)
}

fn selection(alloc: Global) -> Result<Selection, AllocError> {
    Selection::field(alloc, field(alloc)?)
}

fn inline_fragment(alloc: Global) -> Result<InlineFragment, AllocError> {
    let mut fragment = InlineFragment::new(alloc);
    fragment.selection_set = sets(alloc)?;
    Ok(fragment)
}

fn fragment(alloc: Global) -> Result<FragmentDefinition, AllocError> {
    let mut fragment = FragmentDefinition::new(alloc, name!(F), name!(T));
    fragment.selection_set = sets(alloc)?;
    Ok(fragment)
}

fn operation(alloc: Global) -> Result<OperationDefinition, AllocError> {
    let mut query = OperationDefinition::new(alloc, OperationType::Query);
    query.selection_set = sets(alloc)?;
    Ok(query)
}

fn definition(alloc: Global) -> Result<Definition, AllocError> {
    Ok(Definition::from(Node::new(alloc, operation(alloc)?)?))
}

fn only_definition(alloc: Global) -> Result<Document, AllocError> {
    Ok(document(alloc, vec![in alloc; definition(alloc)?]?))
}

/// `$v: [[..Int..]]`
fn variable(alloc: Global) -> Result<VariableDefinition, AllocError> {
    let ty = Node::new(alloc, list_types(alloc)?)?;
    Ok(VariableDefinition::new(alloc, name!(v), ty))
}

/// `x: [[..Int..]]`
fn typed_input(alloc: Global) -> Result<InputValueDefinition, AllocError> {
    let ty = Node::new(alloc, list_types(alloc)?)?;
    Ok(InputValueDefinition::new(alloc, name!(x), ty))
}

/// `f: [[..Int..]]`
fn typed_field(alloc: Global) -> Result<FieldDefinition, AllocError> {
    Ok(FieldDefinition::new(alloc, name!(f), list_types(alloc)?))
}

/// `type T { f: [[..Int..]] }`
fn typed_object(alloc: Global) -> Result<Document, AllocError> {
    let mut object = ObjectTypeDefinition::new(alloc, name!(T));
    object.fields.push(Node::new(alloc, typed_field(alloc)?)?)?;
    let mut document = Document::new(alloc);
    document.push(alloc, object)?;
    Ok(document)
}

fn check_selections<R: Abort>(sets: &Deep<'_, R>) {
    let alloc = sets.alloc;
    sets.take((field(alloc), field(alloc)), "f ", "");
    sets.take((selection(alloc), selection(alloc)), "f ", "");
    let trees = (inline_fragment(alloc), inline_fragment(alloc));
    sets.take(trees, "... ", "");
}

fn check_definitions<R: Abort>(sets: &Deep<'_, R>) {
    let alloc = sets.alloc;
    sets.take((fragment(alloc), fragment(alloc)), "fragment F on T ", "");
    sets.take((operation(alloc), operation(alloc)), "", "");
    sets.take((definition(alloc), definition(alloc)), "", "");
    sets.take((only_definition(alloc), only_definition(alloc)), "", "");
}

fn check_sets(rt: &impl Abort, alloc: Global) {
    let inner = nested(alloc, "{ a ", "{ a }", " }").expect(rt, "memory");
    check_equal(rt, inner.len(), 5999);
    let sets = Deep::of(rt, alloc, inner.as_str(), (1000, 0));
    check_selections(&sets);
    check_definitions(&sets);
}

/// List types, which are around no group.
fn check_typed<R: Abort>(types: &Deep<'_, R>) {
    let alloc = types.alloc;
    types.take((variable(alloc), variable(alloc)), "$v: ", "");
    types.take((typed_input(alloc), typed_input(alloc)), "x: ", "");
    types.take((typed_field(alloc), typed_field(alloc)), "f: ", "");
}

/// A list type by itself.
fn check_type(rt: &impl Abort, alloc: Global, wanted: &str) {
    let ty = list_types(alloc).expect(rt, "memory");
    let text = format!(in alloc; "{ty}").expect(rt, "memory");
    check_equal(rt, text.as_str(), wanted);
    let copy = ty.clone().expect(rt, "memory");
    let other = list_types(alloc).expect(rt, "memory");
    check_equal(rt, copy == other, true);
}

#[test]
fn sets_and_list_types_nest_in_each_kind_that_has_them(rt: HostRuntime) {
    let alloc = rt.alloc();
    check_sets(&rt, alloc);
    let inner = nested(alloc, "[", "[Int]", "]").expect(&rt, "memory");
    check_typed(&Deep::of(&rt, alloc, inner.as_str(), (0, 1000)));
    let types = Deep::of(&rt, alloc, inner.as_str(), (1, 1000));
    let trees = (typed_object(alloc), typed_object(alloc));
    types.take(trees, "type T { f: ", " }");
    check_type(&rt, alloc, inner.as_str());
}
