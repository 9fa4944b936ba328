//! Builds the schema of a shop, and prints it.
#![tactic(auto)]

use anyhow::Result;
use graphql_ast::ast::*;
use graphql_ast::node::NodeStr;
use graphql_ast::{Node, name, ty, value};
use std::alloc::{AllocError, Global};

fn schema(alloc: Global) -> Result<SchemaDefinition, AllocError> {
    let url = Node::new(alloc, value!(in alloc; "https://specs.example/shop")?)?;
    let mut link = Directive::new(alloc, name!(link));
    link.arguments = vec![in alloc; Argument::new_node(alloc, name!(url), url)?]?;
    let query = Node::new(alloc, (OperationType::Query, name!(Query)))?;
    Ok(SchemaDefinition {
        description: Some(NodeStr::new_str(alloc, "The shop")?),
        directives: DirectiveList::of(alloc, link)?,
        root_operations: vec![in alloc; query]?,
    })
}

/// `role: Role! = USER`
fn role_argument(alloc: Global) -> Result<Node<InputValueDefinition>, AllocError> {
    let mut role = InputValueDefinition::new(alloc, name!(role), Node::new(alloc, ty!(Role!))?);
    role.default_value = Some(Node::new(alloc, value!(in alloc; USER)?)?);
    Node::new(alloc, role)
}

/// `scopes: [String!] = []`
fn scopes_argument(alloc: Global) -> Result<Node<InputValueDefinition>, AllocError> {
    let strings = Node::new(alloc, ty!(in alloc; [String!])?)?;
    let mut scopes = InputValueDefinition::new(alloc, name!(scopes), strings);
    scopes.default_value = Some(Node::new(alloc, value!(in alloc; [])?)?);
    Node::new(alloc, scopes)
}

fn auth(alloc: Global) -> Result<DirectiveDefinition, AllocError> {
    let mut auth = DirectiveDefinition::new(alloc, name!(auth));
    auth.description = Some(NodeStr::new_str(alloc, "Who may ask")?);
    auth.arguments = vec![in alloc; role_argument(alloc)?, scopes_argument(alloc)?]?;
    auth.repeatable = true;
    auth.locations.push(DirectiveLocation::Object)?;
    auth.locations.push(DirectiveLocation::FieldDefinition)?;
    Ok(auth)
}

fn date_time(alloc: Global) -> Result<ScalarTypeDefinition, AllocError> {
    let url = Node::new(
        alloc,
        value!(in alloc; "https://scalars.example/date-time")?,
    )?;
    let mut specified_by = Directive::new(alloc, name!(specifiedBy));
    specified_by.arguments = vec![in alloc; Argument::new_node(alloc, name!(url), url)?]?;
    let mut date_time = ScalarTypeDefinition::new(alloc, name!(DateTime));
    date_time.description = Some(NodeStr::new_str(alloc, "An RFC 3339 time")?);
    date_time.directives = DirectiveList::of(alloc, specified_by)?;
    Ok(date_time)
}

fn node(alloc: Global) -> Result<InterfaceTypeDefinition, AllocError> {
    let mut id = FieldDefinition::new(alloc, name!(id), ty!(ID!));
    id.description = Some(NodeStr::new_str(alloc, "Unique")?);
    let mut node = InterfaceTypeDefinition::new(alloc, name!(Node));
    node.description = Some(NodeStr::new_str(alloc, "What has an id")?);
    node.fields = vec![in alloc; Node::new(alloc, id)?]?;
    Ok(node)
}

/// `price(currency: Currency = EUR): Float!`
fn price(alloc: Global, told: Option<NodeStr>) -> Result<Node<FieldDefinition>, AllocError> {
    let ty = Node::new(alloc, ty!(Currency))?;
    let mut currency = InputValueDefinition::new(alloc, name!(currency), ty);
    currency.default_value = Some(Node::new(alloc, value!(in alloc; EUR)?)?);
    let mut price = FieldDefinition::new(alloc, name!(price), ty!(Float!));
    price.description = told;
    price.arguments = vec![in alloc; Node::new(alloc, currency)?]?;
    Node::new(alloc, price)
}

fn priced(alloc: Global) -> Result<InterfaceTypeDefinition, AllocError> {
    let id = FieldDefinition::new(alloc, name!(id), ty!(ID!));
    let mut priced = InterfaceTypeDefinition::new(alloc, name!(Priced));
    priced.implements_interfaces = vec![in alloc; name!(Node)]?;
    priced.fields = vec![in alloc; Node::new(alloc, id)?, price(alloc, None)?]?;
    Ok(priced)
}

/// `first: Int = 10`
fn first(alloc: Global) -> Result<Node<InputValueDefinition>, AllocError> {
    let mut first = InputValueDefinition::new(alloc, name!(first), Node::new(alloc, ty!(Int))?);
    first.default_value = Some(Node::new(alloc, value!(in alloc; 10)?)?);
    Node::new(alloc, first)
}

/// `reviews(first: Int = 10, after: ID): [Review!]!`
fn reviews(alloc: Global) -> Result<Node<FieldDefinition>, AllocError> {
    let after = InputValueDefinition::new(alloc, name!(after), Node::new(alloc, ty!(ID))?);
    let mut reviews = FieldDefinition::new(alloc, name!(reviews), ty!(in alloc; [Review!]!)?);
    reviews.arguments = vec![in alloc; first(alloc)?, Node::new(alloc, after)?]?;
    Node::new(alloc, reviews)
}

/// `oldName: String @deprecated(reason: "use `name`")`
fn old_name(alloc: Global) -> Result<Node<FieldDefinition>, AllocError> {
    let reason = Node::new(alloc, value!(in alloc; "use `name`")?)?;
    let mut deprecated = Directive::new(alloc, name!(deprecated));
    deprecated.arguments = vec![in alloc; Argument::new_node(alloc, name!(reason), reason)?]?;
    let mut old_name = FieldDefinition::new(alloc, name!(oldName), ty!(String));
    old_name.directives = DirectiveList::of(alloc, deprecated)?;
    Node::new(alloc, old_name)
}

fn product_fields(alloc: Global) -> Result<Vec<Node<FieldDefinition>>, AllocError> {
    let taxes = "In the currency that is asked for.\nTaxes are \"in\".";
    let mut fields = Vec::new(alloc);
    fields.push(Node::new(alloc, FieldDefinition::new(alloc, name!(id), ty!(ID!)))?)?;
    fields.push(Node::new(
        alloc,
        FieldDefinition::new(alloc, name!(name), ty!(String!)),
    )?)?;
    fields.push(price(alloc, Some(NodeStr::new_str(alloc, taxes)?))?)?;
    fields.push(reviews(alloc)?)?;
    fields.push(old_name(alloc)?)?;
    fields.push(Node::new(
        alloc,
        FieldDefinition::new(alloc, name!(added), ty!(DateTime)),
    )?)?;
    Ok(fields)
}

fn product(alloc: Global) -> Result<ObjectTypeDefinition, AllocError> {
    let guest = Node::new(alloc, value!(in alloc; GUEST)?)?;
    let mut auth = Directive::new(alloc, name!(auth));
    auth.arguments = vec![in alloc; Argument::new_node(alloc, name!(role), guest)?]?;
    let mut product = ObjectTypeDefinition::new(alloc, name!(Product));
    product.description = Some(NodeStr::new_str(alloc, "What the shop sells")?);
    product.implements_interfaces = vec![in alloc; name!(Node), name!(Priced)]?;
    product.directives = DirectiveList::of(alloc, auth)?;
    product.fields = product_fields(alloc)?;
    Ok(product)
}

fn review(alloc: Global) -> Result<ObjectTypeDefinition, AllocError> {
    let mut review = ObjectTypeDefinition::new(alloc, name!(Review));
    review.implements_interfaces = vec![in alloc; name!(Node)]?;
    review.fields.push(Node::new(alloc, FieldDefinition::new(alloc, name!(id), ty!(ID!)))?)?;
    review.fields.push(Node::new(alloc, FieldDefinition::new(alloc, name!(stars), ty!(Int!)))?)?;
    review.fields.push(Node::new(alloc, FieldDefinition::new(alloc, name!(text), ty!(String)))?)?;
    Ok(review)
}

/// `search(filter: SearchFilter!): [SearchResult!]!`
fn search(alloc: Global) -> Result<Node<FieldDefinition>, AllocError> {
    let ty = Node::new(alloc, ty!(SearchFilter!))?;
    let filter = InputValueDefinition::new(alloc, name!(filter), ty);
    let mut search = FieldDefinition::new(alloc, name!(search), ty!(in alloc; [SearchResult!]!)?);
    search.arguments = vec![in alloc; Node::new(alloc, filter)?]?;
    Node::new(alloc, search)
}

fn query(alloc: Global) -> Result<ObjectTypeDefinition, AllocError> {
    let id = InputValueDefinition::new(alloc, name!(id), Node::new(alloc, ty!(ID!))?);
    let mut node = FieldDefinition::new(alloc, name!(node), ty!(Node));
    node.arguments = vec![in alloc; Node::new(alloc, id)?]?;
    let mut query = ObjectTypeDefinition::new(alloc, name!(Query));
    query.fields = vec![in alloc; Node::new(alloc, node)?, search(alloc)?]?;
    Ok(query)
}

fn search_result(alloc: Global) -> Result<UnionTypeDefinition, AllocError> {
    let mut result = UnionTypeDefinition::new(alloc, name!(SearchResult));
    result.members = vec![in alloc; name!(Product), name!(Review)]?;
    Ok(result)
}

/// `"Gone" DEM @deprecated(reason: "euro")`
fn mark(alloc: Global) -> Result<Node<EnumValueDefinition>, AllocError> {
    let reason = Node::new(alloc, value!(in alloc; "euro")?)?;
    let mut deprecated = Directive::new(alloc, name!(deprecated));
    deprecated.arguments = vec![in alloc; Argument::new_node(alloc, name!(reason), reason)?]?;
    let mut mark = EnumValueDefinition::new(alloc, name!(DEM));
    mark.description = Some(NodeStr::new_str(alloc, "Gone")?);
    mark.directives = DirectiveList::of(alloc, deprecated)?;
    Node::new(alloc, mark)
}

fn currency(alloc: Global) -> Result<EnumTypeDefinition, AllocError> {
    let mut currency = EnumTypeDefinition::new(alloc, name!(Currency));
    currency.values.push(Node::new(alloc, EnumValueDefinition::new(alloc, name!(EUR)))?)?;
    currency.values.push(Node::new(alloc, EnumValueDefinition::new(alloc, name!(USD)))?)?;
    currency.values.push(mark(alloc)?)?;
    Ok(currency)
}

fn role(alloc: Global) -> Result<EnumTypeDefinition, AllocError> {
    let mut role = EnumTypeDefinition::new(alloc, name!(Role));
    role.values.push(Node::new(alloc, EnumValueDefinition::new(alloc, name!(GUEST)))?)?;
    role.values.push(Node::new(alloc, EnumValueDefinition::new(alloc, name!(USER)))?)?;
    role.values.push(Node::new(alloc, EnumValueDefinition::new(alloc, name!(ADMIN)))?)?;
    Ok(role)
}

/// `tags: [String!] = ["new"]`
fn tags(alloc: Global) -> Result<Node<InputValueDefinition>, AllocError> {
    let strings = Node::new(alloc, ty!(in alloc; [String!])?)?;
    let mut tags = InputValueDefinition::new(alloc, name!(tags), strings);
    tags.default_value = Some(Node::new(alloc, value!(in alloc; ["new"])?)?);
    Node::new(alloc, tags)
}

/// `maxPrice: Float = 99.5`
fn max_price(alloc: Global) -> Result<Node<InputValueDefinition>, AllocError> {
    let mut max = InputValueDefinition::new(alloc, name!(maxPrice), Node::new(alloc, ty!(Float))?);
    max.default_value = Some(Node::new(alloc, value!(in alloc; 99.5)?)?);
    Node::new(alloc, max)
}

/// `range: Range = {min: 0, max: 10}`
fn range(alloc: Global) -> Result<Node<InputValueDefinition>, AllocError> {
    let mut range = InputValueDefinition::new(alloc, name!(range), Node::new(alloc, ty!(Range))?);
    range.default_value = Some(Node::new(alloc, value!(in alloc; {min: 0, max: 10})?)?);
    Node::new(alloc, range)
}

fn search_filter(alloc: Global) -> Result<InputObjectTypeDefinition, AllocError> {
    let text = InputValueDefinition::new(alloc, name!(text), Node::new(alloc, ty!(String!))?);
    let text = Node::new(alloc, text)?;
    let mut filter = InputObjectTypeDefinition::new(alloc, name!(SearchFilter));
    filter.fields = vec![in alloc; text, tags(alloc)?, max_price(alloc)?, range(alloc)?]?;
    Ok(filter)
}

/// `extend type Query { me: Node @auth }` and `extend enum Currency { GBP }`
fn extend(alloc: Global, document: &mut Document) -> Result<(), AllocError> {
    let mut me = FieldDefinition::new(alloc, name!(me), ty!(Node));
    me.directives = DirectiveList::of(alloc, Directive::new(alloc, name!(auth)))?;
    let mut query = ObjectTypeExtension::new(alloc, name!(Query));
    query.fields = vec![in alloc; Node::new(alloc, me)?]?;
    document.push(alloc, query)?;
    let mut currency = EnumTypeExtension::new(alloc, name!(Currency));
    currency.values.push(Node::new(alloc, EnumValueDefinition::new(alloc, name!(GBP)))?)?;
    document.push(alloc, currency)
}

fn push_types(alloc: Global, document: &mut Document) -> Result<(), AllocError> {
    document.push(alloc, node(alloc)?)?;
    document.push(alloc, priced(alloc)?)?;
    document.push(alloc, product(alloc)?)?;
    document.push(alloc, review(alloc)?)?;
    document.push(alloc, query(alloc)?)?;
    document.push(alloc, search_result(alloc)?)?;
    document.push(alloc, currency(alloc)?)?;
    document.push(alloc, role(alloc)?)?;
    document.push(alloc, search_filter(alloc)?)
}

fn main(rt: HostRuntime) -> Result<()> {
    let alloc = rt.alloc();
    let mut document = Document::new(alloc);
    document.push(alloc, schema(alloc)?)?;
    document.push(alloc, auth(alloc)?)?;
    document.push(alloc, date_time(alloc)?)?;
    push_types(alloc, &mut document)?;
    extend(alloc, &mut document)?;
    print!(rt; "{document}")?;
    Ok(())
}
