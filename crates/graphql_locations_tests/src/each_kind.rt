//! A worked tree of each kind without its locations.
use crate::checks::check_equal;
use graphql_locations::Located;
use std::alloc::{AllocError, Global};
use std::process::Abort;
use worked_trees::definitions::{VARIANTS, definition};
use worked_trees::executable::{
    field, fragment_spread, inline_fragment, inline_selection, spread_selection,
    variable_definition,
};
use worked_trees::refused::Refused;
use worked_trees::types::{enum_value_definition, field_definition};
use worked_trees::values::{
    argument, directive, directive_list, input_value_definition, type_reference, value,
};

/// Another one of the same tree is made, or memory for it was refused.
fn check<T: Located + PartialEq + Drop>(
    rt: &impl Abort,
    alloc: Global,
    refused: &mut Refused,
    made: Result<T, AllocError>,
) {
    if let Some(tree) = refused.made(made) {
        if let Some(made) = refused.made(tree.without_locations(alloc)) {
            check_equal(rt, made == tree, true);
        }
    }
}

fn check_values(rt: &impl Abort, alloc: Global, refused: &mut Refused) {
    check(rt, alloc, refused, value(alloc));
    check(rt, alloc, refused, type_reference(alloc));
    check(rt, alloc, refused, argument(alloc));
    check(rt, alloc, refused, directive(alloc));
    check(rt, alloc, refused, directive_list(alloc));
    check(rt, alloc, refused, input_value_definition(alloc));
}

fn check_definition_parts(rt: &impl Abort, alloc: Global, refused: &mut Refused) {
    check(rt, alloc, refused, variable_definition(alloc));
    check(rt, alloc, refused, field_definition(alloc));
    check(rt, alloc, refused, enum_value_definition(alloc));
}

fn check_selections(rt: &impl Abort, alloc: Global, refused: &mut Refused) {
    check(rt, alloc, refused, fragment_spread(alloc));
    check(rt, alloc, refused, spread_selection(alloc));
    check(rt, alloc, refused, inline_fragment(alloc));
    check(rt, alloc, refused, inline_selection(alloc));
    check(rt, alloc, refused, field(alloc));
}

pub(crate) fn check_definitions(rt: &impl Abort, alloc: Global, refused: &mut Refused) {
    for variant in 0..VARIANTS {
        check(rt, alloc, refused, definition(alloc, variant));
    }
}

/// Memory is ample, so each call has to be whole.
#[test]
fn locations_are_taken_out_of_each_kind(rt: HostRuntime) {
    let mut refused = Refused::none();
    check_values(&rt, rt.alloc(), &mut refused);
    check_definition_parts(&rt, rt.alloc(), &mut refused);
    check_selections(&rt, rt.alloc(), &mut refused);
    check_definitions(&rt, rt.alloc(), &mut refused);
    check_equal(&rt, refused.calls, 0);
}
