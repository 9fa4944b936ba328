//! How many bytes the parts of a tree take where they stand.
use crate::checks::check_equal;
use graphql_base::name::Name;
use graphql_base::node::{Node, NodeStr};
use graphql_values::value::Value;
use std::mem::size_of;

#[test]
fn the_parts_of_a_tree_are_small(rt: HostRuntime) {
    check_equal(&rt, size_of::<Name>(), 32);
    check_equal(&rt, size_of::<Node<Value>>(), 24);
    check_equal(&rt, size_of::<NodeStr>(), 24);
    check_equal(&rt, size_of::<Value>(), 40);
    check_equal(&rt, size_of::<(Name, Node<Value>)>(), 56);
}
