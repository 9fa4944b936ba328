//! What holds of lists of directives as they are looked up.
ghost use Rattle.std.specs.Prelude.{◌≡◌, ◌≢◌, ◌↔◌, [], IsTrue, slice_get};
ghost use Rattle.std.specs.Iterator.{IsFinite};
ghost use Rattle.graphql_values.specs.code.Queries.{all_directives_named, first_directive_named, has_directive_named};

use crate::directive_list::{DirectiveList, GetAll};

/// There is a directive of a name exactly if all of that name are some, and then the first is the first of these.
pub fn directive_look_ups_agree(list: &DirectiveList, name: &str)
    ensures has { IsTrue (has_directive_named name.now list.now.0.items)
        ↔ (all_directives_named name.now list.now.0.items ≢ []) }
    ensures first { first_directive_named name.now list.now.0.items
        ≡ slice_get (all_directives_named name.now list.now.0.items) 0 }
{}

/// The directives of a name come to an end.
pub fn get_all_ends<'l, 'n>(all: &GetAll<'l, 'n>)
    ensures { IsFinite (⟦<GetAll<'l, 'n> as Iterator>⟧.remaining all.now) }
{}
