//! Clones and prints where memory is ample.
ghost use Rattle.std.specs.Prelude.{◌≡◌, None, OnOk, encode_utf8_all, true};
ghost use Rattle.graphql_text.specs.kinds.Kinds.{layout_of};
ghost use Rattle.graphql_text.specs.kinds.Printing.{print_bytes};

use crate::mismatch::{Mismatch, check_text};
use graphql_text::engine::{Serialize, Syntax};
use graphql_text::sink::{TextSink, VecSink};
use std::alloc::Global;

/// That a clone is made and is equal.
///
/// ```
/// check_cloned(&tree).expect(&rt, "a clone");
/// ```
pub fn check_cloned<T: Clone + PartialEq + Drop>(original: &T) -> Result<(), Mismatch>
    ensures { OnOk result ((copy : T) × T.is_clone original.now copy
        × (T.eq copy original.now ≡ true)) }
{
    if original.clone()? == *original {
        Ok(())
    } else {
        Err(Mismatch::Clone)
    }
}

/// That a print makes this text, and that a sink takes the same of it without a fault.
///
/// ```
/// check_print(alloc, tree.serialize().no_indent(), "query { a }").expect(&rt, "a print");
/// ```
pub fn check_print<T: Syntax>(
    alloc: Global,
    print: Serialize<'_, T>,
    wanted: &str,
) -> Result<(), Mismatch>
    ensures { OnOk result (print_bytes T.kind T.tree print.entry ≡ wanted.now) }
{
    check_text(print.to_text(alloc)?, wanted)?;
    let mut sink = VecSink::new(alloc);
    print.print_to(&mut sink)?;
    let faults = sink.faults();
    if faults == 0 && sink.bytes() == wanted.as_bytes() {
        Ok(())
    } else {
        Err(Mismatch::Sink(sink.into_bytes(), faults))
    }
}

/// That a tree has this text on one line, as `check_print` says, and is well formed or not.
///
/// ```
/// check_line(alloc, &query, "query {}", false).expect(&rt, "a query");
/// ```
pub fn check_line<T: Syntax>(
    alloc: Global,
    tree: &T,
    wanted: &str,
    is_well_formed: bool,
) -> Result<(), Mismatch>
    ensures text { OnOk result
        (encode_utf8_all (layout_of T.kind None 0 (T.tree tree.now)) ≡ wanted.now) }
    ensures obeys { OnOk result (T.kind.obeys (T.tree tree.now) ≡ is_well_formed) }
{
    if tree.is_well_formed() != is_well_formed {
        return Err(Mismatch::WellFormed(!is_well_formed));
    }
    check_print(alloc, Serialize::new(tree).no_indent(), wanted)
}
