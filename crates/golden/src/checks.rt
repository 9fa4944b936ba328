//! What is compared with a case.
use crate::case::PrintCase;
use crate::difference::Difference;
use crate::sink::ByteSink;
use graphql_ast::ill_formed::IllFormed;
use graphql_ast::serialize::{PrintError, Serialize, Syntax};
use graphql_ast::sink::{StreamSink, TextSink, VecSink};
use std::alloc::{AllocError, Global};
use std::fmt;
use std::fmt::{Display, Formatter, Write};

/// What is asked of AST JSON or a tree: whether it is read and written as the case wants, by a value and as text, whether
/// the tree is well formed, why it isn't, or its text, in one of the ways in which it can be printed.
#[derive(Clone, Copy, Debug, PartialEq, Eq)]
pub enum Check {
    AstJson,
    AstJsonText,
    WellFormed,
    IllFormed,
    ToText,
    Display,
    TreeDisplay,
    VecSink,
    StreamSink,
    ByteSink,
}

/// Those that are asked of a tree alone.
const CHECKS: [Check; 8] = [
    Check::WellFormed,
    Check::IllFormed,
    Check::ToText,
    Check::Display,
    Check::TreeDisplay,
    Check::VecSink,
    Check::StreamSink,
    Check::ByteSink,
];

impl Check {
    /// What is found other than the case wants, if it is.
    fn difference<T: Syntax + Display>(
        self,
        alloc: Global,
        case: &PrintCase,
        tree: &T,
    ) -> Result<Option<Difference>, AllocError> {
        let print = print_of(case, tree);
        let found = match self {
            Check::AstJson | Check::AstJsonText => return Ok(None),
            Check::WellFormed => return of_answer(alloc, case, tree.is_well_formed()),
            Check::IllFormed => return of_flaw(alloc, case, tree.find_ill_formed()),
            Check::ToText => of_text(alloc, &print)?,
            Check::Display => displayed(alloc, &print)?,
            Check::TreeDisplay if !is_in_default_layout(case) => return Ok(None),
            Check::TreeDisplay => displayed(alloc, tree)?,
            Check::VecSink => put_into_vec(alloc, &print)?,
            Check::StreamSink => put_into_writer(alloc, &print)?,
            Check::ByteSink => put_bytewise(alloc, &print)?,
        };
        of_print(alloc, self, case, &found)
    }
}

impl Display for Check {
    fn fmt<W: Write>(&self, f: &mut Formatter<W>) -> fmt::Result {
        f.write_str(match self {
            Check::AstJson => "AST JSON",
            Check::AstJsonText => "AST JSON as text",
            Check::WellFormed => "is_well_formed",
            Check::IllFormed => "find_ill_formed",
            Check::ToText => "to_text",
            Check::Display => "Display of Serialize",
            Check::TreeDisplay => "Display of the tree",
            Check::VecSink => "print_to a VecSink",
            Check::StreamSink => "print_to a StreamSink",
            Check::ByteSink => "print_to a sink that takes one byte a call",
        })
    }
}

/// What the first check that a tree doesn't pass finds, if there is one.
pub fn first_failed<T: Syntax + Display>(
    alloc: Global,
    case: &PrintCase,
    tree: &T,
) -> Result<Option<Difference>, AllocError> {
    for check in CHECKS {
        if let Some(difference) = check.difference(alloc, case, tree)? {
            return Ok(Some(difference));
        }
    }
    Ok(None)
}

/// The tree, in the layout of the case.
fn print_of<'a, T: Syntax>(case: &'a PrintCase, tree: &'a T) -> Serialize<'a, T> {
    let print = Serialize::new(tree).initial_indent_level(case.level);
    match &case.prefix {
        Some(prefix) => print.indent_prefix(prefix.as_str()),
        None => print.no_indent(),
    }
}

/// Whether a tree that is displayed itself has the layout of the case.
fn is_in_default_layout(case: &PrintCase) -> bool {
    case.prefix.as_deref() == Some("  ") && case.level == 0
}

/// What a print came to: how it ended, the bytes that were written, and the faults of the sink.
#[derive(Drop)]
struct Found {
    end: End,
    bytes: Vec<u8>,
    faults: u64,
}

/// How a print ended. A display doesn't say why it failed.
#[derive(Clone, Copy, PartialEq, Eq)]
enum End {
    Whole,
    Refused(PrintError),
    Failed,
}

impl Display for End {
    fn fmt<W: Write>(&self, f: &mut Formatter<W>) -> fmt::Result {
        match self {
            End::Whole => f.write_str("the whole print"),
            End::Refused(error) => write!(f, "{error}"),
            End::Failed => f.write_str("a failure"),
        }
    }
}

fn end_of(printed: Result<(), PrintError>) -> End {
    match printed {
        Ok(()) => End::Whole,
        Err(error) => End::Refused(error),
    }
}

impl Found {
    /// Whether it is what the case wants.
    fn is_wanted(&self, case: &PrintCase) -> bool {
        if self.faults != 0 {
            return false;
        }
        match &case.text {
            Some(text) => self.end == End::Whole && self.bytes.as_slice() == text.as_bytes(),
            None => self.is_overflow() && self.bytes.is_empty(),
        }
    }

    fn is_overflow(&self) -> bool {
        matches!(
            self.end,
            End::Refused(PrintError::LevelOverflow) | End::Failed
        )
    }

    /// The text, or how the print ended in the place of one.
    fn told(&self, alloc: Global) -> Result<String, AllocError> {
        let text = String::from_utf8_lossy(alloc, self.bytes.as_slice())?;
        if self.end == End::Whole && self.faults == 0 {
            return Ok(text);
        }
        format!(in alloc; "{text}<{} with {} faults>", self.end, self.faults)
    }
}

/// The difference of a print from what the case wants, if there is one.
fn of_print(
    alloc: Global,
    check: Check,
    case: &PrintCase,
    found: &Found,
) -> Result<Option<Difference>, AllocError> {
    if found.is_wanted(case) {
        return Ok(None);
    }
    let wanted = match &case.text {
        Some(text) => text.as_str(),
        None => "<indentation level overflow with 0 faults>",
    };
    let found = found.told(alloc)?;
    Ok(Some(Difference::new(alloc, check, wanted, found.as_str())?))
}

/// The difference of the answer of `is_well_formed` from what the case wants, if there is one.
fn of_answer(
    alloc: Global,
    case: &PrintCase,
    is_well_formed: bool,
) -> Result<Option<Difference>, AllocError> {
    if is_well_formed == case.well_formed {
        return Ok(None);
    }
    let wanted = format!(in alloc; "{}", case.well_formed)?;
    let found = format!(in alloc; "{is_well_formed}")?;
    Ok(Some(Difference::new(alloc, Check::WellFormed, wanted.as_str(), found.as_str())?))
}

/// The difference of the answer of `find_ill_formed` from what the case wants, if there is one.
fn of_flaw(
    alloc: Global,
    case: &PrintCase,
    ill_formed: Option<IllFormed<'_>>,
) -> Result<Option<Difference>, AllocError> {
    let wanted = told_flaw(alloc, case.flaw.as_ref())?;
    let found = told_flaw(alloc, ill_formed.as_ref())?;
    if wanted == found {
        return Ok(None);
    }
    Ok(Some(Difference::new(alloc, Check::IllFormed, wanted.as_str(), found.as_str())?))
}

/// A flaw in one line, or that there is none.
fn told_flaw<T: Display>(alloc: Global, flaw: Option<&T>) -> Result<String, AllocError> {
    match flaw {
        Some(flaw) => format!(in alloc; "{flaw}"),
        None => format!(in alloc; "no flaw"),
    }
}

fn of_text<T: Syntax>(alloc: Global, print: &Serialize<'_, T>) -> Result<Found, AllocError> {
    let (end, text) = match print.to_text(alloc) {
        Ok(text) => (End::Whole, text),
        Err(error) => (End::Refused(error), String::new(alloc)),
    };
    Ok(Found {
        end,
        bytes: text.into_bytes(),
        faults: 0,
    })
}

fn displayed<T: Display>(alloc: Global, printed: &T) -> Result<Found, AllocError> {
    let mut shown = String::new(alloc);
    let end = match write!(shown, "{printed}") {
        Ok(()) => End::Whole,
        Err(_) => End::Failed,
    };
    Ok(Found {
        end,
        bytes: shown.into_bytes(),
        faults: 0,
    })
}

fn put_into_vec<T: Syntax>(alloc: Global, print: &Serialize<'_, T>) -> Result<Found, AllocError> {
    let mut sink = VecSink::new(alloc);
    let end = end_of(print.print_to(&mut sink));
    let faults = sink.faults();
    Ok(Found {
        end,
        bytes: sink.into_bytes(),
        faults,
    })
}

fn put_into_writer<T: Syntax>(
    alloc: Global,
    print: &Serialize<'_, T>,
) -> Result<Found, AllocError> {
    let mut sink = StreamSink::new(Vec::new(alloc));
    let end = end_of(print.print_to(&mut sink));
    let faults = sink.faults();
    Ok(Found {
        end,
        bytes: sink.into_inner(),
        faults,
    })
}

fn put_bytewise<T: Syntax>(alloc: Global, print: &Serialize<'_, T>) -> Result<Found, AllocError> {
    let mut sink = ByteSink::new(alloc);
    let end = end_of(print.print_to(&mut sink));
    let faults = sink.faults();
    Ok(Found {
        end,
        bytes: Vec::from_slice(alloc, sink.bytes())?,
        faults,
    })
}
