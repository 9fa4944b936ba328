//! Values are printed: the loop that writes a value, and its `Syntax`.
ghost use Rattle.std.specs.Prelude.{◌≡◌, Some, ◌+◌, ◌≤◌, ◌<◌, ◌++◌, List, [], ◌∷◌, Bool, IfSome, IsNone, false, length, MatchOption};
ghost use Rattle.graphql_text.specs.layout.Layout.{Item, Lower, Tight, Word, last_comma};
ghost use Rattle.graphql_text.specs.lexical.Tokens.{IntValue as IntToken, FloatValue as FloatToken};
ghost use Rattle.graphql_text.specs.layout.Levels.{Fits, IsCount};
ghost use Rattle.graphql_text.specs.code.IllFormed.{IsFirstFlaw};
ghost use Rattle.graphql_text.specs.code.Place.{breaks, mode_of};
ghost use Rattle.graphql_text.specs.kinds.PrintedKinds.{no_types};
ghost use Rattle.graphql_text.specs.kinds.Printing.{IsDefaultPrint, default_bytes};
ghost use Rattle.graphql_text.specs.code.Stack.{CanWrite, IsKept, stack_entries, stack_room};
ghost use Rattle.graphql_text.specs.code.Writing.{IsCommaLead, Writes, WritesAnywhere, WritesBeginning, WritesToLevel, fixed_text};
ghost use Rattle.graphql_values.specs.kinds.Values.{boolean_value, object_fields_nesting, value_kind, value_nesting, value_shape, values_nesting};
ghost use Rattle.graphql_values.specs.trees.Literals.{float_text, int_text};
ghost use Rattle.graphql_values.specs.trees.ValueTrees.{object_field_trees, value_tree, value_trees};
ghost use Rattle.graphql_values.specs.code.ValueWalk.{CanGoOn, GoesOn, OpensValue, entry_items, entry_nesting, need_with, opened_level, opening, opening_word, stack_items, stack_need};
ghost use Rattle.graphql_values.specs.lemmas.Values.{value_laws};

use crate::constness::Constness;
use crate::literal::{FloatValue, IntValue};
use crate::value::Value;
use crate::value::well_formed::{find_ill_formed_value, is_value_well_formed};
use graphql_base::name::Name;
use graphql_base::node::Node;
use graphql_text::engine::{Serialize, Syntax, SyntaxTree};
use graphql_text::ill_formed::IllFormed;
use graphql_text::writers::{
    Depths, Place, ReadyCommaBreak, Stack, Start, Target, Written, ready_comma_lead,
    write_comma_end, write_comma_lead, write_float, write_int, write_name, write_name_then,
    write_padded_float, write_padded_int, write_string_value, write_whole, write_words,
};
use std::alloc::{AllocError, Global};
use std::fmt;

/// A list or an object that is open: what is left of it, and whether nothing of it was written yet.
#[derive(Clone, Copy)]
pub enum ValueEntry<'a> {
    /// The items of a list, and whether the first of them is the list's first.
    Items(&'a [Node<Value>], bool),
    /// The fields of an object, and whether the first of them is the object's first.
    Fields(&'a [(Name, Node<Value>)], bool),
}

/// The nesting depth of the lists and objects that aren't empty. `None` if it is above `usize::MAX`.
#[cycle(nesting)]
#[inline(always)]
#[tactic(auto, using(crate::proofs::layout::ValueShapes::value_nesting_steps))]
pub(crate) fn find_value_nesting(value: &Value) -> Option<usize>
    ensures { IsCount result (value_nesting (value_tree value.now)) }
{
    match value {
        Value::List(items) => find_items_nesting(items.as_slice()),
        Value::Object(fields) => find_fields_nesting(fields.as_slice()),
        Value::Null
        | Value::Enum(_)
        | Value::Variable(_)
        | Value::String(_)
        | Value::Float(_)
        | Value::Int(_)
        | Value::Boolean(_) => Some(0),
    }
}

#[cycle(nesting)]
#[inline(never)]
#[tactic(auto, using(crate::proofs::layout::ValueShapes::nesting_some))]
fn find_items_nesting(items: &[Node<Value>]) -> Option<usize>
    ensures { IsCount result (values_nesting (value_trees items.now)) }
{
    if items.is_empty() {
        return Some(0);
    }
    let mut most = 1;
    for item in items {
        if opening_bracket(item).is_some() {
            most = most.max(find_value_nesting(item)?.checked_add(1)?);
        }
    }
    Some(most)
}

#[cycle(nesting)]
#[inline(never)]
#[tactic(auto, using(crate::proofs::layout::ValueShapes::fields_some))]
fn find_fields_nesting(fields: &[(Name, Node<Value>)]) -> Option<usize>
    ensures { IsCount result (object_fields_nesting (object_field_trees fields.now)) }
{
    if fields.is_empty() {
        return Some(0);
    }
    let mut most = 1;
    for field in fields {
        if opening_bracket(&field.1).is_some() {
            most = most.max(find_value_nesting(&field.1)?.checked_add(1)?);
        }
    }
    Some(most)
}

/// The opening bracket of a list or an object with items. Any other value is written whole at once.
#[inline(always)]
#[tactic(auto, using(crate::proofs::layout::ValueShapes::value_brackets))]
fn opening_bracket(value: &Value) -> Option<&'static str>
    ensures { MatchOption result (opened_level (value_tree value.now) ≡ 0) (λ bracket.
        (opened_level (value_tree value.now) ≡ 1)
        × (fixed_text (opening_word (value_tree value.now)) ≡ Some bracket.now)) }
{
    match value {
        Value::List(items) => (!items.is_empty()).then_some("["),
        Value::Object(fields) => (!fields.is_empty()).then_some("{"),
        Value::Null
        | Value::Enum(_)
        | Value::Variable(_)
        | Value::String(_)
        | Value::Float(_)
        | Value::Int(_)
        | Value::Boolean(_) => None,
    }
}

/// Writes an int.
#[inline(always)]
fn write_int_value<O: Target>(out: &mut O, int: &IntValue)
    ensures { WritesAnywhere O.wrote out.old out.new (Word (IntToken (int_text int.now)) ∷ []) }
{
    match int.short_text() {
        Some(text) => write_padded_int(out, text),
        None => write_int(out, int.as_str()),
    }
}

/// Writes a float.
#[inline(always)]
fn write_float_value<O: Target>(out: &mut O, float: &FloatValue)
    ensures { WritesAnywhere O.wrote out.old out.new
        (Word (FloatToken (float_text float.now)) ∷ []) }
{
    match float.short_text() {
        Some(text) => write_padded_float(out, text),
        None => write_float(out, float.as_str()),
    }
}

/// Writes a value that has no items or fields.
#[inline(always)]
fn write_leaf<O: Target>(out: &mut O, place: &Place<'_>, value: &Value)
    requires { opened_level (value_tree value.now) ≡ 0 }
    ensures { Writes O.wrote out.old out.new place.now
        (value_shape (breaks place.now) (value_tree value.now)) }
{
    match value {
        Value::Null => write_words(out, "null"),
        Value::Enum(name) => write_name(out, name),
        Value::Variable(name) => {
            write_words(out, "$");
            write_name(out, name);
        }
        Value::String(text) => write_string_value(out, place, text.as_str()),
        Value::Float(float) => write_float_value(out, float),
        Value::Int(int) => write_int_value(out, int),
        Value::Boolean(boolean) => write_words(out, boolean_word(*boolean)),
        Value::List(_) => write_words(out, "[]"),
        Value::Object(_) => write_words(out, "{}"),
    }
}

/// The word of a boolean.
fn boolean_word(boolean: bool) -> &'static str
    ensures { (broken : Bool) →
        fixed_text (value_shape broken (boolean_value boolean)) ≡ Some result.now }
{
    if boolean { "true" } else { "false" }
}

/// Puts on the stack what is in a value: the items or fields of a list or an object that has some.
#[inline(always)]
#[tactic(auto, using(crate::proofs::layout::ValueShapes::opening_steps))]
fn put_inner<'a>(stack: &mut Stack<ValueEntry<'a>>, value: &'a Value)
    requires room { need_with (value_tree value.now) (stack_entries stack.old)
        ≤ stack_room stack.old }
    ensures room { stack_room stack.old ≤ stack_room stack.new }
    ensures need { stack_need (stack_entries stack.new)
        ≤ need_with (value_tree value.now) (stack_entries stack.old) }
    ensures level { length (stack_entries stack.new) ≡
        length (stack_entries stack.old) + opened_level (value_tree value.now) }
    ensures items { (broken : Bool) →
        value_shape broken (value_tree value.now) ++ stack_items broken (stack_entries stack.old) ≡
        opening broken (value_tree value.now) ++ stack_items broken (stack_entries stack.new) }
{
    match value {
        Value::List(items) => {
            if !items.is_empty() {
                stack.push(ValueEntry::Items(items.as_slice(), true));
            }
        }
        Value::Object(fields) => {
            if !fields.is_empty() {
                stack.push(ValueEntry::Fields(fields.as_slice(), true));
            }
        }
        Value::Null
        | Value::Enum(_)
        | Value::Variable(_)
        | Value::String(_)
        | Value::Float(_)
        | Value::Int(_)
        | Value::Boolean(_) => {}
    }
}

/// Writes a value up to what is in it, and puts that on the stack: all of a value without items or fields, of any
/// other the bracket.
#[inline(always)]
fn write_opening<'a, O: Target>(
    out: &mut O,
    here: &mut Place<'_>,
    stack: &mut Stack<ValueEntry<'a>>,
    value: &'a Value,
)
    requires fits { Fits here.old.level (opened_level (value_tree value.now)) }
    requires room { need_with (value_tree value.now) (stack_entries stack.old)
        ≤ stack_room stack.old }
    ensures prefix { here.new.prefix ≡ here.old.prefix }
    ensures room { stack_room stack.old ≤ stack_room stack.new }
    ensures opened { OpensValue O.wrote out.old out.new
        (mode_of here.old.prefix) here.old.level here.new.level
        (value_tree value.now) (stack_entries stack.old) (stack_entries stack.new) }
{
    match opening_bracket(value) {
        Some(bracket) => {
            write_words(out, bracket);
            here.level += 1;
        }
        None => write_leaf(out, here, value),
    }
    put_inner(stack, value);
}

/// Writes the end of a list or an object that isn't empty.
#[inline(always)]
fn write_closing<O: Target>(out: &mut O, here: &mut Place<'_>, bracket: &str)
    requires { 0 < here.old.level }
    ensures prefix { here.new.prefix ≡ here.old.prefix }
    ensures level { here.new.level + 1 ≡ here.old.level }
    ensures written { (items : List Item) → fixed_text items ≡ Some bracket.now →
        WritesToLevel O.wrote out.old out.new (mode_of here.old.prefix) here.old.level
        (last_comma (breaks here.old) ++ (Lower ∷ Tight ∷ items)) here.new.level }
{
    here.level -= 1;
    write_comma_end(out, here);
    write_words(out, bracket);
}

/// Writes the next item of a list up to what is in it, and puts that and the rest on the stack; or the end of the list.
#[inline(always)]
fn write_next_item<'a, O: Target>(
    out: &mut O,
    here: &mut Place<'_>,
    stack: &mut Stack<ValueEntry<'a>>,
    lead: Option<ReadyCommaBreak>,
    items: &'a [Node<Value>],
    is_first: bool,
)
    requires lead { IsCommaLead (mode_of here.old.prefix) here.old.level lead }
    requires goes_on { CanGoOn here.old.level (stack_room stack.old) (stack_entries stack.old)
        (ValueEntry.Items items is_first) }
    ensures prefix { here.new.prefix ≡ here.old.prefix }
    ensures room { stack_room stack.old ≤ stack_room stack.new }
    ensures written { GoesOn O.wrote out.old out.new
        (mode_of here.old.prefix) here.old.level here.new.level
        (ValueEntry.Items items.entry is_first) (stack_entries stack.old)
        (stack_entries stack.new) }
{
    match items.split_first() {
        Some((item, rest)) => {
            write_comma_lead(out, here, lead, is_first);
            stack.push(ValueEntry::Items(rest, false));
            write_opening(out, here, stack, item);
        }
        None => write_closing(out, here, "]"),
    }
}

/// Writes what is left of a list: its items up to the next one with items of its own, or to the end. What is left
/// then is put on the stack.
#[inline(always)]
fn write_items<'a, O: Target>(
    out: &mut O,
    here: &mut Place<'_>,
    stack: &mut Stack<ValueEntry<'a>>,
    items: &'a [Node<Value>],
    is_first: bool,
)
    requires { CanGoOn here.old.level (stack_room stack.old) (stack_entries stack.old)
        (ValueEntry.Items items is_first) }
    ensures prefix { here.new.prefix ≡ here.old.prefix }
    ensures room { stack_room stack.old ≤ stack_room stack.new }
    ensures written { GoesOn O.wrote out.old out.new
        (mode_of here.old.prefix) here.old.level here.new.level
        (ValueEntry.Items items.entry is_first) (stack_entries stack.old)
        (stack_entries stack.new) }
{
    let lead = ready_comma_lead(here);
    let mut rest = items;
    let mut first = is_first;
    while let Some((item, more)) = rest.split_first() {
        if opening_bracket(item).is_some() || out.is_stopped() {
            break;
        }
        write_comma_lead(out, here, lead, first);
        write_leaf(out, here, item);
        rest = more;
        first = false;
    }
    write_next_item(out, here, stack, lead, rest, first);
}

/// Writes the next field of an object up to what is in it, and puts that and the rest on the stack; or the end of the
/// object.
#[inline(always)]
fn write_next_field<'a, O: Target>(
    out: &mut O,
    here: &mut Place<'_>,
    stack: &mut Stack<ValueEntry<'a>>,
    lead: Option<ReadyCommaBreak>,
    fields: &'a [(Name, Node<Value>)],
    is_first: bool,
)
    requires lead { IsCommaLead (mode_of here.old.prefix) here.old.level lead }
    requires goes_on { CanGoOn here.old.level (stack_room stack.old) (stack_entries stack.old)
        (ValueEntry.Fields fields is_first) }
    ensures prefix { here.new.prefix ≡ here.old.prefix }
    ensures room { stack_room stack.old ≤ stack_room stack.new }
    ensures written { GoesOn O.wrote out.old out.new
        (mode_of here.old.prefix) here.old.level here.new.level
        (ValueEntry.Fields fields.entry is_first) (stack_entries stack.old)
        (stack_entries stack.new) }
{
    match fields.split_first() {
        Some((field, rest)) => {
            write_comma_lead(out, here, lead, is_first);
            write_name_then(out, &field.0, ": ");
            stack.push(ValueEntry::Fields(rest, false));
            write_opening(out, here, stack, &field.1);
        }
        None => write_closing(out, here, "}"),
    }
}

/// Writes the next field of an object, if it is the object's first, and its value has no items or fields of its own. What
/// is left then, unless that begins with the first. So the loop over the others need not ask whether a comma leads to one.
#[inline(always)]
fn write_first_field<'a, O: Target>(
    out: &mut O,
    here: &Place<'_>,
    fields: &'a [(Name, Node<Value>)],
    is_first: bool,
) -> Option<&'a [(Name, Node<Value>)]>
    ensures nesting { IfSome result (λ rest. entry_nesting (ValueEntry.Fields rest false)
        ≤ entry_nesting (ValueEntry.Fields fields.entry is_first)) }
    ensures written { IfSome result (λ rest.
        WritesBeginning O.wrote out.old out.new (mode_of here.now.prefix) here.now.level
        (entry_items (breaks here.now) (ValueEntry.Fields fields.entry is_first)) here.now.level
        (entry_items (breaks here.now) (ValueEntry.Fields rest false))) }
    ensures untouched { IsNone result → out.new ≡ out.old }
{
    if !is_first {
        return Some(fields);
    }
    match fields.split_first() {
        Some((field, rest)) if opening_bracket(&field.1).is_none() => {
            write_comma_lead(out, here, None, is_first);
            write_name_then(out, &field.0, ": ");
            write_leaf(out, here, &field.1);
            Some(rest)
        }
        _ => None,
    }
}

/// Writes fields of an object behind its first one, up to the next one whose value has items or fields of its own, or to
/// the end. What is left then.
#[inline(always)]
fn write_further_fields<'a, O: Target>(
    out: &mut O,
    here: &Place<'_>,
    lead: Option<ReadyCommaBreak>,
    fields: &'a [(Name, Node<Value>)],
) -> &'a [(Name, Node<Value>)]
    requires { IsCommaLead (mode_of here.now.prefix) here.now.level lead }
    ensures nesting { entry_nesting (ValueEntry.Fields result false)
        ≤ entry_nesting (ValueEntry.Fields fields.entry false) }
    ensures written { WritesBeginning O.wrote out.old out.new
        (mode_of here.now.prefix) here.now.level
        (entry_items (breaks here.now) (ValueEntry.Fields fields.entry false)) here.now.level
        (entry_items (breaks here.now) (ValueEntry.Fields result false)) }
{
    let mut rest = fields;
    while let Some((field, more)) = rest.split_first() {
        if opening_bracket(&field.1).is_some() || out.is_stopped() {
            break;
        }
        write_comma_lead(out, here, lead, false);
        write_name_then(out, &field.0, ": ");
        write_leaf(out, here, &field.1);
        rest = more;
    }
    rest
}

/// Writes fields of an object, up to the next one whose value has items or fields of its own, or to the end. What is left
/// then, and whether that begins with the object's first.
#[inline(always)]
fn write_leaf_fields<'a, O: Target>(
    out: &mut O,
    here: &Place<'_>,
    lead: Option<ReadyCommaBreak>,
    fields: &'a [(Name, Node<Value>)],
    is_first: bool,
) -> (&'a [(Name, Node<Value>)], bool)
    requires { IsCommaLead (mode_of here.now.prefix) here.now.level lead }
    ensures nesting { entry_nesting (ValueEntry.Fields result.0 result.1)
        ≤ entry_nesting (ValueEntry.Fields fields.entry is_first) }
    ensures written { WritesBeginning O.wrote out.old out.new
        (mode_of here.now.prefix) here.now.level
        (entry_items (breaks here.now) (ValueEntry.Fields fields.entry is_first)) here.now.level
        (entry_items (breaks here.now) (ValueEntry.Fields result.0 result.1)) }
{
    match write_first_field(out, here, fields, is_first) {
        Some(rest) => (write_further_fields(out, here, lead, rest), false),
        None => (fields, is_first),
    }
}

/// Writes what is left of an object: its fields up to the next one whose value has items of its own, or to the end.
/// What is left then is put on the stack.
#[inline(always)]
fn write_fields<'a, O: Target>(
    out: &mut O,
    here: &mut Place<'_>,
    stack: &mut Stack<ValueEntry<'a>>,
    fields: &'a [(Name, Node<Value>)],
    is_first: bool,
)
    requires { CanGoOn here.old.level (stack_room stack.old) (stack_entries stack.old)
        (ValueEntry.Fields fields is_first) }
    ensures prefix { here.new.prefix ≡ here.old.prefix }
    ensures room { stack_room stack.old ≤ stack_room stack.new }
    ensures written { GoesOn O.wrote out.old out.new
        (mode_of here.old.prefix) here.old.level here.new.level
        (ValueEntry.Fields fields.entry is_first) (stack_entries stack.old)
        (stack_entries stack.new) }
{
    let lead = ready_comma_lead(here);
    let (rest, first) = write_leaf_fields(out, here, lead, fields, is_first);
    write_next_field(out, here, stack, lead, rest, first);
}

/// Writes what is left of a list or an object, up to the next value in it that has items or fields of its own, or to
/// the end. What is left then is put on the stack.
#[inline(always)]
fn write_entry<'a, O: Target>(
    out: &mut O,
    here: &mut Place<'_>,
    stack: &mut Stack<ValueEntry<'a>>,
    entry: ValueEntry<'a>,
)
    requires { CanGoOn here.old.level (stack_room stack.old) (stack_entries stack.old)
        entry }
    ensures prefix { here.new.prefix ≡ here.old.prefix }
    ensures room { stack_room stack.old ≤ stack_room stack.new }
    ensures written { GoesOn O.wrote out.old out.new
        (mode_of here.old.prefix) here.old.level here.new.level
        entry.entry (stack_entries stack.old) (stack_entries stack.new) }
{
    match entry {
        ValueEntry::Items(items, is_first) => write_items(out, here, stack, items, is_first),
        ValueEntry::Fields(fields, is_first) => write_fields(out, here, stack, fields, is_first),
    }
}

/// Writes a value behind what stands before it. Most have no items or fields, and for those no stack is gone through.
#[inline(always)]
pub(crate) fn write_value<'a, O: Target>(
    out: &mut O,
    place: &Place<'_>,
    stack: &mut Stack<ValueEntry<'a>>,
    value: &'a Value,
)
    requires { CanWrite place.now stack.old (value_nesting (value_tree value.now)) }
    ensures kept { IsKept stack.old stack.new }
    ensures written { Writes O.wrote out.old out.new place.now
        (value_shape (breaks place.now) (value_tree value.now)) }
{
    if opening_bracket(value).is_some() {
        value.write_at(out, place, stack);
    } else {
        write_leaf(out, place, value);
    }
}

impl Value {
    /// The value in the default layout, for `print_to`, `to_text` or another layout.
    pub fn serialize(&self) -> Serialize<'_, Value>
        ensures { IsDefaultPrint self.now result }
    {
        Serialize::new(self)
    }

    /// The first enum value in it that is `true`, `false` or `null`. Variables are allowed.
    pub fn find_ill_formed(&self) -> Option<IllFormed<'_>>
        ensures { IsFirstFlaw (value_kind.flaws (value_tree self.now)) result }
    {
        find_ill_formed_value(self, Constness::NonConst)
    }

    /// Whether no enum value in it is `true`, `false` or `null`. Variables are allowed.
    pub fn is_well_formed(&self) -> bool
        ensures { result ≡ value_kind.obeys (value_tree self.now) }
    {
        is_value_well_formed(self, Constness::NonConst)
    }

    /// The allocator of a list or an object.
    fn allocator(&self) -> Option<Global>
        ensures { IsNone result → value_nesting (value_tree self.now) ≡ 0 }
    {
        match self {
            Value::List(items) => Some(*items.allocator()),
            Value::Object(fields) => Some(*fields.allocator()),
            Value::Null
            | Value::Enum(_)
            | Value::Variable(_)
            | Value::String(_)
            | Value::Float(_)
            | Value::Int(_)
            | Value::Boolean(_) => None,
        }
    }
}

impl SyntaxTree for Value {
    ghost kind = { value_kind };

    ghost tree = { value_tree };

    ghost laws = { value_laws };

    ghost list_depth = { no_types };

    fn find_ill_formed(&self) -> Option<IllFormed<'_>> {
        Value::find_ill_formed(self)
    }

    fn is_well_formed(&self) -> bool {
        Value::is_well_formed(self)
    }

    fn find_depths(&self) -> Option<Depths> {
        Some(Depths::without_types(find_value_nesting(self)?))
    }
}

impl Syntax for Value {
    fn write<O: Target>(&self, out: &mut O, start: &Start<'_>) -> Result<(), AllocError> {
        write_whole(self, out, start)
    }
}

impl<'t> Written<'t, Stack<ValueEntry<'t>>> for Value {
    fn reserve(&'t self, depths: Depths) -> Result<Stack<ValueEntry<'t>>, AllocError> {
        Stack::reserve(self.allocator(), depths.nesting)
    }

    fn write_at<O: Target>(
        &'t self,
        out: &mut O,
        place: &Place<'_>,
        stack: &mut Stack<ValueEntry<'t>>,
    ) {
        let mut here = *place;
        write_opening(out, &mut here, stack, self);
        while let Some(entry) = stack.pop() {
            if out.is_stopped() {
                return stack.clear();
            }
            write_entry(out, &mut here, stack, entry);
        }
    }
}

impl fmt::Display for Value {
    ghost output = { λ value. Some (default_bytes value_kind (value_tree value)) };

    fn fmt<W: fmt::Write>(&self, f: &mut fmt::Formatter<W>) -> fmt::Result {
        self.serialize().fmt(f)
    }
}
