//! JSON of many trees that have flaws: of parts in the notation of the samples, and with marks on the nodes.
use crate::ill_formed_samples::{NOTATION, PARTS};
use std::alloc::{AllocError, Global};

/// Definitions with a place for selections, `$`: alone, behind others, in others, and before one with a flaw.
pub(crate) const AROUND_SELECTIONS: [&str; 6] = [
    "(OperationDefinition;'operation':'query',{$})",
    "(OperationDefinition;'operation':'mutation','name':<m>,{(Field;'name':<f>,'selectionSet':null),$})",
    "(FragmentDefinition;'name':<f>,'typeCondition':(NamedType;'name':<T>),'directives':null,{$,(FragmentSpread;'name':<h>)})",
    "(OperationDefinition;'operation':'query',{(Field;'name':<f>,'arguments':[],{(Field;'name':<g>),$})})",
    "(FragmentDefinition;'name':<f>,'typeCondition':(NamedType;'name':<T>),\
     {(InlineFragment;{(Field;'name':<f>,{(InlineFragment;'typeCondition':(NamedType;'name':<T>),{(Field;'name':<g>),$})})})})",
    "(OperationDefinition;'operation':'query',{(InlineFragment;{$}),(InlineFragment;{})})",
];

/// Selections with a flaw, or with one in the value.
pub(crate) const SELECTIONS: [&str; 10] = [
    "(InlineFragment;{})",
    "(InlineFragment;'typeCondition':(NamedType;'name':<T>),'directives':[],{})",
    "(FragmentSpread;'name':<on>)",
    "(FragmentSpread;'name':<on>,@)",
    "(FragmentSpread;'name':<g>,@)",
    "(Field;'name':<f>,'arguments':[(Argument;'name':<a>,'value':#)],'selectionSet':null)",
    "(Field;'alias':<on>,'name':<true>,@,{})",
    "(Field;'name':<f>,*,{(Field;'name':<g>,'arguments':[(Argument;'name':<a>,'value':#)],@)})",
    "(InlineFragment;@,{(Field;'name':<f>)})",
    "(InlineFragment;*,{(InlineFragment;{})})",
];

/// Places for definitions, `$`: alone, behind others, before others, and before one with a flaw.
pub(crate) const AROUND_DEFINITIONS: [&str; 4] = [
    "$",
    "(ScalarTypeDefinition;'name':<A>),(OperationDefinition;'operation':'query',*,{(Field;'name':<f>,*)}),$",
    "$,(FragmentDefinition;'name':<onto>,'typeCondition':(NamedType;'name':<T>),{(Field;'name':<f>)})",
    "$,(ScalarTypeExtension;'name':<A>),(SchemaDefinition;'operationTypes':[])",
];

/// Definitions with a flaw, or with one in the value.
pub(crate) const DEFINITIONS: [&str; 32] = [
    "(OperationDefinition;'operation':'query',{})",
    "(OperationDefinition;'operation':'query','name':<q>,'variableDefinitions':[],'directives':[],{})",
    "(OperationDefinition;'operation':'query',@,\
     'variableDefinitions':[(VariableDefinition;'variable':(Variable;'name':<x>),%,*,'defaultValue':#)],{(Field;'name':<f>)})",
    "(FragmentDefinition;'name':<f>,'typeCondition':(NamedType;'name':<T>),{})",
    "(FragmentDefinition;'name':<on>,'typeCondition':(NamedType;'name':<T>),{(Field;'name':<f>)})",
    "(FragmentDefinition;'name':<on>,'typeCondition':(NamedType;'name':<on>),@,{})",
    "(EnumTypeDefinition;'name':<A>,'values':[(EnumValueDefinition;'name':<true>)])",
    "(EnumTypeDefinition;'name':<A>,@,'values':[(EnumValueDefinition;'name':<B>),(EnumValueDefinition;'name':<false>)])",
    "(EnumTypeExtension;'name':<A>,'values':[(EnumValueDefinition;'name':<B>,'directives':null),(EnumValueDefinition;'name':<null>,@)])",
    "(EnumTypeExtension;'name':<A>,'values':[(EnumValueDefinition;'name':<B>,@),(EnumValueDefinition;'name':<null>)])",
    "(DirectiveDefinition;'name':<d>,'locations':[])",
    "(DirectiveDefinition;'name':<d>,'arguments':[(InputValueDefinition;'name':<a>,%,'defaultValue':#)],'locations':[])",
    "(DirectiveDefinition;'name':<d>,'arguments':[(InputValueDefinition;'name':<a>,%,@)],'locations':[<FIELD>])",
    "(SchemaDefinition;'operationTypes':[])",
    "(SchemaDefinition;'directives':null,'operationTypes':[])",
    "(SchemaDefinition;'directives':[(Directive;'name':<d>)],'operationTypes':[])",
    "(SchemaDefinition;@,'operationTypes':[])",
    "(SchemaExtension;'operationTypes':[])",
    "(SchemaExtension;'directives':null,'operationTypes':null)",
    "(ScalarTypeExtension;'name':<A>)",
    "(ScalarTypeExtension;'name':<A>,'directives':[])",
    "(ObjectTypeExtension;'name':<A>)",
    "(ObjectTypeExtension;'name':<A>,'fields':[(FieldDefinition;'name':<f>,%,'arguments':[],@),(FieldDefinition;'name':<g>,%,@)])",
    "(InterfaceTypeExtension;'name':<A>,'interfaces':[],'directives':null,'fields':[])",
    "(InterfaceTypeExtension;'name':<A>,'interfaces':[(NamedType;'name':<T>)],\
     'fields':[(FieldDefinition;'name':<f>,%,'arguments':[(InputValueDefinition;'name':<a>,%,'defaultValue':#,@)])])",
    "(UnionTypeExtension;'name':<A>,'types':[])",
    "(UnionTypeExtension;'name':<A>,'types':[(NamedType;'name':<T>)],@)",
    "(EnumTypeExtension;'name':<A>,'values':[],'directives':[])",
    "(InputObjectTypeExtension;'name':<A>,'fields':[])",
    "(InputObjectTypeExtension;'name':<A>,'fields':[(InputValueDefinition;'name':<f>,%),(InputValueDefinition;'name':<g>,%,'defaultValue':#)])",
    "(InputObjectTypeDefinition;'name':<A>,*,'fields':[(InputValueDefinition;'name':<g>,%,'defaultValue':#)])",
    "(ScalarTypeDefinition;'name':<A>,@)",
];

/// Values with a flaw, or with one where only constants may stand.
pub(crate) const VALUES: [&str; 8] = [
    "(EnumValue;'value':'true')",
    "(Variable;'name':<x>)",
    "(EnumValue;'value':'truer')",
    "(ListValue;'values':[(IntValue;'value':'1'),(EnumValue;'value':'false')])",
    "(ListValue;'values':[(ListValue;'values':[]),(ListValue;'values':[(NullValue;'loc':null),(Variable;'name':<x>)])])",
    "(ObjectValue;'fields':[(ObjectField;'name':<null>,'value':(StringValue;'value':'null')),\
     (ObjectField;'name':<k>,'value':(EnumValue;'value':'null'))])",
    "(ObjectValue;'fields':[(ObjectField;'name':<k>,'value':(ListValue;'values':[(ObjectValue;'fields':[]),\
     (ObjectValue;'fields':[(ObjectField;'name':<l>,'value':(Variable;'name':<x>))])]))])",
    "(ListValue;'values':[(EnumValue;'value':'null'),(Variable;'name':<true>),(EnumValue;'value':'true')])",
];

/// What the nodes have beside their members.
#[derive(Clone, Copy)]
pub(crate) struct Marks {
    /// Every so many nodes one tells where it stands.
    pub located: usize,
    /// Whether the others have a location that is null.
    pub null: bool,
    /// Whether each has a member that no node has, with a flaw in it.
    pub unknown: bool,
}

/// The marks that each tree is tried with.
pub(crate) const MARKS: [Marks; 5] = [
    Marks {
        located: 0,
        null: false,
        unknown: false,
    },
    Marks {
        located: 1,
        null: false,
        unknown: false,
    },
    Marks {
        located: 2,
        null: true,
        unknown: false,
    },
    Marks {
        located: 3,
        null: false,
        unknown: true,
    },
    Marks {
        located: 7,
        null: true,
        unknown: true,
    },
];

impl Marks {
    /// Writes what the node of this number has first.
    fn write(self, alloc: Global, number: usize, json: &mut String) -> Result<(), AllocError> {
        if self.located > 0 && number % self.located == 0 {
            let end = number.wrapping_mul(3);
            let location = format!(in alloc; "\"loc\":{{\"start\":{number},\"end\":{end}}},")?;
            json.push_str(&location)?;
        } else if self.null {
            json.push_str("\"loc\":null,")?;
        }
        if self.unknown {
            json.push_str("\"unknown\":[{\"kind\":\"EnumValue\",\"value\":\"true\"}],")?;
        }
        Ok(())
    }
}

/// A text with what stands for each of these characters.
fn replaced(alloc: Global, text: &str, table: &[(char, &str)]) -> Result<String, AllocError> {
    let mut whole = String::new(alloc);
    for character in text.chars() {
        match table.iter().find(|row| row.0 == character) {
            Some((_, long)) => whole.push_str(long)?,
            None => whole.push(character)?,
        }
    }
    Ok(whole)
}

/// The JSON of a tree in the notation, with marks on its nodes.
pub(crate) fn marked_json(alloc: Global, row: &str, marks: Marks) -> Result<String, AllocError> {
    let mut json = String::new(alloc);
    let mut number = 0usize;
    for character in row.chars() {
        if character == '(' || character == '<' {
            json.push('{')?;
            marks.write(alloc, number, &mut json)?;
            number = number.wrapping_add(1);
        }
        match character {
            '(' => json.push_str("\"kind\":\"")?,
            '<' => json.push_str("\"kind\":\"Name\",\"value\":\"")?,
            _ => match NOTATION.iter().find(|row| row.0 == character) {
                Some((_, long)) => json.push_str(long)?,
                None => json.push(character)?,
            },
        }
    }
    Ok(json)
}

/// A row with this in its place, and with this value.
pub(crate) fn filled(
    alloc: Global,
    around: &str,
    inner: &str,
    value: &str,
) -> Result<String, AllocError> {
    let whole = replaced(alloc, around, &[('$', inner)])?;
    let parts = replaced(alloc, &whole, &PARTS)?;
    replaced(alloc, &parts, &[('#', value)])
}
