//! Contexts that admit variables, and const contexts, which don't.
ghost use Rattle.std.specs.Prelude.{◌≡◌};
ghost use Rattle.graphql_values.specs.trees.ValueTrees.{constness_of};
ghost use Rattle.graphql_values.specs.kinds.Values.{admits_variables};

/// Whether a value stands in a const context (`Value[Const]`, section 2.9), which admits no variable at any depth.
///
/// ```
/// let value = value!(in alloc; [$first])?;
/// let is_constant = is_value_well_formed(&value, Constness::Const); // false: a variable stands in it
/// ```
#[derive(Clone, Copy, Debug, PartialEq, Eq)]
pub enum Constness {
    /// `Value[Const]`: no variable.
    Const,
    /// `Value`: variables too.
    NonConst,
}

impl Constness {
    pub(crate) fn admits_variables(self) -> bool
        ensures { result ≡ admits_variables (constness_of self) }
    {
        match self {
            Constness::Const => false,
            Constness::NonConst => true,
        }
    }
}
