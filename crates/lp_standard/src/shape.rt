// The types of the fixed constants.
ghost use Rattle.std.specs.Prelude.{◌≡◌};
ghost use Rattle.lp_standard.specs.Schemes.{part_variables, shape_variables};

/// A part of the type of a fixed constant. `A` is its one type variable, of number 0.
#[derive(Clone, Copy, Debug, PartialEq, Eq)]
pub enum Part {
    /// `o`.
    Proposition,
    /// `int`.
    Integer,
    /// `string`.
    String,
    /// `A`.
    Any,
    /// `list A`.
    ListOfAny,
    /// `A -> o`.
    Predicate,
}

/// The type of a fixed constant.
#[derive(Clone, Copy, Debug, PartialEq, Eq)]
pub enum Shape {
    Value(Part),
    /// From the first part to the second.
    Function(Part, Part),
    /// From the first part and the second to the third.
    Operation(Part, Part, Part),
}

impl Part {
    // How many type variables the part has.
    fn type_vars(self) -> u8
        ensures { result ≡ part_variables self }
    {
        match self {
            Part::Proposition | Part::Integer | Part::String => 0,
            Part::Any | Part::ListOfAny | Part::Predicate => 1,
        }
    }
}

impl Shape {
    /// How many type variables the type has.
    pub fn type_vars(self) -> u8
        ensures { result ≡ shape_variables self }
    {
        match self {
            Shape::Value(first) => first.type_vars(),
            Shape::Function(first, _) => first.type_vars(),
            Shape::Operation(first, _, _) => first.type_vars(),
        }
    }
}
