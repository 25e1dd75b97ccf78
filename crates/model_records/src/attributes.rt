// Attributes and their types, by value.
ghost use Rattle.std.specs.Prelude.{◌≤◌};

// A component, and at most three of them, as a coordinate or a line has: by value, in fixed memory.
#[derive(Clone, Copy)]
pub struct Component {
    pub decimals: u8,
    pub least: i64,
    pub greatest: i64,
}

#[derive(Clone, Copy)]
pub struct Components {
    pub count: usize,
    pub items: [Component; 3],
    ghost counted: { count ≤ 3 },
}

// "Types", each with what its parameters say: a reference's table, the components, a text's longest length, an
// enumeration's count of leaves, a line's forms.
#[derive(Clone, Copy)]
pub enum Kind {
    Reference(usize),
    Coordinate(Components),
    Number(Component),
    Text(usize),
    Date,
    Enumeration(usize),
    Line(usize, Components),
}

#[derive(Clone, Copy)]
pub struct Attribute {
    pub optional: bool,
    pub kind: Kind,
}

// A line attribute, with its forms and components.
#[derive(Clone, Copy)]
pub struct LineAttribute {
    pub optional: bool,
    pub forms: usize,
    pub components: Components,
}
