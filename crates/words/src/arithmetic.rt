ghost use Rattle.words.specs.Arithmetic as spec;
ghost use Rattle.std.specs.Prelude.{◌≡◌};

// Operator joins two words.
#[derive(Clone, Copy, PartialEq, Eq, Debug)]
pub enum Operator {
    Add,
    Subtract,
    Multiply,
    Divide,
    Remainder,
}

// Relation compares two words.
#[derive(Clone, Copy, PartialEq, Eq, Debug)]
pub enum Relation {
    Equal,
    NotEqual,
    Less,
    LessOrEqual,
    Greater,
    GreaterOrEqual,
}

impl Operator {
    // compute gives the result, or None where the divisor is 0.
    pub fn compute(self, a: i32, b: i32) -> Option<i32>
        ensures { result ≡ spec.compute self a b }
    {
        match self {
            Operator::Add => Some(a.wrapping_add(b)),
            Operator::Subtract => Some(a.wrapping_sub(b)),
            Operator::Multiply => Some(a.wrapping_mul(b)),
            Operator::Divide => (b != 0).then(|| a.wrapping_div(b)),
            Operator::Remainder => (b != 0).then(|| a.wrapping_rem(b)),
        }
    }
}

// negation wraps around: that of the least word is itself.
pub fn negation(a: i32) -> i32
    ensures { result ≡ spec.negation a }
{
    a.wrapping_neg()
}

impl Relation {
    // holds tells whether the relation holds between a and b.
    pub fn holds(self, a: i32, b: i32) -> bool
        ensures { result ≡ spec.holds self a b }
    {
        match self {
            Relation::Equal => a == b,
            Relation::NotEqual => a != b,
            Relation::Less => a < b,
            Relation::LessOrEqual => a <= b,
            Relation::Greater => a > b,
            Relation::GreaterOrEqual => a >= b,
        }
    }
}
