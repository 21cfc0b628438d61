//! What conditions ask, by the numbers of features.

ghost use Rattle.std.specs.Prelude.{◌≡◌, false, get_or};

/// What an `if-feature` asks, with the features that it names by the numbers of their statements (RFC 7950, 7.20.2).
#[derive(Debug, Drop)]
pub enum Condition {
    /// The feature of a number is on; where there is none, it doesn't hold.
    On(Option<u32>),
    /// A condition doesn't hold.
    Not(Box<Condition>),
    /// Both of two conditions hold.
    Both(Box<Condition>, Box<Condition>),
    /// One of two conditions holds, or both do.
    OneOf(Box<Condition>, Box<Condition>),
}

/// Whether a table has the statement of a number as one that is on.
pub(crate) fn is_on(on: &[bool], number: usize) -> bool
    ensures { result ≡ get_or on.now number false }
{
    on.get(number).copied().unwrap_or(false)
}

impl Condition {
    ghost use Rattle.std.specs.Prelude.{◌≡◌};
    ghost use Rattle.ylink_standing.specs.ConditionView.{asks, is_in};

    /// Whether it holds, where a table says by their numbers which features are on (RFC 7950, 7.20.2).
    pub fn holds(&self, on: &[bool]) -> bool
        ensures { result ≡ asks (is_in on.now) self.now }
    {
        match self {
            Condition::On(Some(number)) => is_on(on, *number as usize),
            Condition::On(None) => false,
            Condition::Not(inner) => !inner.holds(on),
            Condition::Both(first, second) => first.holds(on) && second.holds(on),
            Condition::OneOf(first, second) => first.holds(on) || second.holds(on),
        }
    }
}
