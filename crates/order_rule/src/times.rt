//! How often something happens.

ghost use Rattle.std.specs.Prelude.{◌≡◌};
ghost use Rattle.order_rule.specs.Writing.{sum, once_if};

/// How often something happens.
#[derive(Clone, Copy, Debug, PartialEq, Eq)]
pub enum Times {
    Never,
    Once,
    /// More than once.
    Often,
}

/// Both together.
pub fn sum(s: Times, t: Times) -> Times
    ensures { result ≡ sum s t }
{
    match (s, t) {
        (Times::Never, t) => t,
        (Times::Once, Times::Never) => Times::Once,
        (Times::Once, Times::Once) | (Times::Once, Times::Often) => Times::Often,
        (Times::Often, _) => Times::Often,
    }
}

pub fn once_if(test: bool) -> Times
    ensures { result ≡ once_if test }
{
    if test { Times::Once } else { Times::Never }
}
