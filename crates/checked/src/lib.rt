//! Figures that are known from outside the bench, proved of its definitions.
#![tactic(auto)]

ghost use Rattle.std.specs.Prelude.{◌≡◌, length};
ghost use Rattle.checked.specs.Figures.{figures, AllHold};

/// How many figures are checked: each holds of the definitions by which the bench is proved.
pub fn checked_figures() -> usize
    ensures hold { AllHold figures }
    ensures count { result ≡ length figures }
{
    12
}
