// Expiries, claims and locks as written kinds.
use super::kind::Written;
use house::{Claims, Expiry, Lock};
use house_text::{ClaimsText, LockText, MostText, OnlyText, StepText, UntilText};

impl Written for Expiry {
    type Text = UntilText;

    type PassageText = StepText;
}

impl Written for Claims {
    type Text = ClaimsText;

    type PassageText = OnlyText;
}

impl Written for Lock {
    type Text = LockText;

    type PassageText = MostText;
}
