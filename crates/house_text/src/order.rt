// Which parts may follow which: no two of them share a word.
ghost use Rattle.std.specs.Prelude.{codes, refl};
ghost use Rattle.std.specs.Str.{bytes_eq};
ghost use Rattle.std.proofs.Common.{⊎_elim};
ghost use Rattle.std.proofs.lemmas.Bool.{or_cases};
ghost use Rattle.house_text.specs.Words.{word_apart};
ghost use Rattle.house_text.specs.StepApart.{no_step};

use super::claims::{ClaimsText, OnlyText};
use super::expiry::{StepText, UntilText};
use super::lock::{LockText, MostText};
use parts::{Before, Both};

impl Before<LockText> for ClaimsText {
    ghost apart = { λ w h. word_apart w (codes "lock") (codes "claims") refl h };
}

impl Before<MostText> for OnlyText {
    ghost apart = { λ w h. word_apart w (codes "most") (codes "only") refl h };
}

impl Before<Both<ClaimsText, LockText>> for UntilText {
    ghost apart = { λ w h. ⊎_elim (word_apart w (codes "claims") (codes "until") refl) (word_apart w (codes "lock") (codes "until") refl) (or_cases (bytes_eq w (codes "claims")) (bytes_eq w (codes "lock")) h) };
}

impl Before<Both<OnlyText, MostText>> for StepText {
    ghost apart = { λ w h. ⊎_elim (no_step w (codes "only") refl refl refl) (no_step w (codes "most") refl refl refl) (or_cases (bytes_eq w (codes "only")) (bytes_eq w (codes "most")) h) };
}
