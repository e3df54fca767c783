//! Laws of fields and bodies. The function does nothing; its contract is the laws.
ghost use Rattle.std.specs.Prelude.{◌≡◌, ℕ, List};
ghost use Rattle.content_digest.specs.Digest.{digest_text};
ghost use Rattle.content_digest.specs.Judged.{Fits, checked};
ghost use Rattle.field_laws.specs.Digests.{IsAnsweredBy};

/// `checked` gives the one answer that is so of a field and a body, and the field that `digest_line` writes fits its body.
pub fn digest_laws()
    ensures answered { IsAnsweredBy checked }
    ensures line { (body : List ℕ) → Fits (digest_text body) body }
{}
