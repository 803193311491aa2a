//! What the digest of `agree` binds, and what it means that a late publish is harmless.

ghost use Rattle.party_judge.specs.Harmless.{HarmlessIsUseless, OnlyPublishesAreHarmless};
ghost use Rattle.party_judge.specs.Laws.{OneDigestOneAgreement};

/// One digest is that of one agreement: of the same names, deal and context.
pub fn one_digest_one_agreement()
    ensures { OneDigestOneAgreement }
{}

/// A late publish is harmless exactly where a publish that lands at its due height is no longer
/// useful, by the definition that `party next` answers. Nothing else is harmless.
pub fn harmless_is_useless()
    ensures weighed { HarmlessIsUseless }
    ensures publishes { OnlyPublishesAreHarmless }
{}
