//! The laws of the heights that terms tell.

ghost use Rattle.party_terms.specs.Laws.{AwakeEndsWithTheDeal, AwakeIsLongEnough, FollowersPublishBelow, FollowersPublishUpTo, LeadersAreOnTime};
ghost use Rattle.party_terms.specs.Laws.{LeadersAreTaken, OpeningsEndByThen, RefundsAreOpen, RefundsOpenNoEarlier};

/// The heights that terms tell of an arc are those of the rule book.
pub fn heights_hold()
    ensures leaders { LeadersAreOnTime }
    ensures followers { FollowersPublishBelow }
    ensures up_to { FollowersPublishUpTo }
    ensures refunds { RefundsAreOpen }
    ensures no_earlier { RefundsOpenNoEarlier }
    ensures openings { OpeningsEndByThen }
    ensures shown { LeadersAreTaken }
    ensures awake { AwakeIsLongEnough }
    ensures ends { AwakeEndsWithTheDeal }
{}
