//! Laws of several chains.

ghost use Rattle.mb_model_histories.specs.AgreementLaws.{HonestChainsAgree, OwnChainsAreHonest, ReplayedImagesPart, HonestChainsTellOfOneDevice, NothingIsOfNoDevice, HonestAmongOneIsHonest, LivesBeginWith, UnruledLivesMayNot, ShortenedChainsListLess};

/// Of two chains of one device without forged entries, one is a prefix of the other; each prefix of its log is such a
/// chain. Of two devices that were made from one image they may part.
pub fn honest_chains_agree()
    ensures agree { HonestChainsAgree }
    ensures own { OwnChainsAreHonest }
    ensures part { ReplayedImagesPart }
{}

/// Of all devices that a maker made, a chain without forged entries is a prefix of the log of one, and names its
/// serial.
pub fn honest_chains_tell_of_one_device()
    ensures one { HonestChainsTellOfOneDevice }
    ensures empty { NothingIsOfNoDevice }
    ensures alone { HonestAmongOneIsHonest }
{}

/// The listing of a longer log begins with that of a shorter one, if the entries obey the rules: who shortens a chain
/// has the first of its configurations listed, and no other.
pub fn longer_chains_list_more()
    ensures lives { LivesBeginWith }
    ensures unruled { UnruledLivesMayNot }
    ensures chains { ShortenedChainsListLess }
{}
