//! Laws of owners: who decides over a layer, and who could have what is kept in it.

ghost use Rattle.mb_model_histories.specs.OwnerLaws.{OnlyOrdersChange, ObeyedOrdersAreLogged, RegionsChangeByTheirLayer, DoneIsObeyed, OrdersChangeTheirLayer, OrdersLeaveOtherCode, OwnersStay, OwnerOfLayerOneStays, OwnersCanGiveUp, SecretsKeepTheirOwner, KeysKeepTheirOwner, NobodyOwnsBeforeTheBirth, ValuesAreAdmitted, InvalidStatesReadMore};

/// Nothing but an order that is obeyed changes more of a living device than its regions. An order makes of its own
/// layer what it says, by the signature of the owner in charge; of a layer above it can only end the reliability. It
/// leaves the code of each other layer.
pub fn only_owners_decide()
    ensures only { OnlyOrdersChange }
    ensures logged { ObeyedOrdersAreLogged }
    ensures region { RegionsChangeByTheirLayer }
    ensures done { DoneIsObeyed }
    ensures layer { OrdersChangeTheirLayer }
    ensures code { OrdersLeaveOtherCode }
{}

/// An owner stays, unless it gave up its layer by an order of its own, and that of layer 1 always stays.
pub fn owners_stay()
    ensures stay { OwnersStay }
    ensures first { OwnerOfLayerOneStays }
    ensures up { OwnersCanGiveUp }
{}

/// What is in a region came when its layer had the owner that it has now, who has owned the layer ever since.
pub fn regions_keep_their_owner()
    ensures secrets { SecretsKeepTheirOwner }
    ensures keys { KeysKeepTheirOwner }
    ensures before { NobodyOwnsBeforeTheBirth }
{}

/// What a `get` answers is the value of a secret of that name, which its layer has admitted at each change since it
/// came. Every layer up to that one is then reliable, and none above it in control.
pub fn values_are_admitted()
    ensures admitted { ValuesAreAdmitted }
    ensures invalid { InvalidStatesReadMore }
{}
