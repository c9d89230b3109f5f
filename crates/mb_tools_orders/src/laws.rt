//! Laws of what `showorder` shows and of what `ordered` names.

ghost use Rattle.mb_tools_orders.specs.OrderLaws.{OrdersShownAlikeHaveOneBody, OneBodyIsOneOrder, TargetsAreShownAsDrafted, ExactlyWhatVerifiesIsNamed, DevicesFindTheOwnerInCharge};

/// Two orders that are shown alike have one body, or two bodies with one hash. Orders with one body order the same.
pub fn orders_shown_alike_are_one()
    ensures body { OrdersShownAlikeHaveOneBody }
    ensures order { OneBodyIsOneOrder }
{}

/// The line that shows a target says that target in a draft.
pub fn targets_are_shown_as_drafted()
    ensures { TargetsAreShownAsDrafted }
{}

/// Exactly the signatures that verify are named. The owner in charge is named exactly if a device finds that it has
/// signed the order.
pub fn exactly_what_verifies_is_named()
    ensures named { ExactlyWhatVerifiesIsNamed }
    ensures device { DevicesFindTheOwnerInCharge }
{}
