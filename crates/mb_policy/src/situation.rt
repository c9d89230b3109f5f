//! One configuration of a report.

ghost use Rattle.std.specs.Prelude.{◌≡◌, MatchOption, None, Some};
ghost use Rattle.mb_model.specs.owners.Layers.{is_same_trust, trust_for};
ghost use Rattle.mb_policy.specs.Judging.{listed_layer, holds};
ghost use Rattle.mb_policy.specs.Policies.{version_between, trust_is, reliable_at, number_between};
ghost use Rattle.mb_policy.specs.Policies.{comes_first, comes_last, kind_is, has_statement, has_call};
ghost use Rattle.mb_policy.specs.Tables.{situation_meant};

use mb_model::{Configuration, KeyKind, Layer, Report, Said, Trust};

/// A configuration of a report, with its index in the report's list.
#[derive(Clone, Copy)]
pub struct Situation<'a> {
    pub report: &'a Report,
    pub index: usize,
    pub configuration: &'a Configuration,
}

impl<'a> Situation<'a> {
    /// The layer with this number, if the configuration lists it.
    pub(crate) fn listed_layer(&self, layer: u8) -> Option<&Layer>
        ensures { MatchOption result
            (listed_layer self.now.configuration.now layer ≡ None)
            (λ listed. listed_layer self.now.configuration.now layer ≡ Some listed.now) }
    {
        if layer > self.configuration.upto {
            return None;
        }
        match layer {
            1 => Some(&self.configuration.layers.one),
            2 => Some(&self.configuration.layers.two),
            3 => Some(&self.configuration.layers.three),
            _ => None,
        }
    }

    /// Whether the layer is listed with code of one of these versions.
    pub(crate) fn has_version(&self, layer: u8, least: u32, most: u32) -> bool
        ensures { result ≡ holds (version_between layer least most) (situation_meant self.now) }
    {
        match self.listed_layer(layer) {
            Some(listed) => match listed.code {
                Some(code) => least <= code.version && code.version <= most,
                None => false,
            },
            None => false,
        }
    }

    /// Whether the layer is listed, and this is its trust in changes of the lower layer.
    pub(crate) fn has_trust(&self, layer: u8, lower: u8, trust: Trust) -> bool
        ensures { result ≡ holds (trust_is layer lower trust) (situation_meant self.now) }
    {
        match self.listed_layer(layer) {
            Some(listed) => is_same_trust(trust_for(listed, lower), trust),
            None => false,
        }
    }

    /// Whether the layer is listed and reliable.
    pub(crate) fn is_reliable(&self, layer: u8) -> bool
        ensures { result ≡ holds (reliable_at layer) (situation_meant self.now) }
    {
        match self.listed_layer(layer) {
            Some(listed) => listed.reliable,
            None => false,
        }
    }

    /// Whether the configuration has one of these numbers.
    pub(crate) fn has_number(&self, least: u32, most: u32) -> bool
        ensures { result ≡ holds (number_between least most) (situation_meant self.now) }
    {
        least <= self.configuration.number && self.configuration.number <= most
    }

    /// Whether the configuration is the first of the report.
    pub(crate) fn is_first(&self) -> bool
        ensures { result ≡ holds comes_first (situation_meant self.now) }
    {
        self.index == 0
    }

    /// Whether the configuration is the last of the report.
    pub(crate) fn is_last(&self) -> bool
        ensures { result ≡ holds comes_last (situation_meant self.now) }
    {
        let count = self.report.lives.as_slice().len();
        count > 0 && self.index == count - 1
    }

    /// Whether the key is of this kind.
    pub(crate) fn is_of_kind(&self, kind: KeyKind) -> bool
        ensures { result ≡ holds (kind_is kind) (situation_meant self.now) }
    {
        match (self.report.kind, kind) {
            (KeyKind::Epoch, KeyKind::Epoch) => true,
            (KeyKind::Configuration, KeyKind::Configuration) => true,
            _ => false,
        }
    }

    /// Whether the chain has a statement, a message or the answer of a call.
    pub(crate) fn has_statement(&self) -> bool
        ensures { result ≡ holds has_statement (situation_meant self.now) }
    {
        self.report.said.is_some()
    }

    /// Whether the chain has the statement of a call.
    pub(crate) fn has_call(&self) -> bool
        ensures { result ≡ holds has_call (situation_meant self.now) }
    {
        match &self.report.said {
            Some(Said::Answer { .. }) => true,
            Some(Said::Message(_)) | None => false,
        }
    }
}

/// The trust of a layer in changes of a lower one.
fn trust_for(layer: &Layer, lower: u8) -> Trust
    ensures { result ≡ trust_for layer.now lower }
{
    if lower == 1 {
        layer.trust.one
    } else {
        layer.trust.two
    }
}

/// Whether two trusts are the same.
fn is_same_trust(one: Trust, other: Trust) -> bool
    ensures { result ≡ is_same_trust one other }
{
    match (one, other) {
        (Trust::Always, Trust::Always) => true,
        (Trust::Never, Trust::Never) => true,
        (Trust::Countersigned, Trust::Countersigned) => true,
        _ => false,
    }
}
