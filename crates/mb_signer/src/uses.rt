//! The rights to sign: each index of a key serves one signature.

ghost use Rattle.std.specs.Prelude.{◌≡◌, ◌↔◌, ◌+◌, ◌≤◌, IsNone, IfSome, OnSome};
ghost use Rattle.mb_model.specs.declared.limits.TheConstants.{KEY_USES, LAST_INDEX};

use mb_model::KEY_USES;
use std::marker::Model;

/// The number of used indices of a key, 0 to 32.
#[derive(Drop)]
pub struct Uses {
    count: u32,
}

impl Model for Uses {
    ghost use Rattle.std.specs.Prelude.{ℕ, ◌≤◌};
    ghost use Rattle.mb_model.specs.declared.limits.TheConstants.{KEY_USES};

    ghost Value = { ℕ };

    ghost view = { λ uses. uses.count };

    ghost invariant = { λ uses. uses.count ≤ KEY_USES };
}

impl Uses {
    /// The count that is stored for a key.
    pub fn stored(n: u32) -> Uses
        requires { n ≤ KEY_USES }
        ensures { result ≡ n }
    {
        Uses { count: n }
    }
}

/// The right to one signature, at an index from 0 to 31. It cannot be copied, and has to be spent.
pub struct OneUse {
    index: u32,
}

impl Model for OneUse {
    ghost use Rattle.std.specs.Prelude.{ℕ, ◌≤◌};
    ghost use Rattle.mb_model.specs.declared.limits.TheConstants.{LAST_INDEX};

    ghost Value = { ℕ };

    ghost view = { λ right. right.index };

    ghost invariant = { λ right. right.index ≤ LAST_INDEX };
}

impl OneUse {
    /// The index of the signature.
    pub fn index(&self) -> u32
        ensures value { result ≡ self.now }
        ensures bound { result ≤ LAST_INDEX }
    {
        self.index
    }

    /// Spends the right, and answers its index.
    pub(crate) fn spent(self) -> u32
        ensures value { result ≡ self }
        ensures bound { result ≤ LAST_INDEX }
    {
        let OneUse { index } = self;
        index
    }
}

/// Takes the next index for one signature; `None` exactly if all 32 are used.
pub fn take_index(uses: &mut Uses) -> Option<OneUse>
    ensures spent { IsNone result ↔ (uses.old ≡ KEY_USES) }
    ensures unchanged { IsNone result → uses.new ≡ uses.old }
    ensures index { IfSome result (λ right. right ≡ uses.old) }
    ensures counted { OnSome result (uses.new ≡ uses.old + 1) }
{
    if uses.count == KEY_USES as u32 {
        return None;
    }
    let index = uses.count;
    uses.count += 1;
    Some(OneUse { index })
}
