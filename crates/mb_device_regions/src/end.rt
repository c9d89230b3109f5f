//! Why a secret was not put.

ghost use Rattle.std.specs.Prelude.{◌≡◌};

use mb_model::NoMemory;

/// Why a secret was not put into a region.
pub(crate) enum NotPut {
    /// The region holds as many secrets as it can, all with other names.
    Full,
    /// An allocation failed.
    NoMemory,
}

impl From<NoMemory> for NotPut {
    ghost use Rattle.mb_device_regions.specs.declared.end.NotPut.TheVariants.{NoMemory};

    ghost from_gives = { λ _ e. e ≡ NoMemory };

    fn from(_error: NoMemory) -> NotPut {
        NotPut::NoMemory
    }
}
