//! What a call tells beside its code.

ghost use Rattle.std.specs.Prelude.{◌≡◌};
ghost use Rattle.mb_library.specs.Details.{no_details, end_details};

use mb_verifier::ChainRefusal;

/// What a call tells beside its code. A field is 0 if the code is none of those that it names. Of a denial it tells the
/// configuration, and not the rule.
#[repr(C)]
#[derive(Clone, Copy)]
pub struct Details {
    /// `ACCEPTED` of a chain, and `NO_ROOM`: the length of the listing, in bytes.
    pub listing: usize,
    /// 20: the offset of the first field that lacks bytes or is not allowed, or of the first byte after the last field.
    pub offset: u32,
    /// 21, 22 and 23: the index of the entry, from 0.
    pub entry: u32,
    /// 26: the configuration number that the statement names.
    pub named: u32,
    /// 26: the configuration number at the chain's end.
    pub last: u32,
    /// `BAD_POLICY`: the number of the first line that is wrong, from 1.
    pub line: u32,
    /// `DENIED`: the number of the first configuration that the policy denies.
    pub configuration: u32,
}

impl Details {
    /// Details that tell nothing.
    pub(crate) fn none() -> Details
        ensures { result ≡ no_details }
    {
        Details {
            listing: 0,
            offset: 0,
            entry: 0,
            named: 0,
            last: 0,
            line: 0,
            configuration: 0,
        }
    }

    /// The length of a listing.
    pub(crate) fn of_listing(length: usize) -> Details
        ensures { result ≡ record no_details { listing = length } }
    {
        Details {
            listing: length,
            ..Details::none()
        }
    }

    /// The number of a line of a policy.
    pub(crate) fn of_line(line: u32) -> Details
        ensures { result ≡ record no_details { line = line } }
    {
        Details {
            line,
            ..Details::none()
        }
    }

    /// The number of a configuration.
    pub(crate) fn of_configuration(number: u32) -> Details
        ensures { result ≡ record no_details { configuration = number } }
    {
        Details {
            configuration: number,
            ..Details::none()
        }
    }

    /// The index of an entry.
    fn of_entry(entry: u32) -> Details
        ensures { result ≡ record no_details { entry = entry } }
    {
        Details {
            entry,
            ..Details::none()
        }
    }

    /// Where a chain that is not accepted is wrong.
    pub(crate) fn of_end(why: ChainRefusal) -> Details
        ensures { result ≡ end_details why }
    {
        match why {
            ChainRefusal::Form { at } => Details {
                offset: at,
                ..Details::none()
            },
            ChainRefusal::Signature { entry } => Details::of_entry(entry),
            ChainRefusal::Order { entry } => Details::of_entry(entry),
            ChainRefusal::Rules { entry } => Details::of_entry(entry),
            ChainRefusal::StatementNumber { named, last } => Details {
                named,
                last,
                ..Details::none()
            },
            ChainRefusal::KeyUnknown
            | ChainRefusal::StatementSignature
            | ChainRefusal::NotAlive
            | ChainRefusal::NoMemory => Details::none(),
        }
    }
}
