//! How values are spelled in bytes: what a binary format is, the single fields, and how formats are composed.
//!
//! A `Format` says how each value is spelled and whether it is allowed, and at which offset bytes fail if they spell no
//! allowed value. `specs/Format.antt` says what a format is and what it means that it is clear,
//! `specs/Combinators.antt` has the fields and compositions, and `specs/Examples.antt` a format that is composed of
//! them. The functions that read formats are separate, in `specs/Reading.antt`: nobody has to believe them.
//!
//! A clause cannot speak of every type, so the general laws, one for each field and composition, stand in `proofs/`
//! alone; a crate that defines a format cites them from there. The functions here show what the laws give for plain
//! types. They do nothing when they run.
#![tactic(auto)]

ghost use Rattle.std.specs.Prelude.{ℕ, [], ◌∷◌, ◌++◌};
ghost use Rattle.std.specs.Int.{w8, w16, w32, w64};
ghost use Rattle.mb_format.specs.Format.{SpelledAt, IsClear, IsClearWhole, IsShort, FailsWhole};
ghost use Rattle.mb_format.specs.Reading.{IsLocal};
ghost use Rattle.mb_format.specs.Combinators.{number, raw};
ghost use Rattle.mb_format.specs.Examples.{sample, short_bytes, short_sample, mistagged_bytes};

/// Numbers of one, two, four and eight bytes are clear: at each offset, bytes spell one number or fail at one offset.
pub fn numbers_are_clear()
    ensures of_one_byte { IsClear (number w8) }
    ensures of_two_bytes { IsClear (number w16) }
    ensures of_four_bytes { IsClear (number w32) }
    ensures of_eight_bytes { IsClear (number w64) }
{}

/// Any number of raw bytes is clear: at each offset, bytes spell one value of that length or fail at one offset.
pub fn raw_bytes_are_clear()
    ensures { (n : ℕ) → IsClear (raw n) }
{}

/// The composed format `sample` is clear, at each offset and for bytes as a whole. A spelling has at most 345 bytes,
/// and no more than these are looked at.
pub fn the_sample_is_clear()
    ensures at_each_offset { IsClear sample }
    ensures as_a_whole { IsClearWhole sample }
    ensures short { IsShort sample 345 }
    ensures local { IsLocal sample 345 }
{}

/// `short_bytes` spell `short_sample` at offset 0 and end with it. After two other bytes, they do so at offset 2.
pub fn a_sample_is_spelled()
    ensures at_the_beginning { SpelledAt sample.spelling sample.Allowed short_bytes 0 short_sample 15 }
    ensures after_two_bytes { SpelledAt sample.spelling sample.Allowed (9 ∷ 9 ∷ short_bytes) 2 short_sample 17 }
{}

/// A tag that is in no row fails at its offset. If a length goes past the end, the bytes that it counts fail at their
/// first offset. Leftover bytes fail at the first of them.
pub fn samples_fail()
    ensures no_such_tag { sample.FailsAt mistagged_bytes 0 2 }
    ensures cut_off { sample.FailsAt (0 ∷ 7 ∷ 2 ∷ 5 ∷ 1 ∷ 2 ∷ []) 0 4 }
    ensures left_over { FailsWhole sample (short_bytes ++ 0 ∷ []) 15 }
{}
