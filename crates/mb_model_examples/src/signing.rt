//! Digits and checksums of hashes (RFC 8554, sections 3.1.3 and 4.4).

ghost use Rattle.mb_model_examples.specs.SigningExamples.{DigitExamples, ChecksumExamples};

/// The digits of two bytes, and the checksums of a hash of zeros and of a hash of ones.
pub fn digit_examples()
    ensures digits { DigitExamples }
    ensures checksums { ChecksumExamples }
{}
