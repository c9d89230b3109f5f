//! Laws of the texts that are signed.

ghost use Rattle.mb_model_histories.specs.SignedTextLaws.{TextsAreApart, TextsBeginWithTheirByte, KeysAreNoTexts, SerialsHaveToBeSized, HashesHaveToBeSized, NumbersHaveToBeInRange};

/// No text is signed for two things: whoever signs an order, a countersignature, an entry of a log, a message or the
/// answer to a call signs no other of these. The first byte tells which of the five it is, and no text is a public key,
/// which the upper levels of a maker's key sign. Serials of any length would not do, nor hashes of inputs of any length,
/// nor numbers of more than 32 bits.
pub fn signed_texts_are_apart()
    ensures apart { TextsAreApart }
    ensures begin { TextsBeginWithTheirByte }
    ensures keys { KeysAreNoTexts }
    ensures sized { SerialsHaveToBeSized }
    ensures hashed { HashesHaveToBeSized }
    ensures range { NumbersHaveToBeInRange }
{}
