//! Laws of random bytes. The functions do nothing.
ghost use Rattle.clock_random.specs.KnownAnswers.{FirstBlock, OtherStream, SecondBlock};
ghost use Rattle.clock_random.specs.RandomLaws.{BeginsAlike, GoesOn, IsWhole};

/// Each draw has as many bytes as are asked for; a longer draw begins with a shorter one from the same place; and a draw of whole
/// words and one from the place behind it are one draw.
pub fn random_bytes_go_on()
    ensures whole { IsWhole }
    ensures alike { BeginsAlike }
    ensures goes_on { GoesOn }
{}

/// Random bytes are those that others compute.
pub fn random_bytes_are_known()
    ensures first_block { FirstBlock }
    ensures second_block { SecondBlock }
    ensures other_stream { OtherStream }
{}
