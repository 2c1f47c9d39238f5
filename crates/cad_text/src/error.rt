// Errors of texts.
ghost use Rattle.std.specs.Prelude.{◌≡◌};
ghost use Rattle.cad_text.specs.declared.error.TextError.TheVariants.{Memory};

use std::alloc::AllocError;

/// Why a text function has no result: the places of a slice aren't in order or not in the text, the result would have
/// over 1,048,576 bytes, the text isn't an even number of hexadecimal digits, or there was no memory.
#[derive(Clone, Copy, Debug, PartialEq, Eq)]
pub enum TextError {
    Slice,
    TooLarge,
    Hex,
    Memory,
}

impl From<AllocError> for TextError {
    ghost from_gives = { λ _ e. e ≡ Memory };

    fn from(_error: AllocError) -> TextError {
        TextError::Memory
    }
}
