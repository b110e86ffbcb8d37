// Why words have no form.
use std::alloc::AllocError;
use thiserror::Error;

/// Why the words were answered with no form.
#[derive(Clone, Copy, Debug, PartialEq, Eq, Error)]
pub enum FormError {
    /// The words are no command form.
    #[error("the words are no command form")]
    Usage,
    /// There was not enough memory to tell.
    #[error("there is not enough memory")]
    NoMemory,
}

impl From<AllocError> for FormError {
    ghost use Rattle.std.specs.Prelude.{◌≡◌};
    ghost use Rattle.command_words.specs.declared.form_error.FormError.TheVariants as error;

    ghost from_gives = { λ _ e. e ≡ error.NoMemory };

    fn from(_: AllocError) -> FormError {
        FormError::NoMemory
    }
}
