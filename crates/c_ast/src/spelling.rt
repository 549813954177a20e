//! The search for a spelling in a short list of choices.
ghost use Rattle.std.specs.Prelude.{◌≡◌};
ghost use Rattle.c_ast.specs.Spelling.{number_among};

/// The number beside this text, where one of the choices has it.
pub(crate) fn number_among(text: &[u8], choices: &[(&[u8], u8)]) -> Option<u8>
    ensures { result ≡ number_among text.now choices.now }
{
    for choice in choices {
        if text == choice.0 {
            return Some(choice.1);
        }
    }
    None
}
