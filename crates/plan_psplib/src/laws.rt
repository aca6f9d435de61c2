//! Laws of project files: what an error says of a text by itself.

ghost use Rattle.plan_psplib.specs.Causes.{ErrorsShow, ReadTextsAreRight};

/// The first check that a text fails shows what its error says by itself, in whatever order the
/// checks are made. Nothing of this is true of a text that is read.
pub fn errors_show()
    ensures shows { ErrorsShow }
    ensures read { ReadTextsAreRight }
{}
